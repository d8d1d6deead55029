//! A packet: what a datagram contains, with the symbol's bytes still in the datagram.

use flute_parts::{Info, Key, ObjectKey, Sender, SessionKey, SymbolId};
use std::marker::Model;

/// What a datagram contains. [`read`](crate::read) makes it. The symbol's bytes are those of the
/// datagram: nothing is copied, and no call takes memory.
#[derive(Drop)]
pub struct Packet<'a> {
    pub(crate) tsi: u64,
    pub(crate) toi: u128,
    pub(crate) instance: Option<u32>,
    pub(crate) info: Option<Info>,
    pub(crate) symbol: Option<(SymbolId, &'a [u8])>,
}

impl<'a> Model for Packet<'a> {
    ghost use Rattle.std.specs.Option.{option_map};
    ghost use Rattle.flute_wire.specs.Content.{Content, HasKey};

    ghost Value = { Content };

    ghost view = { λ p. record {
      tsi = p.tsi;
      toi = p.toi;
      instance = p.instance;
      info = p.info;
      symbol = option_map (λ s. (s.0, s.1.now)) p.symbol;
    } };

    ghost invariant = { λ p. HasKey p.tsi p.toi p.instance };
}

impl<'a> Packet<'a> {
    ghost use Rattle.std.specs.Prelude.{◌≡◌};
    ghost use Rattle.std.specs.Option.{option_map};
    ghost use Rattle.flute_wire.specs.Facts.{key_of};

    /// The Transport Session Identifier, below 2^48 (RFC 5651, section 5.1).
    pub fn tsi(&self) -> u64
        ensures { result ≡ self.now.tsi }
    {
        self.tsi
    }

    /// The Transport Object Identifier, below 2^112: 0 for an FDT Instance (RFC 5651, section 5.1).
    pub fn toi(&self) -> u128
        ensures { result ≡ self.now.toi }
    {
        self.toi
    }

    /// The FDT Instance ID, below 2^20. There is one exactly if the TOI is 0
    /// (RFC 6726, section 3.4.1).
    pub fn instance(&self) -> Option<u32>
        ensures { result ≡ self.now.instance }
    {
        self.instance
    }

    /// What the packet belongs to, if this sender sent it: the session of the sender and the TSI
    /// (RFC 5651, section 5.1), and there the FDT Instance of its number, if the TOI is 0, and
    /// else the file of its TOI (RFC 6726, section 3.4). The widths of the fields make no
    /// difference. It takes no memory.
    pub fn key(&self, sender: Sender) -> Key
        ensures { result ≡ key_of sender self.now }
    {
        let session = SessionKey::new(sender, self.tsi).unwrap();
        let object = match self.instance {
            Some(instance) => ObjectKey::fdt(instance).unwrap(),
            None => ObjectKey::file(self.toi).unwrap(),
        };
        Key { session, object }
    }

    /// The transmission information of EXT_FTI. None if there is no EXT_FTI (RFC 5775,
    /// section 4.2; RFC 5445, section 3.2.2).
    pub fn info(&self) -> Option<Info>
        ensures { result ≡ self.now.info }
    {
        self.info
    }

    /// The numbers of the encoding symbol and its bytes, 1 to 65,519 of them. None if the datagram
    /// ends with its header or with the FEC Payload ID (RFC 5445, section 3.2.1). Whether they fit
    /// the transmission information is not checked.
    pub fn symbol(&self) -> Option<(SymbolId, &'a [u8])>
        ensures { option_map (λ s. (s.0, s.1.now)) result ≡ self.now.symbol }
    {
        self.symbol
    }
}

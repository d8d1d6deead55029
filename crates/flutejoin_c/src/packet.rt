//! `flutejoin_c_read`: the fields of a packet in a datagram.
ghost use Rattle.std.specs.Prelude.{◌≡◌, ◌≢◌, ℕ, List, None};
ghost use Rattle.flute_wire.specs.Datagram.{Spells};
ghost use Rattle.flutejoin_c.specs.Gives.{TellsFault};
ghost use Rattle.flutejoin_c.specs.Packets.{Contains, IsRefusal, info_in, instance_in, symbol_in};

use crate::answer::Answer;
use crate::wide::Wide;
use flute_parts::Info;
use flute_wire::{Packet, read};
use flutejoin::CommandFault;

/// The FDT Instance ID of a packet with the TOI 0.
#[repr(C)]
#[derive(Clone, Copy)]
pub struct InstanceFields {
    /// 1 if it is there, and else 0.
    pub present: u32,
    pub id: u32,
}

/// The FEC Object Transmission Information of a packet.
#[repr(C)]
#[derive(Clone, Copy)]
pub struct InfoFields {
    /// 1 if it is there, and else 0, as all that follows.
    pub present: u32,
    /// The maximum source block length, in symbols.
    pub block: u32,
    /// The transfer length: how many bytes the object has.
    pub length: u64,
    /// The encoding symbol length, in bytes.
    pub symbol: u16,
}

/// The encoding symbol of a packet.
#[repr(C)]
#[derive(Clone, Copy)]
pub struct SymbolFields {
    /// 1 if it is there, and else 0, as all that follows.
    pub present: u32,
    /// The source block number.
    pub sbn: u16,
    /// The encoding symbol ID.
    pub esi: u16,
    /// Where its bytes begin in the datagram. They are the last ones.
    pub start: usize,
    /// How many there are.
    pub length: usize,
}

/// What a datagram contains.
#[repr(C)]
#[derive(Clone, Copy)]
pub struct PacketFields {
    /// The Transport Session Identifier, below 2^48.
    pub tsi: u64,
    /// The Transport Object Identifier, below 2^112.
    pub toi: Wide,
    pub instance: InstanceFields,
    pub info: InfoFields,
    pub symbol: SymbolFields,
}

/// Reads a datagram as a packet of FLUTE version 2, as [`read`] does.
///
/// Returns 0, or the number of `Refused`, for the first refusal that applies. `packet` is as it was
/// then.
#[unsafe(no_mangle)]
pub extern "C" fn flutejoin_c_read(
    datagram: &[u8],
    packet: &mut PacketFields,
    answer: &mut Answer,
) -> u32
    ensures read { result ≡ 0 → Contains datagram.now packet.new }
    ensures refused { result ≢ 0
        → TellsFault (IsRefusal datagram.now) result answer.new.number }
    ensures kept { result ≢ 0 → packet.new ≡ packet.old }
    ensures code { answer.new.code ≡ result }
{
    match read(datagram) {
        Ok(content) => {
            *packet = fields_of(&content, datagram);
            answer.give::<u8>(&[], &mut [])
        }
        Err(refusal) => answer.refuse(CommandFault::Refused(refusal)),
    }
}

// The fields of the packet of a datagram.
fn fields_of(packet: &Packet<'_>, datagram: &[u8]) -> PacketFields
    requires { Spells datagram.now packet.now }
    ensures { Contains datagram.now result }
{
    PacketFields {
        tsi: packet.tsi(),
        toi: Wide::of(packet.toi()),
        instance: instance_fields(packet.instance()),
        info: info_fields(packet.info()),
        symbol: symbol_fields(packet, datagram),
    }
}

/// The FDT Instance ID, if there is one.
pub fn instance_fields(instance: Option<u32>) -> InstanceFields
    ensures { instance_in result ≡ instance }
{
    match instance {
        Some(id) => InstanceFields { present: 1, id },
        None => InstanceFields { present: 0, id: 0 },
    }
}

/// The transmission information, if there is any.
pub fn info_fields(info: Option<Info>) -> InfoFields
    ensures { info_in result ≡ info }
{
    match info {
        Some(info) => InfoFields {
            present: 1,
            block: info.block(),
            length: info.length(),
            symbol: info.symbol(),
        },
        None => InfoFields {
            present: 0,
            block: 0,
            length: 0,
            symbol: 0,
        },
    }
}

fn symbol_fields(packet: &Packet<'_>, datagram: &[u8]) -> SymbolFields
    requires { Spells datagram.now packet.now }
    ensures { symbol_in datagram.now result ≡ packet.now.symbol }
{
    match packet.symbol() {
        Some((id, bytes)) => SymbolFields {
            present: 1,
            sbn: id.sbn,
            esi: id.esi,
            start: datagram.len().saturating_sub(bytes.len()),
            length: bytes.len(),
        },
        None => no_symbol(),
    }
}

/// No symbol.
pub fn no_symbol() -> SymbolFields
    ensures { (bytes : List ℕ) → symbol_in bytes result ≡ None }
{
    SymbolFields {
        present: 0,
        sbn: 0,
        esi: 0,
        start: 0,
        length: 0,
    }
}

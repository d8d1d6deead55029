//! The name of an object, as C has it.
ghost use Rattle.std.specs.Prelude.{MatchOption};
ghost use Rattle.flutejoin_c.specs.Objects.{Names, NamesNone};

use crate::packet::{InstanceFields, instance_fields};
use crate::wide::Wide;
use flute_parts::{Key, ObjectKey, Sender, SessionKey};

/// What names an object.
#[repr(C)]
#[derive(Clone, Copy)]
pub struct ObjectFields {
    /// The address of the sender, as a number.
    pub sender: Wide,
    /// The Transport Session Identifier, below 2^48.
    pub tsi: u64,
    /// The Transport Object Identifier, below 2^112: 0 of an FDT Instance, and of nothing else.
    pub toi: Wide,
    /// The FDT Instance ID, below 2^20, of an FDT Instance.
    pub instance: InstanceFields,
}

impl ObjectFields {
    /// Those of this object.
    pub fn of(key: &Key) -> ObjectFields
        ensures { Names result key.now }
    {
        ObjectFields {
            sender: Wide::of(key.session.sender().number()),
            tsi: key.session.tsi(),
            toi: Wide::of(key.object.toi()),
            instance: instance_fields(key.object.instance()),
        }
    }

    /// The object that they name, if they name one.
    pub fn key(&self) -> Option<Key>
        ensures { MatchOption result (NamesNone self.now) (Names self.now) }
    {
        let toi = self.toi.number();
        let object = if self.instance.present == 0 {
            ObjectKey::file(toi)
        } else if toi == 0 {
            ObjectKey::fdt(self.instance.id)
        } else {
            None
        };
        let session = SessionKey::new(Sender::new(self.sender.number()), self.tsi);
        match (session, object) {
            (Some(session), Some(object)) => Some(Key { session, object }),
            _ => None,
        }
    }
}

//! Makes the name of an object of the numbers on a command line.
ghost use Rattle.std.specs.Prelude.{◌≡◌, ◌<◌, ◌^◌, IfSome, MatchResult, None, Some};
ghost use Rattle.flute_parts.specs.Session.{IsTsi};
ghost use Rattle.flutejoin_line.specs.Options.{object_by};
ghost use Rattle.flutejoin_line.specs.Selecting.{object_of};

use flute_parts::{Key, ObjectKey, Sender, SessionKey};
use flutejoin::CommandFault;

/// The object of this sender that the numbers of `--tsi`, `--toi` and `--fdt` name.
///
/// # Errors
///
/// `BadKey` if the TOI is 0 and no FDT Instance is named, or is another and one is.
pub fn key(sender: Sender, tsi: u64, toi: u128, instance: Option<u128>) -> Result<Key, CommandFault>
    requires session { IsTsi tsi }
    requires toi { toi < 2 ^ 112 }
    requires instance { IfSome instance (λ number. number < 2 ^ 20) }
    ensures { MatchResult result (λ key. (key.session.sender ≡ sender)
        × (key.session.tsi ≡ tsi) × (object_by toi instance ≡ Some key.object))
        (λ fault. (fault ≡ CommandFault.BadKey) × (object_by toi instance ≡ None)) }
{
    let session = SessionKey::new(sender, tsi).unwrap();
    let object = match instance {
        Some(instance) if toi == 0 => ObjectKey::fdt(instance as u32),
        Some(_) => None,
        None => ObjectKey::file(toi),
    };
    match object {
        Some(object) => Ok(Key { session, object }),
        None => Err(CommandFault::BadKey),
    }
}

/// The object of any session that the numbers of `--toi` and `--fdt` name, or none if neither is
/// given.
///
/// # Errors
///
/// `BadKey` if an FDT Instance is named and the TOI is not 0, or is left out; or if none is and
/// the TOI is 0.
pub fn object(toi: Option<u128>, instance: Option<u128>) -> Result<Option<ObjectKey>, CommandFault>
    requires toi { IfSome toi (λ number. number < 2 ^ 112) }
    requires instance { IfSome instance (λ number. number < 2 ^ 20) }
    ensures { MatchResult result (λ object. object_of toi instance ≡ Some object)
        (λ fault. (fault ≡ CommandFault.BadKey) × (object_of toi instance ≡ None)) }
{
    let object = match (toi, instance) {
        (None, None) => return Ok(None),
        (Some(0), Some(instance)) => ObjectKey::fdt(instance as u32),
        (Some(toi), None) => ObjectKey::file(toi),
        _ => None,
    };
    match object {
        Some(object) => Ok(Some(object)),
        None => Err(CommandFault::BadKey),
    }
}

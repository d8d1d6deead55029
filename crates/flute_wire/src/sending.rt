//! `carousel`: the datagrams of a whole object.

ghost use Rattle.std.specs.Prelude.{◌≡◌, length, flat_map};
ghost use Rattle.std.specs.Prelude.{slice_get, None, IfOk, IfErr, OnOk, IfSome, Err};
ghost use Rattle.std.specs.List.{AllZip};
ghost use Rattle.std.specs.Option.{option_map};
ghost use Rattle.flute_wire.specs.Carousel.{symbols_of, packets_of, facts_sent, carousel_fault};
ghost use Rattle.flute_wire.specs.Reading.{facts};
ghost use Rattle.flute_wire.specs.Writing.{IsWritten};
ghost use Rattle.flute_wire.specs.declared.sending.CarouselFault.TheVariants as faults;

use crate::datagram::Datagram;
use crate::writing::{Outgoing, WriteFault, write};
use flute_parts::{Info, Key, Partition, SymbolId};
use std::alloc::Global;
use thiserror::Error;

/// Why an object is not sent, in the order of the checks: the first that applies is returned. Shown
/// by its name, `Write` with the name of its fault after that.
#[derive(Clone, Copy, Debug, Error)]
pub enum CarouselFault {
    /// The content does not have as many bytes as the transfer length says.
    #[error("Length")]
    Length,
    /// A datagram cannot be written, for this reason, which is not lack of memory: that of the
    /// first such datagram.
    #[error("Write {0}")]
    Write(WriteFault),
    /// There was no memory for the datagrams.
    #[error("OutOfMemory")]
    OutOfMemory,
}

/// A list of datagrams.
pub type Datagrams = Vec<Datagram>;

/// The symbol at a place of the partition, with its bytes. None from the number of symbols on.
fn symbol_at<'a>(
    info: &Info,
    partition: &Partition,
    content: &'a [u8],
    place: u64,
) -> Option<(SymbolId, &'a [u8])>
    requires same { partition.now ≡ info.now }
    requires whole { length content.now ≡ info.now.transfer_length }
    ensures { option_map (λ s. (s.0, s.1.now)) result
        ≡ slice_get (symbols_of info.now content.now) place }
{
    let id = partition.id_at(place)?;
    let symbol_length = usize::from(info.symbol());
    let rest = &content[place as usize * symbol_length..];
    Some((id, &rest[..symbol_length.min(rest.len())]))
}

/// Makes the datagrams that carry an object: one for each symbol of its partition, in that order
/// (RFC 5052, section 9.1), each with the transmission information in EXT_FTI. The last symbol is
/// sent without padding. An object of no bytes has one datagram, with the transmission information
/// and no symbol. The key's sender is not written.
///
/// # Errors
///
/// The first [`CarouselFault`] that applies, in the order of that list.
pub fn carousel(
    alloc: Global,
    key: &Key,
    info: &Info,
    content: &[u8],
) -> Result<Datagrams, CarouselFault>
    ensures whole { OnOk result (length content.now ≡ info.now.transfer_length) }
    ensures written { IfOk result (λ datagrams. AllZip IsWritten datagrams.items
        (packets_of key.now info.now content.now)) }
    ensures facts { IfOk result (λ datagrams.
        flat_map (facts key.now.session.sender) datagrams.items
        ≡ facts_sent key.now info.now content.now) }
    ensures fault { IfSome (carousel_fault key.now info.now content.now)
        (λ fault. result ≡ Err fault) }
    ensures memory { IfErr result (λ fault. carousel_fault key.now info.now content.now ≡ None
        → fault ≡ faults.OutOfMemory) }
{
    if content.len() as u64 != info.length() {
        return Err(CarouselFault::Length);
    }
    let partition = Partition::of(info);
    let mut datagrams = Vec::new(alloc);
    for place in 0..partition.symbols().max(1) {
        let outgoing = Outgoing {
            key: *key,
            info: Some(*info),
            symbol: symbol_at(info, &partition, content, place),
        };
        let datagram = match write(alloc, &outgoing) {
            Ok(datagram) => datagram,
            Err(fault) => match fault {
                WriteFault::OutOfMemory => return Err(CarouselFault::OutOfMemory),
                _ => return Err(CarouselFault::Write(fault)),
            },
        };
        match datagrams.push(datagram) {
            Ok(()) => {}
            Err(_) => return Err(CarouselFault::OutOfMemory),
        }
    }
    Ok(datagrams)
}

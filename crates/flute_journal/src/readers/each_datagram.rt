//! `for_each_datagram`: hands each datagram of a file to what takes them.
ghost use Rattle.std.specs.Prelude.{IfOk, IfErr};
ghost use Rattle.flute_journal.specs.EachDatagram.{TakesFile, TakesBefore};

use crate::fault::ReadFault;
use crate::readers::datagram_reader::DatagramReader;
use flute_parts::Source;
use std::alloc::Global;

/// What takes the datagrams of a file, one after another.
pub trait Datagrams {
    ghost use Rattle.std.specs.Prelude.{ℕ, List, [], ◌∷◌, ◌++◌, OnOk, OnErr};

    /// Why a datagram was not taken.
    type Fault;

    // Between two states these datagrams were taken.
    ghost takes: { Self → List (List ℕ) → Self → Type 0 };

    // Between two states some datagrams were taken, and then one was not.
    ghost fails: { Self → Self → Type 0 };

    /// Takes the next datagram, of 0 to 65,535 bytes.
    ///
    /// # Errors
    ///
    /// If it is not taken.
    fn datagram(&mut self, datagram: &[u8]) -> Result<(), Self::Fault>
        ensures taken { OnOk result (takes self.old (datagram.now ∷ []) self.new) }
        ensures failed { OnErr result (fails self.old self.new) };

    ghost none: { (s : Self) → takes s [] s };

    ghost more: { (s t u : Self) (first then : List (List ℕ)) → takes s first t
        → takes t then u → takes s (first ++ then) u };

    ghost later: { (s t u : Self) (first : List (List ℕ)) → takes s first t → fails t u
        → fails s u };
}

/// Why not each datagram of a file was taken.
#[derive(Clone, Copy, Debug, PartialEq, Eq)]
pub enum EachFault<F> {
    /// The file has this fault, or could not be read.
    Read(ReadFault),
    /// A datagram was not taken.
    Datagram(F),
}

/// Hands each datagram of the file that the source holds on, in their order, and returns how many
/// there are. The file may have at most `max_records`. It takes memory for one datagram.
///
/// # Errors
///
/// - `Read` with a fault of [`DatagramReader::next`]: the datagrams before it were taken;
/// - `Datagram` if one was not taken. No more is read then.
pub fn for_each_datagram<R: Source, D: Datagrams>(
    alloc: Global,
    source: &mut R,
    max_records: u64,
    datagrams: &mut D,
) -> Result<u64, EachFault<D::Fault>>
    ensures taken { IfOk result (TakesFile D.takes max_records (R.unread source.old)
        datagrams.old datagrams.new) }
    ensures fault { IfErr result (TakesBefore D.takes D.fails max_records
        (R.unread source.old) datagrams.old datagrams.new) }
{
    let mut reader = DatagramReader::new(source, max_records);
    let mut spare = Vec::new(alloc);
    let mut count = 0;
    loop {
        match reader.next_with(alloc, spare) {
            Ok(Some(datagram)) => {
                if let Err(fault) = datagrams.datagram(datagram.as_slice()) {
                    return Err(EachFault::Datagram(fault));
                }
                spare = datagram.into_vec();
                count += 1;
            }
            Ok(None) => return Ok(count),
            Err(fault) => return Err(EachFault::Read(fault)),
        }
    }
}

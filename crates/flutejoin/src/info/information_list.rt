//! A list of information: a text of lines, each with that of an object.
ghost use Rattle.std.specs.Prelude.{◌≡◌, ◌⊎◌, ◌++◌, List, OnOk, IfOk, IfErr, IfSome};
ghost use Rattle.flute_parts.specs.Facts.{Same};
ghost use Rattle.flute_parts.specs.declared.fact.Fact.{Fact as FactValue};
ghost use Rattle.flutejoin.specs.InformationLines.{AddingFails, LineTells, ListFails};
ghost use Rattle.flutejoin.specs.JoinParts.{NamesOnly};
ghost use Rattle.flutejoin.specs.Limits.{at_most};
ghost use Rattle.flutejoin.specs.ListedLines.{ListTells};
ghost use Rattle.flutejoin.specs.Show.{FailsToRead};
ghost use Rattle.flute_journal.specs.declared.fault.ReadFault.TheVariants.{Read};
ghost use Rattle.flutejoin.specs.declared.command_fault.CommandFault.TheVariants.{Input};

use crate::command_fault::CommandFault;
use crate::info::information_line::read_information;
use crate::lines::next_words::{is_passed_over, list_line};
use flute_join::JoinRefusal;
use flute_parts::{Fact, Info, Source};
use flute_store::Store;
use std::alloc::Global;

/// The facts of a list of information, in a new store: lines as `show` prints them for information,
/// each ended by a line feed, in any order. Lines that are empty or begin with `#` contain nothing.
/// One line of at most 512 bytes is held.
///
/// # Errors
///
/// The first that is met, where lines are numbered from 1: `ListLine` if a line is none of these,
/// one of its numbers is out of its range, or it has no line feed within 512 bytes;
/// `ListInformation` if its numbers are not valid; `Full` if the store has no room for its facts,
/// and `OutOfMemory` if there is no memory for them; and `Input`, as input 2, if the source failed.
pub(crate) fn read_list<const SESSIONS: u32, const OBJECTS: u32, const SYMBOLS: u32, R: Source>(
    alloc: Global,
    source: &mut R,
) -> Result<Store<SESSIONS, OBJECTS, SYMBOLS>, CommandFault>
    ensures told { IfOk result (λ shelf. IfSome (R.unread source.old)
        (λ bytes. (facts : List FactValue)
        × ListTells LineTells bytes facts × Same shelf facts)) }
    ensures failed { IfErr result (λ fault. (fault ≡ Input 2 Read)
        ⊎ IfSome (R.unread source.old)
        (λ bytes. ListFails (at_most SESSIONS OBJECTS SYMBOLS) bytes fault)) }
    ensures names { IfErr result (NamesOnly 2) }
    ensures failures { FailsToRead (R.failures source.old) (R.failures source.new) result }
{
    let mut told: Store<SESSIONS, OBJECTS, SYMBOLS> = Store::new(alloc);
    let mut number: u64 = 1;
    while let Some(words) = list_line(source, number)? {
        add_told(alloc, &mut told, words.as_slice(), number)?;
        if number == u64::MAX {
            return Err(CommandFault::ListLine(number));
        }
        number += 1;
    }
    Ok(told)
}

// Adds the fact that the line with this number contains, if it contains one.
fn add_told<const SESSIONS: u32, const OBJECTS: u32, const SYMBOLS: u32>(
    alloc: Global,
    told: &mut Store<SESSIONS, OBJECTS, SYMBOLS>,
    words: &[u8],
    number: u64,
) -> Result<(), CommandFault>
    ensures added { OnOk result ((facts : List FactValue) × LineTells words.now facts
        × Same told.new (told.old ++ facts)) }
    ensures failed { IfErr result
        (AddingFails (at_most SESSIONS OBJECTS SYMBOLS) told.old number words.now) }
{
    if is_passed_over(words) {
        return Ok(());
    }
    let Some((key, numbers)) = read_information(words) else {
        return Err(CommandFault::ListLine(number));
    };
    let info = match Info::new(numbers.length, numbers.symbol, numbers.block) {
        Ok(info) => info,
        Err(fault) => return Err(CommandFault::ListInformation(number, fault)),
    };
    match told.add(alloc, &Fact::Info { key, info }) {
        Ok(()) => Ok(()),
        Err(JoinRefusal::Full) => Err(CommandFault::Full),
        Err(JoinRefusal::OutOfMemory) => Err(CommandFault::OutOfMemory),
    }
}

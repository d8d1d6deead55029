//! The inputs of a join, inspected before they are joined.
ghost use Rattle.std.specs.Prelude.{◌≡◌, true, ◌≤◌, ◌<◌, ◌^◌, List, ℕ, length};
ghost use Rattle.std.specs.Prelude.{OnOk, IfOk, IfErr, []};
ghost use Rattle.std.specs.List.{AllByRecursion};
ghost use Rattle.flute_journal.specs.declared.fault.ReadFault.TheVariants.{Read};
ghost use Rattle.flutejoin.specs.declared.command_fault.CommandFault.TheVariants.{Input};
ghost use Rattle.flutejoin.specs.declared.command_fault.CommandFault.TheVariants.{CannotWrite};
ghost use Rattle.flutejoin.specs.declared.limits.TheConstants.{MAX_ENTRIES};
ghost use Rattle.flutejoin.specs.JoinInputs.{IsInput, AreInputs};
ghost use Rattle.flutejoin.specs.InputStreams.{failures_of, NoneFailed};
ghost use Rattle.flutejoin.specs.InputStreams.{OneFailed};
ghost use Rattle.flutejoin.specs.Joined.{choice_of};
ghost use Rattle.flutejoin.specs.Asides.{Makes, PutsAside};
ghost use Rattle.flutejoin.specs.JoinParts.{HoldsMore, IsSound, CountsUpTo};
ghost use Rattle.flutejoin.specs.JoinParts.{NamesOnly, InspectionFails, SomeInspectionFails};
ghost use Rattle.flutejoin.specs.JoinParts.{IsInspected, Finds, IsReady};
ghost use Rattle.flutejoin.specs.JoinFaults.{NamesOneOf};
ghost use Rattle.flutejoin.specs.Limits.{IsCountable, at_most};
ghost use Rattle.flutejoin.specs.Show.{FailsToRead};

use crate::aside::Asides;
use crate::command_fault::CommandFault;
use crate::join::held_files::HeldFiles;
use crate::join::join_input::JoinInput;
use crate::limits::MAX_ENTRIES;
use flute_parts::{Sender, Source};
use flute_streams::Objects;
use std::alloc::Global;

/// Reads the datagram files among inputs, in their order, and holds their facts of these
/// objects of this sender, about so many bytes of them in memory. The journals are then to be read
/// from their first bytes.
///
/// # Errors
///
/// Of the first input, numbered from 1, that has a fault: `UnknownKind` if it is neither;
/// `Input` with the fault of a datagram file, or if its source failed or there was no memory
/// for a datagram. `OutOfMemory` if there was none for its facts; `CannotPutAside`.
pub(crate) fn inspect_all<
    const SESSIONS: u32,
    const OBJECTS: u32,
    const SYMBOLS: u32,
    R: Source + Drop,
    A: Asides<Input = R>,
>(
    alloc: Global,
    asides: &mut A,
    memory: u64,
    sender: Sender,
    objects: &Objects,
    inputs: &mut [JoinInput<R>],
) -> Result<HeldFiles<SESSIONS, OBJECTS, SYMBOLS, R>, CommandFault>
    requires few { length inputs.old ≤ 64 }
    requires countable { IsCountable SESSIONS OBJECTS SYMBOLS }
    ensures ready { OnOk result (AllByRecursion (IsReady R.unread R.buffered R.failures)
        inputs.new) }
    ensures sound { IfOk result (IsSound R.unread R.buffered R.failures) }
    ensures inspected { A.tells asides.old ≡ true
        → (contents : List (List ℕ)) → AreInputs R.unread inputs.old contents
        → IfOk result (Finds R.unread R.buffered
        (choice_of (at_most SESSIONS OBJECTS SYMBOLS) sender objects.now) inputs.new contents) }
    ensures failed { A.tells asides.old ≡ true
        → (contents : List (List ℕ)) → AreInputs R.unread inputs.old contents
        → IfErr result (SomeInspectionFails contents) }
    ensures names { IfErr result (NamesOneOf (length inputs.old)) }
    ensures no_sink { IfErr result (λ fault. fault ≡ CannotWrite → ⊥) }
    ensures none_failed { OnOk result (NoneFailed R.failures inputs.old inputs.new) }
    ensures one_failed { IfErr result (λ fault. (number : ℕ) → fault ≡ Input number Read
        → OneFailed R.failures number inputs.old inputs.new) }
    ensures same_tells { A.tells asides.new ≡ A.tells asides.old }
    ensures made { Makes (A.made asides.old) (A.made asides.new) result }
    ensures put { IfOk result (λ held. PutsAside (A.made asides.old) (A.made asides.new) []
        held.runs.items) }
{
    let mut held = HeldFiles::new(alloc, memory);
    for k in 0..inputs.len() {
        inspect(
            alloc,
            asides,
            k + 1,
            sender,
            objects,
            &mut inputs[k],
            &mut held,
        )?;
    }
    Ok(held)
}

// Inspects an input: the facts of a datagram file are then held too, and a journal is to be read
// from its first byte.
fn inspect<
    const SESSIONS: u32,
    const OBJECTS: u32,
    const SYMBOLS: u32,
    R: Source + Drop,
    A: Asides<Input = R>,
>(
    alloc: Global,
    asides: &mut A,
    number: usize,
    sender: Sender,
    objects: &Objects,
    input: &mut JoinInput<R>,
    held: &mut HeldFiles<SESSIONS, OBJECTS, SYMBOLS, R>,
) -> Result<(), CommandFault>
    requires countable { IsCountable SESSIONS OBJECTS SYMBOLS }
    requires room { held.old.told.datagrams < 2 ^ 63 }
    requires sound { IsSound R.unread R.buffered R.failures held.old }
    ensures ready { OnOk result (IsReady R.unread R.buffered R.failures input.new) }
    ensures inspected { A.tells asides.old ≡ true
        → (bytes : List ℕ) → IsInput R.unread input.old bytes
        → OnOk result ((datagrams : List (List ℕ))
        × IsInspected R.unread R.buffered (choice_of (at_most SESSIONS OBJECTS SYMBOLS) sender
        objects.now)
        input.new bytes datagrams
        × HoldsMore R.unread R.buffered (choice_of (at_most SESSIONS OBJECTS SYMBOLS) sender
        objects.now)
        held.old held.new datagrams) }
    ensures few { OnOk result (CountsUpTo R.unread R.buffered R.failures MAX_ENTRIES held.old
        held.new) }
    ensures failed { (bytes : List ℕ) → IsInput R.unread input.old bytes
        → IfErr result (InspectionFails number bytes) }
    ensures names { IfErr result (NamesOnly number) }
    ensures failures { FailsToRead (failures_of R.failures input.old)
        (failures_of R.failures input.new) result }
    ensures same_tells { A.tells asides.new ≡ A.tells asides.old }
    ensures made { Makes (A.made asides.old) (A.made asides.new) result }
    ensures put { OnOk result (PutsAside (A.made asides.old) (A.made asides.new)
        held.old.runs.items held.new.runs.items) }
{
    match input {
        JoinInput::Journal(journal) => {
            let Ok(own) = objects.share() else {
                return Err(CommandFault::OutOfMemory);
            };
            journal.choice = own;
            journal.others = 0;
            journal.stream.restart(MAX_ENTRIES);
            Ok(())
        }
        JoinInput::Datagrams(source) => {
            held.read(alloc, asides, number, sender, objects, source)
        }
        JoinInput::Unknown => Err(CommandFault::UnknownKind(number)),
    }
}

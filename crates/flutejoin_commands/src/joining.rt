//! The command `join`: of all objects of a scope, or without those of a list.
ghost use Rattle.std.specs.Prelude.{◌≡◌, ◌+◌, ◌≤◌, ℕ, List, length, true, not, is_some};
ghost use Rattle.std.specs.Prelude.{OnOk, IfOk, IfErr};
ghost use Rattle.std.specs.Option.{option_map};
ghost use Rattle.flute_streams.specs.Objects.{takes_all};
ghost use Rattle.flutejoin.specs.JoinFaults.{JoinToFails, NamesOneOf};
ghost use Rattle.flutejoin.specs.JoinInputs.{AreInputs};
ghost use Rattle.flutejoin.specs.Joined.{choice_of, choice_without};
ghost use Rattle.flutejoin.specs.Joining.{JoinsTo};
ghost use Rattle.flutejoin.specs.declared.command_fault.CommandFault.TheVariants.{CannotWrite};
ghost use Rattle.flutejoin_commands.specs.Closings.{ClosesWhole};
ghost use Rattle.flutejoin_commands.specs.Deeds.{IsDone, IsNotDone, joins};
ghost use Rattle.flutejoin_commands.specs.Works.{AreObjects, JoinsBy, JoinByFails, ObjectsFail};
ghost use Rattle.flutejoin_commands.specs.Works.{join_lines, most_of, tells_others};
ghost use Rattle.flutejoin_commands.specs.Worlds.{Spares, outside};

use crate::beginning::begin_join;
use crate::delivery::Delivery;
use crate::leaving::leave;
use crate::no_output::IfNoOutput;
use crate::outlet::Outlet;
use crate::work::Work;
use crate::world::World;
use flute_parts::{Sender, Sink, Source};
use flute_streams::{Objects, Scope};
use flutejoin::{
    ANY_OBJECTS, ANY_SESSIONS, ANY_SYMBOLS, Asides, CommandFault, JoinCounts, JoinInput,
    MAX_ENTRIES, MAX_OBJECTS, MAX_SESSIONS, MAX_SYMBOLS, Report, join_to, objects_without,
};
use flutejoin_line::{JoinLine, Limit};
use std::alloc::Global;

/// Joins inputs.
#[derive(Drop)]
pub struct JoinWork<R, A> {
    pub alloc: Global,
    pub limit: Limit,
    /// About how many bytes of datagram files may be held in memory.
    pub memory: u64,
    /// Where the rest is put aside.
    pub asides: A,
    pub sender: Sender,
    pub scope: Scope,
    /// What the list of the objects that are not taken is read of.
    pub list: Option<R>,
    /// Whether it is reported why datagrams are refused.
    pub reasons: bool,
    pub inputs: Vec<JoinInput<R>>,
    pub ghost few: { length inputs.items ≤ 64 },
}

impl<R: Source + Drop, A: Asides<Input = R>> JoinWork<R, A> {
    // Joins what they have of these objects to a journal of any number of entries.
    fn join<W: Sink>(&mut self, objects: &Objects, sink: &mut W) -> Result<JoinCounts, CommandFault>
        ensures joined { A.tells self.old.asides ≡ true → (contents : List (List ℕ))
            → AreInputs R.unread self.old.inputs.items contents
            → IfOk result (λ counts. JoinsTo
            (choice_of (most_of self.old.limit) self.old.sender objects.now)
            contents counts (W.written sink.old) (W.written sink.new)) }
        ensures failed { A.tells self.old.asides ≡ true → (contents : List (List ℕ))
            → AreInputs R.unread self.old.inputs.items contents
            → IfErr result (JoinToFails
            (choice_of (most_of self.old.limit) self.old.sender objects.now) contents) }
        ensures names { IfErr result (NamesOneOf (length self.old.inputs.items)) }
        ensures lines { self.new.reasons ≡ self.old.reasons }
        ensures quiet { OnOk result (W.failures sink.new ≡ W.failures sink.old) }
        ensures cause { IfErr result (λ fault. fault ≡ CannotWrite
            → W.failures sink.new ≡ W.failures sink.old + 1) }
    {
        let inputs = &mut self.inputs;
        match self.limit {
            Limit::AnySize => join_to::<ANY_SESSIONS, ANY_OBJECTS, ANY_SYMBOLS, _, _, _>(
                self.alloc,
                &mut self.asides,
                self.memory,
                self.sender,
                objects,
                inputs,
                sink,
            ),
            Limit::Shelf => join_to::<MAX_SESSIONS, MAX_OBJECTS, MAX_SYMBOLS, _, _, _>(
                self.alloc,
                &mut self.asides,
                self.memory,
                self.sender,
                objects,
                inputs,
                sink,
            ),
        }
    }
}

impl<R: Source + Drop, A: Asides<Input = R>> Work for JoinWork<R, A> {
    type Answer = JoinCounts;

    ghost writes = { λ w. JoinsBy R.unread (A.tells w.asides)
        (choice_without (most_of w.limit) w.sender w.scope)
        (option_map R.unread w.list) w.inputs.items };

    ghost fails = { λ w. JoinByFails R.unread (A.tells w.asides)
        (choice_without (most_of w.limit) w.sender w.scope)
        (option_map R.unread w.list) w.inputs.items };

    ghost tells = { λ w. join_lines (tells_others w.scope (is_some w.list)) w.reasons };

    fn write<W: Sink>(&mut self, sink: &mut W) -> Result<(JoinCounts, Report), CommandFault> {
        let number = self.inputs.len() + 1;
        let objects = objects_of(self.alloc, self.scope, number, &mut self.list)?;
        let counts = self.join(&objects, sink)?;
        if counts.entries > MAX_ENTRIES {
            return Err(CommandFault::Full);
        }
        let mut lines = Report::new();
        lines.push_count("datagrams", counts.datagrams);
        lines.push_count("refused", counts.refused);
        if self.reasons {
            lines.push_reasons(&counts.reasons);
        }
        if !objects.is_all() {
            lines.push_count("others", counts.others);
        }
        lines.push_count("entries", counts.entries);
        Ok((counts, lines))
    }
}

// The objects of the scope, without those that the list names, if there is one. The list is the
// input with this number.
fn objects_of<R: Source>(
    alloc: Global,
    scope: Scope,
    number: usize,
    list: &mut Option<R>,
) -> Result<Objects, CommandFault>
    ensures taken { IfOk result (AreObjects scope (option_map R.unread list.old)) }
    ensures told { IfOk result
        (λ objects. not (takes_all objects) ≡ tells_others scope (is_some list.old)) }
    ensures failed { IfErr result (ObjectsFail number (option_map R.unread list.old)) }
{
    match list {
        Some(list) => objects_without(alloc, scope, number, list),
        None => Ok(Objects::of(scope)),
    }
}

/// Joins what the files of these names tell of the chosen objects into the output, which may be one
/// of them, and prints the numbers. About `memory` bytes of datagram files are held in memory, and
/// the rest is put aside.
///
/// # Errors
///
/// The first input that is not opened, last the list of objects that are not taken; why OUT is not
/// overwritten; what is wrong with the list; then those of [`join_to`](flutejoin::join_to), of the
/// output and of printing, as [`leave`] says.
pub fn join<W: World, O: Outlet, E: Sink>(
    world: &mut W,
    alloc: Global,
    line: JoinLine<'_>,
    output: &mut O,
    errors: &mut E,
) -> Result<(), CommandFault>
    ensures joined { OnOk result (IsDone (joins line.entry) line.entry.target
        (outside (W.files world.old) (O.written output.old) (E.written errors.old))
        (outside (W.files world.new) (O.written output.new) (E.written errors.new))) }
    ensures handed_on { OnOk result (O.handed_on output.new ≡ O.written output.new) }
    ensures spared { Spares line.entry.target.overwrites line.entry.target.out.now
        (W.files world.old) (W.files world.new) }
    ensures any_moment { ClosesWhole line.entry.target.out.now (W.files world.old)
        (W.closed world.old) (W.closed world.new) }
    ensures same_folders { W.folders world.new ≡ W.folders world.old }
    ensures failed { IfErr result (IsNotDone (joins line.entry) line.entry.target
        (outside (W.files world.old) (O.written output.old) (E.written errors.old))
        (outside (W.files world.new) (O.written output.new) (E.written errors.new))) }
{
    let target = line.target;
    let (inputs, list) = begin_join(world, alloc, target, line.inputs.as_slice(), line.without)?;
    let work = JoinWork {
        alloc,
        limit: line.limit,
        memory: line.memory,
        asides: world.asides(),
        sender: line.sender,
        scope: line.scope,
        list,
        reasons: line.reasons,
        inputs,
    };
    leave(
        world,
        target,
        work,
        Delivery::AtOnce(IfNoOutput::Try),
        output,
        errors,
    )
}

//! The objects of a join without those that a list names.
ghost use Rattle.std.specs.Prelude.{◌≡◌, ◌⊎◌, ℕ, List, Some, None, true, is_some};
ghost use Rattle.std.specs.Prelude.{IfOk, IfErr, IfSome};
ghost use Rattle.std.specs.BTreeSet.{BTreeSet as Set};
ghost use Rattle.flute_journal.specs.declared.fault.ReadFault.TheVariants.{Read};
ghost use Rattle.flute_parts.specs.declared.key.Key.{Key as Name};
ghost use Rattle.flute_streams.specs.Selections.{all_but_of, is_everything};
ghost use Rattle.flute_streams.specs.declared.choice.scope.Scope.{Scope as Narrowed};
ghost use Rattle.flute_streams.specs.declared.choice.selection.Selection.{Selection};
ghost use Rattle.flutejoin.specs.JoinParts.{NamesOnly};
ghost use Rattle.flutejoin.specs.JoinTrees.{Joined};
ghost use Rattle.flutejoin.specs.JoinWithout.{AreWithout};
ghost use Rattle.flutejoin.specs.Joined.{choice_without};
ghost use Rattle.flutejoin.specs.KeyLists.{KeyListFails};
ghost use Rattle.flutejoin.specs.Laws.{AreLeft, Leaves};
ghost use Rattle.flutejoin.specs.Limits.{Limits};
ghost use Rattle.flutejoin.specs.Show.{FailsToRead};
ghost use Rattle.flutejoin.specs.declared.command_fault.CommandFault.TheVariants.{Input};
ghost use Rattle.flutejoin.specs.declared.forget.ForgetCounts.{ForgetCounts as Counts};

use crate::command_fault::CommandFault;
use crate::lines::key_list::read_keys;
use flute_journal::laws::bytes_are_a_file_or_stop;
use flute_parts::Source;
use flute_streams::{Objects, Scope};
use std::alloc::Global;
use std::rc::Rc;

/// The objects of a scope without those that a list names, which is the input with this number.
/// Each of its lines begins with the name of an object, as for
/// [`forget_list_to`](crate::forget_list_to). The names are held.
///
/// # Errors
///
/// The first that is met: `ListLine` with the number, from 1, of the first line that names no
/// object, or has no line feed within 512 bytes; `OutOfMemory` if there is none for the names;
/// `Input` with `Read` if the source of the list failed.
pub fn objects_without<R: Source>(
    alloc: Global,
    scope: Scope,
    number: usize,
    list: &mut R,
) -> Result<Objects, CommandFault>
    ensures named { IfOk result (λ objects. IfSome (R.unread list.old)
        (λ text. AreWithout text scope objects)) }
    ensures scope { IfOk result (λ objects. objects.scope ≡ scope) }
    ensures listed { IfOk result (λ objects. is_some objects.without ≡ true) }
    ensures failed { IfErr result (λ fault. (fault ≡ Input number Read)
        ⊎ IfSome (R.unread list.old) (λ text. KeyListFails text fault)) }
    ensures names { IfErr result (NamesOnly number) }
    ensures failures { FailsToRead (R.failures list.old) (R.failures list.new) result }
{
    let keys = match read_keys(alloc, list) {
        Ok(keys) => keys,
        // There the list is the second input.
        Err(CommandFault::Input(_, fault)) => return Err(CommandFault::Input(number, fault)),
        Err(CommandFault::ListLine(line)) => return Err(CommandFault::ListLine(line)),
        Err(_) => return Err(CommandFault::OutOfMemory),
    };
    match Rc::new(alloc, keys) {
        Ok(keys) => Ok(Objects {
            scope,
            without: Some(keys),
        }),
        Err(_) => Err(CommandFault::OutOfMemory),
    }
}

/// Objects are left out by a join, or taken out after it or before it: what is written is the same,
/// byte for byte, where all is within the limits.
///
/// - `after`: a join without listed objects writes what forgetting them leaves of the join of the
///   same inputs, journals and datagram files.
/// - `before`: it writes what a join of journals writes of which they were forgotten.
pub fn a_join_without_objects_writes_what_is_left()
    ensures after { (most : Limits) (sender : ℕ) (scope : Narrowed) (keys : Set Name)
        (selection : Selection) (inputs : List (List ℕ)) (bs cs ds : List ℕ) (counts : Counts)
        → is_everything selection ≡ true
        → Joined (choice_without most sender scope (Some keys)) inputs bs
        → Joined (choice_without most sender scope None) inputs cs
        → Leaves (all_but_of keys selection) cs ds counts → bs ≡ ds }
    ensures before { (most : Limits) (sender : ℕ) (scope : Narrowed) (keys : Set Name)
        (selection : Selection) (journals written : List (List ℕ)) (bs cs : List ℕ)
        → is_everything selection ≡ true
        → AreLeft (all_but_of keys selection) journals written
        → Joined (choice_without most sender scope (Some keys)) journals bs
        → Joined (choice_without most sender scope None) written cs → bs ≡ cs }
{
    // By this the proof knows that a datagram file contains one list of datagrams.
    bytes_are_a_file_or_stop();
}

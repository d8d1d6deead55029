//! A journal, opened with the list of its objects that are meant.
ghost use Rattle.std.specs.Prelude.{◌≡◌, IfErr, IfOk};
ghost use Rattle.flutejoin_commands.specs.Files.{HasBytes};
ghost use Rattle.flutejoin_commands.specs.Lists.{AreListed, IsListOf, IsNoListOf, IsUnread};
ghost use Rattle.flutejoin_line.specs.CommandLine.{list_of};

use crate::opening::Inputs;
use flute_parts::Key;
use flutejoin::{CommandFault, read_keys};
use flutejoin_line::ListedJournal;
use std::alloc::Global;
use std::collections::BTreeSet;

/// Opens a journal, and then the list of its objects, if there is one, which is read. Nothing of
/// the journal is read yet.
///
/// # Errors
///
/// As [`Inputs::open`], of the first that is not opened, the journal or the list; then those of
/// [`read_keys`].
pub fn open_listed<I: Inputs>(
    world: &mut I,
    alloc: Global,
    inputs: ListedJournal<'_>,
) -> Result<(I::Input, Option<BTreeSet<Key>>), CommandFault>
    ensures opened { IfOk result (λ both.
        HasBytes (I.files world.old) inputs.entry.journal.now (I.Input.unread both.0)) }
    ensures listed { IfOk result (λ both.
        AreListed (I.files world.old) (list_of inputs.entry) both.1) }
    ensures failed { IfErr result
        (IsUnread (I.files world.old) inputs.entry.journal.now (list_of inputs.entry)) }
    ensures same_files { I.files world.new ≡ I.files world.old }
    ensures same_folders { I.folders world.new ≡ I.folders world.old }
    ensures same_closed { I.closed world.new ≡ I.closed world.old }
{
    let journal = world.open(1, inputs.journal, 1)?;
    let listed = match inputs.list {
        Some(list) => Some(keys_of(world, alloc, list)?),
        None => None,
    };
    Ok((journal, listed))
}

// Opens the second input, and reads the list that it is.
fn keys_of<I: Inputs>(
    world: &mut I,
    alloc: Global,
    list: &str,
) -> Result<BTreeSet<Key>, CommandFault>
    ensures listed { IfOk result (λ keys. IsListOf (I.files world.old) list.now keys) }
    ensures failed { IfErr result (IsNoListOf (I.files world.old) list.now) }
    ensures same_files { I.files world.new ≡ I.files world.old }
    ensures same_folders { I.folders world.new ≡ I.folders world.old }
    ensures same_closed { I.closed world.new ≡ I.closed world.old }
{
    let mut source = world.open(2, list, 1)?;
    read_keys(alloc, &mut source)
}

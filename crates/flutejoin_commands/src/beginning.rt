//! What comes before the work of a command with an output: its inputs are opened, and then it is
//! checked what OUT is.
ghost use Rattle.std.specs.Prelude.{◌≡◌, ◌≤◌, [], ◌∷◌, length, map, OnOk, IfOk, IfErr};
ghost use Rattle.flutejoin.specs.declared.command_fault.CommandFault.TheVariants.{OutputIsInput};
ghost use Rattle.flutejoin_commands.specs.Files.{HasBytes};
ghost use Rattle.flutejoin_commands.specs.Named.{IsBefore};
ghost use Rattle.flutejoin_commands.specs.Opened.{AreOpened, IsListOpened, IsListUnopened, names_with};
ghost use Rattle.flutejoin_commands.specs.Worlds.{MayOverwrite};

use crate::opening::{open_inputs, open_two};
use crate::world::World;
use flutejoin::{CommandFault, JoinInput, Overwrites};
use flutejoin_line::Target;
use std::alloc::Global;

/// Opens the one input of a command with this output.
///
/// # Errors
///
/// That it is not opened; then why OUT is not overwritten.
pub fn begin<W: World>(
    world: &mut W,
    target: Target<'_>,
    path: &str,
) -> Result<W::Input, CommandFault>
    ensures opened { IfOk result
        (λ input. HasBytes (W.files world.old) path.now (W.Input.unread input)) }
    ensures spared { OnOk result
        (MayOverwrite (W.files world.old) target.entry.overwrites target.entry.out.now) }
    ensures failed { IfErr result (IsBefore (W.files world.old) (path.now ∷ [])) }
    ensures same_files { W.files world.new ≡ W.files world.old }
    ensures same_folders { W.folders world.new ≡ W.folders world.old }
    ensures same_closed { W.closed world.new ≡ W.closed world.old }
{
    world.look(target.out);
    let input = world.open(1, path, 1)?;
    world.guard(target.out, target.overwrites)?;
    Ok(input)
}

/// Opens the two inputs of a command with this output, the first and then the second.
///
/// # Errors
///
/// The first that is not opened; then why OUT is not overwritten.
pub fn begin_with_two<W: World>(
    world: &mut W,
    target: Target<'_>,
    first: &str,
    second: &str,
) -> Result<(W::Input, W::Input), CommandFault>
    ensures opened { IfOk result (λ both.
        HasBytes (W.files world.old) first.now (W.Input.unread both.0)
        × HasBytes (W.files world.old) second.now (W.Input.unread both.1)) }
    ensures spared { OnOk result
        (MayOverwrite (W.files world.old) target.entry.overwrites target.entry.out.now) }
    ensures failed { IfErr result (IsBefore (W.files world.old) (first.now ∷ second.now ∷ [])) }
    ensures same_files { W.files world.new ≡ W.files world.old }
    ensures same_folders { W.folders world.new ≡ W.folders world.old }
    ensures same_closed { W.closed world.new ≡ W.closed world.old }
{
    world.look(target.out);
    let both = open_two(world, first, second)?;
    world.guard(target.out, target.overwrites)?;
    Ok(both)
}

/// Opens the journal and the list of a command with this output, which may be the journal.
///
/// # Errors
///
/// The first that is not opened; then why OUT is not overwritten: `OutputIsInput` if it is one of
/// them, and no journal.
pub fn begin_with_list<W: World>(
    world: &mut W,
    target: Target<'_>,
    journal: &str,
    list: &str,
) -> Result<(W::Input, W::Input), CommandFault>
    ensures opened { IfOk result (λ both.
        HasBytes (W.files world.old) journal.now (W.Input.unread both.0)
        × HasBytes (W.files world.old) list.now (W.Input.unread both.1)) }
    ensures spared { OnOk result
        (MayOverwrite (W.files world.old) target.entry.overwrites target.entry.out.now) }
    ensures failed { IfErr result (IsBefore (W.files world.old) (journal.now ∷ list.now ∷ [])) }
    ensures same_files { W.files world.new ≡ W.files world.old }
    ensures same_folders { W.folders world.new ≡ W.folders world.old }
    ensures same_closed { W.closed world.new ≡ W.closed world.old }
{
    let both = begin_with_two(world, target, journal, list)?;
    spare_list(world, target)?;
    Ok(both)
}

// Checks that OUT is not the list of a command with this output.
fn spare_list<W: World>(world: &mut W, target: Target<'_>) -> Result<(), CommandFault>
    ensures kept { IfErr result (λ fault. fault ≡ OutputIsInput) }
    ensures same_files { W.files world.new ≡ W.files world.old }
    ensures same_folders { W.folders world.new ≡ W.folders world.old }
    ensures same_closed { W.closed world.new ≡ W.closed world.old }
{
    if target.overwrites.spares_inputs() {
        // Of what is neither kind of file, no input may be overwritten: a list is one.
        if let Err(CommandFault::OutputIsInput) = world.guard(target.out, Overwrites::OtherFiles) {
            return Err(CommandFault::OutputIsInput);
        }
    }
    Ok(())
}

/// Opens the inputs of a join with this output, and then the list of objects, if there is one.
///
/// # Errors
///
/// Those of [`open_inputs`]; that the list is not opened; then why OUT is not overwritten:
/// `OutputIsInput` if it is an input, and no journal.
pub fn begin_join<W: World>(
    world: &mut W,
    alloc: Global,
    target: Target<'_>,
    paths: &[&str],
    list: Option<&str>,
) -> Result<(Vec<JoinInput<W::Input>>, Option<W::Input>), CommandFault>
    requires few { length paths.now ≤ 64 }
    ensures opened { IfOk result (λ opened. AreOpened (W.files world.old) W.Input.unread
        (map (λ path. path.now) paths.now) opened.0.items) }
    ensures list { IfOk result
        (λ opened. IsListOpened (W.files world.old) W.Input.unread list.entry opened.1) }
    ensures spared { OnOk result
        (MayOverwrite (W.files world.old) target.entry.overwrites target.entry.out.now) }
    ensures failed { IfErr result (IsBefore (W.files world.old)
        (names_with (map (λ path. path.now) paths.now) list.entry)) }
    ensures same_files { W.files world.new ≡ W.files world.old }
    ensures same_folders { W.folders world.new ≡ W.folders world.old }
    ensures same_closed { W.closed world.new ≡ W.closed world.old }
    ensures count { IfOk result (λ opened. length opened.0.items ≡ length paths.now) }
{
    world.look(target.out);
    let inputs = open_inputs(world, alloc, paths)?;
    let list = open_list(world, paths.len() + 1, list)?;
    world.guard(target.out, target.overwrites)?;
    if list.is_some() {
        spare_list(world, target)?;
    }
    Ok((inputs, list))
}

// Opens the list of a join as the input with this number, if there is one.
fn open_list<W: World>(
    world: &mut W,
    number: usize,
    list: Option<&str>,
) -> Result<Option<W::Input>, CommandFault>
    ensures opened { IfOk result (IsListOpened (W.files world.old) W.Input.unread list.entry) }
    ensures failed { IfErr result (IsListUnopened (W.files world.old) number list.entry) }
    ensures same_files { W.files world.new ≡ W.files world.old }
    ensures same_folders { W.folders world.new ≡ W.folders world.old }
    ensures same_closed { W.closed world.new ≡ W.closed world.old }
{
    match list {
        Some(path) => Ok(Some(world.open(number, path, 1)?)),
        None => Ok(None),
    }
}

//! The works of the command `forget`: of what is selected, and of the objects of a list.
ghost use Rattle.std.specs.Prelude.{◌≡◌};
ghost use Rattle.flutejoin.specs.Forget.{ForgetFails, ForgetListFails, ForgetsListed};
ghost use Rattle.flutejoin_commands.specs.Works.{ForgetsIn, forget_lines};

use crate::work::Work;
use flute_parts::{Sink, Source};
use flutejoin::{CommandFault, ForgetCounts, ForgetInput, Report, forget_list_to, forget_to};
use std::alloc::Global;

/// Takes entries out of a journal.
#[derive(Drop)]
pub struct ForgetWork<R> {
    pub alloc: Global,
    pub input: ForgetInput<R>,
}

impl<R: Source + Drop> Work for ForgetWork<R> {
    type Answer = ForgetCounts;

    ghost writes = { λ w. ForgetsIn (R.unread w.input.stream.source) w.input.choice };

    ghost fails = { λ w. ForgetFails (R.unread w.input.stream.source) };

    ghost tells = { λ _. forget_lines };

    fn write<W: Sink>(&mut self, sink: &mut W) -> Result<(ForgetCounts, Report), CommandFault> {
        let counts = forget_to(self.alloc, &mut self.input, sink)?;
        Ok((counts, lines_of(&counts)))
    }
}

/// Takes entries of listed objects out of a journal.
#[derive(Drop)]
pub struct ForgetListWork<R> {
    pub alloc: Global,
    pub input: ForgetInput<R>,
    /// What the list is read of.
    pub list: R,
}

impl<R: Source + Drop> Work for ForgetListWork<R> {
    type Answer = ForgetCounts;

    ghost writes = { λ w. ForgetsListed w.input.choice.selection (R.unread w.list)
        (R.unread w.input.stream.source) };

    ghost fails = { λ w. ForgetListFails (R.unread w.list) (R.unread w.input.stream.source) };

    ghost tells = { λ _. forget_lines };

    fn write<W: Sink>(&mut self, sink: &mut W) -> Result<(ForgetCounts, Report), CommandFault> {
        let counts = forget_list_to(self.alloc, &mut self.list, &mut self.input, sink)?;
        Ok((counts, lines_of(&counts)))
    }
}

// The lines that tell how much was forgotten.
fn lines_of(counts: &ForgetCounts) -> Report
    ensures { result ≡ forget_lines counts.now }
{
    let mut lines = Report::new();
    lines.push_count("forgotten", counts.forgotten);
    lines.push_count("entries", counts.entries);
    lines
}

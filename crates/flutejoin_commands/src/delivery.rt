//! How what a work writes goes to an output that takes its bytes itself.
ghost use Rattle.std.specs.Prelude.{◌≡◌};
ghost use Rattle.flutejoin_commands.specs.Deliveries.{if_no_output};

use crate::no_output::IfNoOutput;
use std::alloc::Global;

/// How what a work writes goes to an output that takes its bytes itself, and what becomes of the
/// work if there is no output.
#[derive(Clone, Copy)]
pub enum Delivery {
    /// As it is written.
    AtOnce(IfNoOutput),
    /// Once the work is done: it is held in memory, and nothing goes out of a work that fails.
    /// Without an output the work is tried.
    Whole(Global),
}

impl Delivery {
    /// What becomes of the work if there is no output.
    pub fn if_no_output(self) -> IfNoOutput
        ensures { result ≡ if_no_output self }
    {
        match self {
            Delivery::AtOnce(if_none) => if_none,
            Delivery::Whole(_) => IfNoOutput::Try,
        }
    }
}

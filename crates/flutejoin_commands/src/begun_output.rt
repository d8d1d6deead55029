//! An output of which it is known what OUT was when it was made.
ghost use Rattle.std.specs.Prelude.{◌≡◌, ◌≤◌, ℕ, Bool, Option, option_map};
ghost use Rattle.flute_output.specs.Entries.{Stored, taken, found_in, named_in};

use flute_output::{Folder, Output};
use flute_parts::{DeviceFault, Sink};
use std::marker::{Brand, PhantomData};

/// What was known when the file beside OUT was made. Only contracts see it.
pub trait Begun {
    // What OUT was, if the folder's contracts say.
    ghost found: { Option (Option Stored) };

    // Whether the disk had confirmed that it has that name, if the folder's contracts say.
    ghost named: { Option Bool };

    // How often the folder had failed.
    ghost failures: { ℕ };
}

impl Begun for Brand {
    ghost use Rattle.std.specs.Prelude.{None};

    ghost found = { None };

    ghost named = { None };

    ghost failures = { 0 };
}

/// An output, whatever was written to it: OUT was what `B` says, and since then the folder has not
/// failed less often.
#[derive(Drop)]
pub struct BegunOutput<F: Folder + Drop, B: Begun> {
    pub output: Output<F>,
    pub of: PhantomData<B>,
    pub ghost found: { option_map found_in (F.entries output) ≡ B.found },
    pub ghost named: { option_map named_in (F.entries output) ≡ B.named },
    pub ghost since: { B.failures ≤ F.failures output },
}

impl<F: Folder + Drop, B: Begun> Sink for BegunOutput<F, B> {
    ghost failures = { λ o. F.failures o.output };

    ghost written = { λ o. option_map taken (F.entries o.output) };

    fn write(&mut self, bytes: &[u8]) -> Result<usize, DeviceFault> {
        self.output.write(bytes)
    }
}

//! Bytes that a command puts aside.

use flute_asides::{AsideFile, SystemAsides};
use flute_parts::{DeviceFault, Sink};
use flutejoin::Aside;

/// Bytes that are put aside, in memory and then in a file of the system.
#[derive(Drop)]
pub struct FileAside<'a> {
    pub bytes: AsideFile<SystemAsides<'a, HostRuntime>>,
}

impl<'a> Sink for FileAside<'a> {
    ghost failures = { λ a. ⟦<AsideFile<SystemAsides<'a, HostRuntime>> as Sink>⟧.failures a.bytes };

    ghost written = { λ a. ⟦<AsideFile<SystemAsides<'a, HostRuntime>> as Sink>⟧.written a.bytes };

    fn write(&mut self, bytes: &[u8]) -> Result<usize, DeviceFault> {
        self.bytes.write(bytes)
    }
}

impl Aside for FileAside<'_> {
    fn move_to<W: Sink>(&mut self, sink: &mut W) -> Result<(), DeviceFault> {
        self.bytes.move_to(sink)
    }
}

//! Outputs of the system that take their bytes themselves. Contracts see none of these.
ghost use Rattle.std.specs.Prelude.{None};

use crate::outlet::Outlet;
use flute_output::DeviceFile;
use flute_parts::{DeviceFault, StdSink};
use std::fs::File;
use std::io::{BufWriter, Print, Printer};
use std::rt::Files;

impl<R: Files<File = File>> Outlet for DeviceFile<'_, R> {
    ghost handed_on = { λ _. None };

    fn open(&mut self) -> Result<(), DeviceFault> {
        DeviceFile::open(self)
    }

    fn flush(&mut self) -> Result<(), DeviceFault> {
        DeviceFile::flush(self)
    }
}

/// Standard output, whose bytes wait in memory until a flush.
impl<P: Print> Outlet for StdSink<BufWriter<Printer<'_, P>>> {
    ghost handed_on = { λ _. None };

    fn open(&mut self) -> Result<(), DeviceFault> {
        Ok(())
    }

    fn flush(&mut self) -> Result<(), DeviceFault> {
        StdSink::flush(self)
    }
}

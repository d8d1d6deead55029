//! A report in memory: the lines that wait, and those that were flushed.
ghost use Rattle.std.specs.Prelude.{◌≡◌, ◌++◌, Some, []};

use flute_parts::{DeviceFault, Failures, Sink};
use flutejoin_commands::Outlet;
use std::alloc::Global;

/// A report for tests. Its bytes wait in memory until a flush, and it fails for good after a given
/// number of calls.
#[derive(Drop)]
pub struct MemoryReport {
    handed_on: Vec<u8>,
    waiting: Vec<u8>,
    good: usize,
    failures: Failures,
}

impl MemoryReport {
    /// A report without lines. It works in `good` calls, and fails from then on. Before that it
    /// fails only if it finds no memory for more.
    pub fn new(alloc: Global, good: usize) -> MemoryReport
        ensures bytes { ⟦<MemoryReport as Sink>⟧.written result ≡ Some [] }
        ensures handed_on { ⟦<MemoryReport as Outlet>⟧.handed_on result ≡ Some [] }
        ensures failures { ⟦<MemoryReport as Sink>⟧.failures result ≡ 0 }
    {
        MemoryReport {
            handed_on: Vec::new(alloc),
            waiting: Vec::new(alloc),
            good,
            failures: Failures::none(),
        }
    }

    /// The bytes that were handed on.
    pub fn handed_on(&self) -> &[u8]
        ensures { ⟦<MemoryReport as Outlet>⟧.handed_on self.now ≡ Some result.now }
    {
        &self.handed_on
    }

    // Whether this call works.
    fn works(&mut self) -> bool
        ensures handed_on { self.new.handed_on ≡ self.old.handed_on }
        ensures waiting { self.new.waiting ≡ self.old.waiting }
        ensures failures { self.new.failures ≡ self.old.failures }
    {
        if self.good == 0 {
            return false;
        }
        self.good -= 1;
        true
    }
}

impl Sink for MemoryReport {
    ghost failures = { λ r. r.failures.count };

    ghost written = { λ r. Some (r.handed_on.items ++ r.waiting.items) };

    fn write(&mut self, bytes: &[u8]) -> Result<usize, DeviceFault> {
        if self.works() && self.waiting.extend_from_slice(bytes).is_ok() {
            return Ok(bytes.len());
        }
        self.failures = self.failures.and_one();
        Err(DeviceFault)
    }
}

impl Outlet for MemoryReport {
    ghost handed_on = { λ r. Some r.handed_on.items };

    fn open(&mut self) -> Result<(), DeviceFault> {
        if self.works() {
            return Ok(());
        }
        self.failures = self.failures.and_one();
        Err(DeviceFault)
    }

    fn flush(&mut self) -> Result<(), DeviceFault> {
        if self.works() && self.handed_on.extend_from_slice(&self.waiting).is_ok() {
            self.waiting.clear();
            return Ok(());
        }
        self.failures = self.failures.and_one();
        Err(DeviceFault)
    }
}

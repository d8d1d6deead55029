//! Each public call of `flute_output` once, over a folder in memory.

use flute_memory::MemoryFolder;
use flute_output::{FileLimit, FinishFault, Folder, Output};
use flute_parts::{DeviceFault, Sink};
use std::test::Fail;

const NEW: &[u8] = b"what is written";

/// More calls than any test makes.
const ENOUGH: usize = 100;

#[test]
fn a_file_is_written(rt: HostRuntime) -> Result<(), Fail> {
    let Ok(mut output) = Output::create(MemoryFolder::new(rt.alloc(), None, ENOUGH)) else {
        return Err("not made".into());
    };
    let done = output.write_all(NEW);
    let (done, folder) = output.finish(done);
    done?;
    assert_eq!(rt; folder.out(), Some(NEW));
    assert!(rt; folder.beside().is_none());
    Ok(())
}

#[test]
fn a_fault_of_the_work_drops_the_output(rt: HostRuntime) -> Result<(), Fail> {
    let Ok(mut output) = Output::create(MemoryFolder::new(rt.alloc(), None, ENOUGH)) else {
        return Err("not made".into());
    };
    output.write_all(NEW)?;
    let fault: Result<u64, DeviceFault> = Err(DeviceFault);
    let (done, folder) = output.finish(fault);
    assert!(rt; matches!(done, Err(FinishFault::Work(DeviceFault))));
    assert!(rt; folder.out().is_none());
    Ok(())
}

#[test]
fn a_folder_in_memory(rt: HostRuntime) -> Result<(), Fail> {
    let mut folder = MemoryFolder::new(rt.alloc(), None, ENOUGH);
    folder.create()?;
    folder.write(NEW)?;
    folder.flush()?;
    folder.sync()?;
    folder.put_in_place()?;
    folder.sync_names()?;
    folder.remove()?;
    Ok(())
}

#[test]
fn a_file_without_a_limit(_rt: HostRuntime) -> Result<(), Fail> {
    FileLimit::NONE.check(0, NEW.len())?;
    FileLimit::NONE.check(u64::MAX - 1, 1)?;
    Ok(())
}

#[test]
fn laws(_rt: HostRuntime) -> Result<(), Fail> {
    flute_output::laws::losses_are_of_moments();
    Ok(())
}

//! Runs of replicas, step by step and whole, and what is written after them.

use super::*;
use flute_parts::{MemorySink, MemorySource};
use flute_wire::Datagram;
use flutejoin::laws::{
    an_answer_is_enough_for_a_join, an_answer_to_own_gaps_is_enough, forgetting_leaves_the_rest,
    minus_is_enough_for_a_join,
};
use flutejoin::{MAX_OBJECTS, MAX_SESSIONS, MAX_SYMBOLS};
use flutejoin_replicas::{Blob, Replicas, Step, journal_after, laws, object_after, run};
use std::alloc::Global;
use test_vectors::{INFO_OF_EMPTY_FILE, bytes, journals};

/// The information of an empty file is taken.
fn take(alloc: Global) -> Result<Step, Fail> {
    let datagram = Datagram::from_vec(bytes(alloc, INFO_OF_EMPTY_FILE)?)?;
    Ok(Step::Take {
        replica: 0,
        sender: Sender::new(0),
        datagram,
    })
}

#[test]
fn steps_are_done(rt: HostRuntime) -> Result<(), Fail> {
    let mut replicas = Replicas::<MAX_SESSIONS, MAX_OBJECTS, MAX_SYMBOLS>::new(rt.alloc(), 2)?;
    let journal = bytes(rt.alloc(), journals::WHOLE)?;
    let journal = Blob::read(rt.alloc(), &mut MemorySource::new(&journal))?;
    replicas.step(rt.alloc(), &take(rt.alloc())?)?;
    replicas.step(
        rt.alloc(),
        &Step::Load {
            replica: 1,
            journal,
        },
    )?;
    replicas.step(rt.alloc(), &Step::Merge { into: 0, from: 1 })?;
    replicas.step(rt.alloc(), &Step::Reopen { replica: 0 })?;
    assert!(rt; replicas.store(0).is_some());
    assert!(rt; replicas.count() == 2);
    Ok(())
}

#[test]
fn steps_are_driven(rt: HostRuntime) -> Result<(), Fail> {
    let steps = [take(rt.alloc())?];
    let mut replicas = Replicas::<1, 1, 1>::new(rt.alloc(), 1)?;
    let mut done = [false];
    replicas.drive(rt.alloc(), &steps, &mut done);
    assert!(rt; replicas.refused(0) == Some(0));
    Ok(())
}

#[test]
fn a_run_is_done(rt: HostRuntime) -> Result<(), Fail> {
    let steps = [take(rt.alloc())?];
    let replicas = run::<MAX_SESSIONS, MAX_OBJECTS, MAX_SYMBOLS>(rt.alloc(), 1, &steps)?;
    assert!(rt; replicas.store(0).is_some());
    Ok(())
}

#[test]
fn a_journal_is_written_after_a_run(rt: HostRuntime) -> Result<(), Fail> {
    let steps = [take(rt.alloc())?];
    let mut sink = MemorySink::new(rt.alloc());
    let written = journal_after::<MAX_SESSIONS, MAX_OBJECTS, MAX_SYMBOLS, _>(
        rt.alloc(),
        1,
        &steps,
        0,
        &mut sink,
    );
    assert!(rt; written? == 1);
    Ok(())
}

#[test]
fn an_object_is_written_after_a_run(rt: HostRuntime) -> Result<(), Fail> {
    let key = file().ok_or("a key")?;
    let steps = [take(rt.alloc())?];
    let mut sink = MemorySink::new(rt.alloc());
    let written = object_after::<MAX_SESSIONS, MAX_OBJECTS, MAX_SYMBOLS, _>(
        rt.alloc(),
        1,
        &steps,
        0,
        &key,
        &mut sink,
    );
    assert!(rt; written? == 0);
    Ok(())
}

#[test]
fn laws_stand() {
    laws::the_same_facts_make_the_same();
    laws::runs_leave_what_was_given();
    laws::equal_journals_mean_one_content();
    forgetting_leaves_the_rest();
    minus_is_enough_for_a_join();
    an_answer_is_enough_for_a_join();
    an_answer_to_own_gaps_is_enough();
}

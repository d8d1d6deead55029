//! How much of an object a journal in memory has.
ghost use Rattle.std.specs.Prelude.{◌≡◌, ◌≢◌, IfOk, IfErr};
ghost use Rattle.flutejoin.specs.Limits.{at_most};
ghost use Rattle.flutejoin_c.specs.Calls.{most_for};
ghost use Rattle.flutejoin_c.specs.Gives.{TellsFault};
ghost use Rattle.flutejoin_c.specs.Objects.{OfObjectFails};
ghost use Rattle.flutejoin_c.specs.Statuses.{IsStatusOf, StatusFails, Tells, status_in};

use crate::answer::Answer;
use crate::object::ObjectFields;
use flute_journal::read_store;
use flute_parts::{Key, MemorySource};
use flute_store::{Status, Store};
use flutejoin::{
    ANY_OBJECTS, ANY_SESSIONS, ANY_SYMBOLS, CommandFault, MAX_ENTRIES, MAX_OBJECTS, MAX_SESSIONS,
    MAX_SYMBOLS, load_fault,
};
use std::alloc::Global;

/// How much of an object is held.
#[repr(C)]
#[derive(Clone, Copy)]
pub struct StatusFields {
    /// 1 if symbols are held and no transmission information, 2 if two values of that came, 3 if
    /// some symbols are not held as one fitting value, 4 if the object is whole.
    pub status: u32,
    /// Of a whole object its transfer length: how many bytes it has. Else 0.
    pub length: u64,
    /// How many symbols are not held, if the status is 3; else 0, as all that follows.
    pub missing: u64,
    /// How many have two values.
    pub conflicting: u64,
    /// How many have one value, of a length that does not fit.
    pub misfit: u64,
}

/// Tells how much of an object a journal has, which it reads into a store.
///
/// Returns 0, or the number of the fault: `BadKey` if no object has this name; `Input` or `Full`;
/// `NoObject` if nothing of the object is held; or `OutOfMemory`. `status` is as it was then.
#[unsafe(no_mangle)]
pub extern "C" fn flutejoin_c_status(
    alloc: Global,
    journal: &[u8],
    object: &ObjectFields,
    any_size: u32,
    status: &mut StatusFields,
    answer: &mut Answer,
) -> u32
    ensures told { result ≡ 0
        → Tells object.now (most_for any_size) journal.now (status_in status.new) }
    ensures failed { result ≢ 0
        → TellsFault (OfObjectFails object.now (StatusFails (most_for any_size) journal.now))
        result answer.new.number }
    ensures kept { result ≢ 0 → status.new ≡ status.old }
    ensures code { answer.new.code ≡ result }
{
    let Some(key) = object.key() else {
        return answer.refuse(CommandFault::BadKey);
    };
    match status_of(alloc, journal, &key, any_size) {
        Ok(found) => {
            *status = fields_of(found);
            answer.give::<u8>(&[], &mut [])
        }
        Err(fault) => answer.refuse(fault),
    }
}

// The status, if the journal is within the limits that are chosen.
fn status_of(
    alloc: Global,
    journal: &[u8],
    key: &Key,
    any_size: u32,
) -> Result<Status, CommandFault>
    ensures told { IfOk result (IsStatusOf (most_for any_size) journal.now key.now) }
    ensures failed { IfErr result (StatusFails (most_for any_size) journal.now key.now) }
{
    if any_size == 0 {
        status_within::<MAX_SESSIONS, MAX_OBJECTS, MAX_SYMBOLS>(alloc, journal, key)
    } else {
        status_within::<ANY_SESSIONS, ANY_OBJECTS, ANY_SYMBOLS>(alloc, journal, key)
    }
}

// The status, if the journal is within these limits.
fn status_within<const SESSIONS: u32, const OBJECTS: u32, const SYMBOLS: u32>(
    alloc: Global,
    journal: &[u8],
    key: &Key,
) -> Result<Status, CommandFault>
    ensures told { IfOk result
        (IsStatusOf (at_most SESSIONS OBJECTS SYMBOLS) journal.now key.now) }
    ensures failed { IfErr result
        (StatusFails (at_most SESSIONS OBJECTS SYMBOLS) journal.now key.now) }
{
    let mut source = MemorySource::new(journal);
    let read = read_store(alloc, &mut source, MAX_ENTRIES);
    let store: Store<SESSIONS, OBJECTS, SYMBOLS> = match read {
        Ok(store) => store,
        Err(fault) => return Err(load_fault(1, fault)),
    };
    match store.status(key) {
        Some(status) => Ok(status),
        None => Err(CommandFault::NoObject),
    }
}

// The fields of a status.
fn fields_of(status: Status) -> StatusFields
    ensures { status_in result ≡ status }
{
    let mut fields = StatusFields {
        status: 1,
        length: 0,
        missing: 0,
        conflicting: 0,
        misfit: 0,
    };
    match status {
        Status::NoInformation => {}
        Status::ConflictingInformation => fields.status = 2,
        Status::Partial {
            missing,
            conflicting,
            misfit,
        } => {
            fields.status = 3;
            fields.missing = missing;
            fields.conflicting = conflicting;
            fields.misfit = misfit;
        }
        Status::Whole { length } => {
            fields.status = 4;
            fields.length = length;
        }
    }
    fields
}

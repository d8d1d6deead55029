//! Each public call once. Worked examples are in `trials/program/examples`.

mod commands;
mod joining;
mod runs;

use flute_parts::{Key, ObjectKey, Sender, SessionKey};
use std::test::Fail;

/// File 1 of session 7 of the sender 0.
fn file() -> Option<Key> {
    let session = SessionKey::new(Sender::new(0), 7)?;
    let object = ObjectKey::file(1)?;
    Some(Key { session, object })
}

//! The full name of an object: its session, and its number there.

use crate::object_key::ObjectKey;
use crate::session_key::SessionKey;

/// An object of a session. Keys are ordered by session, then by object.
#[derive(Clone, Copy, Debug, PartialEq, Eq, PartialOrd, Ord)]
pub struct Key {
    pub session: SessionKey,
    pub object: ObjectKey,
}

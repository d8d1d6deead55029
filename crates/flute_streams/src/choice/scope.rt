//! A scope: the sessions and objects whose facts a join takes.
ghost use Rattle.std.specs.Prelude.{◌≡◌, true};
ghost use Rattle.flute_parts.specs.declared.key.Key.{Key as Name};
ghost use Rattle.flute_streams.specs.Scopes.{is_all, of_scope, takes_key};

use crate::choice::Choice;
use crate::choice::sessions::Sessions;
use crate::streams::stream::Stream;
use flute_parts::{Key, ObjectKey};

/// Which objects are taken. Each field narrows the others.
#[derive(Clone, Copy)]
pub struct Scope {
    /// The sessions whose objects are taken.
    pub sessions: Sessions,
    /// The one object of each session that is taken; if `None`, any.
    pub object: Option<ObjectKey>,
    /// Files alone, and no FDT Instances, which have the TOI 0 (RFC 6726, section 3.4).
    pub files: bool,
}

impl Scope {
    /// All objects.
    pub fn all() -> Scope
        ensures { (key : Name) → takes_key result key ≡ true }
    {
        Scope {
            sessions: Sessions::all(),
            object: None,
            files: false,
        }
    }

    /// Whether no field narrows it: all objects are taken.
    pub fn is_all(&self) -> bool
        ensures value { result ≡ is_all self.now }
        ensures all { result ≡ true → (key : Name) → takes_key self.now key ≡ true }
    {
        self.sessions.is_all() && self.object.is_none() && !self.files
    }

    /// Whether the object is taken.
    #[inline(always)]
    pub fn takes(&self, key: &Key) -> bool
        ensures { result ≡ takes_key self.now key.now }
    {
        let is_meant = match self.object {
            Some(one) => one == key.object,
            None => true,
        };
        self.sessions.takes(key.session.tsi())
            && is_meant
            && (!self.files || key.object.instance().is_none())
    }
}

/// The facts of these objects are taken.
impl Choice for Scope {
    ghost takes = { of_scope };

    #[inline(always)]
    fn passes_over<S: Stream>(&self, stream: &S) -> bool {
        match stream.address() {
            Some(address) => !self.takes(&address.key),
            None => false,
        }
    }
}

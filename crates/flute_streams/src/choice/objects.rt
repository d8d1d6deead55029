//! The objects that are taken: those of a scope, without a list of them.
ghost use Rattle.std.specs.Prelude.{◌≡◌, IfOk, None};
ghost use Rattle.flute_streams.specs.Objects.{is_taken, of_objects, takes_all};

use crate::choice::Choice;
use crate::choice::scope::Scope;
use crate::streams::stream::Stream;
use flute_parts::Key;
use std::alloc::AllocError;
use std::collections::BTreeSet;
use std::rc::Rc;

/// Which objects are taken: those of a scope that are not listed.
#[derive(Drop)]
pub struct Objects {
    pub scope: Scope,
    /// The objects that are listed. Many streams share one list.
    pub without: Option<Rc<BTreeSet<Key>>>,
}

impl Objects {
    /// All objects of a scope.
    pub fn of(scope: Scope) -> Objects
        ensures scope { result.scope ≡ scope }
        ensures without { result.without ≡ None }
    {
        Objects {
            scope,
            without: None,
        }
    }

    /// The same objects, over the same list.
    ///
    /// # Errors
    ///
    /// `AllocError` if the list is shared as often as can be counted.
    pub fn share(&self) -> Result<Objects, AllocError>
        ensures { IfOk result (λ objects. is_taken objects ≡ is_taken self.now) }
    {
        let without = match &self.without {
            Some(keys) => Some(keys.clone()?),
            None => None,
        };
        Ok(Objects {
            scope: self.scope,
            without,
        })
    }

    /// Whether nothing narrows them: all objects are taken.
    pub fn is_all(&self) -> bool
        ensures { result ≡ takes_all self.now }
    {
        self.without.is_none() && self.scope.is_all()
    }

    /// Whether the object is taken.
    #[inline(always)]
    pub fn takes(&self, key: &Key) -> bool
        ensures { result ≡ is_taken self.now key.now }
    {
        let is_listed = match &self.without {
            Some(keys) => keys.as_ref().contains(key),
            None => false,
        };
        !is_listed && self.scope.takes(key)
    }
}

/// The facts of these objects are taken.
impl Choice for Objects {
    ghost takes = { of_objects };

    #[inline(always)]
    fn passes_over<S: Stream>(&self, stream: &S) -> bool {
        match stream.address() {
            Some(address) => !self.takes(&address.key),
            None => false,
        }
    }
}

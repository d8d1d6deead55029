//! Which facts of a journal a command takes: what is selected, of all objects or of a list.
ghost use Rattle.std.specs.Prelude.{◌≡◌, Bool};
ghost use Rattle.flute_parts.specs.Addresses.{fact_of};
ghost use Rattle.flute_parts.specs.declared.fact.Fact.{Fact as Known};
ghost use Rattle.flutejoin.specs.Selected.{picks_listed};

use flute_parts::{FactRef, Key};
use flute_streams::Selection;
use std::collections::BTreeSet;

/// Which facts are taken of a journal.
pub trait Picks {
    ghost picks: { Self → Known → Bool };

    /// Whether the fact is taken.
    fn picks(&self, fact: &FactRef<'_>) -> bool
        ensures { result ≡ picks self.now (fact_of fact.now) };
}

/// What is selected is taken.
impl Picks for Selection {
    ghost use Rattle.flute_streams.specs.Selections.{selects};

    ghost picks = { selects };

    #[inline(always)]
    fn picks(&self, fact: &FactRef<'_>) -> bool {
        self.selects(fact)
    }
}

/// What is picked otherwise, of the objects that are listed if there is a list.
#[derive(Drop)]
pub struct Listed<P> {
    pub listed: Option<BTreeSet<Key>>,
    pub picks: P,
}

impl<P: Picks> Picks for Listed<P> {
    ghost picks = { λ these. picks_listed these.listed (P.picks these.picks) };

    #[inline(always)]
    fn picks(&self, fact: &FactRef<'_>) -> bool {
        let is_listed = match &self.listed {
            Some(keys) => keys.contains(&fact.address().key),
            None => true,
        };
        is_listed && self.picks.picks(fact)
    }
}

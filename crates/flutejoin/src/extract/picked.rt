//! Which objects `extract --all` takes: of one sender or all, and of some sessions.
ghost use Rattle.std.specs.Prelude.{◌≡◌};
ghost use Rattle.flutejoin.specs.ExtractAll.{is_picked, picks_fact};

use crate::picks::Picks;
use flute_parts::{FactRef, Key, Sender};
use flute_streams::Sessions;

/// The objects of one sender, or of all, and of some sessions.
#[derive(Clone, Copy)]
pub struct Picked {
    pub sender: Option<Sender>,
    pub sessions: Sessions,
}

impl Picks for Picked {
    ghost picks = { picks_fact };

    #[inline(always)]
    fn picks(&self, fact: &FactRef<'_>) -> bool {
        self.has(&fact.address().key)
    }
}

impl Picked {
    // Whether the object is one of them.
    #[inline(always)]
    fn has(&self, key: &Key) -> bool
        ensures { result ≡ is_picked self.now key.now }
    {
        let is_sender = match self.sender {
            Some(sender) => key.session.sender() == sender,
            None => true,
        };
        is_sender && self.sessions.takes(key.session.tsi())
    }
}

//! The names of sessions: a sender and a TSI.

use crate::sender::Sender;
use flute_join::MapKey;
use std::marker::Model;

/// A session, named by its sender and its Transport Session Identifier of at most 48 bits, which
/// distinguishes the sessions of one sender (RFC 5651, section 5.1).
///
/// Sessions are ordered by sender, then by that number.
#[derive(Clone, Copy, Debug, PartialEq, Eq, PartialOrd, Ord)]
pub struct SessionKey {
    sender: Sender,
    tsi: u64,
}

impl Model for SessionKey {
    ghost use Rattle.flute_parts.specs.Session.{Session, IsTsi, session};

    ghost Value = { Session };

    ghost view = { λ s. session s.sender s.tsi };

    ghost invariant = { λ s. IsTsi s.tsi };

    ghost inverse = { λ s. record { sender = s.sender; tsi = s.tsi } };
}

impl SessionKey {
    ghost use Rattle.std.specs.Prelude.{◌≡◌, SomeIff};
    ghost use Rattle.flute_parts.specs.Session.{IsTsi, session};

    /// The session of this sender with this identifier. None if the identifier is 2^48 or more. It
    /// takes no memory.
    pub fn new(sender: Sender, tsi: u64) -> Option<SessionKey>
        ensures { SomeIff result (IsTsi tsi) (session sender tsi) }
    {
        if tsi < 1 << 48 {
            Some(SessionKey { sender, tsi })
        } else {
            None
        }
    }

    /// The sender.
    pub fn sender(&self) -> Sender
        ensures { result ≡ self.now.sender }
    {
        self.sender
    }

    /// The Transport Session Identifier, below 2^48.
    pub fn tsi(&self) -> u64
        ensures value { result ≡ self.now.tsi }
        ensures bits { IsTsi result }
    {
        self.tsi
    }
}

impl MapKey for SessionKey {
    ghost use Rattle.flute_parts.specs.Equality.{session_place};

    ghost same_where_equal = { session_place };
}

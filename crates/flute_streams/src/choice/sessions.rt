//! A set of sessions, of which facts are taken; the empty one stands for all.
ghost use Rattle.std.specs.Prelude.{◌≡◌, ◌++◌, ◌∷◌, [], true, false, length, nat_eq};
ghost use Rattle.flute_streams.specs.Sessions.{listed_tsis, takes};

/// The sessions whose entries and datagrams are taken: all, or those with one of at most 64
/// Transport Session Identifiers (RFC 5651, section 5.1), whoever their sender is.
#[derive(Clone, Copy)]
pub struct Sessions {
    tsis: [u64; 64],
    count: usize,
}

impl Sessions {
    /// All sessions: no identifier is listed.
    pub fn all() -> Sessions
        ensures { listed_tsis result ≡ [] }
    {
        Sessions {
            tsis: [0; 64],
            count: 0,
        }
    }

    /// Lists one identifier more. False, and nothing changes, if 64 are listed.
    pub fn add(&mut self, tsi: u64) -> bool
        ensures added { result ≡ true → listed_tsis self.new ≡ listed_tsis self.old ++ tsi ∷ [] }
        ensures full { result ≡ false
            → (self.new ≡ self.old) × (length (listed_tsis self.old) ≡ 64) }
    {
        if self.count >= 64 {
            return false;
        }
        self.tsis[self.count] = tsi;
        self.count += 1;
        true
    }

    /// Whether all are taken: no identifier is listed.
    #[inline(always)]
    pub fn is_all(&self) -> bool
        ensures { result ≡ nat_eq (length (listed_tsis self.now)) 0 }
    {
        self.tsis[..self.count.min(64)].is_empty()
    }

    /// Whether the sessions with this identifier are taken: it is listed, or none is.
    #[inline(always)]
    pub fn takes(&self, tsi: u64) -> bool
        ensures { result ≡ takes (listed_tsis self.now) tsi }
    {
        let listed = &self.tsis[..self.count.min(64)];
        listed.is_empty() || listed.contains(&tsi)
    }
}

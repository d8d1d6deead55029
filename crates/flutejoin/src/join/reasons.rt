//! How many datagrams were refused for each reason.
ghost use Rattle.std.specs.Prelude.{◌≡◌, ◌≢◌, ◌+◌, ◌<◌, ◌^◌};
ghost use Rattle.flute_wire.specs.declared.refusal.Refusal.{Refusal as Why};
ghost use Rattle.flutejoin.specs.Refused.{all_counts, count_for};

use flute_wire::Refusal;

/// How many datagrams were refused for each reason: the first that applied.
#[derive(Clone, Copy)]
pub struct Reasons {
    /// The counts in the order of [`REFUSALS`](flute_wire::REFUSALS).
    counts: [u64; 20],
}

impl Reasons {
    /// None was refused.
    pub fn new() -> Reasons
        ensures none { (why : Why) → count_for result why ≡ 0 }
        ensures sum { all_counts result ≡ 0 }
    {
        Reasons { counts: [0; 20] }
    }

    /// How many were refused for this one.
    pub fn count(&self, why: Refusal) -> u64
        ensures { result ≡ count_for self.now why }
    {
        self.counts[why.place()]
    }

    /// Counts one more.
    pub fn add(&mut self, why: Refusal)
        requires { all_counts self.old + 1 < 2 ^ 64 }
        ensures one { count_for self.new why ≡ count_for self.old why + 1 }
        ensures others { (other : Why) → other ≢ why
            → count_for self.new other ≡ count_for self.old other }
        ensures sum { all_counts self.new ≡ all_counts self.old + 1 }
    {
        self.counts[why.place()] += 1;
    }
}

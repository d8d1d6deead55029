//! The two versions of journals: entries of version 2 have the sender too.
ghost use Rattle.std.specs.Prelude.{◌≡◌, ◌≤◌, false, MatchOption, length};
ghost use Rattle.flute_journal.specs.Format.{sender_size, version_bytes};
ghost use Rattle.flute_journal.specs.Faults.{is_version};

/// The version of a journal: whether its entries name their senders.
#[derive(Clone, Copy)]
pub enum Version {
    /// Entries don't name their sender, which is 0. Such journals are read, and no longer written.
    One,
    /// Each entry has its sender after its kind.
    Two,
}

impl Version {
    /// How many bytes of an entry name its sender.
    pub fn sender_size(self) -> usize
        ensures size { result ≡ sender_size self }
        ensures most { result ≤ 16 }
    {
        match self {
            Version::One => 0,
            Version::Two => 16,
        }
    }
}

//! What a file holds, a journal or datagrams, by its first four bytes.
ghost use Rattle.std.specs.Prelude.{MatchOption};
ghost use Rattle.flute_journal.specs.Kinds.{HasKind, IsNeither};

/// What a file holds.
#[derive(Clone, Copy)]
pub enum Kind {
    /// A journal.
    Journal,
    /// Datagrams, as records.
    Datagrams,
}

/// What a file holds, as its first four bytes say: `FLJN` is a journal, and `FLDG` a datagram file.
/// None if they are neither. Nothing after them is looked at.
pub fn kind_of(bytes: &[u8]) -> Option<Kind>
    ensures { MatchOption result (IsNeither bytes.now) (λ kind. HasKind kind bytes.now) }
{
    if bytes.starts_with(b"FLJN") {
        Some(Kind::Journal)
    } else if bytes.starts_with(b"FLDG") {
        Some(Kind::Datagrams)
    } else {
        None
    }
}

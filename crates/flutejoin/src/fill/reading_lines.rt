//! Reads lines of `gaps` back: an object with its status, or a gap.
ghost use Rattle.std.specs.Prelude.{◌≡◌, ℕ, List, ◌++◌, IfSome, MatchOption, codes, option_copied};
ghost use Rattle.flute_parts.specs.Ranges.{IsKey};
ghost use Rattle.flute_parts.specs.declared.key.Key.{Key as KeyValue};
ghost use Rattle.flute_store.specs.declared.gap.Gap.{Gap as GapValue};
ghost use Rattle.flute_store.specs.declared.gap.Reason.{Reason as ReasonValue};
ghost use Rattle.flute_store.specs.declared.status.Status.{Status as StatusValue};
ghost use Rattle.flute_store.specs.declared.status.Status.TheVariants.{Partial, Whole};
ghost use Rattle.flutejoin.specs.FillLists.{HasCounts, HasIds, IsListed, MayCome, text_of};
ghost use Rattle.flutejoin.specs.Lines.{gap_line, line, reason_words, status_line, status_words};
ghost use Rattle.flutejoin.specs.declared.fill.listed_line.ListedLine.{ListedLine as LineValue};

use crate::fill::listed_line::ListedLine;
use crate::gaps::held_lines::{gap_text, status_text};
use crate::lines::key_words::{key_of, number_after, object_in, session_in};
use flute_parts::Key;
use flute_store::{Gap, Reason, Status};

/// The line that these words are, without a line feed, if `gaps` can print it after that one, or
/// as its first line. It takes no memory.
pub(crate) fn read_listed(words: &[u8], before: Option<&ListedLine>) -> Option<ListedLine>
    ensures valid { IfSome result IsListed }
    ensures found { IfSome result (λ l. (line words.now ≡ text_of l)
        × MayCome (option_copied before.entry) l) }
    ensures finds { (l : LineValue) → IsListed l → MayCome (option_copied before.entry) l
        → line words.now ≡ text_of l → MatchOption result ⊥ (λ r. r ≡ l) }
{
    let line = listed_after(words, before)?;
    if line.may_come_after(before) {
        Some(line)
    } else {
        None
    }
}

// The line that these words are, of which the object of a gap is that of the line before.
fn listed_after(words: &[u8], before: Option<&ListedLine>) -> Option<ListedLine>
    ensures valid { IfSome result IsListed }
    ensures found { IfSome result (λ l. line words.now ≡ text_of l) }
    ensures finds { (l : LineValue) → IsListed l → MayCome (option_copied before.entry) l
        → line words.now ≡ text_of l → MatchOption result ⊥ (λ r. r ≡ l) }
{
    match read_gap(words) {
        Some(gap) => match before {
            Some(before) => Some(ListedLine::Gap {
                key: before.key(),
                gap,
            }),
            None => None,
        },
        None => match read_status(words) {
            Some((key, status)) => Some(ListedLine::Object { key, status }),
            None => None,
        },
    }
}

// The gap whose line these words are.
fn read_gap(words: &[u8]) -> Option<Gap>
    ensures valid { IfSome result HasIds }
    ensures found { IfSome result (λ gap. line words.now ≡ gap_line gap) }
    ensures finds { (gap : GapValue) → HasIds gap → line words.now ≡ gap_line gap
        → MatchOption result ⊥ (λ g. g ≡ gap) }
{
    let Some(gap) = gap_in(words) else {
        return None;
    };
    let text = gap_text(&gap);
    if text.as_slice() == words {
        Some(gap)
    } else {
        None
    }
}

// The gap whose line a text may be. Its numbers were read, and are below 65,536 each (`HasIds`);
// its reason is guessed by the length of the word. The caller makes the gap's line again and
// compares it with the text, since the word itself was not read.
fn gap_in(text: &[u8]) -> Option<Gap>
    ensures valid { IfSome result HasIds }
    ensures finds { (gap : GapValue) → HasIds gap → line text.now ≡ gap_line gap
        → MatchOption result ⊥ (λ g. g ≡ gap) }
{
    let Some((sbn, rest)) = number_after(text, "gap ") else {
        return None;
    };
    let Some((first, rest)) = number_after(rest, "/") else {
        return None;
    };
    let Some((last, rest)) = number_after(rest, "-") else {
        return None;
    };
    if sbn < 1 << 16 && first < 1 << 16 && last < 1 << 16 {
        Some(Gap {
            sbn: sbn as u16,
            first: first as u16,
            last: last as u16,
            reason: reason_of(rest),
        })
    } else {
        None
    }
}

// The reason whose word this is, or any other.
fn reason_of(words: &[u8]) -> Reason
    ensures { (reason : ReasonValue) → words.now ≡ reason_words reason → result ≡ reason }
{
    match words.len() {
        8 => Reason::Missing,
        7 => Reason::Misfit,
        _ => Reason::Conflicting,
    }
}

// The object, and how much is held of it, whose line these words are.
fn read_status(words: &[u8]) -> Option<(Key, Status)>
    ensures valid { IfSome result (λ r. IsKey r.0 × HasCounts r.1) }
    ensures found { IfSome result (λ r. line words.now ≡ status_line r.0 r.1) }
    ensures finds { (key : KeyValue) (status : StatusValue) → IsKey key → HasCounts status
        → line words.now ≡ status_line key status
        → MatchOption result ⊥ (λ r. (r.0 ≡ key) × (r.1 ≡ status)) }
{
    let Some((sender, tsi, rest)) = session_in(words) else {
        return None;
    };
    let Some((name, rest)) = object_in(rest) else {
        return None;
    };
    let Some(status) = status_in(rest) else {
        return None;
    };
    let Some(key) = key_of(sender, tsi, name) else {
        return None;
    };
    let text = status_text(&key, status);
    if text.as_slice() == words {
        Some((key, status))
    } else {
        None
    }
}

// How much is held, by the second byte of a text and its numbers.
fn status_in(text: &[u8]) -> Option<Status>
    ensures valid { IfSome result HasCounts }
    ensures finds { (status : StatusValue) → HasCounts status
        → text.now ≡ codes " " ++ status_words status
        → MatchOption result ⊥ (λ s. s ≡ status) }
{
    match text.get(1) {
        Some(b'n') => Some(Status::NoInformation),
        Some(b'c') => Some(Status::ConflictingInformation),
        Some(b'w') => whole_in(text),
        Some(b'p') => partial_in(text),
        _ => None,
    }
}

// The length of a whole object.
fn whole_in(text: &[u8]) -> Option<Status>
    ensures valid { IfSome result HasCounts }
    ensures finds { (length : ℕ) → HasCounts (Whole length)
        → text.now ≡ codes " " ++ status_words (Whole length)
        → MatchOption result ⊥ (λ s. s ≡ Whole length) }
{
    let Some((length, _)) = number_after(text, " whole ") else {
        return None;
    };
    if length < 1 << 64 {
        Some(Status::Whole {
            length: length as u64,
        })
    } else {
        None
    }
}

// How many symbols of an object are missing, in conflict or of a length that does not fit.
fn partial_in(text: &[u8]) -> Option<Status>
    ensures valid { IfSome result HasCounts }
    ensures finds { (missing conflicting misfit : ℕ)
        → HasCounts (Partial missing conflicting misfit)
        → text.now ≡ codes " " ++ status_words (Partial missing conflicting misfit)
        → MatchOption result ⊥ (λ s. s ≡ Partial missing conflicting misfit) }
{
    let Some((missing, rest)) = number_after(text, " partial missing ") else {
        return None;
    };
    let Some((conflicting, rest)) = number_after(rest, " conflicting ") else {
        return None;
    };
    let Some((misfit, _)) = number_after(rest, " misfit ") else {
        return None;
    };
    if missing < 1 << 64 && conflicting < 1 << 64 && misfit < 1 << 64 {
        Some(Status::Partial {
            missing: missing as u64,
            conflicting: conflicting as u64,
            misfit: misfit as u64,
        })
    } else {
        None
    }
}

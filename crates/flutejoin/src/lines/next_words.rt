//! The lines of a source, one after the other.
ghost use Rattle.std.specs.Prelude.{◌≡◌, ◌≢◌, ◌⊎◌, ◌↔◌, ◌+◌, ◌<◌, ◌≤◌, ℕ, IfOk, IfErr};
ghost use Rattle.std.specs.Prelude.{IfSome, true};
ghost use Rattle.std.specs.Prelude.{length, slice_index, take};
ghost use Rattle.flute_journal.specs.declared.fault.ReadFault.TheVariants.{Read};
ghost use Rattle.flutejoin.specs.ListedLines.{HasNoEnd, IsPassedOver};
ghost use Rattle.flutejoin.specs.Show.{FailsToRead};
ghost use Rattle.flutejoin.specs.declared.command_fault.CommandFault.TheVariants.{Input};
ghost use Rattle.flutejoin.specs.declared.command_fault.CommandFault.TheVariants.{ListLine};
ghost use Rattle.flutejoin.specs.NextWords.{GivesWords, TakesWords, WordsFail, words_failures};

use crate::command_fault::CommandFault;
use crate::lines::text::Text;
use flute_journal::ReadFault;
use flute_parts::Source;

/// How many bytes a line may have: more than any that `gaps` prints.
const ROOM: usize = 512;

/// Why no next line was read.
#[derive(Clone, Copy, Debug, PartialEq, Eq)]
pub(crate) enum WordsFault {
    /// The source failed.
    Read,
    /// No line feed ends it, or only after more than 512 bytes.
    NoEnd,
}

/// The next line of a source, without its line feed; None at the end.
///
/// # Errors
///
/// `Read` if the source failed, and else `NoEnd`.
pub(crate) fn next_words<R: Source>(source: &mut R) -> Result<Option<Text>, WordsFault>
    ensures gives { IfOk result (GivesWords (R.unread source.old) (R.unread source.new)) }
    ensures fails { IfErr result (WordsFail (R.unread source.old)) }
    ensures failures { R.failures source.new
        ≡ R.failures source.old + words_failures result }
{
    let mut text = Text::new();
    loop {
        if take_lent(source, &mut text) {
            return Ok(Some(text));
        }
        let mut byte = [0];
        let Ok(count) = source.read(&mut byte) else {
            return Err(WordsFault::Read);
        };
        if count == 0 {
            return if text.as_slice().is_empty() {
                Ok(None)
            } else {
                Err(WordsFault::NoEnd)
            };
        }
        if byte[0] == b'\n' {
            return Ok(Some(text));
        }
        if text.as_slice().len() == ROOM {
            return Err(WordsFault::NoEnd);
        }
        text.push_bytes(&byte);
    }
}

// Takes bytes of a line that lie in memory, as far as there is room for them. Returns whether it
// has ended.
fn take_lent<R: Source>(source: &mut R, text: &mut Text) -> bool
    requires { length text.old ≤ 512 }
    ensures takes { TakesWords (R.unread source.old) (R.unread source.new)
        text.old text.new result }
    ensures room { length text.new ≤ 512 }
    ensures more { length text.old ≤ length text.new }
    ensures failures { R.failures source.new ≡ R.failures source.old }
{
    let lent = at_most(source.buffer(), ROOM - text.as_slice().len());
    let count = line_len(lent);
    text.push_bytes(&lent[..count]);
    if count < lent.len() {
        source.consume(count + 1);
        return true;
    }
    source.consume(count);
    false
}

// The first bytes, so many if there are.
fn at_most(bytes: &[u8], room: usize) -> &[u8]
    ensures { result.now ≡ take room bytes.now }
{
    if bytes.len() > room {
        &bytes[..room]
    } else {
        bytes
    }
}

// How many bytes are before the first line feed.
fn line_len(bytes: &[u8]) -> usize
    ensures within { result ≤ length bytes.now }
    ensures before { (k : ℕ) → k < result → slice_index bytes.now k ≢ 10 }
    ensures stops { result < length bytes.now → slice_index bytes.now result ≡ 10 }
{
    for (i, byte) in bytes.iter().enumerate() {
        if *byte == b'\n' {
            return i;
        }
    }
    bytes.len()
}

/// The line of a list with this number, from 1, without its line feed; None at the end.
///
/// # Errors
///
/// `Input`, as input 2, with `Read` if the source failed; `ListLine` if no line feed ends it, or
/// only after more than 512 bytes.
pub(crate) fn list_line<R: Source>(
    source: &mut R,
    number: u64,
) -> Result<Option<Text>, CommandFault>
    ensures gives { IfOk result (GivesWords (R.unread source.old) (R.unread source.new)) }
    ensures none { IfErr result (λ fault. (fault ≡ Input 2 Read)
        ⊎ ((fault ≡ ListLine number) × IfSome (R.unread source.old) HasNoEnd)) }
    ensures failures { FailsToRead (R.failures source.old) (R.failures source.new) result }
{
    match next_words(source) {
        Ok(words) => Ok(words),
        Err(WordsFault::Read) => Err(CommandFault::Input(2, ReadFault::Read)),
        Err(WordsFault::NoEnd) => Err(CommandFault::ListLine(number)),
    }
}

// Whether a line is passed over: it is empty, or begins with a number sign.
pub(crate) fn is_passed_over(line: &[u8]) -> bool
    ensures { result ≡ true ↔ IsPassedOver line.now }
{
    match line.first() {
        Some(byte) => *byte == b'#',
        None => true,
    }
}

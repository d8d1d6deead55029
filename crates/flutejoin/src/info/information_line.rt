//! A line that contains the information of an object, as `show` prints it.
ghost use Rattle.std.specs.Prelude.{◌≡◌, ◌++◌, codes, IfSome, MatchOption};
ghost use Rattle.flute_parts.specs.Information.{Information};
ghost use Rattle.flute_parts.specs.Ranges.{IsKey};
ghost use Rattle.flute_parts.specs.declared.fact.Fact.TheVariants.{Info as InfoFact};
ghost use Rattle.flute_parts.specs.declared.key.Key.{Key as KeyValue};
ghost use Rattle.flutejoin.specs.InformationLines.{HasNumbers, numbers_of};
ghost use Rattle.flutejoin.specs.Lines.{information_words, fact_words};

use crate::lines::fact_lines::{push_key, push_numbers};
use crate::lines::key_words::{key_of, number_after, object_in, session_in};
use crate::lines::text::Text;
use flute_parts::Key;

/// The numbers of an object's information, valid or not: its length in bytes, the length of a
/// symbol and that of the longest block.
#[derive(Drop)]
pub(crate) struct InfoNumbers {
    pub(crate) length: u64,
    pub(crate) symbol: u16,
    pub(crate) block: u32,
}

// The numbers of the information after the space at the front of a text, whatever follows them.
fn information_in(text: &[u8]) -> Option<InfoNumbers>
    ensures finds { (info : Information) → HasNumbers info
        → text.now ≡ codes " " ++ information_words info
        → MatchOption result ⊥ (λ numbers. numbers_of numbers ≡ info) }
{
    let Some((length, rest)) = number_after(text, " info length ") else {
        return None;
    };
    let Some((symbol, rest)) = number_after(rest, " symbol ") else {
        return None;
    };
    let Some((block, _)) = number_after(rest, " block ") else {
        return None;
    };
    if length < 1 << 64 && symbol < 1 << 16 && block < 1 << 32 {
        Some(InfoNumbers {
            length: length as u64,
            symbol: symbol as u16,
            block: block as u32,
        })
    } else {
        None
    }
}

/// The object and the numbers of its information in a line, without its line feed: exactly
/// if it is the line that `show` prints for them. It takes no memory.
pub(crate) fn read_information(line: &[u8]) -> Option<(Key, InfoNumbers)>
    ensures found { IfSome result
        (λ told. line.now ≡ fact_words (InfoFact told.0 (numbers_of told.1))) }
    ensures finds { (key : KeyValue) (info : Information) → IsKey key → HasNumbers info
        → line.now ≡ fact_words (InfoFact key info)
        → MatchOption result ⊥ (λ told. (told.0 ≡ key) × (numbers_of told.1 ≡ info)) }
{
    let Some((sender, tsi, rest)) = session_in(line) else {
        return None;
    };
    let Some((name, rest)) = object_in(rest) else {
        return None;
    };
    let Some(numbers) = information_in(rest) else {
        return None;
    };
    let Some(key) = key_of(sender, tsi, name) else {
        return None;
    };
    let mut text = Text::new();
    push_key(&mut text, &key);
    text.push(" ");
    push_numbers(&mut text, numbers.length, numbers.symbol, numbers.block);
    if text.as_slice() == line {
        Some((key, numbers))
    } else {
        None
    }
}

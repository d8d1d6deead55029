//! The range of bytes of an object that the symbols of a gap stand for.
ghost use Rattle.std.specs.Prelude.{◌≡◌, ◌≤◌, ◌<◌, ◌^◌, IfSome, length};
ghost use Rattle.flutejoin.specs.Lines.{line};
ghost use Rattle.flutejoin.specs.Ranges.{gap_range, range_line};
ghost use Rattle.flutejoin.specs.declared.lines.form.Form.TheVariants.{Plain, Json};

use crate::lines::form::Form;
use crate::lines::text::Text;
use flute_parts::{Info, Partition, SymbolId};
use flute_store::Gap;

/// Bytes of an object, from the first to before the end.
#[derive(Clone, Copy)]
pub struct ByteRange {
    /// The place of the first byte, from 0.
    pub first: u64,
    /// The place after that of the last byte.
    pub end: u64,
}

/// The bytes of the symbols of a gap of an object: those of the last symbol of the object as far as
/// its transfer length goes. None if the object has no such symbols.
pub(crate) fn range_of(info: &Info, gap: &Gap) -> Option<ByteRange>
    ensures range { result ≡ gap_range info.now gap.now }
{
    let partition = Partition::of(info);
    let first = partition.place(SymbolId {
        sbn: gap.sbn,
        esi: gap.first,
    })?;
    let last = partition.place(SymbolId {
        sbn: gap.sbn,
        esi: gap.last,
    })?;
    let symbol = u64::from(info.symbol());
    Some(ByteRange {
        first: first * symbol,
        end: ((last + 1) * symbol).min(info.length()),
    })
}

/// The words of a range's line: the places of its first and of its last byte, as in a request of
/// HTTP (RFC 9110, section 14.1.2).
pub(crate) fn range_text(form: Form, range: ByteRange) -> Text
    ensures line { line result ≡ range_line form range }
    ensures len { length result ≤ 100 }
{
    match form {
        Form::Plain => plain_range_text(range),
        Form::Json => json_range_text(range),
    }
}

fn plain_range_text(range: ByteRange) -> Text
    ensures line { line result ≡ range_line Plain range }
    ensures len { length result ≤ 100 }
{
    let mut text = Text::new();
    text.push("bytes ");
    text.push_number(range.first);
    text.push("-");
    text.push_number(range.end.saturating_sub(1));
    text
}

fn json_range_text(range: ByteRange) -> Text
    ensures line { line result ≡ range_line Json range }
    ensures len { length result ≤ 100 }
{
    let mut text = Text::new();
    text.push("{\"first\":");
    text.push_number(range.first);
    text.push(",\"last\":");
    text.push_number(range.end.saturating_sub(1));
    text.push("}");
    text
}

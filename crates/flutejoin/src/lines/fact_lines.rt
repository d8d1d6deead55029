//! The words of the printed lines about facts: objects, symbols, values.
ghost use Rattle.std.specs.Prelude.{◌≡◌, ◌+◌, ◌≤◌, ◌++◌, length};
ghost use Rattle.flute_parts.specs.Information.{information};
ghost use Rattle.flutejoin.specs.Lines.{key_words, object_words, information_words, id_words};
ghost use Rattle.flutejoin.specs.Lines.{symbol_words};

use crate::lines::text::Text;
use crate::sender::push_source;
use flute_parts::{Key, ObjectKey, SymbolId};

/// Appends `object` and a file's TOI, or `object fdt` and an FDT Instance's ID.
pub fn push_object(text: &mut Text, object: &ObjectKey)
    requires { length text.old + 60 ≤ 512 }
    ensures text { text.new ≡ text.old ++ object_words object.now }
    ensures len { length text.new ≤ length text.old + 60 }
{
    match object.instance() {
        Some(instance) => {
            text.push("object fdt ");
            text.push_number(instance);
        }
        None => {
            text.push("object ");
            text.push_number(object.toi());
        }
    }
}

/// Appends `info`, a length in bytes, that of a symbol and that of the longest block.
pub fn push_numbers(text: &mut Text, len: u64, symbol: u16, block: u32)
    requires { length text.old + 160 ≤ 512 }
    ensures text { text.new ≡ text.old ++ information_words (information len symbol block) }
    ensures len { length text.new ≤ length text.old + 160 }
{
    text.push("info length ");
    text.push_number(len);
    text.push(" symbol ");
    text.push_number(symbol);
    text.push(" block ");
    text.push_number(block);
}

/// Appends the session's sender, if it is not 0, its TSI and the name of the object.
pub fn push_key(text: &mut Text, key: &Key)
    requires { length text.old + 160 ≤ 512 }
    ensures text { text.new ≡ text.old ++ key_words key.now }
    ensures len { length text.new ≤ length text.old + 160 }
{
    push_source(text, key.session.sender());
    text.push("session ");
    text.push_number(key.session.tsi());
    text.push(" ");
    push_object(text, &key.object);
}

/// Appends `symbol` and the numbers of the symbol: its block, and its place there.
pub fn push_symbol_id(text: &mut Text, id: SymbolId)
    requires { length text.old + 90 ≤ 512 }
    ensures text { text.new ≡ text.old ++ id_words id }
    ensures len { length text.new ≤ length text.old + 90 }
{
    text.push("symbol ");
    text.push_number(id.sbn);
    text.push("/");
    text.push_number(id.esi);
}

/// Appends `symbol`, the numbers of the symbol and how many bytes it has: all but these.
pub fn push_symbol(text: &mut Text, id: SymbolId, len: usize)
    requires { length text.old + 160 ≤ 512 }
    ensures text { text.new ≡ text.old ++ symbol_words id len }
    ensures len { length text.new ≤ length text.old + 160 }
{
    push_symbol_id(text, id);
    text.push(" length ");
    text.push_number(len);
    text.push(" ");
}

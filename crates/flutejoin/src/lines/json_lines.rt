//! What lines of JSON are made of (RFC 8259): names of objects, and members of them.
ghost use Rattle.std.specs.Prelude.{◌≡◌, ◌+◌, ◌≤◌, ◌++◌, length};
ghost use Rattle.flute_parts.specs.Information.{information};
ghost use Rattle.flutejoin.specs.Json.{json_id, json_information, json_name, json_object};
ghost use Rattle.flutejoin.specs.Json.{json_source, json_symbol};

use crate::lines::text::Text;
use crate::sender::push_address;
use flute_parts::{Key, ObjectKey, Sender, SymbolId};

/// Appends a file's TOI as a string, or an FDT Instance's ID.
pub fn push_json_object(text: &mut Text, object: &ObjectKey)
    requires { length text.old + 60 ≤ 512 }
    ensures text { text.new ≡ text.old ++ json_object object.now }
    ensures len { length text.new ≤ length text.old + 60 }
{
    match object.instance() {
        Some(instance) => {
            text.push("\"fdt\":");
            text.push_number(instance);
        }
        None => {
            text.push("\"toi\":\"");
            text.push_number(object.toi());
            text.push("\"");
        }
    }
}

/// Appends the sender's address as a string, and a comma; nothing if it is 0.
pub fn push_json_source(text: &mut Text, sender: Sender)
    requires { length text.old + 50 ≤ 512 }
    ensures text { text.new ≡ text.old ++ json_source sender }
    ensures len { length text.new ≤ length text.old + 50 }
{
    if sender.number() != 0 {
        text.push("\"source\":\"");
        push_address(text, sender);
        text.push("\",");
    }
}

/// Appends the session's sender, if it is not 0, its TSI and the object.
pub fn push_json_name(text: &mut Text, key: &Key)
    requires { length text.old + 160 ≤ 512 }
    ensures text { text.new ≡ text.old ++ json_name key.now }
    ensures len { length text.new ≤ length text.old + 160 }
{
    push_json_source(text, key.session.sender());
    text.push("\"tsi\":");
    text.push_number(key.session.tsi());
    text.push(",");
    push_json_object(text, &key.object);
}

/// Appends the information: a length in bytes, that of a symbol and that of the longest block.
pub fn push_json_information(text: &mut Text, len: u64, symbol: u16, block: u32)
    requires { length text.old + 160 ≤ 512 }
    ensures text { text.new ≡ text.old ++ json_information (information len symbol block) }
    ensures len { length text.new ≤ length text.old + 160 }
{
    text.push("\"info\":{\"length\":");
    text.push_number(len);
    text.push(",\"symbol\":");
    text.push_number(symbol);
    text.push(",\"block\":");
    text.push_number(block);
    text.push("}");
}

/// Appends a symbol's block, and its place there: all but what else there is of it and its `}`.
pub fn push_json_id(text: &mut Text, id: SymbolId)
    requires { length text.old + 110 ≤ 512 }
    ensures text { text.new ≡ text.old ++ json_id id }
    ensures len { length text.new ≤ length text.old + 110 }
{
    text.push("\"symbol\":{\"sbn\":");
    text.push_number(id.sbn);
    text.push(",\"esi\":");
    text.push_number(id.esi);
}

/// Appends a symbol's block, its place there, and how many bytes it has: all but these and its `}`.
pub fn push_json_symbol(text: &mut Text, id: SymbolId, len: usize)
    requires { length text.old + 160 ≤ 512 }
    ensures text { text.new ≡ text.old ++ json_symbol id len }
    ensures len { length text.new ≤ length text.old + 160 }
{
    push_json_id(text, id);
    text.push(",\"length\":");
    text.push_number(len);
}

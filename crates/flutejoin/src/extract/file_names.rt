//! The name that the file of an object gets in the folder of `extract --all`.
ghost use Rattle.std.specs.Prelude.{◌≡◌, ◌≤◌, length};
ghost use Rattle.flute_parts.specs.declared.key.Key.{Key as Name};
ghost use Rattle.flutejoin.specs.FileNames.{file_name, IsKey};

use crate::lines::text::Text;
use flute_parts::Key;

/// The name of an object as a file: 32 digits of the sender's address, the TSI, and the TOI or
/// `fdt` and an FDT Instance's ID, with `-` between them.
pub fn file_name(key: &Key) -> Text
    ensures name { result ≡ file_name key.now }
    ensures len { length result ≤ 200 }
{
    let mut digits = [0; 32];
    let address = key.session.sender().number();
    hex::encode_to_slice(address.to_be_bytes().as_slice(), &mut digits).unwrap();
    let mut text = Text::new();
    text.push_bytes(&digits);
    text.push("-");
    text.push_number(key.session.tsi());
    text.push("-");
    match key.object.instance() {
        Some(instance) => {
            text.push("fdt");
            text.push_number(instance);
        }
        None => text.push_number(key.object.toi()),
    }
    text
}

/// Different objects have different names as files.
pub fn different_objects_have_different_names()
    ensures { (a b : Name) → IsKey a → IsKey b → file_name a ≡ file_name b → a ≡ b }
{}

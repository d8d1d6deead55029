//! The names of files in memory, each with its bytes.
ghost use Rattle.std.specs.Prelude.{◌≡◌, map, option_map};
ghost use Rattle.flutejoin_memory.specs.MemoryFiles.{files_of};
ghost use Rattle.flutejoin_memory.specs.NamedFiles.{with_bytes};

/// A name, and the bytes of its file.
#[derive(Clone, Copy, Debug)]
pub struct NamedBytes<'a> {
    pub name: &'a str,
    pub bytes: &'a [u8],
}

/// The first of these that has the name.
pub fn named<'a>(files: &'a [NamedBytes<'a>], name: &str) -> Option<&'a NamedBytes<'a>>
    ensures { option_map (λ file. file.now.bytes.now) result
        ≡ files_of (map with_bytes files.now) name.now }
{
    for file in files {
        if file.name == name {
            return Some(file);
        }
    }
    None
}

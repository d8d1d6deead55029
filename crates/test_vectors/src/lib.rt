//! What the tests of several crates read: datagrams and journals in hexadecimal, by name,
//! and numbers that look random.
//!
//! The datagrams of session 7 and file 1 belong to a file `hello` of 5 bytes, in symbols of 4
//! bytes and blocks of at most 2 symbols, so one block of two symbols. Spaces and line feeds are
//! no part of the bytes.
#![tactic(auto)]

mod draw;
pub mod journals;
pub mod written;

pub use draw::Draw;
use std::alloc::Global;
use std::test::Fail;

/// EXT_FTI with 5, 4 and 2, and symbol 0 of block 0.
pub const INFO_AND_FIRST_SYMBOL: &str =
    "10A00800 00000000 00000007 00000001 40040000 00000005 00000004 00000002 00000000 68656C6C";

/// EXT_FTI, and the last symbol, short.
pub const INFO_AND_LAST_SYMBOL: &str =
    "10A00800 00000000 00000007 00000001 40040000 00000005 00000004 00000002 00000001 6F";

/// EXT_FTI, and the last symbol, padded to 4 bytes.
pub const INFO_AND_PADDED_SYMBOL: &str =
    "10A00800 00000000 00000007 00000001 40040000 00000005 00000004 00000002 00000001 6F000000";

/// Symbol 0 with a TSI and a TOI of 16 bits each.
pub const FIRST_SYMBOL_NARROW: &str = "10100300 00000000 00070001 00000000 68656C6C";

/// EXT_FTI and no symbol.
pub const INFO_ALONE: &str =
    "10A00800 00000000 00000007 00000001 40040000 00000005 00000004 00000002";

/// EXT_FTI with other information: blocks of at most 3 symbols.
pub const OTHER_INFO: &str =
    "10A00800 00000000 00000007 00000001 40040000 00000005 00000004 00000003";

/// The last symbol, without EXT_FTI.
pub const LAST_SYMBOL: &str = "10A00400 00000000 00000007 00000001 00000001 6F";

/// Symbol 0, without EXT_FTI.
pub const FIRST_SYMBOL: &str = "10A00400 00000000 00000007 00000001 00000000 68656C6C";

/// The last symbol with a byte too many.
pub const LONG_LAST_SYMBOL: &str = "10A00400 00000000 00000007 00000001 00000001 6F21";

/// Symbol 2 of block 0, which the file does not have.
pub const STRAY_SYMBOL: &str = "10A00400 00000000 00000007 00000001 00000002 78";

/// A TSI of 48 bits, and the largest TOI, which has 112.
pub const WIDEST_FIELDS: &str =
    "10F00700 00000000 00000000 0007FFFF FFFFFFFF FFFFFFFF FFFFFFFF 00000000 61";

/// FDT Instance 3.
pub const FDT_INSTANCE: &str = "10A00500 00000000 00000007 00000000 C0200003 00000000 3C";

/// FDT Instance 4.
pub const OTHER_FDT_INSTANCE: &str = "10A00500 00000000 00000007 00000000 C0200004 00000000 3D";

/// EXT_FTI of a file with no bytes, with symbols and blocks of 0.
pub const INFO_OF_EMPTY_FILE: &str =
    "10A00800 00000000 00000007 00000001 40040000 00000000 00000000 00000000";

/// File 1 of session 8.
pub const OTHER_SESSION: &str = "10A00400 00000000 00000008 00000001 00000000 61";

/// File 2.
pub const OTHER_FILE: &str = "10A00400 00000000 00000007 00000002 00000000 61";

/// Three bytes, which are too few.
pub const REFUSED: &str = "10A000";

/// The bytes that a text in hexadecimal has.
pub fn bytes(alloc: Global, text: &str) -> Result<Vec<u8>, Fail> {
    bytes_of(alloc, &[text])
}

/// The bytes that texts in hexadecimal have together.
pub fn bytes_of(alloc: Global, texts: &[&str]) -> Result<Vec<u8>, Fail> {
    let mut digits = String::new(alloc);
    for text in texts {
        push_words(&mut digits, text)?;
    }
    Ok(hex::decode(alloc, digits.as_str())?)
}

fn push_words(digits: &mut String, text: &str) -> Result<(), Fail> {
    for word in text.split_whitespace() {
        digits.push_str(word)?;
    }
    Ok(())
}

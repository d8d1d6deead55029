//! Short texts, put together in place.

use arrayvec::ArrayVec;
use itoa::{Buffer, Integer};
use std::marker::Model;

/// How many bytes a text has room for: more than any line without a symbol's bytes.
const ROOM: usize = 512;

/// A text of a line's words and numbers. It takes no memory.
#[derive(Drop)]
pub struct Text {
    bytes: ArrayVec<u8, ROOM>,
}

impl Model for Text {
    ghost use Rattle.std.specs.Prelude.{List, ℕ};

    ghost Value = { List ℕ };

    ghost view = { λ t. t.bytes.items };
}

impl Text {
    ghost use Rattle.std.specs.Prelude.{◌≡◌, ◌+◌, ◌≤◌, [], ◌++◌, length, decimal};

    /// A text of no bytes.
    pub fn new() -> Text
        ensures { result ≡ [] }
    {
        Text {
            bytes: ArrayVec::new(),
        }
    }

    /// Appends words.
    pub fn push(&mut self, words: &str)
        requires { length self.old + length words.now ≤ 512 }
        ensures text { self.new ≡ self.old ++ words.now }
        ensures len { length self.new ≡ length self.old + length words.now }
    {
        self.push_bytes(words.as_bytes());
    }

    /// Appends bytes.
    pub fn push_bytes(&mut self, bytes: &[u8])
        requires { length self.old + length bytes.now ≤ 512 }
        ensures text { self.new ≡ self.old ++ bytes.now }
        ensures len { length self.new ≡ length self.old + length bytes.now }
    {
        let _done = self.bytes.try_extend_from_slice(bytes);
    }

    /// Appends a number in decimal.
    pub fn push_number<I: Integer>(&mut self, number: I)
        requires { length self.old + 40 ≤ 512 }
        ensures text { self.new ≡ self.old ++ I.text number }
        ensures len { length self.new ≤ length self.old + 40 }
    {
        let mut digits = Buffer::new();
        self.push(digits.format(number));
    }

    /// Appends words and a number of 64 bits.
    pub fn push_named(&mut self, words: &str, number: u64)
        requires { length self.old + length words.now + 40 ≤ 512 }
        ensures text { self.new ≡ self.old ++ (words.now ++ decimal number) }
        ensures len { length self.new ≤ length self.old + length words.now + 20 }
    {
        self.push(words);
        self.push_number(number);
    }

    /// The bytes.
    pub fn as_slice(&self) -> &[u8]
        ensures { result.now ≡ self.now }
    {
        self.bytes.as_slice()
    }
}

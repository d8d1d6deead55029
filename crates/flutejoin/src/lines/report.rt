//! The lines that report what a command did.
ghost use Rattle.std.specs.Prelude.{◌≡◌, ◌+◌, ◌≤◌, [], ◌++◌, length};
ghost use Rattle.flutejoin.specs.Lines.{count_line, line};
ghost use Rattle.flutejoin.specs.Refused.{reason_line, reason_lines};

use crate::join::reasons::Reasons;
use crate::lines::text::Text;
use arrayvec::ArrayVec;
use flute_wire::{REFUSALS, Refusal};
use std::marker::Model;

/// How many bytes a report has room for: more than any has.
const ROOM: usize = 2048;

/// Lines, one after the other. It takes no memory.
#[derive(Drop)]
pub struct Report {
    bytes: ArrayVec<u8, ROOM>,
}

impl Model for Report {
    ghost use Rattle.std.specs.Prelude.{List, ℕ};

    ghost Value = { List ℕ };

    ghost view = { λ r. r.bytes.items };
}

impl Report {
    /// No lines.
    pub fn new() -> Report
        ensures { result ≡ [] }
    {
        Report {
            bytes: ArrayVec::new(),
        }
    }

    // Appends a line of words of at most 79 bytes.
    fn push_line(&mut self, mut words: Text)
        requires { (length self.old + 80 ≤ 2048) × (length words ≤ 79) }
        ensures text { self.new ≡ self.old ++ line words }
        ensures len { length self.new ≤ length self.old + 80 }
    {
        words.push("\n");
        let _done = self.bytes.try_extend_from_slice(words.as_slice());
    }

    /// Appends a line of a word of at most 20 bytes and a number.
    pub fn push_count(&mut self, word: &str, count: u64)
        requires { (length self.old + 80 ≤ 2048) × (length word.now ≤ 20) }
        ensures text { self.new ≡ self.old ++ count_line word.now count }
        ensures len { length self.new ≤ length self.old + 80 }
    {
        let mut words = Text::new();
        words.push(word);
        words.push(" ");
        words.push_number(count);
        self.push_line(words);
    }

    /// Appends a line for each reason for which datagrams were refused: how many, and which it is.
    pub fn push_reasons(&mut self, reasons: &Reasons)
        requires { length self.old + 1600 ≤ 2048 }
        ensures text { self.new ≡ self.old ++ reason_lines reasons.now }
        ensures len { length self.new ≤ length self.old + 1600 }
    {
        for why in &REFUSALS {
            self.push_reason(reasons, *why);
        }
    }

    // Appends the line of this one, if there is any such datagram.
    fn push_reason(&mut self, reasons: &Reasons, why: Refusal)
        requires { length self.old + 80 ≤ 2048 }
        ensures text { self.new ≡ self.old ++ reason_line reasons.now why }
        ensures len { length self.new ≤ length self.old + 80 }
    {
        let count = reasons.count(why);
        if count == 0 {
            return;
        }
        let mut words = Text::new();
        words.push("refused ");
        words.push_number(count);
        words.push(": ");
        words.push(why.words());
        self.push_line(words);
    }

    /// The bytes.
    pub fn as_slice(&self) -> &[u8]
        ensures { result.now ≡ self.now }
    {
        self.bytes.as_slice()
    }
}

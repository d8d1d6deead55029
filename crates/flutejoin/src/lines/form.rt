//! The form of printed lines: words, or JSON.

/// In which form lines are printed.
#[derive(Clone, Copy)]
pub enum Form {
    /// Words and numbers.
    Plain,
    /// An object of JSON a line (RFC 8259), in ASCII: the same values, by their names.
    Json,
}

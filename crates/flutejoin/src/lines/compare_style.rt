//! What `compare` prints of two journals: objects or sessions, as words or JSON.

use crate::lines::form::Form;

/// What `compare` prints of two journals, and whether they have to be the same. If nothing is set,
/// each object has a line.
#[derive(Clone, Copy)]
pub struct CompareStyle {
    /// Whether it is a fault if anything that is listed differs. All is printed before.
    pub check: bool,
    /// Whether the objects of a session have one line together.
    pub summary: bool,
    /// In which form all lines are.
    pub form: Form,
}

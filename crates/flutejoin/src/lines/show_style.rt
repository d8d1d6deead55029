//! What `show` prints of the entries: their bytes or sums, as words or JSON.

use crate::lines::form::Form;

/// What `show` prints of an entry, and in which form.
#[derive(Clone, Copy)]
pub struct ShowStyle {
    pub form: Form,
    /// Whether a symbol has a sum of its bytes in its line. In plain lines it stands in place of
    /// them; a line of JSON never has the bytes.
    pub sums: bool,
}

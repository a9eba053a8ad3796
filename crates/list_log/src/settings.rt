//! What is shown of a log.

use list_text::Form;

/// What is shown of a log, and in which form.
#[derive(Clone, Copy)]
pub struct Settings<'a> {
    pub form: Form,
    /// The sequences whose records are shown: from the first to the second.
    pub from: u64,
    pub to: u64,
    /// The key whose operations are shown, if it isn't all of them.
    pub key: Option<&'a [u8]>,
    /// Whether reading goes on after damage, and gaps between sequences are named.
    pub scan: bool,
}

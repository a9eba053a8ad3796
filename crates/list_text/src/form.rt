//! In which form a log is shown, and where a record is.

/// The form in which a log is shown: each line an object of JSON, or words; and bytes as text, or in hexadecimal
/// digits.
#[derive(Clone, Copy)]
pub struct Form {
    pub json: bool,
    pub text: bool,
}

/// Where a record is: the offset of its first fragment, and the one after its last; and how many bytes it has.
#[derive(Clone, Copy)]
pub struct RecordPlace {
    pub start: u64,
    pub end: u64,
    pub size: u64,
}

//! An operation, as parts of a record's bytes.

/// The strings of an operation. They are parts of the record's bytes.
#[derive(Clone, Copy)]
pub enum Strings<'a> {
    None,
    One(&'a [u8]),
    Two(&'a [u8], &'a [u8]),
}

/// An operation of a batch: its tag, the family that it names, if the tag says that it names one, and its strings.
#[derive(Clone, Copy)]
pub struct OperationView<'a> {
    pub tag: u8,
    pub family: Option<u32>,
    pub strings: Strings<'a>,
}

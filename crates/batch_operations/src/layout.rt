//! What follows the tag of an operation.

ghost use Rattle.std.specs.Prelude.{◌≡◌};
ghost use Rattle.batch_operations.specs.Operations as operations;

/// What follows a tag, and whether the operation takes a sequence.
#[derive(Clone, Copy)]
pub struct Layout {
    /// Whether the number of a column family follows.
    pub names_family: bool,
    /// How many strings come after that: none, one or two.
    pub strings: u8,
    /// Whether the operation takes a sequence.
    pub counts: bool,
}

/// An operation about a key, with one string or two.
const KEY: Option<Layout> = Some(Layout {
    names_family: false,
    strings: 1,
    counts: true,
});

const KEY_AND_VALUE: Option<Layout> = Some(Layout {
    names_family: false,
    strings: 2,
    counts: true,
});

/// The same in a family that is named.
const KEY_IN: Option<Layout> = Some(Layout {
    names_family: true,
    strings: 1,
    counts: true,
});

const KEY_AND_VALUE_IN: Option<Layout> = Some(Layout {
    names_family: true,
    strings: 2,
    counts: true,
});

/// A mark, or a note: it takes no sequence.
const MARK: Option<Layout> = Some(Layout {
    names_family: false,
    strings: 0,
    counts: false,
});

const NOTE: Option<Layout> = Some(Layout {
    names_family: false,
    strings: 1,
    counts: false,
});

const TWO_NOTES: Option<Layout> = Some(Layout {
    names_family: false,
    strings: 2,
    counts: false,
});

/// The layouts of the tags from 0 on, `ValueType` of RocksDB's db/dbformat.h. The tag 14 in hexadecimal, a deletion
/// with a timestamp, is never in a log.
const LAYOUTS: [Option<Layout>; 26] = [
    KEY, // 00 a deletion
    KEY_AND_VALUE, // 01 a value
    KEY_AND_VALUE, // 02 a merge: its key and its operand
    NOTE, // 03 log data
    KEY_IN, // 04 a deletion in a family
    KEY_AND_VALUE_IN, // 05 a value in a family
    KEY_AND_VALUE_IN, // 06 a merge in a family
    KEY, // 07 a single deletion
    KEY_IN, // 08 a single deletion in a family
    MARK, // 09 a transaction's preparation begins
    NOTE, // 0a it ends, with the transaction's name
    NOTE, // 0b a commit, with the name
    NOTE, // 0c a rollback, with the name
    MARK, // 0d nothing
    KEY_AND_VALUE_IN, // 0e a range deletion in a family: its first key, and the one after its last
    KEY_AND_VALUE, // 0f a range deletion
    KEY_AND_VALUE_IN, // 10 a blob index in a family
    KEY_AND_VALUE, // 11 a blob index
    MARK, // 12 the preparation of a transaction that is in the database begins
    MARK, // 13 that of a part of one begins
    None,
    TWO_NOTES, // 15 a commit with a timestamp: that, and the name
    KEY_AND_VALUE, // 16 wide columns
    KEY_AND_VALUE_IN, // 17 wide columns in a family
    KEY_AND_VALUE, // 18 a value with the time at which it was written
    KEY_AND_VALUE_IN, // 19 the same in a family
];

/// What follows this tag, if it is known.
pub fn layout_of(tag: u8) -> Option<Layout>
    ensures { result ≡ operations.layout_of tag }
{
    LAYOUTS.get(usize::from(tag)).copied().flatten()
}

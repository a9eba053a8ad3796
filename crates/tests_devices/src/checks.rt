//! A comparison as a function, so that the tests that make it are short: a long test is slow to prove.

use std::fmt::Debug;
use std::process::Abort;

/// Compares what a row of a table gave with what it should give. A test with no table has row 0 alone.
pub(crate) fn check<T: PartialEq + Debug>(rt: &impl Abort, row: usize, found: &T, wanted: &T) {
    assert_eq!(rt; *found, *wanted, "row {row}");
}

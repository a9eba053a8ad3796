//! The number with which a log is read.

ghost use Rattle.std.specs.Prelude.{◌≡◌, IfSome, IfOk, IfErr, OnOk};
ghost use Rattle.log_reader.specs.Opens.{IsOpenError};
ghost use Rattle.list_call.specs.Calls as calls;

use crate::sentences::say_number;
use base_devices::{ReadAt, Sink};
use log_reader::OpenError;
use log_scan::own_number;
use std::alloc::Global;

/// The number with which the log is read: the one that is said, and otherwise the one in its first header, if it
/// reads with it. What was done is said, unless a number was.
pub fn number_for<R: ReadAt, E: Sink>(
    alloc: Global,
    said: Option<u32>,
    file: &mut R,
    errors: &mut E,
) -> Result<Option<u32>, OpenError>
    ensures number { IfSome (R.held file.old) (λ bytes. IfOk result (λ n. n ≡ calls.number_for said bytes)) }
    ensures worked { OnOk result (R.failures file.new ≡ R.failures file.old) }
    ensures error { IfErr result (IsOpenError (R.failures file.old) (R.failures file.new)) }
    ensures file { R.only_reads file.old file.new }
{
    if said.is_some() {
        return Ok(said);
    }
    let number = own_number(alloc, file)?;
    if let Some(number) = number {
        say_number(errors, number);
    }
    Ok(number)
}

//! The numbers for answers and for reasons.

ghost use Rattle.std.specs.Prelude.{◌≡◌};
ghost use Rattle.wolzenn_c.specs.Reasons.{damage_code, reason_code, numbers_of, end_of as end_in_numbers};

use model_base::{Damage, EndReason};

/// It was done.
pub const DONE: u32 = 0;

/// There was no memory.
pub const NO_MEMORY: u32 = 1;

/// The handle holds nothing of the kind that the function works on.
pub const CLOSED: u32 = 2;

/// The buffer is too small. Nothing was written to it.
pub const SMALL: u32 = 3;

/// There is no more.
pub const END: u32 = 4;

/// The batch would have too many bytes.
pub const TOO_LARGE: u32 = 5;

/// The log ends in a way that the mode doesn't accept.
pub const DAMAGE: u32 = 6;

/// The bytes are no batch.
pub const NO_BATCH: u32 = 7;

/// A number is none of those that the function takes.
pub const RANGE: u32 = 8;

/// A record was found, and before it a stretch in which none reads.
pub const UNREAD: u32 = 9;

/// At which offset something ended, why, and the reason's own numbers.
#[repr(C)]
#[derive(Clone, Copy, Debug, Drop)]
pub struct WzEnd {
    pub at: u64,
    pub why: u32,
    pub first: u64,
    pub second: u64,
}

/// An end in numbers.
pub fn end_of(at: u64, why: EndReason) -> WzEnd
    ensures { result ≡ end_in_numbers at why }
{
    let (first, second) = numbers(why);
    WzEnd {
        at,
        why: code_of(why),
        first,
        second,
    }
}

/// The code of a reason.
fn code_of(why: EndReason) -> u32
    ensures { result ≡ reason_code why }
{
    match why {
        EndReason::Clean => 1,
        EndReason::Broken(damage) => code_of_damage(damage),
        EndReason::BadOrder => 9,
        EndReason::Unfinished => 10,
        EndReason::Short => 11,
        EndReason::BadVarint => 12,
        EndReason::Tag(_) => 13,
        EndReason::Count { .. } => 14,
        EndReason::Order { .. } => 15,
        EndReason::High { .. } => 16,
    }
}

/// The code of a damage.
fn code_of_damage(damage: Damage) -> u32
    ensures { result ≡ damage_code damage }
{
    match damage {
        Damage::ShortHeader => 2,
        Damage::Zeros => 3,
        Damage::BadLength => 4,
        Damage::BadType(_) => 5,
        Damage::BadChecksum => 6,
        Damage::BadTrailer => 7,
        Damage::OldLog(_) => 8,
    }
}

/// The reason's own numbers.
fn numbers(why: EndReason) -> (u64, u64)
    ensures { result ≡ numbers_of why }
{
    match why {
        EndReason::Broken(Damage::BadType(kind)) => (u64::from(kind), 0),
        EndReason::Broken(Damage::OldLog(number)) => (u64::from(number), 0),
        EndReason::Tag(tag) => (u64::from(tag), 0),
        EndReason::Count { said, found } => (u64::from(said), found),
        EndReason::Order { first, last } => (first, last),
        EndReason::High { first, count } => (first, u64::from(count)),
        _ => (0, 0),
    }
}

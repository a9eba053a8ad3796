//! Why reading ended, or why bytes are no operation.

ghost use Rattle.std.specs.Prelude.{◌≡◌, ◌∷◌, ◌++◌, flat_map, decimal, OnOk};
ghost use Rattle.list_text.specs.Lines as lines;

use crate::digits::put_numbers;
use base_bytes::Bytes;
use model_base::{BatchError, Damage, EndReason, NoMemory};

/// Appends why reading ended: a word, and then its numbers, if it has some. These are the reasons of `recover`.
pub fn put_reason(text: &mut Bytes, why: EndReason) -> Result<(), NoMemory>
    ensures { OnOk result (text.new ≡ text.old ++ lines.reason why) }
{
    match why {
        EndReason::Clean => text.append(b"clean"),
        EndReason::Broken(damage) => put_damage(text, damage),
        EndReason::BadOrder => text.append(b"badorder"),
        EndReason::Unfinished => text.append(b"unfinished"),
        EndReason::Short => text.append(b"short"),
        EndReason::BadVarint => text.append(b"badvarint"),
        EndReason::Tag(tag) => put_with(text, b"tag", &[u64::from(tag)]),
        EndReason::Count { said, found } => put_with(text, b"count", &[u64::from(said), found]),
        EndReason::Order { first, last } => put_with(text, b"order", &[first, last]),
        EndReason::High { first, count } => put_with(text, b"high", &[first, u64::from(count)]),
    }
}

fn put_damage(text: &mut Bytes, damage: Damage) -> Result<(), NoMemory>
    ensures { OnOk result (text.new ≡ text.old ++ lines.damage_reason damage) }
{
    match damage {
        Damage::ShortHeader => text.append(b"shortheader"),
        Damage::Zeros => text.append(b"zeros"),
        Damage::BadLength => text.append(b"badlength"),
        Damage::BadType(kind) => put_with(text, b"badtype", &[u64::from(kind)]),
        Damage::BadChecksum => text.append(b"badchecksum"),
        Damage::BadTrailer => text.append(b"badtrailer"),
        Damage::OldLog(number) => put_with(text, b"oldlog", &[u64::from(number)]),
    }
}

/// Appends a word, and then numbers, each after a space.
fn put_with(text: &mut Bytes, word: &[u8], numbers: &[u64]) -> Result<(), NoMemory>
    ensures { OnOk result (text.new ≡ text.old ++ word.now ++ flat_map (λ n. 32 ∷ decimal n) numbers.now) }
{
    text.append(word)?;
    put_numbers(text, numbers)
}

/// The reason for which bytes are no operation, as a reason for which recovery ends.
pub fn reason_of(error: BatchError) -> EndReason
    ensures { result ≡ lines.reason_of error }
{
    match error {
        BatchError::Short => EndReason::Short,
        BatchError::BadVarint => EndReason::BadVarint,
        BatchError::Tag(tag) => EndReason::Tag(tag),
        BatchError::Count { said, found } => EndReason::Count { said, found },
    }
}

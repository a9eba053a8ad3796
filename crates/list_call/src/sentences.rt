//! What is said on standard error. It is for people, and may change: no clause says anything of it.

use crate::around::say_around;
use crate::status::{Answer, LogEnd, Status};
use base_devices::{ReadAt, Sink, write_all};
use itoa::Buffer;
use log_scan::first_number;
use model_base::{Damage, EndReason};

/// Says a sentence. If that fails, there is nobody to say it to.
pub fn say<E: Sink>(errors: &mut E, sentence: &str) {
    put(errors, "wzlog: ");
    put(errors, sentence);
    put(errors, "\n");
}

/// Writes a part of a sentence.
pub fn put<E: Sink>(errors: &mut E, part: &str) {
    let _ = write_all(errors, part.as_bytes());
}

/// Writes a number.
pub fn put_number<E: Sink>(errors: &mut E, number: u64) {
    let mut digits = Buffer::new();
    put(errors, digits.format(number));
}

/// Says with which number a log is read that none was said for.
pub fn say_number<E: Sink>(errors: &mut E, number: u32) {
    put(errors, "wzlog: the log's first header has the number ");
    put_number(errors, u64::from(number));
    put(errors, ", with which it is read\n");
}

/// Says the number of the log's first header, if it has one and none was given.
pub fn say_first_number<R: ReadAt, E: Sink>(file: &mut R, errors: &mut E, given: Option<u32>)
    ensures file { R.only_reads file.old file.new }
{
    if given.is_some() {
        return;
    }
    if let Ok(Some(number)) = first_number(file) {
        put(errors, "wzlog: this log has the number ");
        put_number(errors, u64::from(number));
        put(errors, " in its first header: --number ");
        put_number(errors, u64::from(number));
        put(errors, "\n");
    }
}

/// Says it if reading ends at the log's start, since a number might be missing.
fn say_first_number_at<R: ReadAt, E: Sink>(
    file: &mut R,
    errors: &mut E,
    given: Option<u32>,
    at: u64,
)
    ensures file { R.only_reads file.old file.new }
{
    if at == 0 {
        say_first_number(file, errors, given);
    }
}

/// Says what the end of a call may mean, with the bytes around it, if all was shown or the mode doesn't accept that
/// end, unless it is that of a whole log. The file is read for it. `page` is where the page RECOVERY is.
pub fn say_after<R: ReadAt, E: Sink>(answer: Answer, page: &str, file: &mut R, errors: &mut E)
    ensures file { R.only_reads file.old file.new }
{
    if let (Status::Done | Status::Damage, Some(end)) = (answer.status, answer.end) {
        say_end(end, page, file, errors);
    }
}

fn say_end<R: ReadAt, E: Sink>(end: LogEnd, page: &str, file: &mut R, errors: &mut E)
    ensures file { R.only_reads file.old file.new }
{
    let LogEnd { number, at, why } = end;
    match why {
        EndReason::Clean => {}
        EndReason::Broken(Damage::OldLog(other)) => say_old_log(end, other, page, file, errors),
        _ => {
            say_first_number_at(file, errors, number, at);
            put(errors, "wzlog: reading ended at ");
            put_number(errors, at);
            put(errors, ": ");
            put(errors, meaning_of(why));
            put(errors, "\n");
            say_older(errors, number, why);
            say_no_log(errors, at, why);
            say_to_do(errors, why, page);
            say_around(file, errors, at);
        }
    }
}

/// Says what it means that a newer log's fragment follows. An older one's is how a log ends that was written over it.
fn say_old_log<R: ReadAt, E: Sink>(
    end: LogEnd,
    other: u32,
    page: &str,
    file: &mut R,
    errors: &mut E,
)
    ensures file { R.only_reads file.old file.new }
{
    if end.number.is_some_and(|number| other > number) {
        put(errors, "wzlog: the fragment at ");
        put_number(errors, end.at);
        put(errors, " is of the log ");
        put_number(errors, u64::from(other));
        put(
            errors,
            ": the number is wrong, or another file has this name\n",
        );
        say_to_do(errors, end.why, page);
        say_around(file, errors, end.at);
    }
}

/// Says of a log with a number that it may just end there. Where it was written over an older log, its last record may
/// end inside of an older fragment, whose bytes may look like any of these.
fn say_older<E: Sink>(errors: &mut E, number: Option<u32>, why: EndReason) {
    let may_be_older = matches!(
        why,
        EndReason::Broken(Damage::BadType(_) | Damage::BadLength | Damage::BadChecksum)
    );
    if number.is_some() && may_be_older {
        say(
            errors,
            "or the log ends there, if it was written over an older one, whose bytes follow",
        );
    }
}

/// Says of a file whose first fragment doesn't read that it may be none of a log, such as a table of the same database.
fn say_no_log<E: Sink>(errors: &mut E, at: u64, why: EndReason) {
    let may_be_none = match why {
        // These kinds have a sentence of their own.
        EndReason::Broken(Damage::BadType(5..=11 | 130 | 131)) => false,
        EndReason::Broken(Damage::BadType(_) | Damage::BadLength | Damage::BadChecksum) => at == 0,
        _ => false,
    };
    if may_be_none {
        say(
            errors,
            "or this file is no log, since not even its first fragment reads",
        );
    }
}

/// Says what to do at an end, and where more is said of it.
fn say_to_do<E: Sink>(errors: &mut E, why: EndReason, page: &str) {
    put(errors, "wzlog: to do: ");
    put(errors, to_do(why));
    put(errors, "\nwzlog: ");
    put(errors, page);
    put(errors, ", heading `");
    put(errors, heading_of(why));
    put(errors, "`, says more\n");
}

/// What an end may mean.
fn meaning_of(why: EndReason) -> &'static str {
    match why {
        EndReason::Clean => "the file was read to its end",
        EndReason::Broken(damage) => meaning_of_damage(damage),
        EndReason::BadOrder =>
            "a fragment is in a wrong place: a part of the log is lost, or is there twice",
        EndReason::Unfinished =>
            "the file ends inside the record that begins there: an incomplete write",
        EndReason::Short => "the record that begins there ends too early to be a batch",
        EndReason::BadVarint =>
            "the record that begins there has a length or a family that isn't spelled right",
        EndReason::Tag(_) =>
            "the record that begins there has an operation that recovery doesn't apply; `wzlog list` shows it",
        EndReason::Count { .. } =>
            "the record that begins there says another number of operations than it has",
        EndReason::Order { .. } =>
            "the record that begins there doesn't begin above the last sequence before it",
        EndReason::High { .. } => "the record that begins there passes the greatest sequence",
    }
}

/// The same of damage. The kinds are those of RocksDB's db/log_format.h.
fn meaning_of_damage(damage: Damage) -> &'static str {
    match damage {
        Damage::ShortHeader => "fewer bytes than a header has: an incomplete or torn write",
        Damage::Zeros =>
            "only zeros where a header should be: the file is longer than what was written",
        Damage::BadLength =>
            "the header asks for more bytes than are left: an incomplete or torn write, or a damaged length",
        Damage::BadType(5..=8) =>
            "a fragment of a log with a number: --number N, the number of the file's name",
        Damage::BadType(9) => "this log is compressed: RocksDB's `ldb dump_wal` reads it",
        Damage::BadType(10 | 11) =>
            "the sizes of user-defined timestamps, which aren't read; `wzlog scan` goes on after them",
        Damage::BadType(130 | 131) =>
            "a note on the log before this one, which isn't read; `wzlog scan` goes on after it",
        Damage::BadType(_) => "a fragment of a kind that isn't read",
        Damage::BadChecksum =>
            "a checksum mismatch: damage, or a torn write; `wzlog scan` shows what follows",
        Damage::BadTrailer =>
            "bytes that aren't zero at the end of a block: damage, or a torn write",
        Damage::OldLog(_) => "a fragment of another log",
    }
}

/// What to do at an end, in short, as the page RECOVERY says under its heading. A log is truncated in a copy of it.
fn to_do(why: EndReason) -> &'static str {
    match why {
        EndReason::Clean => "nothing",
        EndReason::Broken(damage) => to_do_at_damage(damage),
        EndReason::BadOrder =>
            "ask whether files were joined, a front removed, or two programs wrote; `wzlog scan` shows what follows",
        EndReason::Unfinished => "truncate a copy there: the last write isn't whole",
        EndReason::Tag(_) => "find out who wrote the log: to apply such an operation takes RocksDB",
        EndReason::Order { .. } =>
            "ask whether an older log lay there (then the newer was read), logs were joined, or two programs wrote",
        EndReason::Short
        | EndReason::BadVarint
        | EndReason::Count { .. }
        | EndReason::High { .. } =>
            "find out which program wrote it so; truncate a copy there only if you know what the record was to be",
    }
}

fn to_do_at_damage(damage: Damage) -> &'static str {
    match damage {
        Damage::ShortHeader =>
            "truncate a copy there: if a write was incomplete, only that write is lost",
        Damage::Zeros =>
            "if only zeros follow, truncate a copy there; if not, a page was lost: take a backup, or another copy",
        Damage::BadLength =>
            "if the file ends in this block, truncate a copy there; if it goes on, take a backup, or another copy",
        Damage::BadType(1..=4) =>
            "if this is the first fragment, the log has no number: read it without one",
        Damage::BadType(5..=8) =>
            "if this is the first fragment, read the log with its number, which it then has",
        Damage::BadType(9) => "let RocksDB read it; truncate nothing",
        Damage::BadType(10 | 11 | 130 | 131) =>
            "let RocksDB read it, of a version that writes this; truncate nothing",
        Damage::BadType(_) =>
            "find out who wrote the log; if only you did, a write was torn or the byte is damaged",
        Damage::BadChecksum | Damage::BadTrailer =>
            "if this was written last, truncate a copy there; if not, take a backup, and don't trust the medium",
        Damage::OldLog(_) => "read the log with the number of its own name",
    }
}

/// The heading in the page RECOVERY.
fn heading_of(why: EndReason) -> &'static str {
    match why {
        EndReason::Clean => "clean",
        EndReason::Broken(damage) => heading_of_damage(damage),
        EndReason::BadOrder => "badorder",
        EndReason::Unfinished => "unfinished",
        EndReason::Short => "short",
        EndReason::BadVarint => "badvarint",
        EndReason::Tag(_) => "tag",
        EndReason::Count { .. } => "count",
        EndReason::Order { .. } => "order",
        EndReason::High { .. } => "high",
    }
}

fn heading_of_damage(damage: Damage) -> &'static str {
    match damage {
        Damage::ShortHeader => "shortheader",
        Damage::Zeros => "zeros",
        Damage::BadLength => "badlength",
        Damage::BadType(_) => "badtype",
        Damage::BadChecksum => "badchecksum",
        Damage::BadTrailer => "badtrailer",
        Damage::OldLog(_) => "oldlog",
    }
}

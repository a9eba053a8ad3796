//! Laws of what is kept of a damaged log.
//!
//! `log_salvage` keeps records of what a scan finds. These laws say what that is worth: it is one list, it has each
//! whole batch that is in the order of its block, and a log without damage gives itself.
//!
//! Each law is the contract of a function that does nothing and that nobody calls: it is here so that the law is
//! proved with the crate. `rows` works out what is kept of a small log.
#![tactic(auto)]

mod rows;

ghost use Rattle.std.specs.Prelude.{◌≡◌, ◌*◌, ◌++◌, ℕ, false, List, None, Option};
ghost use Rattle.std.specs.List.{AllByRecursion};
ghost use Rattle.model_base.specs.Log.{Fragment, AreOneRecord, SpellsWhole, kinds_of, record_of};
ghost use Rattle.model_base.specs.Reading.{HasFragments};
ghost use Rattle.log_scan.specs.Resuming.{is_compressed};
ghost use Rattle.log_salvage.specs.Keeping.{HasVerdict};
ghost use Rattle.log_salvage.specs.declared.keeping.Range.{Range};
ghost use Rattle.log_salvage_laws.specs.Kept.{HasRecord, Keeps};

pub use rows::a_changed_byte_is_left_out;

/// The records that are kept of a file are one list: a function of its bytes, its number and the range.
pub fn what_is_kept_is_one_list()
    ensures { (range : Range) (number : Option ℕ) (file : List ℕ) (records others : List (List ℕ))
        → Keeps range number file records → Keeps range number file others → records ≡ others }
{}

/// Whatever is damaged, a whole record that is in the order of its block is kept, if it is a whole batch in the range:
/// from the block's start on the file has fragments that read, and the last of them are the record's. Of a compressed
/// log nothing is kept.
pub fn whole_records_are_kept()
    ensures { (range : Range) (number : Option ℕ) (file : List ℕ) (records : List (List ℕ)) (block : ℕ)
        (before fragments : List Fragment) → Keeps range number file records → is_compressed file ≡ false
        → HasFragments number file (32768 * block) (before ++ fragments) → AreOneRecord (kinds_of fragments)
        → HasVerdict range (record_of fragments) None → HasRecord (record_of fragments) records }
{}

/// A log without damage whose records are all whole batches in the range gives exactly these records. So if it is as a
/// writer makes it, a new log with its number is the same log, byte for byte.
pub fn a_whole_log_gives_its_records()
    ensures { (range : Range) (number : Option ℕ) (file : List ℕ) (records : List (List ℕ))
        → SpellsWhole number file records → AllByRecursion (λ bytes. HasVerdict range bytes None) records
        → Keeps range number file records }
{}

//! Laws of scans: a file has one scan, and all whole records in the order of a block are in it. Both are said of a scan
//! that begins at a place, too; and such a scan goes on with an earlier one, also if the log has grown since.
//!
//! `log_scan` defines what a scan finds by a relation. Such a relation might give a file no scan, or two; or a scan
//! that shows nothing after damage. These laws say that there is one scan, and that whatever is damaged it shows each
//! whole record that follows a block's start without a gap.
//!
//! Each law is the contract of a function that does nothing and that nobody calls: it is here so that the law is
//! proved with the crate. `rows` works out what is found in a small log.
#![tactic(auto)]

mod rows;

ghost use Rattle.std.specs.Prelude.{◌≡◌, ◌*◌, ◌<◌, ◌≤◌, ℕ, Bool, true, false, List, ◌∷◌, ◌++◌, Option};
ghost use Rattle.std.specs.List.{AllByRecursion};
ghost use Rattle.model_base.specs.Log.{Fragment, AreOneRecord, kinds_of, record_of, next_place};
ghost use Rattle.model_base.specs.Reading.{HasFragments, end_of};
ghost use Rattle.log_scan.specs.Resuming.{is_compressed};
ghost use Rattle.log_scan.specs.Scanning.{Item, Finds, IsScan, Scan, whole};
ghost use Rattle.log_scan_laws.specs.FromPlace.{IsScanFrom, HasRecord, PassesStart};

pub use rows::a_changed_byte_is_passed_over;

/// A file has a scan, and only one: what is shown of it is a function of its bytes.
pub fn a_scan_is_one()
    ensures some { (number : Option ℕ) (goes_on : Bool) (file : List ℕ) → AllByRecursion (λ b. b < 256) file
        → (scan : Scan) × IsScan number goes_on file scan }
    ensures at_most_one { (number : Option ℕ) (goes_on : Bool) (file : List ℕ) (one other : Scan)
        → IsScan number goes_on file one → IsScan number goes_on file other → one ≡ other }
{}

/// What is found without going on after damage is the front of what is found with it.
pub fn a_list_is_a_front()
    ensures { (number : Option ℕ) (file : List ℕ) (list scan : Scan) → IsScan number false file list
        → IsScan number true file scan → (more : List Item) × (scan.items ≡ list.items ++ more) }
{}

/// Whatever is damaged, a whole record that is in the order of its block is found: from the block's start on the file
/// has fragments that read, and the last of them are the record's. Of a compressed log nothing is shown.
pub fn whole_records_are_found()
    ensures { (number : Option ℕ) (file : List ℕ) (scan : Scan) (block : ℕ) (before fragments : List Fragment)
        → IsScan number true file scan → is_compressed file ≡ false
        → HasFragments number file (32768 * block) (before ++ fragments) → AreOneRecord (kinds_of fragments)
        → (front rest : List Item) × (scan.items ≡ front ++ whole
        (next_place number (end_of number (32768 * block) before))
        (end_of number (32768 * block) (before ++ fragments)) (record_of fragments) ∷ rest) }
{}

/// From each place of a file there is a scan, and only one: what it finds, where it ends and why.
pub fn a_scan_from_a_place_is_one()
    ensures some { (number : Option ℕ) (goes_on : Bool) (file : List ℕ) (from : ℕ)
        → AllByRecursion (λ b. b < 256) file → (scan : Scan) × IsScanFrom number goes_on file from scan }
    ensures at_most_one { (number : Option ℕ) (goes_on : Bool) (file : List ℕ) (from : ℕ) (one other : Scan)
        → IsScanFrom number goes_on file from one → IsScanFrom number goes_on file from other → one ≡ other }
{}

/// Whatever is damaged, a scan from a place finds a whole record if fragments that read lead to it without a gap.
pub fn whole_records_are_found_from_a_place()
    // They lead from the place itself.
    ensures from_there { (number : Option ℕ) (file : List ℕ) (from : ℕ) (scan : Scan)
        (before fragments : List Fragment) → IsScanFrom number true file from scan
        → HasFragments number file from (before ++ fragments) → AreOneRecord (kinds_of fragments)
        → HasRecord number from before fragments scan.items }
    // Or they lead from the start of a later block: the record is in the order of that block. If the scan begins at the
    // file's start, the log isn't a compressed one.
    ensures in_block_order { (number : Option ℕ) (file : List ℕ) (from : ℕ) (scan : Scan) (block : ℕ)
        (before fragments : List Fragment) → IsScanFrom number true file from scan → PassesStart file from
        → from ≤ 32768 * block → HasFragments number file (32768 * block) (before ++ fragments)
        → AreOneRecord (kinds_of fragments) → HasRecord number (32768 * block) before fragments scan.items }
{}

/// A new scan goes on where an earlier one found its last record, also if the log has grown since.
pub fn a_new_scan_goes_on()
    // What was found is found in the longer log too.
    ensures stays { (number : Option ℕ) (goes_on : Bool) (file more : List ℕ) (from place : ℕ) (items : List Item)
        → Finds number goes_on file from items place → Finds number goes_on (file ++ more) from items place }
    // With what the new scan finds after it, it is what one scan finds.
    ensures joined { (number : Option ℕ) (goes_on : Bool) (file : List ℕ) (from place : ℕ) (items : List Item)
        (scan : Scan) → Finds number goes_on file from items place → IsScanFrom number goes_on file place scan
        → IsScanFrom number goes_on file from
        (record { items = items ++ scan.items; at = scan.at; why = scan.why }) }
{}

//! What a new log has, as laws that have no code.

ghost use Rattle.std.specs.Prelude.{[], ◌++◌, ℕ, List, Option, Some};
ghost use Rattle.log_scan.specs.Scanning.{Item};
ghost use Rattle.log_salvage.specs.Salvaging.{AddsAll, HoldsLog, Source, Written};
ghost use Rattle.log_salvage.specs.declared.counts.Counts.{Counts};
ghost use Rattle.log_salvage.specs.declared.keeping.Range.{Range};

/// What a sink has taken of a new log spells exactly the records that were added, verbatim and in order; of several
/// damaged logs those of the first one, then those of the second one, and so on. So a reader of the new log gets these,
/// and no others.
pub fn a_new_log_spells_what_was_kept()
    ensures begins { (number : Option ℕ) (counts : Counts)
        → HoldsLog (record { log = record { number = number; len = 0 }; counts = counts; taken = Some [] }) [] }
    ensures goes_on { (range : Range) (source : Source) (place : ℕ) (items : List Item) (old new : Written)
        (records : List (List ℕ)) → HoldsLog old records → (adds : AddsAll range source place items old new)
        → HoldsLog new (records ++ adds.records) }
{}

//! The calls of a scan, one after another.

ghost use Rattle.std.specs.Prelude.{◌≡◌, ℕ, List};
ghost use Rattle.model_base.specs.declared.log.EndReason.{EndReason};
ghost use Rattle.log_scan.specs.Scanning.{Item, Finds, Ends, IsScan};
ghost use Rattle.log_in_memory.specs.ScanRuns.{ScansAll};
ghost use Rattle.log_in_memory.specs.declared.scanning.Scan.{Scan};

/// The calls of a scan, one after another, until it ends.
pub fn calls_of_a_scan()
    // From the log's start on they show the scan of the definition, whole and nothing else, with its end.
    ensures whole { (file : List ℕ) (first : Scan) (items : List Item) (at : ℕ) (why : EndReason)
        → ScansAll file first items at why → first.scanner.place ≡ 0
        → IsScan first.scanner.number first.scanner.goes_on file (record { items = items; at = at; why = why }) }
    // From another place on they show what is found from there, and that nothing is found after it.
    ensures rest { (file : List ℕ) (first : Scan) (items : List Item) (at : ℕ) (why : EndReason)
        → ScansAll file first items at why
        → (place : ℕ) × Finds first.scanner.number first.scanner.goes_on file first.scanner.place items place
        × Ends first.scanner.number first.scanner.goes_on file place at why }
{}

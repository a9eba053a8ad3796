//! What a record shows, as laws that have no code.

ghost use Rattle.std.specs.Prelude.{◌≡◌, ◌<◌, false, ℕ, List};
ghost use Rattle.std.specs.List.{AllByRecursion};
ghost use Rattle.model_base.specs.declared.batch.BatchError.{BatchError};
ghost use Rattle.model_base.specs.Batch.{Record, IsBatch, IsBatchError};
ghost use Rattle.batch_operations.specs.Shown.{ShownRecord, Shows};
ghost use Rattle.batch_operations.specs.Batches.{shown_batch, is_for_tag, ShowsFault};

/// The bytes of a record show something, and only one thing. So what is printed of them is a function of the bytes.
pub fn a_record_shows_one_thing()
    ensures some { (bytes : List ℕ) → AllByRecursion (λ b. b < 256) bytes → (shown : ShownRecord) × Shows bytes shown }
    ensures at_most_one { (bytes : List ℕ) (one other : ShownRecord) → Shows bytes one → Shows bytes other
        → one ≡ other }
{}

/// A batch that recovery reads is shown as the same records, and without a fault.
pub fn batches_are_shown()
    ensures { (bytes : List ℕ) (sequence : ℕ) (records : List Record) → IsBatch bytes sequence records
        → Shows bytes (shown_batch sequence records) }
{}

/// What recovery refuses a batch for is the fault that is shown, unless it is a tag: more tags are shown than recovery
/// reads.
pub fn refusals_are_shown()
    ensures { (bytes : List ℕ) (error : BatchError) → IsBatchError bytes error → is_for_tag error ≡ false
        → ShowsFault bytes error }
{}

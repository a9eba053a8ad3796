//! Laws of reading and of recovery: each is a function of the log's bytes.
//!
//! The model defines what a log's bytes mean by relations. A relation might give some bytes no meaning: then a promise
//! about all that is recovered from them would say nothing. Or it might give them two meanings. These laws say that
//! there is always a meaning, and only one. That there is one is promised for lists of bytes, that is of numbers below
//! 256.
//!
//! Each law is the contract of a function that does nothing and that nobody calls: it is here so that the law is
//! proved with the crate.
#![tactic(auto)]

ghost use Rattle.std.specs.Prelude.{◌≡◌, ◌⊎◌, ◌≤◌, ℕ, List, [], ◌∷◌, length, map, take, Option, Some, None, ⊤};
ghost use Rattle.model_base.specs.declared.batch.BatchError.{BatchError};
ghost use Rattle.model_base.specs.declared.log.Damage.TheVariants.{ShortHeader};
ghost use Rattle.model_base.specs.declared.log.EndReason.{EndReason};
ghost use Rattle.model_base.specs.declared.log.EndReason.TheVariants.{Clean, Broken};
ghost use Rattle.model_base.specs.Batch.{Record, IsBatch, IsBatchError};
ghost use Rattle.model_base.specs.Log.{SpellsWhole, plain_log};
ghost use Rattle.model_base.specs.Recovery.{Logged, logged_bytes, Recovered, IsRecovered, IsRead, NoChance, NoChanceForReader};
ghost use Rattle.log_laws.specs.Prefixes.{IsPrefix, RecoversPrefix, AreTheseBatches, BeginsWith};
ghost use Rattle.log_laws.specs.Fronts.{AreFront, NoChances, RecoverPrefix, plain_text, records_in};
ghost use Rattle.model_base.specs.RecoveredLogs.{RecoveredLogs, AreRecovered, in_first};
ghost use Rattle.log_recovery_laws.specs.Images.{MeetsNoOther};
ghost use Rattle.log_recovery_laws.specs.Reads.{AreBytes, Answer, found, ended, Reads, nothing_until};

/// Reading a log on from any offset gives one answer, a record or an end, and never both.
pub fn reading_is_a_function()
    ensures some { (number : Option ℕ) (file : List ℕ) (offset : ℕ) → AreBytes file
        → (answer : Answer) × Reads number file offset answer }
    ensures at_most_one { (number : Option ℕ) (file : List ℕ) (offset : ℕ) (one other : Answer)
        → Reads number file offset one → Reads number file offset other → one ≡ other }
    ensures never_both { (number : Option ℕ) (file : List ℕ) (offset start end at : ℕ) (bytes : List ℕ)
        (why : EndReason)
        → Reads number file offset (found start end bytes) → Reads number file offset (ended at why) → ⊥ }
{}

/// So a reader of records gets exactly one list of them from a file: the records before the first damage.
pub fn reading_all_is_a_function()
    ensures some { (number : Option ℕ) (file : List ℕ) → AreBytes file
        → (records : List (List ℕ)) × IsRead number file records }
    ensures at_most_one { (number : Option ℕ) (file : List ℕ) (one other : List (List ℕ))
        → IsRead number file one → IsRead number file other → one ≡ other }
{}

/// Bytes are one batch, with one first sequence and one list of records, or there is one reason why they are no batch.
pub fn a_batch_or_one_error()
    ensures some { (bytes : List ℕ) → AreBytes bytes
        → ((first : ℕ) × (records : List Record) × IsBatch bytes first records)
        ⊎ ((error : BatchError) × IsBatchError bytes error) }
    ensures one_batch { (bytes : List ℕ) (first second : ℕ) (records others : List Record)
        → IsBatch bytes first records → IsBatch bytes second others → (first ≡ second) × (records ≡ others) }
    ensures one_error { (bytes : List ℕ) (error other : BatchError)
        → IsBatchError bytes error → IsBatchError bytes other → error ≡ other }
    ensures never_both { (bytes : List ℕ) (first : ℕ) (records : List Record) (error : BatchError)
        → IsBatch bytes first records → IsBatchError bytes error → ⊥ }
{}

/// Recovery of any file has a result, and only one: the batches, how far they reach, and where and why recovery ends.
pub fn recovery_is_a_function()
    // Without this "whatever is recovered is a prefix" would hold of nothing.
    ensures some { (number : Option ℕ) (file : List ℕ) → AreBytes file
        → (r : Recovered) × IsRecovered number file r }
    ensures at_most_one { (number : Option ℕ) (file : List ℕ) (one other : Recovered)
        → IsRecovered number file one → IsRecovered number file other → one ≡ other }
{}

/// So recovery of what a crash leaves gives a prefix of all the records that were to be written, and so does a reader
/// of records, unless a checksum is right by chance. `log_laws` promises that whatever is recovered or read is such a
/// prefix; here it is promised as well that something is recovered and read. `whole` is the log as it would be if all
/// of it had been written.
pub fn a_crash_leaves_a_prefix()
    ensures recovered { (number : Option ℕ) (image whole : List ℕ) (records : List (List ℕ)) → AreBytes image
        → SpellsWhole number whole records → NoChance number image whole
        → (r : Recovered) × IsRecovered number image r × IsPrefix (map logged_bytes r.batches) records (λ n. ⊤) }
    ensures read { (number : Option ℕ) (image whole : List ℕ) (records : List (List ℕ)) → AreBytes image
        → SpellsWhole number whole records → NoChanceForReader number image whole
        → (some : List (List ℕ)) × IsRead number image some × IsPrefix some records (λ n. ⊤) }
{}

/// A log may be cut after the records that recovery keeps. Until the cut is synced, a crash may leave the file as it
/// was before, with what followed the cut, whole fragments among it. What is recovered from such an image is a prefix
/// of what is recovered from the file, where recovery of the image meets no fragment but those that recovery of the
/// file meets.
pub fn an_image_of_the_file()
    ensures recovered { (number : Option ℕ) (image file : List ℕ) (r : Recovered) → IsRecovered number file r
        → MeetsNoOther number image file → RecoversPrefix number (map logged_bytes r.batches) image (λ n. ⊤) }
{}

/// What several logs recover of which a crash left a front is a prefix of their records, log by log, unless a checksum
/// is right by chance. It has all that are there for certain, if these are batches whose runs rise.
pub fn fronts_recover_prefixes()
    ensures prefix { (safe : ℕ) (logs : List (List (List ℕ))) (images : List (List ℕ)) → AreFront safe logs images
        → NoChances logs images → RecoverPrefix (records_in logs) images (λ n. ⊤) }
    ensures certain { (safe : ℕ) (logs : List (List (List ℕ))) (images : List (List ℕ)) (batches : List Logged)
        → AreFront safe logs images → NoChances logs images
        → AreTheseBatches (take safe (records_in logs)) batches
        → RecoverPrefix (records_in logs) images (λ n. safe ≤ n) }
{}

/// What one log recovers as the only one of several is what it recovers, and images of one log are a front of it just
/// where the one image begins with the text of the records that are there for certain.
pub fn one_of_several()
    ensures recovered { (file : List ℕ) (s : RecoveredLogs) → AreRecovered plain_log (file ∷ []) s
        → (r : Recovered) × IsRecovered plain_log file r × (s ≡ in_first r) }
    ensures back { (file : List ℕ) (r : Recovered) → IsRecovered plain_log file r
        → AreRecovered plain_log (file ∷ []) (in_first r) }
    ensures prefix { (least : ℕ) (records : List (List ℕ)) (file : List ℕ)
        → RecoverPrefix records (file ∷ []) (λ n. least ≤ n)
        → RecoversPrefix plain_log records file (λ n. least ≤ n) }
    ensures front { (safe : ℕ) (records : List (List ℕ)) (image : List ℕ) → AreFront safe (records ∷ []) (image ∷ [])
        → (safe ≤ length records) × BeginsWith (plain_text (take safe records)) image }
{}

/// Examples: the only result of recovery for an empty file, and for a file of a single byte, which is 0.
pub fn short_files()
    ensures empty { (r : Recovered) → IsRecovered plain_log [] r → r ≡ nothing_until 0 Clean }
    ensures one_byte { (r : Recovered) → IsRecovered plain_log (0 ∷ []) r → r ≡ nothing_until 0 (Broken ShortHeader) }
    ensures with_a_number { (r : Recovered) → IsRecovered (Some 7) (0 ∷ []) r
        → r ≡ nothing_until 0 (Broken ShortHeader) }
{}

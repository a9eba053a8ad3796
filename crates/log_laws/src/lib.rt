//! Laws of a log's text, and of what a crash leaves of it.
//!
//! A log's last bytes may be torn when the machine stops. What a reader then finds is a prefix of the records that
//! were written, none left out and none in part, and it has all that was safe. There is one premise: no torn
//! fragment's checksum is right by chance, since such a fragment can't be told from one that was meant.
//!
//! Each law is the contract of a function that does nothing. The functions are called nowhere: they are here so that
//! the laws are proved with the crate, and the crates that build on it cite their proofs.
#![tactic(auto)]

ghost use Rattle.std.specs.Prelude.{◌≡◌, ◌<◌, ◌≤◌, ◌^◌, ◌++◌, ℕ, List, length, take, map, Option, ⊤};
ghost use Rattle.model_base.specs.Varint.{IsVarint, varint};
ghost use Rattle.model_base.specs.Log.{SpellsWhole, text, text_from};
ghost use Rattle.model_base.specs.Recovery.{Logged, logged_bytes, Recovered, IsRecovered, IsRead, NoChance, NoChanceForReader};
ghost use Rattle.log_laws.specs.Prefixes.{RecoversPrefix, ReadsPrefix, BeginsWith, AreTheseBatches};

/// The bytes that spell a number below 2^32 are a varint, and no varint is a prefix of another one.
pub fn number_spelling()
    ensures spelled { (n : ℕ) → n < 2 ^ 32 → IsVarint (varint n) n }
    ensures one { (a b x y : List ℕ) (m n : ℕ) → IsVarint a m → IsVarint b n → a ++ x ≡ b ++ y → (a ≡ b) × (m ≡ n) }
{}

/// The text of records spells them, also where it goes on after bytes that spell other records. Bytes spell at most
/// one list of records.
pub fn text_and_spelling()
    ensures spelled { (number : Option ℕ) (records : List (List ℕ)) → SpellsWhole number (text number records) records }
    ensures goes_on { (number : Option ℕ) (kept : List ℕ) (old new : List (List ℕ)) → SpellsWhole number kept old
        → SpellsWhole number (kept ++ text_from number (length kept) new) (old ++ new) }
    ensures one { (number : Option ℕ) (bytes : List ℕ) (some others : List (List ℕ)) → SpellsWhole number bytes some
        → SpellsWhole number bytes others → some ≡ others }
{}

/// What is read or recovered of an image is a prefix of what was written, none left out and none in part. Here `whole`
/// is what the log would be once all of it was written; an image may have anything after that.
pub fn a_front()
    ensures read { (number : Option ℕ) (image whole : List ℕ) (kept : ℕ) (records written : List (List ℕ))
        → kept ≤ length image → SpellsWhole number (take kept image) records → SpellsWhole number whole written
        → NoChanceForReader number image whole → records ≡ take (length records) written }
    ensures recovered { (number : Option ℕ) (image whole : List ℕ) (written : List (List ℕ)) (r : Recovered)
        → IsRecovered number image r → SpellsWhole number whole written
        → NoChance number image whole → map logged_bytes r.batches ≡ take (length r.batches) written }
{}

/// So each image recovers a prefix of all that was to be written, and is read as one, unless by chance.
pub fn a_prefix()
    // "By chance" is the premise on chance: each fragment with a right checksum, and with the log's number where it has
    // one, is one that was to be written at that place.
    ensures recovered { (number : Option ℕ) (image whole : List ℕ) (records : List (List ℕ))
        → SpellsWhole number whole records → NoChance number image whole
        → RecoversPrefix number records image (λ n. ⊤) }
    ensures read { (number : Option ℕ) (image whole : List ℕ) (records : List (List ℕ))
        → SpellsWhole number whole records → NoChanceForReader number image whole
        → ReadsPrefix number records image (λ n. ⊤) }
{}

/// From an image that begins with the synced bytes (`whole`) a reader gets at least as many records as these bytes
/// spell. Recovery keeps at least as many, if those are batches whose runs rise.
pub fn the_synced()
    // No premise on chance is needed for what was synced.
    ensures recovered { (number : Option ℕ) (image whole : List ℕ) (synced : List (List ℕ)) (batches : List Logged)
        (r : Recovered) → IsRecovered number image r → BeginsWith whole image → SpellsWhole number whole synced
        → AreTheseBatches synced batches → length batches ≤ length r.batches }
    ensures read { (number : Option ℕ) (image whole : List ℕ) (synced found : List (List ℕ)) → IsRead number image found
        → BeginsWith whole image → SpellsWhole number whole synced → length synced ≤ length found }
{}

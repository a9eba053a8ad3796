//! What recovery finds of the groups that were to be synced, and what is said of one log among several.

ghost use Rattle.std.specs.Prelude.{◌≡◌, ◌+◌, ◌<◌, ◌≤◌, ◌++◌, ℕ, List, [], ◌∷◌, length, take, Some, slice_get};
ghost use Rattle.model_base.specs.Log.{Beginning, SpellsWhole, new_log};
ghost use Rattle.model_base.specs.History.{Entry};
ghost use Rattle.model_base.specs.Calls.{Command, Outcome};
ghost use Rattle.model_base.specs.Trace.{Settings};
ghost use Rattle.model_base.specs.LogContents.{GroupCall, records_of};
ghost use Rattle.model_base.specs.Recovery.{Logged, Recovered, IsRecovered};
ghost use Rattle.log_laws.specs.Prefixes.{AreTheseBatches, BeginsWith};
ghost use Rattle.model_runs.specs.Crashes.{HasSync, HoldsSynced, IsRun, IsSafe, text_through};
ghost use Rattle.model_runs.specs.SeveralLogs.{Held, IsRunOverLogs, AreSafe};

/// Where an image begins with the text up to the end of a group, recovery finds at least as many batches as the log
/// kept records, and one more for that group and for each before it, if all these records are batches whose runs rise.
/// By `HoldsSynced` an image begins so if that group was to be synced, and the image is longer than this text and
/// longer than any image could be before. No premise is needed about torn fragments.
pub fn synced_groups_are_recovered()
    ensures recovered { (b : Beginning) (kept : List (List ℕ)) (groups : List (List Entry)) (image : List ℕ) (k : ℕ)
        (group : List Entry) → SpellsWhole b.number b.kept kept → slice_get groups k ≡ Some group
        → BeginsWith (text_through b groups k) image
        → (batches : List Logged) → AreTheseBatches (kept ++ records_of (take (k + 1) groups)) batches
        → (r : Recovered) → IsRecovered b.number image r → length kept + k + 1 ≤ length r.batches }
    ensures long { (b : Beginning) (groups : List (List Entry)) (reached : ℕ) (image : List ℕ)
        → HoldsSynced b groups reached image → (k : ℕ) (group : List Entry) → slice_get groups k ≡ Some group
        → HasSync group → length (text_through b groups k) < length image → reached < length image
        → BeginsWith (text_through b groups k) image }
{}

/// Of a run over several logs that may have only one, all is true that is said of a run over one log. Here `calls` are
/// the calls that wrote the log. A crash may have left the image `a` at some moment, `b` once some calls have returned,
/// and `c` at the end, whatever these images are.
pub fn one_log_of_several()
    ensures safe { (settings : Settings) (ended limit reach : ℕ) (script : List (List Command)) (calls : List GroupCall)
        (o : Outcome) (held : Held) (a c : List ℕ) (b : List GroupCall → List GroupCall → List ℕ)
        → (run : IsRunOverLogs settings ended script limit 1 (λ made lens. made ≡ calls) o)
        → AreSafe run (held ∷ []) (reach ∷ []) (λ images. images ≡ a ∷ [])
        (λ before after images. images ≡ b before after ∷ []) (λ images. images ≡ c ∷ [])
        → (one : IsRun settings ended script new_log (λ made. made ≡ calls) o)
        × IsSafe one [] held.content held.place reach (λ image. image ≡ a)
        (λ before after image. image ≡ b before after) (λ image. image ≡ c) }
{}

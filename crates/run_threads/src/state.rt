//! The map at the end of a history.

ghost use Rattle.std.specs.Prelude.{◌≡◌, List, IfOk};
ghost use Rattle.model_base.specs.History as model;
ghost use Rattle.run_threads.specs.Answers.{ShowsEntries};

use base_maps::FamilyMap;
use log_effects::write_records;
use model_base::NoMemory;
use run_outcome::History;

/// The map that a history makes of the map from before it.
pub fn state_of(opening: FamilyMap, history: &History) -> Result<FamilyMap, NoMemory>
    ensures { (entries : List model.Entry) → ShowsEntries history.now entries
        → IfOk result (λ state. state ≡ model.map_over opening entries) }
{
    let mut map = opening;
    // The map is that of the batches so far.
    for at in 0..history.len() {
        write_records(&mut map, history.entry(at).batch.records())?;
    }
    Ok(map)
}

//! What records do to a map. `MemTableInserter` of RocksDB's `write_batch.cc` does this to a memtable.

ghost use Rattle.std.specs.Prelude.{◌≡◌, ◌<◌, ℕ, length, take, OnOk, OnErr};
ghost use Rattle.model_base.specs.Map.{after_record, after_records};
ghost use Rattle.log_batch.specs.View.{record_of};

use base_maps::FamilyMap;
use log_batch::{RecordView, Records};
use model_base::NoMemory;

/// Changes a map as records say, in their order. If memory runs out, it stops after some of them, perhaps none.
pub fn write_records(map: &mut FamilyMap, records: Records<'_>) -> Result<(), NoMemory>
    ensures ok { OnOk result (map.new ≡ after_records map.old records.entry) }
    // Some of the records were written, from the first on, and never all: so the map is of no use to who needs all of
    // them.
    ensures err { OnErr result
        ((written : ℕ) × (written < length records.entry)
        × (map.new ≡ after_records map.old (take written records.entry))) }
{
    // The map has the changes of the records before those that are left.
    for view in records {
        write_record(map, view)?;
    }
    Ok(())
}

/// Changes a map as a record says: a value is set at its key, a deletion removes its key, and log data changes
/// nothing. If memory runs out, the map stays as it was.
pub fn write_record(map: &mut FamilyMap, view: RecordView<'_>) -> Result<(), NoMemory>
    ensures ok { OnOk result (map.new ≡ after_record map.old (record_of view.entry)) }
    ensures err { OnErr result (map.new ≡ map.old) }
{
    match view {
        RecordView::Value { family, key, value } => map.insert(family.unwrap_or(0), key, value),
        RecordView::Deletion { family, key } => {
            map.remove(family.unwrap_or(0), key);
            Ok(())
        }
        RecordView::SingleDeletion { family, key } => {
            map.remove(family.unwrap_or(0), key);
            Ok(())
        }
        RecordView::LogData { .. } => Ok(()),
    }
}

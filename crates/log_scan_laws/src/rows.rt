//! What is found in a small log, worked out.

ghost use Rattle.std.specs.Prelude.{◌≡◌, ◌++◌, true, false, codes};
ghost use Rattle.model_base.specs.Log.{plain_log};
ghost use Rattle.model_base.specs.Text.{hex};
ghost use Rattle.log_scan.specs.Scanning.{IsScan};
ghost use Rattle.list_log.specs.Rows.{damaged_log};
ghost use Rattle.log_scan_laws.specs.Rows.{found_before, found_in_all};

/// A log of three records, of which the second one has a changed byte. Without going on after damage the first record
/// is found; with it the third one too, and between them a stretch that doesn't read. What ends at the damage is then
/// no scan.
pub fn a_changed_byte_is_passed_over()
    ensures bytes { hex damaged_log ≡ codes "e99f78191100010100000000000000010000000101610131"
        ++ codes "8f72bc7a1100010200000000000000010000000101780132"
        ++ codes "028100e51100010300000000000000010000000101630133" }
    ensures list { IsScan plain_log false damaged_log found_before }
    ensures scan { IsScan plain_log true damaged_log found_in_all }
    ensures nothing_left_out { IsScan plain_log true damaged_log found_before → ⊥ }
{}

//! What is kept of a small log, worked out.

ghost use Rattle.std.specs.Prelude.{◌≡◌, ◌++◌, codes};
ghost use Rattle.model_base.specs.Log.{plain_log, text};
ghost use Rattle.model_base.specs.Text.{hex};
ghost use Rattle.list_log.specs.Rows.{damaged_log};
ghost use Rattle.log_salvage_laws.specs.Kept.{Keeps};
ghost use Rattle.log_salvage_laws.specs.Rows.{all_from, first_and_third, only_third};

/// A log of three records, of which the second one has a changed byte. The first one and the third one are kept, and
/// the new log has their fragments side by side; from sequence 2 on only the third one.
pub fn a_changed_byte_is_left_out()
    ensures all { Keeps (all_from 0) plain_log damaged_log first_and_third }
    ensures from_two { Keeps (all_from 2) plain_log damaged_log only_third }
    ensures bytes { hex (text plain_log first_and_third) ≡ codes "e99f78191100010100000000000000010000000101610131"
        ++ codes "028100e51100010300000000000000010000000101630133" }
{}

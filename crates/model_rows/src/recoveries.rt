//! What logs recover.

ghost use Rattle.std.specs.Prelude.{◌≡◌, [], ◌∷◌, codes, None};
ghost use Rattle.model_base.specs.Log.{plain_log};
ghost use Rattle.model_base.specs.Text.{hex, recovered_text, recovered_logs_text};
ghost use Rattle.model_base.specs.Recovery.{IsRecovered, recovered_map};
ghost use Rattle.model_base.specs.RecoveredLogs.{AreRecovered, map_of_logs};
ghost use Rattle.model_rows.specs.Examples.{key_a, key_b};
ghost use Rattle.model_rows.specs.TwoBatches.{log_of_two, both_recovered, none_recovered, in_two_logs, both_logs_recovered};

/// The log of `put a 1` and `put b 2`, each in a record of its own, recovers both, up to its end.
pub fn two_batches_recovered()
    ensures bytes { hex log_of_two ≡ codes
        "e99f781911000101000000000000000100000001016101318f72bc7a1100010200000000000000010000000101620132" }
    ensures recovered { IsRecovered plain_log log_of_two both_recovered }
    ensures map { recovered_map both_recovered ≡ (key_a, codes "1") ∷ (key_b, codes "2") ∷ [] }
    ensures text { recovered_text both_recovered ≡ codes
        "groups 2\n1 1 17\n2 1 17\nstate 2 2\n61 31\n62 32\nend 48 clean\n" }
{}

/// An empty log recovers nothing, and ends well.
pub fn empty_log_recovered()
    ensures recovered { IsRecovered plain_log [] none_recovered }
    ensures text { recovered_text none_recovered ≡ codes "groups 0\nstate 0 0\nend 0 clean\n" }
{}

/// The logs of `put a 1` and of `put b 2`, each in a log of its own, recover both, up to the end of the second one. The
/// sequences go on from log to log.
pub fn two_logs_recovered()
    ensures recovered { AreRecovered plain_log in_two_logs both_logs_recovered }
    ensures map { map_of_logs both_logs_recovered ≡ (key_a, codes "1") ∷ (key_b, codes "2") ∷ [] }
    ensures text { recovered_logs_text both_logs_recovered ≡ codes
        "groups 2\n1 1 17\n2 1 17\nstate 2 2\n61 31\n62 32\nend 2 24 clean\n" }
{}

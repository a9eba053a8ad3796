//! What the words mean, as laws that have no code.

ghost use Rattle.std.specs.Prelude.{◌≡◌, List, [], ◌∷◌, Some, None, true, false, String, codes};
ghost use Rattle.std.specs.declared.alloc.Global.{Global};
ghost use Rattle.log_recovery.specs.declared.modes.Mode.TheVariants.{Point, Tail, Absolute};
ghost use Rattle.program_words.specs.declared.invocation.Invocation.{Invocation};
ghost use Rattle.program_words.specs.declared.invocation.Invocation.TheVariants.{Run, Recover, Replay, Generate};
ghost use Rattle.program_words.specs.Lawful.{lawful_in, lawful_of};
ghost use Rattle.program_words.specs.Meaning.{invocation_in, invocation_of};

/// If words are lawful, clap takes them, and they ask for what `specs/Lawful` says.
pub fn lawful_words()
    // clap takes other words too, such as `--last=4`: they ask for what clap makes of them.
    ensures { (words : List (String Global)) (asked : Invocation) → lawful_of words ≡ Some asked
        → invocation_of words ≡ Some asked }
{}

/// Lawful words, and what they ask for by `specs/Lawful`.
pub fn words_that_are_lawful()
    ensures run { lawful_in (codes "writepath" ∷ codes "run" ∷ codes "--last" ∷ codes "5" ∷ codes "--shards"
        ∷ codes "64" ∷ codes "--batch-bytes" ∷ codes "12" ∷ codes "--table" ∷ codes "shards"
        ∷ codes "--pipelined" ∷ codes "--group-bytes" ∷ codes "1" ∷ [])
        ≡ Some (Run true (Some 64) 1 12 5 None false Point None 67108864 1) }
    ensures run_by_number { lawful_in (codes "writepath" ∷ codes "run" ∷ codes "--number" ∷ codes "7" ∷ [])
        ≡ Some (Run false None 1048576 16777216 0 (Some 7) false Point None 67108864 1) }
    ensures number_before_others { lawful_in (codes "writepath" ∷ codes "run" ∷ codes "--number" ∷ codes "4294967295"
        ∷ codes "--last" ∷ codes "5" ∷ codes "--pipelined" ∷ [])
        ≡ Some (Run true None 1048576 16777216 5 (Some 4294967295) false Point None 67108864 1) }
    ensures number_behind_others { lawful_in (codes "writepath" ∷ codes "run" ∷ codes "--pipelined" ∷ codes "--last"
        ∷ codes "5" ∷ codes "--number" ∷ codes "4294967295" ∷ [])
        ≡ Some (Run true None 1048576 16777216 5 (Some 4294967295) false Point None 67108864 1) }
    ensures going_on { lawful_in (codes "writepath" ∷ codes "run" ∷ codes "--resume" ∷ [])
        ≡ Some (Run false None 1048576 16777216 0 None true Point None 67108864 1) }
    ensures going_on_by_number { lawful_in (codes "writepath" ∷ codes "run" ∷ codes "--resume" ∷ codes "--number"
        ∷ codes "7" ∷ []) ≡ Some (Run false None 1048576 16777216 0 (Some 7) true Point None 67108864 1) }
    ensures going_on_behind_others { lawful_in (codes "writepath" ∷ codes "run" ∷ codes "--number" ∷ codes "7"
        ∷ codes "--last" ∷ codes "5" ∷ codes "--resume" ∷ [])
        ≡ Some (Run false None 1048576 16777216 5 (Some 7) true Point None 67108864 1) }
    ensures recover { lawful_in (codes "writepath" ∷ codes "recover" ∷ []) ≡ Some (Recover None Point None) }
    ensures recover_by_number { lawful_in (codes "writepath" ∷ codes "recover" ∷ codes "--number"
        ∷ codes "4294967295" ∷ []) ≡ Some (Recover (Some 4294967295) Point None) }
    ensures recover_by_mode { lawful_in (codes "writepath" ∷ codes "recover" ∷ codes "--mode" ∷ codes "tail"
        ∷ codes "--number" ∷ codes "7" ∷ []) ≡ Some (Recover (Some 7) Tail None) }
    ensures recover_by_name { lawful_in (codes "writepath" ∷ codes "recover" ∷ codes "--mode" ∷ codes "point" ∷ [])
        ≡ Some (Recover None Point None) }
    ensures going_on_by_mode { lawful_in (codes "writepath" ∷ codes "run" ∷ codes "--mode" ∷ codes "absolute"
        ∷ codes "--resume" ∷ []) ≡ Some (Run false None 1048576 16777216 0 None true Absolute None 67108864 1) }
    ensures run_over_logs { lawful_in (codes "writepath" ∷ codes "run" ∷ codes "--logs" ∷ codes "2"
        ∷ codes "--log-bytes" ∷ codes "24" ∷ [])
        ≡ Some (Run false None 1048576 16777216 0 None false Point (Some 2) 24 1) }
    ensures run_in_families { lawful_in (codes "writepath" ∷ codes "run" ∷ codes "--families" ∷ codes "16" ∷ [])
        ≡ Some (Run false None 1048576 16777216 0 None false Point None 67108864 16) }
    ensures recover_logs { lawful_in (codes "writepath" ∷ codes "recover" ∷ codes "--logs" ∷ codes "16" ∷ [])
        ≡ Some (Recover None Point (Some 16)) }
    ensures replay { lawful_in (codes "writepath" ∷ codes "replay" ∷ codes "--last" ∷ codes "5" ∷ codes "--pipelined"
        ∷ []) ≡ Some (Replay true 1048576 16777216 5 1) }
    ensures replay_in_families { lawful_in (codes "writepath" ∷ codes "replay" ∷ codes "--families" ∷ codes "2" ∷ [])
        ≡ Some (Replay false 1048576 16777216 0 2) }
    ensures generate_in_families { lawful_in (codes "writepath" ∷ codes "gen" ∷ codes "--families" ∷ codes "2"
        ∷ codes "7" ∷ codes "2" ∷ codes "3" ∷ []) ≡ Some (Generate false None 7 2 3 2) }
    ensures generate { lawful_in (codes "writepath" ∷ codes "gen" ∷ codes "--table" ∷ codes "shards" ∷ codes "7"
        ∷ codes "2" ∷ codes "3" ∷ []) ≡ Some (Generate false (Some 16) 7 2 3 1) }
{}

/// Words that ask for something. Some aren't lawful, but clap takes them too, such as `--last=4` and `04`.
pub fn words_that_ask()
    ensures run { invocation_in (codes "writepath" ∷ codes "run" ∷ [])
        ≡ Some (Run false None 1048576 16777216 0 None false Point None 67108864 1) }
    ensures run_with_groups { invocation_in (codes "writepath" ∷ codes "run" ∷ codes "--group-bytes" ∷ codes "1" ∷ [])
        ≡ Some (Run false None 1 16777216 0 None false Point None 67108864 1) }
    ensures run_in_shards { invocation_in (codes "writepath" ∷ codes "run" ∷ codes "--table" ∷ codes "shards" ∷ [])
        ≡ Some (Run false (Some 16) 1048576 16777216 0 None false Point None 67108864 1) }
    ensures run_in_one { invocation_in (codes "writepath" ∷ codes "run" ∷ codes "--shards" ∷ codes "7" ∷ [])
        ≡ Some (Run false None 1048576 16777216 0 None false Point None 67108864 1) }
    ensures run_in_most_shards { invocation_in (codes "writepath" ∷ codes "run" ∷ codes "--table" ∷ codes "shards"
        ∷ codes "--shards" ∷ codes "64" ∷ codes "--last" ∷ codes "3" ∷ [])
        ≡ Some (Run false (Some 64) 1048576 16777216 3 None false Point None 67108864 1) }
    ensures run_in_two_stages { invocation_in (codes "writepath" ∷ codes "run" ∷ codes "--pipelined" ∷ [])
        ≡ Some (Run true None 1048576 16777216 0 None false Point None 67108864 1) }
    ensures run_by_number { invocation_in (codes "writepath" ∷ codes "run" ∷ codes "--number" ∷ codes "7" ∷ [])
        ≡ Some (Run false None 1048576 16777216 0 (Some 7) false Point None 67108864 1) }
    ensures run_by_most { invocation_in (codes "writepath" ∷ codes "run" ∷ codes "--last" ∷ codes "3"
        ∷ codes "--number=4294967295" ∷ codes "--pipelined" ∷ [])
        ≡ Some (Run true None 1048576 16777216 3 (Some 4294967295) false Point None 67108864 1) }
    ensures going_on { invocation_in (codes "writepath" ∷ codes "run" ∷ codes "--resume" ∷ [])
        ≡ Some (Run false None 1048576 16777216 0 None true Point None 67108864 1) }
    ensures going_on_by_number { invocation_in (codes "writepath" ∷ codes "run" ∷ codes "--resume" ∷ codes "--number=7"
        ∷ []) ≡ Some (Run false None 1048576 16777216 0 (Some 7) true Point None 67108864 1) }
    ensures going_on_behind_others { invocation_in (codes "writepath" ∷ codes "run" ∷ codes "--number" ∷ codes "7"
        ∷ codes "--pipelined" ∷ codes "--resume" ∷ [])
        ≡ Some (Run true None 1048576 16777216 0 (Some 7) true Point None 67108864 1) }
    ensures recover { invocation_in (codes "writepath" ∷ codes "recover" ∷ []) ≡ Some (Recover None Point None) }
    ensures recover_by_number { invocation_in (codes "writepath" ∷ codes "recover" ∷ codes "--number" ∷ codes "7" ∷ [])
        ≡ Some (Recover (Some 7) Point None) }
    ensures recover_by_most { invocation_in (codes "writepath" ∷ codes "recover" ∷ codes "--number=4294967295" ∷ [])
        ≡ Some (Recover (Some 4294967295) Point None) }
    ensures recover_by_mode { invocation_in (codes "writepath" ∷ codes "recover" ∷ codes "--mode" ∷ codes "absolute"
        ∷ []) ≡ Some (Recover None Absolute None) }
    ensures going_on_by_mode { invocation_in (codes "writepath" ∷ codes "run" ∷ codes "--resume" ∷ codes "--mode=tail"
        ∷ []) ≡ Some (Run false None 1048576 16777216 0 None true Tail None 67108864 1) }
    ensures mode_alone { invocation_in (codes "writepath" ∷ codes "run" ∷ codes "--mode" ∷ codes "absolute" ∷ [])
        ≡ Some (Run false None 1048576 16777216 0 None false Absolute None 67108864 1) }
    ensures run_over_logs { invocation_in (codes "writepath" ∷ codes "run" ∷ codes "--logs=16"
        ∷ codes "--log-bytes=1099511627776" ∷ [])
        ≡ Some (Run false None 1048576 16777216 0 None false Point (Some 16) 1099511627776 1) }
    ensures run_in_families { invocation_in (codes "writepath" ∷ codes "run" ∷ codes "--families=2" ∷ [])
        ≡ Some (Run false None 1048576 16777216 0 None false Point None 67108864 2) }
    ensures replay_in_families { invocation_in (codes "writepath" ∷ codes "replay" ∷ codes "--families" ∷ codes "16"
        ∷ []) ≡ Some (Replay false 1048576 16777216 0 16) }
    ensures generate_in_families { invocation_in (codes "writepath" ∷ codes "gen" ∷ codes "--families" ∷ codes "2"
        ∷ codes "7" ∷ codes "2" ∷ codes "3" ∷ []) ≡ Some (Generate false None 7 2 3 2) }
    ensures recover_logs { invocation_in (codes "writepath" ∷ codes "recover" ∷ codes "--logs" ∷ codes "3" ∷ [])
        ≡ Some (Recover None Point (Some 3)) }
    ensures replay { invocation_in (codes "writepath" ∷ codes "replay" ∷ codes "--last" ∷ codes "7"
        ∷ codes "--group-bytes"
        ∷ codes "1" ∷ []) ≡ Some (Replay false 1 16777216 7 1) }
    ensures pipelined { invocation_in (codes "writepath" ∷ codes "replay" ∷ codes "--last" ∷ codes "7"
        ∷ codes "--pipelined"
        ∷ []) ≡ Some (Replay true 1048576 16777216 7 1) }
    ensures with_equals_sign { invocation_in (codes "writepath" ∷ codes "run" ∷ codes "--last=4" ∷ [])
        ≡ Some (Run false None 1048576 16777216 4 None false Point None 67108864 1) }
    ensures with_leading_zero { invocation_in (codes "writepath" ∷ codes "run" ∷ codes "--last" ∷ codes "04" ∷ [])
        ≡ Some (Run false None 1048576 16777216 4 None false Point None 67108864 1) }
    ensures generate { invocation_in (codes "writepath" ∷ codes "gen" ∷ codes "7" ∷ codes "64" ∷ codes "100000" ∷ [])
        ≡ Some (Generate false None 7 64 100000 1) }
    ensures generate_in_shards { invocation_in (codes "writepath" ∷ codes "gen" ∷ codes "--table" ∷ codes "shards"
        ∷ codes "--shards" ∷ codes "2" ∷ codes "7" ∷ codes "2" ∷ codes "3" ∷ [])
        ≡ Some (Generate false (Some 2) 7 2 3 1) }
    ensures generate_in_two_stages { invocation_in (codes "writepath" ∷ codes "gen" ∷ codes "--pipelined" ∷ codes "7"
        ∷ codes "2" ∷ codes "3" ∷ []) ≡ Some (Generate true None 7 2 3 1) }
{}

/// Words that ask for nothing.
pub fn words_that_do_not_ask()
    ensures no_command { invocation_in (codes "writepath" ∷ []) ≡ None }
    ensures unknown_command { invocation_in (codes "writepath" ∷ codes "walk" ∷ []) ≡ None }
    ensures unknown_word { invocation_in (codes "writepath" ∷ codes "run" ∷ codes "x" ∷ []) ≡ None }
    ensures option_of_another_command { invocation_in (codes "writepath" ∷ codes "recover" ∷ codes "--last"
        ∷ codes "1" ∷ [])
        ≡ None }
    ensures option_without_value { invocation_in (codes "writepath" ∷ codes "run" ∷ codes "--last" ∷ []) ≡ None }
    ensures option_twice { invocation_in (codes "writepath" ∷ codes "run" ∷ codes "--last" ∷ codes "1" ∷ codes "--last"
        ∷ codes "2" ∷ []) ≡ None }
    ensures flag_twice { invocation_in (codes "writepath" ∷ codes "replay" ∷ codes "--pipelined"
        ∷ codes "--pipelined" ∷ [])
        ≡ None }
    ensures flag_of_another_command { invocation_in (codes "writepath" ∷ codes "recover" ∷ codes "--pipelined" ∷ [])
        ≡ None }
    ensures below_range { invocation_in (codes "writepath" ∷ codes "run" ∷ codes "--batch-bytes" ∷ codes "11" ∷ [])
        ≡ None }
    ensures above_range { invocation_in (codes "writepath" ∷ codes "run" ∷ codes "--last"
        ∷ codes "72057594037927936" ∷ [])
        ≡ None }
    ensures no_shards { invocation_in (codes "writepath" ∷ codes "run" ∷ codes "--shards" ∷ codes "0" ∷ []) ≡ None }
    ensures too_many_shards { invocation_in (codes "writepath" ∷ codes "run" ∷ codes "--shards" ∷ codes "65" ∷ [])
        ≡ None }
    ensures number_zero { invocation_in (codes "writepath" ∷ codes "recover" ∷ codes "--number" ∷ codes "0" ∷ [])
        ≡ None }
    ensures number_above_range { invocation_in (codes "writepath" ∷ codes "recover" ∷ codes "--number"
        ∷ codes "4294967296" ∷ []) ≡ None }
    ensures number_without_value { invocation_in (codes "writepath" ∷ codes "recover" ∷ codes "--number" ∷ [])
        ≡ None }
    ensures number_twice { invocation_in (codes "writepath" ∷ codes "recover" ∷ codes "--number" ∷ codes "7"
        ∷ codes "--number" ∷ codes "7" ∷ []) ≡ None }
    ensures number_zero_of_run { invocation_in (codes "writepath" ∷ codes "run" ∷ codes "--number" ∷ codes "0" ∷ [])
        ≡ None }
    ensures number_above_range_of_run { invocation_in (codes "writepath" ∷ codes "run" ∷ codes "--number"
        ∷ codes "4294967296" ∷ []) ≡ None }
    ensures number_without_value_of_run { invocation_in (codes "writepath" ∷ codes "run" ∷ codes "--number" ∷ [])
        ≡ None }
    ensures number_twice_of_run { invocation_in (codes "writepath" ∷ codes "run" ∷ codes "--number" ∷ codes "7"
        ∷ codes "--last" ∷ codes "1" ∷ codes "--number" ∷ codes "7" ∷ []) ≡ None }
    ensures number_of_generate { invocation_in (codes "writepath" ∷ codes "gen" ∷ codes "--number" ∷ codes "7"
        ∷ codes "7" ∷ codes "2" ∷ codes "3" ∷ []) ≡ None }
    ensures number_of_replay { invocation_in (codes "writepath" ∷ codes "replay" ∷ codes "--number" ∷ codes "7" ∷ [])
        ≡ None }
    ensures resume_with_value { invocation_in (codes "writepath" ∷ codes "run" ∷ codes "--resume=yes" ∷ []) ≡ None }
    ensures resume_with_word { invocation_in (codes "writepath" ∷ codes "run" ∷ codes "--resume" ∷ codes "yes" ∷ [])
        ≡ None }
    ensures resume_twice { invocation_in (codes "writepath" ∷ codes "run" ∷ codes "--resume" ∷ codes "--last"
        ∷ codes "1" ∷ codes "--resume" ∷ []) ≡ None }
    ensures resume_of_recover { invocation_in (codes "writepath" ∷ codes "recover" ∷ codes "--resume" ∷ []) ≡ None }
    ensures resume_of_generate { invocation_in (codes "writepath" ∷ codes "gen" ∷ codes "--resume" ∷ codes "7"
        ∷ codes "2" ∷ codes "3" ∷ []) ≡ None }
    ensures resume_of_replay { invocation_in (codes "writepath" ∷ codes "replay" ∷ codes "--resume" ∷ []) ≡ None }
    ensures unknown_mode { invocation_in (codes "writepath" ∷ codes "recover" ∷ codes "--mode" ∷ codes "any" ∷ [])
        ≡ None }
    ensures unknown_mode_of_run { invocation_in (codes "writepath" ∷ codes "run" ∷ codes "--mode" ∷ codes "Tail" ∷ [])
        ≡ None }
    ensures mode_without_value { invocation_in (codes "writepath" ∷ codes "recover" ∷ codes "--mode" ∷ []) ≡ None }
    ensures mode_twice { invocation_in (codes "writepath" ∷ codes "recover" ∷ codes "--mode" ∷ codes "tail"
        ∷ codes "--mode" ∷ codes "tail" ∷ []) ≡ None }
    ensures mode_of_replay { invocation_in (codes "writepath" ∷ codes "replay" ∷ codes "--mode" ∷ codes "point" ∷ [])
        ≡ None }
    ensures mode_of_generate { invocation_in (codes "writepath" ∷ codes "gen" ∷ codes "--mode" ∷ codes "point"
        ∷ codes "7" ∷ codes "2" ∷ codes "3" ∷ []) ≡ None }
    ensures no_log { invocation_in (codes "writepath" ∷ codes "run" ∷ codes "--logs" ∷ codes "0" ∷ []) ≡ None }
    ensures too_many_logs { invocation_in (codes "writepath" ∷ codes "recover" ∷ codes "--logs" ∷ codes "17" ∷ [])
        ≡ None }
    ensures no_log_bytes { invocation_in (codes "writepath" ∷ codes "run" ∷ codes "--log-bytes" ∷ codes "0" ∷ [])
        ≡ None }
    ensures too_many_log_bytes { invocation_in (codes "writepath" ∷ codes "run" ∷ codes "--log-bytes"
        ∷ codes "1099511627777" ∷ []) ≡ None }
    ensures log_bytes_of_recover { invocation_in (codes "writepath" ∷ codes "recover" ∷ codes "--log-bytes"
        ∷ codes "24" ∷ []) ≡ None }
    ensures logs_of_replay { invocation_in (codes "writepath" ∷ codes "replay" ∷ codes "--logs" ∷ codes "2" ∷ [])
        ≡ None }
    ensures no_family { invocation_in (codes "writepath" ∷ codes "run" ∷ codes "--families" ∷ codes "0" ∷ [])
        ≡ None }
    ensures too_many_families { invocation_in (codes "writepath" ∷ codes "replay" ∷ codes "--families" ∷ codes "17"
        ∷ []) ≡ None }
    ensures families_of_recover { invocation_in (codes "writepath" ∷ codes "recover" ∷ codes "--families" ∷ codes "2"
        ∷ []) ≡ None }
    ensures unknown_table { invocation_in (codes "writepath" ∷ codes "run" ∷ codes "--table" ∷ codes "tree" ∷ [])
        ≡ None }
    ensures table_twice { invocation_in (codes "writepath" ∷ codes "run" ∷ codes "--table" ∷ codes "one"
        ∷ codes "--table"
        ∷ codes "one" ∷ []) ≡ None }
    ensures table_of_recover { invocation_in (codes "writepath" ∷ codes "recover" ∷ codes "--table" ∷ codes "one" ∷ [])
        ≡ None }
    ensures table_of_replay { invocation_in (codes "writepath" ∷ codes "replay" ∷ codes "--table" ∷ codes "shards" ∷ [])
        ≡ None }
    ensures seed_above_range { invocation_in (codes "writepath" ∷ codes "gen" ∷ codes "2147483648" ∷ codes "1"
        ∷ codes "1"
        ∷ []) ≡ None }
    ensures no_clients { invocation_in (codes "writepath" ∷ codes "gen" ∷ codes "0" ∷ codes "0" ∷ codes "1" ∷ [])
        ≡ None }
    ensures too_many_clients { invocation_in (codes "writepath" ∷ codes "gen" ∷ codes "0" ∷ codes "65" ∷ codes "1" ∷ [])
        ≡ None }
    ensures too_many_batches { invocation_in (codes "writepath" ∷ codes "gen" ∷ codes "0" ∷ codes "1"
        ∷ codes "100001" ∷ [])
        ≡ None }
    ensures too_few_numbers { invocation_in (codes "writepath" ∷ codes "gen" ∷ codes "7" ∷ codes "2" ∷ []) ≡ None }
    ensures too_many_numbers { invocation_in (codes "writepath" ∷ codes "gen" ∷ codes "7" ∷ codes "2" ∷ codes "3"
        ∷ codes "4" ∷ []) ≡ None }
    ensures option_of_generate { invocation_in (codes "writepath" ∷ codes "gen" ∷ codes "7" ∷ codes "2" ∷ codes "3"
        ∷ codes "--last" ∷ codes "1" ∷ []) ≡ None }
    ensures last_of_generate { invocation_in (codes "writepath" ∷ codes "gen" ∷ codes "--last" ∷ codes "1" ∷ codes "7"
        ∷ codes "2" ∷ codes "3" ∷ []) ≡ None }
    ensures help_of_command { invocation_in (codes "writepath" ∷ codes "run" ∷ codes "--help" ∷ []) ≡ None }
    ensures help { invocation_in (codes "writepath" ∷ codes "help" ∷ codes "run" ∷ []) ≡ None }
    ensures version { invocation_in (codes "writepath" ∷ codes "--version" ∷ []) ≡ None }
{}

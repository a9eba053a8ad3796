//! What scripts say, and their first faults.

ghost use Rattle.std.specs.Prelude.{◌≡◌, ℕ, ◌<◌, true, List, [], ◌∷◌, ◌++◌, Some, None, length, replicate, flat_map, codes, decimal, Ok};
ghost use Rattle.std.specs.List.{range_with_len};
ghost use Rattle.model_base.specs.declared.script.ScriptFault.TheVariants.{Long, Byte, Word, Form, Client, Clients, NoClient};
ghost use Rattle.model_base.specs.Batch.{value, deletion, single_deletion, log_data};
ghost use Rattle.model_base.specs.Calls.{add, clear, commit, get, many, scan, stop, unstop, slow, unslow};
ghost use Rattle.model_base.specs.Script.{script_of, whole_grammar};
ghost use Rattle.model_rows.specs.Examples.{put_a1, put_1a2, del_1a, sdel_1a, plain, fault_at, key_a, key_b, key_1a};

use model_base::TEXT_LIMIT;

/// A script of one batch and one read. Its last line feed may be missing.
pub fn one_script()
    ensures whole { script_of whole_grammar (codes "client 1\nput a 1\ncommit\nget a\n")
        ≡ Ok ((add put_a1 ∷ commit plain ∷ get key_a ∷ []) ∷ []) }
    ensures without_last_line_feed { script_of whole_grammar (codes "client 1\nput a 1\ncommit\nget a")
        ≡ Ok ((add put_a1 ∷ commit plain ∷ get key_a ∷ []) ∷ []) }
{}

/// The kinds of records besides values, and the flags of a commit without `noslow`.
pub fn records_and_flags()
    ensures records { script_of whole_grammar (codes "client 1\ndel a\nsdel b\nnote c\nclear")
        ≡ Ok ((add (deletion None (codes "a")) ∷ add (single_deletion None (codes "b")) ∷ add (log_data (codes "c"))
        ∷ clear ∷ []) ∷ []) }
    ensures flags { script_of whole_grammar (codes "client 1\ncommit sync\ncommit nolog\ncommit sync nolog")
        ≡ Ok ((commit (record plain { sync = true }) ∷ commit (record plain { no_log = true })
        ∷ commit (record plain { sync = true; no_log = true }) ∷ []) ∷ []) }
{}

/// Comments and empty lines are skipped. A text with nothing else has no client.
pub fn passed_over_lines()
    ensures commented { script_of whole_grammar (codes "# x\nclient 1\n\nput a 1\ncommit\nget a\n")
        ≡ Ok ((add put_a1 ∷ commit plain ∷ get key_a ∷ []) ∷ []) }
    ensures nothing_else { script_of whole_grammar (codes "# x\n\n") ≡ fault_at 0 NoClient }
{}

/// Faults, each with its kind and its line. Line 0 stands for the whole text.
pub fn faults_of_scripts()
    ensures no_text { script_of whole_grammar [] ≡ fault_at 0 NoClient }
    ensures no_client { script_of whole_grammar (codes "put a 1") ≡ fault_at 1 Client }
    ensures unknown_word { script_of whole_grammar (codes "client 1\npot a 1") ≡ fault_at 2 Word }
    ensures too_few_words { script_of whole_grammar (codes "client 1\nput a") ≡ fault_at 2 Form }
    ensures two_spaces { script_of whole_grammar (codes "client 1\nput  a 1") ≡ fault_at 2 Form }
    ensures leading_zero { script_of whole_grammar (codes "client 01") ≡ fault_at 1 Form }
    ensures wrong_number { script_of whole_grammar (codes "client 1\nclient 3") ≡ fault_at 2 Client }
    ensures tab { script_of whole_grammar (codes "client 1\nget\ta") ≡ fault_at 2 Byte }
    ensures too_long { (text : List ℕ) → TEXT_LIMIT < length text → script_of whole_grammar text ≡ fault_at 0 Long }
    ensures unknown_flag { script_of whole_grammar (codes "client 1\ncommit fast") ≡ fault_at 2 Form }
    ensures flags_turned { script_of whole_grammar (codes "client 1\ncommit nolog sync") ≡ fault_at 2 Form }
    ensures flag_twice { script_of whole_grammar (codes "client 1\ncommit sync sync") ≡ fault_at 2 Form }
    ensures word_behind_clear { script_of whole_grammar (codes "client 1\nclear a") ≡ fault_at 2 Form }
    ensures two_keys { script_of whole_grammar (codes "client 1\ndel a b") ≡ fault_at 2 Form }
    ensures long_enough { script_of whole_grammar (replicate 16384 35) ≡ fault_at 0 NoClient }
{}

/// The whole grammar: reads of several keys, the controller's tokens, every flag, and more than one client.
pub fn whole_scripts()
    ensures reads { script_of whole_grammar (codes "client 1\nmany a b\nscan a c")
        ≡ Ok ((many (key_a ∷ key_b ∷ []) ∷ scan 0 (codes "a") (codes "c") ∷ []) ∷ []) }
    ensures tokens { script_of whole_grammar (codes "client 1\nstop\nunstop\nslow 7\nunslow")
        ≡ Ok ((stop ∷ unstop ∷ slow 7 ∷ unslow ∷ []) ∷ []) }
    ensures flags { script_of whole_grammar (codes
        "client 1\ncommit noslow\ncommit sync noslow\ncommit sync nolog noslow")
        ≡ Ok ((commit (record plain { no_slowdown = true }) ∷ commit (record plain { sync = true; no_slowdown = true })
        ∷ commit (record { sync = true; no_log = true; no_slowdown = true }) ∷ []) ∷ []) }
    ensures two_clients { script_of whole_grammar (codes "client 1\nget a\nclient 2\nput a 1")
        ≡ Ok ((get key_a ∷ []) ∷ (add put_a1 ∷ []) ∷ []) }
    ensures most_clients { script_of whole_grammar (flat_map (λ n. codes "client " ++ decimal n ++ codes "\n")
        (range_with_len 1 64)) ≡ Ok (replicate 64 []) }
    ensures too_many_clients { script_of whole_grammar (flat_map (λ n. codes "client " ++ decimal n ++ codes "\n")
        (range_with_len 1 65)) ≡ fault_at 65 Clients }
    ensures no_key { script_of whole_grammar (codes "client 1\nmany") ≡ fault_at 2 Form }
    ensures flags_turned { script_of whole_grammar (codes "client 1\ncommit noslow sync") ≡ fault_at 2 Form }
    ensures no_rate { script_of whole_grammar (codes "client 1\nslow") ≡ fault_at 2 Form }
{}

/// Lines about keys in families. The number 0 stands for the default family, whose records name none.
pub fn families_in_scripts()
    ensures records { script_of whole_grammar (codes "client 1\nfput 1 a 2\nfdel 1 a\nfsdel 1 a\nfput 0 a 1")
        ≡ Ok ((add put_1a2 ∷ add del_1a ∷ add sdel_1a ∷ add put_a1 ∷ []) ∷ []) }
    ensures reads { script_of whole_grammar (codes "client 1\nfget 1 a\nfscan 1 a b\nfmany 0 a 1 a")
        ≡ Ok ((get key_1a ∷ scan 1 (codes "a") (codes "b")
        ∷ many (key_a ∷ key_1a ∷ []) ∷ []) ∷ []) }
    ensures greatest { script_of whole_grammar (codes "client 1\nfput 4294967295 a 1")
        ≡ Ok ((add (value (Some 4294967295) (codes "a") (codes "1")) ∷ []) ∷ []) }
    ensures too_great { script_of whole_grammar (codes "client 1\nfput 4294967296 a 1") ≡ fault_at 2 Form }
    ensures leading_zero { script_of whole_grammar (codes "client 1\nfget 01 a") ≡ fault_at 2 Form }
    ensures no_key { script_of whole_grammar (codes "client 1\nfget 1") ≡ fault_at 2 Form }
    ensures half_a_place { script_of whole_grammar (codes "client 1\nfmany 0 a 1") ≡ fault_at 2 Form }
    ensures no_place { script_of whole_grammar (codes "client 1\nfmany") ≡ fault_at 2 Form }
{}

//! What the program prints.

ghost use Rattle.std.specs.Prelude.{◌≡◌, ℕ, [], ◌∷◌, codes, decimal, Some, None};
ghost use Rattle.model_base.specs.Text.{hex, line, log_text, outcome_text};
ghost use Rattle.model_rows.specs.Runs.{one_commit, refused_commit, in_two_logs, in_both_families};

/// Two digits for each byte.
pub fn digits_of_bytes()
    ensures digits { hex (0x00 ∷ 0x09 ∷ 0x61 ∷ 0xff ∷ []) ≡ codes "000961ff" }
{}

/// The text of a run of `put a 1`, `commit` and `get a`.
pub fn text_of_one_commit()
    ensures text { outcome_text one_commit ≡ codes
        "client 1\nok 1 1\nval 1 1\nhistory 1\n1 1 1 1 log 0100000000000000010000000101610131\nstate 1 1\na 1\nlog 24\n" }
{}

/// The text of the same run where the log's first write fails.
pub fn text_of_refused_commit()
    ensures text { outcome_text refused_commit ≡ codes
        "client 1\nno logfault 1\nnil 0\nhistory 0\nstate 0 0\nlog 0 fault 1\n" }
{}

/// The line of the log has its length, and then the count of its fault. Of several logs it has the lengths of those
/// that were begun.
pub fn lines_of_logs()
    ensures one { (len : ℕ) → log_text (len ∷ []) None ≡ line (codes "log" ∷ decimal len ∷ []) }
    ensures one_with_a_fault { (len count : ℕ) → log_text (len ∷ []) (Some count)
        ≡ line (codes "log" ∷ decimal len ∷ codes "fault" ∷ decimal count ∷ []) }
    ensures two { log_text (24 ∷ 48 ∷ []) None ≡ codes "log 24 48\n" }
    // The write of the second log's first record failed.
    ensures two_with_a_fault { log_text (24 ∷ 0 ∷ []) (Some 1) ≡ codes "log 24 0 fault 1\n" }
{}

/// The text of a run of `put a 1`, `commit`, `put b 2`, `commit`, `put c 3` and `commit` over two logs, of which the
/// first is full with one record.
pub fn text_of_two_logs()
    ensures text { outcome_text in_two_logs ≡ codes
        "client 1\nok 1 1\nok 2 2\nok 3 3\nhistory 3\n1 1 1 1 log 0100000000000000010000000101610131\n2 2 1 2 log 0200000000000000010000000101620132\n3 3 1 3 log 0300000000000000010000000101630133\nstate 3 3\na 1\nb 2\nc 3\nlog 24 48\n" }
{}

/// What is printed of a run over two families: the pairs of family 1 are printed with its number, after those of the
/// default family. A commit into a family that there isn't is refused.
pub fn text_of_families()
    ensures text { outcome_text in_both_families ≡ codes
        "client 1\nok 1 2\nval 2 2\nval 2 1\nscan 2 1 a 2\nno family 2\nhistory 1\n1 2 1 1 log 0100000000000000020000000101610131050101610132\nstate 2 2\na 1\n1 a 2\nlog 30\n" }
{}

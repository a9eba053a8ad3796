//! What is shown of a small log, worked out.

ghost use Rattle.std.specs.Prelude.{◌≡◌, ◌++◌, codes};
ghost use Rattle.model_base.specs.Log.{plain_log};
ghost use Rattle.model_base.specs.Text.{hex};
ghost use Rattle.list_log.specs.Rows.{as_list, as_scan, damaged_log};
ghost use Rattle.list_log.specs.Texts.{IsListing};
ghost use Rattle.list_log.specs.Totals.{IsSummary};

/// What `list` and `scan` show, with `--text`, of a log of three records of which the second one has a changed byte.
/// `list` shows the record before it. `scan` shows the one after it too, how much between them doesn't read, and that a
/// sequence is missing.
pub fn a_changed_byte_is_shown()
    ensures bytes { hex damaged_log ≡ codes "e99f78191100010100000000000000010000000101610131"
        ++ codes "8f72bc7a1100010200000000000000010000000101780132"
        ++ codes "028100e51100010300000000000000010000000101630133" }
    ensures list { IsListing as_list plain_log damaged_log
        (codes "record 0 24 size 17 sequence 1 count 1\n  put \"a\" \"1\"\n"
        ++ codes "end 24 badchecksum\n") }
    ensures scan { IsListing as_scan plain_log damaged_log
        (codes "shown, not recovered: what follows damage may be of another history\n"
        ++ codes "record 0 24 size 17 sequence 1 count 1\n  put \"a\" \"1\"\n"
        ++ codes "unread 24 48 24 badchecksum\n"
        ++ codes "gap 2 2\nrecord 48 72 size 17 sequence 3 count 1\n  put \"c\" \"3\"\n"
        ++ codes "end 72 clean\n") }
{}

/// What they show of it with `--summary`: the counts of what they would show.
pub fn a_changed_byte_is_counted()
    ensures list { IsSummary as_list plain_log damaged_log
        (codes "records 1\nsequences 1 1\nput 1\nend 24 badchecksum\n") }
    ensures scan { IsSummary as_scan plain_log damaged_log
        (codes "shown, not recovered: what follows damage may be of another history\n"
        ++ codes "records 2\nsequences 1 3\nput 2\nunread 1 24\nend 72 clean\n") }
{}

//! Schedules of events, which are played on the core.

use super::{ONE_TREE, Row, check_rows};
use std::rt::HostRuntime;

const REPLAYED: [Row; 17] = [
    // One group of two.
    (
        "replay",
        b"client 1\nput a 1\ncommit\nclient 2\nput b 2\ncommit\nget a\n\
            schedule\nlink 1\nlink 2\nelect 1\nbuild 1\nlog 1\nlaunch 1\ninsert 1\ninsert 2\nfinish 1\n\
            finish 2\npublish 2\nexit 1\ncomplete 1\ncomplete 2\nread 2\n",
        "events 15 skipped 0\nclient 1\nok 1 1\nclient 2\nok 2 2\nval 2 1\n\
            history 2\n1 1 1 1 log 0100000000000000010000000101610131\n\
            2 2 2 1 log 0200000000000000010000000101620132\nstate 2 2\na 1\nb 2\ngroups 1\n",
    ),
    // The read is skipped: the client's commit comes before it.
    (
        "replay",
        b"client 1\nput a 1\ncommit\nclient 2\nput b 2\ncommit\nget a\n\
            schedule\nread 2\nlink 1\nlink 2\nelect 1\nbuild 1\nlog 1\nlaunch 1\ninsert 1\ninsert 2\n\
            finish 1\nfinish 2\npublish 2\nexit 1\ncomplete 1\ncomplete 2\n",
        "events 14 skipped 1\nclient 1\nok 1 1\nclient 2\nok 2 2\n\
            history 2\n1 1 1 1 log 0100000000000000010000000101610131\n\
            2 2 2 1 log 0200000000000000010000000101620132\nstate 2 2\na 1\nb 2\ngroups 1\n",
    ),
    // The second batch doesn't fit into the group of the first.
    (
        "replay --group-bytes 20",
        b"client 1\nput a 1\ncommit\nclient 2\nput b 2\ncommit\nget a\n\
            schedule\nlink 1\nlink 2\nelect 1\nbuild 1\nlog 1\nlaunch 1\ninsert 1\nfinish 1\npublish 1\n\
            exit 1\ncomplete 1\nelect 2\nbuild 2\nlog 2\nlaunch 2\ninsert 2\nfinish 2\npublish 2\nexit 2\n\
            complete 2\nread 2\n",
        "events 21 skipped 0\nclient 1\nok 1 1\nclient 2\nok 2 2\nval 2 1\n\
            history 2\n1 1 1 1 log 0100000000000000010000000101610131\n\
            2 2 2 1 log 0200000000000000010000000101620132\nstate 2 2\na 1\nb 2\ngroups 2\n",
    ),
    // Most events are skipped, since nobody leads.
    (
        "replay",
        b"client 1\nput a 1\ncommit\nclient 2\nput b 2\ncommit\nget a\n\
            schedule\nbuild 1\nlog 1\nlaunch 1\ninsert 1\nfinish 1\npublish 1\nexit 1\ncomplete 1\nlink 1\n\
            elect 2\n",
        "events 1 skipped 9\nclient 1\nclient 2\nhistory 0\nstate 0 0\ngroups 0\n",
    ),
    // The second group is logged while the first one is inserted. It isn't launched before the first one has left.
    (
        "replay --pipelined",
        b"client 1\nput a 1\ncommit\nclient 2\nput b 2\ncommit\nget a\nclient 3\nget a\nget b\n\
            schedule\nlink 1\nelect 1\nbuild 1\nlink 2\nlog 1\nboundary 1\nsecond 1\nnext 1\nelect 2\n\
            build 2\nlog 2\nlaunch 1\nread 2\ninsert 1\nread 3\nboundary 2\nsecond 2\nnext 2\nlaunch 2\n\
            finish 1\npublish 1\nread 3\nexit 1\nlaunch 2\ncomplete 1\ninsert 2\nfinish 2\npublish 2\n\
            exit 2\ncomplete 2\nread 2\n",
        "events 29 skipped 2\nclient 1\nok 1 1\nclient 2\nok 2 2\nval 2 1\nclient 3\nnil 0\nnil 1\n\
            history 2\n1 1 1 1 log 0100000000000000010000000101610131\n\
            2 2 2 1 log 0200000000000000010000000101620132\nstate 2 2\na 1\nb 2\ngroups 2\n",
    ),
    // The log fails after a group that isn't in the table yet. That group is published all the same.
    (
        "replay --pipelined",
        b"client 1\nput a 1\ncommit\nclient 2\nput b 2\ncommit\nget a\n\
            schedule\nlink 1\nelect 1\nbuild 1\nlog 1\nboundary 1\nsecond 1\nnext 1\nlink 2\nelect 2\n\
            build 2\nfault 2\ncomplete 2\nread 2\nlaunch 1\ninsert 1\nfinish 1\npublish 1\nexit 1\n\
            complete 1\n",
        "events 19 skipped 0\nclient 1\nok 1 1\nclient 2\nno logfault 1\nnil 0\n\
            history 1\n1 1 1 1 log 0100000000000000010000000101610131\nstate 1 1\na 1\ngroups 1\n",
    ),
    // In a single stage the log isn't handed on early: the second client isn't even elected before the first has left.
    (
        "replay",
        b"client 1\nput a 1\ncommit\nclient 2\nput b 2\ncommit\nget a\nclient 3\nget a\nget b\n\
            schedule\nlink 1\nelect 1\nbuild 1\nlink 2\nlog 1\nboundary 1\nsecond 1\nnext 1\nelect 2\n\
            build 2\nlog 2\nlaunch 1\nread 2\ninsert 1\nread 3\nboundary 2\nsecond 2\nnext 2\nlaunch 2\n\
            finish 1\npublish 1\nread 3\nexit 1\nlaunch 2\ncomplete 1\ninsert 2\nfinish 2\npublish 2\n\
            exit 2\ncomplete 2\nread 2\n",
        "events 13 skipped 18\nclient 1\nok 1 1\nclient 2\nclient 3\nnil 0\nnil 1\n\
            history 1\n1 1 1 1 log 0100000000000000010000000101610131\nstate 1 1\na 1\ngroups 1\n",
    ),
    // A client reads several keys at once, before and after another client's batch is published.
    (
        "replay",
        b"client 1\nput a 1\nput b 2\ncommit\nclient 2\nmany b a x\nscan a c\nmany b x\nscan a b\n\
            schedule\nread 2\nlink 1\nelect 1\nbuild 1\nlog 1\nlaunch 1\ninsert 1\nread 2\nfinish 1\n\
            publish 1\nread 2\nread 2\nexit 1\ncomplete 1\n",
        "events 14 skipped 0\nclient 1\nok 1 2\nclient 2\nmany 0 3 - - -\nscan 0 0\nmany 2 2 =2 -\n\
            scan 2 1 a 1\n\
            history 1\n1 2 1 1 log 01000000000000000200000001016101310101620132\nstate 2 2\na 1\nb 2\n\
            groups 1\n",
    ),
    // The second commit doesn't wait where writes are held up, and the first does. So they share no group.
    (
        "replay",
        b"client 1\nput a 1\ncommit\nclient 2\nput b 2\ncommit noslow\n\
            schedule\nlink 1\nlink 2\nelect 1\nbuild 1\nlog 1\nlaunch 1\ninsert 1\ninsert 2\nfinish 1\n\
            publish 1\nexit 1\ncomplete 1\n",
        "events 11 skipped 1\nclient 1\nok 1 1\nclient 2\n\
            history 1\n1 1 1 1 log 0100000000000000010000000101610131\nstate 1 1\na 1\ngroups 1\n",
    ),
    // A leader stalls writes: client 2 leaves the queue, client 3 is refused at once, and client 4 comes after the
    // stall.
    (
        "replay",
        b"client 1\nput a 1\ncommit\nclient 2\nput b 2\ncommit noslow\nclient 3\nput c 3\ncommit noslow\n\
            client 4\nput d 4\ncommit\n\
            schedule\nlink 1\nelect 1\nbuild 1\nlink 2\nstall 1\nleave 2\nlink 3\nlink 4\ncomplete 2\n\
            unstall 1\nlink 4\nlog 1\nlaunch 1\ninsert 1\nfinish 1\npublish 1\nexit 1\ncomplete 1\n",
        "events 17 skipped 1\nclient 1\nok 1 1\nclient 2\nno incomplete 1 0 0\nclient 3\n\
            no incomplete 1 0 0\nclient 4\n\
            history 1\n1 1 1 1 log 0100000000000000010000000101610131\nstate 1 1\na 1\ngroups 1\n",
    ),
    (
        "replay --pipelined",
        b"client 1\nput a 1\ncommit\nclient 2\nput b 2\ncommit noslow\nclient 3\nput c 3\ncommit noslow\n\
            client 4\nput d 4\ncommit\n\
            schedule\nlink 1\nelect 1\nbuild 1\nlink 2\nstall 1\nleave 2\nlink 3\nlink 4\ncomplete 2\n\
            unstall 1\nlink 4\nlog 1\nboundary 1\nsecond 1\nnext 1\nlaunch 1\ninsert 1\nfinish 1\n\
            publish 1\nexit 1\ncomplete 1\n",
        "events 20 skipped 1\nclient 1\nok 1 1\nclient 2\nno incomplete 1 0 0\nclient 3\n\
            no incomplete 1 0 0\nclient 4\n\
            history 1\n1 1 1 1 log 0100000000000000010000000101610131\nstate 1 1\na 1\ngroups 1\n",
    ),
    // A batch of three records and a batch of one, in one group.
    (
        "replay",
        b"client 1\nput a 1\nput b 2\nput c 3\ncommit\nclient 2\nput d 4\ncommit\n\
            schedule\nlink 1\nlink 2\nelect 1\nbuild 1\nlog 1\nlaunch 1\ninsert 1\ninsert 2\nfinish 1\n\
            finish 2\npublish 2\nexit 1\ncomplete 1\ncomplete 2\n",
        "events 14 skipped 0\nclient 1\nok 1 3\nclient 2\nok 4 4\n\
            history 2\n1 3 1 1 log 010000000000000003000000010161013101016201320101630133\n\
            4 4 2 1 log 0400000000000000010000000101640134\nstate 4 4\na 1\nb 2\nc 3\nd 4\ngroups 1\n",
    ),
    // Families: a batch in two of them, and reads of them, of which some are of a family that there isn't.
    (
        "replay --families 2",
        b"client 1\nput a 1\nfput 1 a 2\ncommit\nclient 2\nfget 1 a\nfget 2 a\nfmany 1 a 0 a\nfmany 0 a 7 a\n\
            fscan 1 a b\n\
            schedule\nread 2\nlink 1\nelect 1\nbuild 1\nlog 1\nlaunch 1\ninsert 1\nread 2\nfinish 1\n\
            publish 1\nread 2\nread 2\nread 2\nexit 1\ncomplete 1\n",
        "events 15 skipped 0\nclient 1\nok 1 2\nclient 2\nnil 0\nno family 2\nmany 2 2 =2 =1\nno family 7\n\
            scan 2 1 a 2\n\
            history 1\n1 2 1 1 log 0100000000000000020000000101610131050101610132\nstate 2 2\na 1\n1 a 2\n\
            groups 1\n",
    ),
    // A commit of a family that there isn't is refused before its batch is queued.
    (
        "replay",
        b"client 1\nfput 1 a 1\ncommit\nclear\nput a 1\ncommit\n\
            schedule\nlink 1\nlink 1\nelect 1\nbuild 1\nlog 1\nlaunch 1\ninsert 1\nfinish 1\npublish 1\n\
            exit 1\ncomplete 1\n",
        "events 11 skipped 0\nclient 1\nno family 1\nok 1 1\n\
            history 1\n1 1 1 1 log 0100000000000000010000000101610131\nstate 1 1\na 1\ngroups 1\n",
    ),
    // Two sequences are left, so the first batch has no run and isn't inserted. The second batch has one.
    (
        "replay --last 72057594037927933",
        b"client 1\nput a 1\nput b 1\nput c 1\ncommit\nclient 2\nput d 1\ncommit\n\
            schedule\nlink 1\nlink 2\nelect 1\nbuild 1\nlog 1\nlaunch 1\ninsert 1\ninsert 2\nfinish 2\n\
            publish 2\nexit 1\ncomplete 1\ncomplete 2\n",
        "events 12 skipped 1\nclient 1\nno full 72057594037927933\nclient 2\n\
            ok 72057594037927934 72057594037927934\n\
            history 1\n72057594037927934 72057594037927934 2 1 log feffffffffffff00010000000101640131\n\
            state 72057594037927934 1\nd 1\ngroups 1\n",
    ),
    // A client reads the log alone in its group: the writer behind it comes after it. It isn't logged, and no fault of
    // the log is its own.
    (
        "replay",
        b"client 1\nput a 1\ncommit\nupdates 1\nclient 2\nput b 2\ncommit\n\
            schedule\nlink 1\nelect 1\nbuild 1\nlog 1\nlaunch 1\ninsert 1\nfinish 1\npublish 1\nexit 1\n\
            complete 1\nread 1\nsince 1\nlink 1\nlink 2\nelect 1\nsince 1\nbuild 1\nlog 1\nfault 1\n\
            stall 1\nexit 1\nsince 1\nsince 1\nexit 1\ncomplete 1\nelect 2\nbuild 2\nlog 2\nlaunch 2\n\
            insert 2\nfinish 2\npublish 2\nexit 2\ncomplete 2\n",
        "events 26 skipped 8\nclient 1\nok 1 1\nupdates 1 1 0100000000000000010000000101610131\n\
            client 2\nok 2 2\nhistory 2\n1 1 1 1 log 0100000000000000010000000101610131\n\
            2 2 2 1 log 0200000000000000010000000101620132\nstate 2 2\na 1\nb 2\ngroups 2\n",
    ),
    // What isn't published is not given, though the log has it. A second read gives it.
    (
        "replay --pipelined",
        b"client 1\nput a 1\ncommit\nclient 2\nupdates 0\nupdates 0\n\
            schedule\nlink 1\nelect 1\nbuild 1\nlog 1\nboundary 1\nsecond 1\nnext 1\nlink 2\nelect 2\n\
            build 2\nlaunch 1\nsince 2\ninsert 1\nfinish 1\npublish 1\nexit 2\ncomplete 2\nexit 1\n\
            complete 1\nlink 2\nelect 2\nbuild 2\nsince 2\nexit 2\ncomplete 2\n",
        "events 25 skipped 0\nclient 1\nok 1 1\nclient 2\nupdates 0 0\n\
            updates 1 1 0100000000000000010000000101610131\n\
            history 1\n1 1 1 1 log 0100000000000000010000000101610131\nstate 1 1\na 1\ngroups 1\n",
    ),
];

/// A script for `replay` has no tokens, and must have a schedule.
const REFUSED: [Row; 2] = [
    ("replay", b"client 1\nstop\nschedule\n", "script 2 word\n"),
    (
        "replay",
        b"client 1\nput a 1\ncommit\nclient 2\nput b 2\ncommit\nget a\n",
        "script 0 schedule\n",
    ),
];

#[test]
fn schedules_are_replayed(rt: HostRuntime) {
    check_rows(&rt, rt.alloc(), ONE_TREE, 0, &REPLAYED);
    check_rows(&rt, rt.alloc(), ONE_TREE, 2, &REFUSED);
}

//! What the log has from a sequence on: over each write path, where a read of the disk fails, and over two logs.

use super::Fails::Disk;
use super::several::{Fails, LATER, RUN, check_row};
use super::{Given, PATHS, PLAIN, RECORD, Row, check_rows, ended};
use std::rt::HostRuntime;

/// The second batch stays out of the log, so the log has nothing at its sequence.
const GIVEN: [Row; 4] = [
    (
        "run",
        b"client 1\nput a 1\ncommit\nput b 2\ncommit nolog\nput c 3\ncommit\nupdates 2\nupdates 4\nupdates 0\n",
        "client 1\nok 1 1\nok 2 2\nok 3 3\nupdates 3 1 0300000000000000010000000101630133\nupdates 3 0\n\
            updates 3 2 0100000000000000010000000101610131 0300000000000000010000000101630133\n\
            history 3\n1 1 1 1 log 0100000000000000010000000101610131\n\
            2 2 1 2 nolog 0200000000000000010000000101620132\n\
            3 3 1 3 log 0300000000000000010000000101630133\nstate 3 3\na 1\nb 2\nc 3\nlog 48\n",
    ),
    // A client that holds a stop token would wait for itself. A slowed one doesn't wait.
    (
        "run",
        b"client 1\nstop\nupdates 0\nunstop\nslow 1\nupdates 0\n",
        "client 1\ndone\nno selfstop\ndone\ndone\nupdates 0 0\nhistory 0\nstate 0 0\nlog 0\n",
    ),
    // Records are given whole: this one from its second sequence on, and from its last one.
    (
        "run",
        b"client 1\nput a 1\nput b 2\ncommit\nupdates 1\nupdates 2\nupdates 3\nupdates 18446744073709551615\n",
        "client 1\nok 1 2\nupdates 2 1 01000000000000000200000001016101310101620132\n\
            updates 2 1 01000000000000000200000001016101310101620132\nupdates 2 0\nupdates 2 0\n\
            history 1\n1 2 1 1 log 01000000000000000200000001016101310101620132\nstate 2 2\na 1\nb 2\nlog 29\n",
    ),
    // The batch is kept: no commit empties it, and the lines of a batch may come before and after.
    (
        "run --last 4",
        b"client 1\nput a 1\nupdates 0\ncommit\nupdates 5\n",
        "client 1\nupdates 4 0\nok 5 5\nupdates 5 1 0500000000000000010000000101610131\n\
            history 1\n5 5 1 1 log 0500000000000000010000000101610131\nstate 5 1\na 1\nlog 24\n",
    ),
];

/// The third call of the disk is the read. The log goes on after it.
const AFTER_A_FAULT: &str = "client 1\nok 1 1\nno readfault 1\nok 2 2\n\
        history 2\n1 1 1 1 log 0100000000000000010000000101610131\n\
        2 2 1 2 log 0200000000000000010000000101620132\nstate 2 2\na 1\nb 2\nlog 48\n";

#[test]
fn the_log_is_given_from_a_sequence_on(rt: HostRuntime) {
    for path in PATHS {
        check_rows(&rt, rt.alloc(), path, 0, &GIVEN);
    }
}

#[test]
fn the_log_goes_on_after_a_fault_of_a_read(rt: HostRuntime) {
    for path in PATHS {
        let given = Given {
            path,
            text: b"client 1\nput a 1\ncommit\nupdates 1\nput b 2\ncommit\n",
            fails: Disk(3),
            ..PLAIN
        };
        ended(&rt, rt.alloc(), given, 3, AFTER_A_FAULT);
    }
}

const OVER_TWO: &[u8] =
    b"client 1\nput a 1\ncommit\nput b 2\ncommit\nupdates 2\nupdates 0\nput c 3\ncommit\n";

const BEFORE: &str = "client 1\nok 1 1\nok 2 2\n";

/// Which calls of the disks fail, the status, and what the two reads are answered. The first log is one record long,
/// and is read first.
const TWO_LOGS: [(Fails, u8, &str); 3] = [
    (
        (&[], &[]),
        0,
        "updates 2 1 0200000000000000010000000101620132\n\
            updates 2 2 0100000000000000010000000101610131 0200000000000000010000000101620132\n",
    ),
    (
        (&[4], &[]),
        3,
        "no readfault 1\n\
            updates 2 2 0100000000000000010000000101610131 0200000000000000010000000101620132\n",
    ),
    (
        (&[], &[4]),
        3,
        "no readfault 1\n\
            updates 2 2 0100000000000000010000000101610131 0200000000000000010000000101620132\n",
    ),
];

const AFTER: &str = "ok 3 3\nhistory 3\n1 1 1 1 log 0100000000000000010000000101610131\n\
    2 2 1 2 log 0200000000000000010000000101620132\n\
    3 3 1 3 log 0300000000000000010000000101630133\nstate 3 3\na 1\nb 2\nc 3\nlog 24 48\n";

#[test]
fn several_logs_are_read_one_after_another(rt: HostRuntime) {
    let alloc = rt.alloc();
    for (fails, status, answers) in TWO_LOGS {
        let text = format!(in alloc; "{BEFORE}{answers}{AFTER}").expect(&rt, "memory");
        let empty = b"".as_slice();
        let row = (
            RUN,
            [empty, empty],
            fails,
            status,
            text.as_str(),
            [RECORD, LATER],
        );
        check_row(&rt, alloc, OVER_TWO, row);
    }
}

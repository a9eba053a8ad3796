//! Scripts of several clients, which may come in any order.

use super::{Came, Given, PATHS, PLAIN, came_of, check_texts};
use std::alloc::Global;
use std::process::Abort;
use std::rt;
use std::rt::HostRuntime;
use std::sync::Wait;
use std::thread::Threads;

/// Runs a script twenty times over each write path, so that its clients may come in more than one order.
fn check_clients<R: Threads + Wait + rt::Clock + Abort + Sync>(
    rt: &R,
    alloc: Global,
    given: Given,
    wanted: &[&str],
) {
    for path in PATHS {
        for _ in 0..20 {
            let Came { status, sink, .. } = came_of(rt, alloc, Given { path, ..given });
            check_texts(rt, &sink, wanted);
            assert_eq!(rt; status, 0);
        }
    }
}

/// Either writer may come first, and the reader may come before, between or after them.
const BOTH_OR_NEITHER: [&str; 6] = [
    "client 1\nok 1 2\nclient 2\nok 3 4\nclient 3\nmany 0 2 - -\n\
        history 2\n1 2 1 1 log *\n3 4 2 1 log *\nstate 4 2\na 2\nb 2\nlog *\n",
    "client 1\nok 1 2\nclient 2\nok 3 4\nclient 3\nmany 2 2 =1 =1\n\
        history 2\n1 2 1 1 log *\n3 4 2 1 log *\nstate 4 2\na 2\nb 2\nlog *\n",
    "client 1\nok 1 2\nclient 2\nok 3 4\nclient 3\nmany 4 2 =2 =2\n\
        history 2\n1 2 1 1 log *\n3 4 2 1 log *\nstate 4 2\na 2\nb 2\nlog *\n",
    "client 1\nok 3 4\nclient 2\nok 1 2\nclient 3\nmany 0 2 - -\n\
        history 2\n1 2 2 1 log *\n3 4 1 1 log *\nstate 4 2\na 1\nb 1\nlog *\n",
    "client 1\nok 3 4\nclient 2\nok 1 2\nclient 3\nmany 2 2 =2 =2\n\
        history 2\n1 2 2 1 log *\n3 4 1 1 log *\nstate 4 2\na 1\nb 1\nlog *\n",
    "client 1\nok 3 4\nclient 2\nok 1 2\nclient 3\nmany 4 2 =1 =1\n\
        history 2\n1 2 2 1 log *\n3 4 1 1 log *\nstate 4 2\na 1\nb 1\nlog *\n",
];

/// The same of a key in two families.
const IN_BOTH_FAMILIES: [&str; 6] = [
    "client 1\nok 1 2\nclient 2\nok 3 4\nclient 3\nmany 0 2 - -\n\
        history 2\n1 2 1 1 log *\n3 4 2 1 log *\nstate 4 2\na 2\n1 a 2\nlog *\n",
    "client 1\nok 1 2\nclient 2\nok 3 4\nclient 3\nmany 2 2 =1 =1\n\
        history 2\n1 2 1 1 log *\n3 4 2 1 log *\nstate 4 2\na 2\n1 a 2\nlog *\n",
    "client 1\nok 1 2\nclient 2\nok 3 4\nclient 3\nmany 4 2 =2 =2\n\
        history 2\n1 2 1 1 log *\n3 4 2 1 log *\nstate 4 2\na 2\n1 a 2\nlog *\n",
    "client 1\nok 3 4\nclient 2\nok 1 2\nclient 3\nmany 0 2 - -\n\
        history 2\n1 2 2 1 log *\n3 4 1 1 log *\nstate 4 2\na 1\n1 a 1\nlog *\n",
    "client 1\nok 3 4\nclient 2\nok 1 2\nclient 3\nmany 2 2 =2 =2\n\
        history 2\n1 2 2 1 log *\n3 4 1 1 log *\nstate 4 2\na 1\n1 a 1\nlog *\n",
    "client 1\nok 3 4\nclient 2\nok 1 2\nclient 3\nmany 4 2 =1 =1\n\
        history 2\n1 2 2 1 log *\n3 4 1 1 log *\nstate 4 2\na 1\n1 a 1\nlog *\n",
];

/// Each client reads what it wrote last. Each batch is a group of its own, so the log always has the same length.
const OWN: [&str; 1] = [
    "client 1\nok *\nmany * 2 =1 =1\nscan * 2 a1 1 a2 1\nclient 2\nok *\nval * 2\nok *\nnil *\n\
        client 3\nok *\nok *\nval * 4\n\
        history 5\n1 *\n*\n*\n*\n*\nstate 6 3\na1 1\na2 1\nc1 4\nlog 104\n",
];

/// Words and a script, and what may be printed.
const SCRIPTS: [(&str, &[u8], &[&str]); 3] = [
    (
        "run",
        b"client 1\nput a 1\nput b 1\ncommit\nclient 2\nput a 2\nput b 2\ncommit\nclient 3\nmany a b\n",
        &BOTH_OR_NEITHER,
    ),
    (
        "run --families 2",
        b"client 1\nput a 1\nfput 1 a 1\ncommit\nclient 2\nput a 2\nfput 1 a 2\ncommit\n\
            client 3\nfmany 0 a 1 a\n",
        &IN_BOTH_FAMILIES,
    ),
    (
        "run --group-bytes 1",
        b"client 1\nput a1 1\nput a2 1\ncommit sync\nmany a1 a2\nscan a b\nclient 2\nput b1 2\n\
            commit nolog\nget b1\ndel b1\ncommit\nget b1\nclient 3\nput c1 3\ncommit\nput c1 4\ncommit\n\
            get c1\n",
        &OWN,
    ),
];

#[test]
fn clients_see_whole_batches_and_their_own(rt: HostRuntime) {
    for (words, text, wanted) in SCRIPTS {
        let given = Given {
            words,
            text,
            ..PLAIN
        };
        check_clients(&rt, rt.alloc(), given, wanted);
    }
}

//! Small scripts that seeds make, whose commands were worked out by hand, and sums of values.

ghost use Rattle.std.specs.Prelude.{◌≤◌};

use base_maps::FamilyMap;
use model_base::{MAX_CLIENTS, NoMemory};
use run_generator::{generate, sum_of};
use run_scripts::parse_schedule;
use std::alloc::Global;
use std::process::Abort;
use std::test::Fail;

/// The seed makes the script that this text says.
fn check_script(
    rt: &impl Abort,
    alloc: Global,
    seed: u64,
    clients: u32,
    batches: u64,
    text: &str,
) -> Result<(), Fail>
    requires clients { (1 ≤ clients) × (clients ≤ MAX_CLIENTS) }
    requires batches { (1 ≤ batches) × (batches ≤ 100000) }
{
    let script = generate(alloc, seed, clients, batches)?;
    let Ok(by_hand) = parse_schedule(alloc, text.as_bytes()) else {
        return Err(Fail::new("no script was read"));
    };
    let generated = format!(in alloc; "{script:?}")?;
    let wanted = format!(in alloc; "{:?}", by_hand.script)?;
    assert_eq!(rt; generated, wanted);
    Ok(())
}

// With seed 1, client 1 draws 908, so one record; 22817 and 10239, so a value at key 17; and 12914. Then 25837, so two
// records; 27095 and 29976, so a deletion of key 95; 27865 and 20302, so a value at key 65; and 32531. Client 2 draws
// 17747, 7107, 10365, 8312, 20622, 15796, 4173, 15543, 24392, 28207, 16493, 16966; then 15933, 16665, 21733, 880,
// 10532 and 11084.
#[test]
fn a_script_of_two_clients(rt: HostRuntime) -> Result<(), Fail> {
    let text = "client 1\nput c1k17 914\ncommit\ndel c1k95\nput c1k65 531\ncommit\n\
        client 2\nput c2k7 312\ndel c2k22\nput c2k73 392\nput c2k7 966\ncommit\n\
        put c2k65 880\ndel c2k32\ncommit\nschedule\n";
    check_script(&rt, rt.alloc(), 1, 2, 2, text)
}

// With the largest seed, client 1 begins at the state 0 and draws 0, so one record; 21468 and 9988, so a deletion of
// key 68. Client 2 begins at the state 1, as client 1 does with seed 0, and draws 16838, so three records; 5758, 10113
// and 17515, so the value 515 at key 58; 31051, 5627 and 23010, so the value 10 at key 51; and 7419 and 16212, so a
// deletion of key 19.
#[test]
fn the_largest_seed(rt: HostRuntime) -> Result<(), Fail> {
    let largest = "client 1\ndel c1k68\ncommit\n\
        client 2\nput c2k58 515\nput c2k51 10\ndel c2k19\ncommit\nschedule\n";
    let same = "client 1\nput c1k58 515\nput c1k51 10\ndel c1k19\ncommit\nschedule\n";
    check_script(&rt, rt.alloc(), u64::MAX, 2, 1, largest)?;
    check_script(&rt, rt.alloc(), 0, 1, 1, same)
}

#[test]
fn each_batch_is_committed(rt: HostRuntime) -> Result<(), Fail> {
    let script = generate(rt.alloc(), 7, 3, 25)?;
    let [one, two, three] = script.clients.as_slice() else {
        return Err(Fail::new("not three clients"));
    };
    let commits = (one.commit_count(), two.commit_count(), three.commit_count());
    assert_eq!(rt; commits, (25, 25, 25));
    Ok(())
}

/// Values of a map. The last but one is the largest number that a value may be.
const VALUES: [&[u8]; 5] = [
    b"0",
    b"7",
    b"9",
    b"18446744073709551615",
    b"18446744073709551616",
];

/// How many of these values are summed up, and their sum.
const SUMS: [(usize, Option<u128>); 3] = [
    (0, Some(0)),
    (4, Some(18_446_744_073_709_551_631)),
    (5, None),
];

// The first `count` values, each at a key that is equal to it, in two families.
fn first_values(alloc: Global, count: usize) -> Result<FamilyMap, NoMemory> {
    let mut map = FamilyMap::new(alloc);
    for (at, value) in VALUES.iter().take(count).enumerate() {
        map.insert(if at < 2 { 0 } else { 5 }, value, value)?;
    }
    Ok(map)
}

#[test]
fn values_are_summed_up(rt: HostRuntime) -> Result<(), Fail> {
    for (count, sum) in SUMS {
        let map = first_values(rt.alloc(), count)?;
        assert_eq!(rt; sum_of(&map), sum, "of {count} values");
    }
    Ok(())
}

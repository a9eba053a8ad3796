//! Bells that nobody rings, and a bell that another thread rings.

use base_waiting::Bells;
use std::sync::Wait;
use std::sync::atomic::AtomicU64;
use std::sync::atomic::Ordering::SeqCst;
use std::test::Fail;
use std::{rt, thread};

fn change(bells: &Bells, changed: &AtomicU64) {
    changed.store(1, SeqCst);
    bells.ring(1);
}

fn await_change<R: Wait + rt::Clock>(rt: &R, bells: &Bells, changed: &AtomicU64) {
    let pauses = bells.pauses();
    for _ in rt.forever() {
        if changed.load(SeqCst) == 1 {
            return;
        }
        bells.pause(rt, &pauses, 1);
    }
}

// Each pause ends. Client 3 has no bell.
#[test]
fn nobody_rings(rt: HostRuntime) -> Result<(), Fail> {
    let bells = Bells::for_clients(rt.alloc(), 2)?;
    let pauses = bells.pauses();
    for turn in 0..20 {
        bells.pause(&rt, &pauses, 2);
    }
    bells.ring(2);
    bells.pause(&rt, &pauses, 3);
    bells.ring(3);
    Ok(())
}

#[test]
fn another_rings(rt: HostRuntime) -> Result<(), Fail> {
    let bells = Bells::for_clients(rt.alloc(), 1)?;
    let changed = AtomicU64::new(0);
    thread::join(
        &rt,
        || change(&bells, &changed),
        || await_change(&rt, &bells, &changed),
    );
    assert_eq!(rt; changed.load(SeqCst), 1);
    Ok(())
}

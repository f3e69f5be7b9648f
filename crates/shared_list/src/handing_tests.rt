// Two workers hand the lock over a hundred times, each only once the other waits for it. Without the waking call this run doesn't end.
ghost use Rattle.std.specs.Prelude.{◌≡◌};
ghost use Rattle.vcell.specs.Passes.{IsPassOf};

use crate::numbers::Numbers;
use std::alloc::AllocError;
use std::sync::Wait;
use std::sync::atomic::{AtomicU64, Ordering};
use std::test::Fail;
use std::thread;
use std::thread::{Threads, join};
use std::time::{Clock, Duration};
use vcell::{Pass, VCell};

// How often each worker holds the list.
const TURNS: u64 = 100;

// How many of the numbers aren't `x`.
fn others(items: &[u64], x: u64) -> u64 {
    let mut count = 0u64;
    for y in items {
        if *y != x {
            count = count.saturating_add(1);
        }
    }
    count
}

// Waits until the other worker has come to the lock after so many turns, and gives it time to draw its ticket and to fall asleep.
fn await_other<R: Wait + Clock>(rt: &R, theirs: &AtomicU64, had: u64) {
    for _ in rt.forever() {
        if theirs.load(Ordering::SeqCst) > had {
            break;
        }
        thread::sleep(rt, Duration::from_micros(50));
    }
    thread::sleep(rt, Duration::from_millis(1));
}

// Adds a number in one holding, which ends only once the other worker waits for the list, if it isn't through.
fn add_slowly<R: Wait + Clock>(
    rt: &R,
    cell: &VCell<Numbers>,
    pass: Pass<Numbers>,
    x: u64,
    mine: &AtomicU64,
    theirs: &AtomicU64,
) -> Pass<Numbers>
    requires { IsPassOf cell.now pass }
    ensures own { IsPassOf cell.now result }
{
    mine.fetch_add(1, Ordering::SeqCst);
    let mut held = cell.enter(rt, pass);
    let had = others(held.value().items.as_slice(), x);
    if had < TURNS {
        await_other(rt, theirs, had);
    }
    let _ = held.value().push(x);
    held.leave()
}

fn work<R: Wait + Clock>(
    rt: &R,
    cell: &VCell<Numbers>,
    mut pass: Pass<Numbers>,
    x: u64,
    mine: &AtomicU64,
    theirs: &AtomicU64,
) -> Pass<Numbers>
    requires { IsPassOf cell.now pass }
    ensures own { IsPassOf cell.now result }
{
    for _ in 0..TURNS {
        pass = add_slowly(rt, cell, pass, x, mine, theirs);
    }
    pass
}

// Two workers, each in a thread. It answers the pass of the first.
fn hand<R: Threads + Wait + Clock + Sync>(
    rt: &R,
    cell: &VCell<Numbers>,
    first: Pass<Numbers>,
    second: Pass<Numbers>,
) -> Pass<Numbers>
    requires { IsPassOf cell.now first × IsPassOf cell.now second }
    ensures { IsPassOf cell.now result }
{
    let (one, two) = (AtomicU64::new(0), AtomicU64::new(0));
    let (pass, _) = join(
        rt,
        || -> Pass<Numbers>
            requires { IsPassOf cell.now first }
            ensures { IsPassOf cell.entry.now result }
        { work(rt, cell, first, 1, &one, &two) },
        || -> Pass<Numbers>
            requires { IsPassOf cell.now second }
            ensures { IsPassOf cell.entry.now result }
        { work(rt, cell, second, 2, &two, &one) },
    );
    pass
}

#[test]
fn a_pass_that_waits_is_woken(rt: HostRuntime) -> Result<(), Fail> {
    let Ok(made) = VCell::make(rt.alloc(), Numbers::new(rt.alloc(), TURNS), 2) else {
        return Err(Fail::from(AllocError));
    };
    let (cell, mut passes) = made;
    let (Some(first), Some(second)) = (passes.pop(), passes.pop()) else {
        return Err(Fail::from(AllocError));
    };
    let pass = hand(&rt, &cell, first, second);
    let mut held = cell.enter(&rt, pass);
    let count = held.value().items.len();
    let _ = held.leave();
    assert_eq!(rt; count, 200);
    Ok(())
}

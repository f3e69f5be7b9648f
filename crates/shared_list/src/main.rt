//! Workers in threads draw numbers and put each into one list. It prints what the list has then, which doesn't depend on the order in which the workers came to the lock.
#![tactic(auto)]

ghost use Rattle.std.specs.Prelude.{◌<◌, ◌≤◌};

mod crews;
mod gathering;
mod numbers;

use gathering::gather;
use std::alloc::Global;
use std::io;
use std::sync::Wait;
use std::thread::Threads;

// What so many workers put into the list, in order.
fn show<R: Print + Threads + Wait + Sync>(rt: &R, alloc: Global, workers: u32) -> io::Result<()>
    requires { (0 < workers) × (workers ≤ 16) }
{
    let Ok(mut all) = gather(rt, alloc, 1000, workers) else {
        println!(rt; "{workers} workers: no memory")?;
        return Ok(());
    };
    if all.sort().is_err() {
        println!(rt; "{workers} workers: no memory")?;
        return Ok(());
    }
    let in_order = all.iter().enumerate().all(|(i, x)| *x == i as u64);
    println!(rt;
        "{workers} workers: {} numbers, each once: {in_order}",
        all.len()
    )?;
    Ok(())
}

fn main(rt: HostRuntime) -> io::Result<()> {
    let alloc = rt.alloc();
    show(&rt, alloc, 1)?;
    show(&rt, alloc, 2)?;
    show(&rt, alloc, 16)?;
    Ok(())
}

#[cfg(test)]
mod handing_tests;

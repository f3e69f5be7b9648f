// The whole run: a lock and a counter are made, the workers work, and both are closed.
ghost use Rattle.std.specs.Prelude.{◌≡◌, ℕ, ◌<◌, ◌≤◌, length, IfOk};
ghost use Rattle.claims.specs.Draws.{times, once_below};

use crate::crews::crew;
use crate::numbers::Numbers;
use claims::Claims;
use std::alloc::{AllocError, Global};
use std::sync::Wait;
use std::thread::Threads;
use vcell::VCell;

/// The workers draw the numbers below `turns`, and put each into one list. In the end the list has each of these numbers once, in whatever order the workers came to the lock.
pub fn gather<R: Threads + Wait + Sync>(
    rt: &R,
    alloc: Global,
    turns: u64,
    workers: u32,
) -> Result<Vec<u64>, AllocError>
    requires turns { turns ≤ 2000000 }
    requires workers { (0 < workers) × (workers ≤ 16) }
    ensures count { IfOk result (λ v. length v.items ≡ turns) }
    ensures once { IfOk result (λ v. (x : ℕ) → times x v.items ≡ once_below turns x) }
{
    let (claims, seats) = Claims::make(alloc, turns, workers)?;
    let Ok(made) = VCell::make(alloc, Numbers::new(alloc, turns), workers) else {
        return Err(AllocError);
    };
    let (cell, passes) = made;
    let (passes, seats, whole) = crew(rt, &cell, &claims, passes, seats);
    claims.close(seats);
    let all = cell.close(passes);
    if whole {
        Ok(all.items)
    } else {
        Err(AllocError)
    }
}

// What may cross threads. Each function here is proved where the types named in its calls do.
use crate::{Lit, LogFault, Step};

fn crosses<T: Send + Sync>(_it: &T) {}

// Literals, steps of a trail and faults of a log may be moved and shared.
fn _literals_cross_threads(lit: &Lit, step: &Step, fault: &LogFault) {
    crosses(lit);
    crosses(step);
    crosses(fault);
}

// What may cross threads. Each function here is proved where the types named in its calls do.
use crate::{Start, StartFault, Trace};

fn crosses<T: Send + Sync>(_it: &T) {}

// First centres and faults may be moved and shared.
fn _starts_cross_threads(start: &Start, fault: &StartFault) {
    crosses(start);
    crosses(fault);
}

// So may runs with their images.
fn _traces_cross_threads(trace: &Trace) {
    crosses(trace);
}

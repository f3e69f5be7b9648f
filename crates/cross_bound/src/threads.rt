// What may cross threads. Each function here is proved where the types named in its calls do.
use crate::{CrossBound, Side};

fn crosses<T: Send + Sync>(_it: &T) {}

// Bounds may be moved and shared.
fn _bounds_cross_threads(bound: &CrossBound, side: &Side) {
    crosses(bound);
    crosses(side);
}

// What may cross threads. Each function here is proved where the types named in its calls do.
use crate::{Assign, Ints, Perm, Weights};

fn crosses<T: Send + Sync>(_it: &T) {}

// Weights and assignments may be moved and shared.
fn _assignments_cross_threads(weights: &Weights, assign: &Assign, perm: &Perm, ints: &Ints) {
    crosses(weights);
    crosses(assign);
    crosses(perm);
    crosses(ints);
}

// What may cross threads. Each function here is proved where the types named in its calls do.
use crate::Flip;

fn crosses<T: Send + Sync>(_it: &T) {}

// Flips may be moved and shared.
fn _flips_cross_threads(flip: &Flip) {
    crosses(flip);
}

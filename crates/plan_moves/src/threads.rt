// What may cross threads. Each function here is proved where the types named in its calls do.
use crate::{Descent, Walk};

fn crosses<T: Send + Sync>(_it: &T) {}

// What improvers answer may be moved and shared.
fn _answers_cross_threads(walk: &Walk, descent: &Descent) {
    crosses(walk);
    crosses(descent);
}

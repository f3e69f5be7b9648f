// What may cross threads. Each function here is proved where the types named in its calls do.
use crate::Written;

fn crosses<T: Send + Sync>(_it: &T) {}

// What is written may be moved and shared.
fn _what_is_written_crosses_threads(written: &Written) {
    crosses(written);
}

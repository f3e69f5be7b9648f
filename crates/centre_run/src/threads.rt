// What may cross threads. Each function here is proved where the types named in its calls do.
use crate::Status;

fn crosses<T: Send + Sync>(_it: &T) {}

// Statuses may be moved and shared.
fn _statuses_cross_threads(status: &Status) {
    crosses(status);
}

// What may cross threads. Each function here is proved where the types named in its calls do.
use crate::NoGate;

fn crosses<T: Send + Sync>(_it: &T) {}

// The gate that does nothing may be moved and shared.
fn _gates_cross_threads(gate: &NoGate) {
    crosses(gate);
}

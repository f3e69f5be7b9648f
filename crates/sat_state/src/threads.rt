// What may cross threads. Each function here is proved where the types named in its calls do.
use crate::State;

fn crosses<T: Send + Sync>(_it: &T) {}

// The state of a search may be moved and shared.
fn _states_cross_threads(state: &State) {
    crosses(state);
}

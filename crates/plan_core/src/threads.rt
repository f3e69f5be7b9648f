// What may cross threads. Each function here is proved where the types named in its calls do.
use crate::{MoveList, Plan, SwapFault};

fn crosses<T: Send + Sync>(_it: &T) {}

// Plans, moves and faults may be moved and shared.
fn _plans_cross_threads(plan: &Plan, moves: &MoveList, fault: &SwapFault) {
    crosses(plan);
    crosses(moves);
    crosses(fault);
}

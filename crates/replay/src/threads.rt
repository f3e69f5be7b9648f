// What may cross threads. Each function here is proved where the types named in its calls do.
use crate::{ReplayFault, RoundFault, ScoreFault, Scored};

fn crosses<T: Send + Sync>(_it: &T) {}

// Scores and faults may be moved and shared.
fn _scores_cross_threads(
    scored: &Scored,
    fault: &ScoreFault,
    replay: &ReplayFault,
    round: &RoundFault,
) {
    crosses(scored);
    crosses(fault);
    crosses(replay);
    crosses(round);
}

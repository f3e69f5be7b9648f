// What may cross threads. Each function here is proved where the types named in its calls do.
use crate::{Job, Limits, NoPool, Outcome, Outcomes};

fn crosses<T: Send + Sync>(_it: &T) {}

// Limits, jobs and outcomes may be moved and shared.
fn _outcomes_cross_threads(limits: &Limits, job: &Job, outcome: &Outcome, outcomes: &Outcomes) {
    crosses(limits);
    crosses(job);
    crosses(outcome);
    crosses(outcomes);
}

// A book that is handed back may be moved and shared.
fn _books_handed_back_cross_threads(none: &NoPool) {
    crosses(none);
}

// What may cross threads. Each function here is proved where the types named in its calls do.
use crate::Answer;

fn crosses<T: Send + Sync>(_it: &T) {}

// Answers may be moved and shared.
fn _answers_cross_threads(answer: &Answer) {
    crosses(answer);
}

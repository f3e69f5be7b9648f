// What may cross threads. Each function here is proved where the types named in its calls do.
use crate::{Asked, Name, WordsFault};

fn crosses<T: Send + Sync>(_it: &T) {}

// What words ask for may be moved and shared.
fn _words_cross_threads(asked: &Asked, name: &Name, fault: &WordsFault) {
    crosses(asked);
    crosses(name);
    crosses(fault);
}

// What may cross threads. Each function here is proved where the types named in its calls do.
use crate::{No, RowWhy, VerifyFault, Yes};

fn crosses<T: Send + Sync>(_it: &T) {}

// What is answered, and its parts, may be moved and shared.
fn _answers_cross_threads(yes: &Yes, no: &No, why: &RowWhy, fault: &VerifyFault) {
    crosses(yes);
    crosses(no);
    crosses(why);
    crosses(fault);
}

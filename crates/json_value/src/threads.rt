// What may cross threads. Each function here is proved where the types named in its calls do.
use crate::{NumberFault, ParseFault};

fn crosses<T: Send + Sync>(_it: &T) {}

// Faults may be moved and shared.
fn _faults_cross_threads(parse: &ParseFault, number: &NumberFault) {
    crosses(parse);
    crosses(number);
}

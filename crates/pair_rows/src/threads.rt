// What may cross threads. Each function here is proved where the types named in its calls do.
use crate::{End, Evidence, Row};

fn crosses<T: Send + Sync>(_it: &T) {}

// Rows and their parts may be moved and shared.
fn _rows_cross_threads(row: &Row, evidence: &Evidence, end: &End) {
    crosses(row);
    crosses(evidence);
    crosses(end);
}

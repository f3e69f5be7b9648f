// What may cross threads. The function here is proved where the type named in its call does.
use crate::Query;

fn crosses<T: Send + Sync>(_it: &T) {}

// Queries may be moved and shared.
fn _queries_cross_threads(query: &Query) {
    crosses(query);
}

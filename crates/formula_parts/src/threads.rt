// What may cross threads. The function here is proved where the type named in its call does.
use crate::Lists;

fn crosses<T: Send + Sync>(_it: &T) {}

// Lists of a frame may be moved and shared.
fn _lists_cross_threads(lists: &Lists) {
    crosses(lists);
}

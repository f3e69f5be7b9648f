// What may cross threads. Each function here is proved where the types named in its calls do.
use crate::ItemList;

fn crosses<T: Send + Sync>(_it: &T) {}

// A list may be moved and shared where its items may.
fn _lists_cross_threads<T: Send + Sync>(list: &ItemList<T>) {
    crosses(list);
}

// What may cross threads. Each function here is proved where the types named in its calls do.
use crate::SeatList;

fn is_moved<T: Send>(_it: &T) {}

fn crosses<T: Send + Sync>(_it: &T) {}

// A list may be moved and shared where its tokens may.
fn _lists_cross_threads<T: Send + Sync>(list: &SeatList<T>) {
    crosses(list);
}

// A list may be moved where its tokens may, also where they are not to be shared.
fn _lists_move<T: Send>(list: &SeatList<T>) {
    is_moved(list);
}

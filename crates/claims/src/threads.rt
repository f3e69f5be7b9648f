// What may cross threads. A function here is proved where the types named in its calls do.
use crate::counter::{ClaimSeat, ClaimSeats, Claims};

fn is_moved<T: Send>(_it: &T) {}

fn is_shared<T: Sync>(_it: &T) {}

// A counter may be moved and shared, and a seat moved.
fn _may_cross_threads(claims: &Claims, seat: &ClaimSeat, seats: &ClaimSeats) {
    is_moved(claims);
    is_shared(claims);
    is_moved(seat);
    is_moved(seats);
}

// What may cross threads. Each function here is proved where the types named in its calls do.
use crate::Order;

fn crosses<T: Send + Sync>(_it: &T) {}

// Orders may be moved and shared.
fn _orders_cross_threads(order: &Order) {
    crosses(order);
}

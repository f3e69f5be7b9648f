// What may cross threads. Each function here is proved where the types named in its calls do.
use crate::Point;

fn crosses<T: Send + Sync>(_it: &T) {}

// Points may be moved and shared.
fn _points_cross_threads(point: &Point) {
    crosses(point);
}

// What may cross threads. Each function here is proved where the types named in its calls do.
use crate::cell::{Pass, PassList, VCell};
use crate::grows::Grows;

fn is_moved<T: Send>(_it: &T) {}

fn is_shared<T: Sync>(_it: &T) {}

// A lock may be moved and shared, and a pass moved, where the value may be moved.
fn _may_cross_threads<V: Grows + Send>(cell: &VCell<V>, pass: &Pass<V>, passes: &PassList<V>) {
    is_moved(cell);
    is_shared(cell);
    is_moved(pass);
    is_moved(passes);
}

// What may cross threads. Each function here is proved where the types named in its calls do.
use crate::{Side, SideTable};

fn crosses<T: Send + Sync>(_it: &T) {}

// Tables and sides may be moved and shared.
fn _tables_cross_threads(table: &SideTable, side: &Side) {
    crosses(table);
    crosses(side);
}

// What may cross threads. Each function here is proved where the types named in its calls do.
use crate::{ReadFault, Reader, TextFault};

fn crosses<T: Send + Sync>(_it: &T) {}

// Readers and faults may be moved and shared.
fn _readers_cross_threads(reader: &Reader, fault: &TextFault, cause: &ReadFault) {
    crosses(reader);
    crosses(fault);
    crosses(cause);
}

// What may cross threads. Each function here is proved where the types named in its calls do.
use crate::{BuildFault, Frame};

fn crosses<T: Send + Sync>(_it: &T) {}

// Frames and faults may be moved and shared.
fn _frames_cross_threads(frame: &Frame, fault: &BuildFault) {
    crosses(frame);
    crosses(fault);
}

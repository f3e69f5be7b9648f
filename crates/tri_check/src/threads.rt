// What may cross threads. Each function here is proved where the types named in its calls do.
use crate::{Bad, CheckFault, Instance, PointList, RawInstance, RawPair, Triang, Uid};
use std::alloc::Global;
use std::sync::Arc;

fn crosses<T: Send + Sync>(_it: &T) {}

// Raw values and faults may be moved and shared.
fn _raw_values_cross_threads(raw: &RawInstance, pair: &RawPair, bad: &Bad, fault: &CheckFault) {
    crosses(raw);
    crosses(pair);
    crosses(bad);
    crosses(fault);
}

// Instances, also shared ones, and their parts may be moved and shared.
fn _instances_cross_threads(
    instance: &Arc<Instance, Global>,
    triang: &Triang,
    points: &Arc<PointList, Global>,
    uid: &Uid,
) {
    crosses(instance);
    crosses(triang);
    crosses(points);
    crosses(uid);
}

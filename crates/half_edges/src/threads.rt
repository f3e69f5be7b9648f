// What may cross threads. Each function here is proved where the types named in its calls do.
use crate::{Beyond, HalfEdge, HalfEdges};

fn crosses<T: Send + Sync>(_it: &T) {}

// Half edges may be moved and shared.
fn _half_edges_cross_threads(all: &HalfEdges, one: &HalfEdge, beyond: &Beyond) {
    crosses(all);
    crosses(one);
    crosses(beyond);
}

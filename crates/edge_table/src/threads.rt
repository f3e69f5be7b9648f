// What may cross threads. Each function here is proved where the types named in its calls do.
use crate::{Edge, EdgeList, EdgeSeq, Rounds, RoundsList};

fn crosses<T: Send + Sync>(_it: &T) {}

// Edges, sets and lists of edges may be moved and shared.
fn _edges_cross_threads(edge: &Edge, set: &EdgeList, list: &EdgeSeq) {
    crosses(edge);
    crosses(set);
    crosses(list);
}

// Schedules and lists of them may be moved and shared.
fn _schedules_cross_threads(rounds: &Rounds, lists: &RoundsList) {
    crosses(rounds);
    crosses(lists);
}

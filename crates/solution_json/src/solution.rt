// A solution.
use edge_table::RoundsList;
use tri_check::Uid;

/// A solution of an instance: for each input the rounds of edges that are flipped, in the order of the inputs.
#[derive(Debug, Drop)]
pub struct Solution {
    /// The name of the instance.
    pub uid: Uid,
    pub lists: RoundsList,
}

// A run with its images.
use edge_table::EdgeSeq;

/// The flips of a run in order, and the image of each at the same place.
#[derive(Drop)]
pub struct Trace {
    pub flips: EdgeSeq,
    pub images: EdgeSeq,
}

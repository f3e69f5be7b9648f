// What a solver is asked for.

/// What a solver is asked for.
#[derive(Clone, Copy, Debug, PartialEq, Eq)]
pub struct Order {
    /// The most flips that the run of an input may have.
    pub flips: u64,
    /// How many improvers take a turn.
    pub turns: u32,
    /// The state in which the words of each walk begin.
    pub seed: u64,
    /// How many workers take the turns side by side. Where it is 0 the caller takes them in order.
    pub workers: u32,
}

// What is called before each turn.

/// What is called once for each turn that a worker draws, before the worker takes it. Calls of several workers may come at the same time.
pub trait Gate {
    fn before(&self, turn: u64);
}

/// Nothing is done before a turn.
#[derive(Clone, Copy, Debug)]
pub struct NoGate;

impl Gate for NoGate {
    fn before(&self, _turn: u64) {}
}

// Values that only grow.
ghost use Rattle.std.specs.Prelude.{◌≡◌, List, length};

/// A value with a list of entries, which its owner only appends to, and with a ground, which its owner never changes.
pub trait Grows {
    /// What an entry is in contracts.
    type Entry;
    /// What the ground is in contracts.
    type Ground;

    ghost entries: { Self → List Self.Entry };

    ghost ground: { Self → Self.Ground };

    /// The number of entries.
    fn count(&self) -> u64
        ensures { result ≡ length (entries self.now) };
}

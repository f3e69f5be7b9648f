// How a run ends.
ghost use Rattle.std.specs.Prelude.{◌≡◌};
ghost use Rattle.centre_run.specs.Statuses.{number_of};

/// How a run ends. The numbers are those that the program exits with, 0 to 7 in this order.
#[derive(Clone, Copy, Debug, PartialEq, Eq)]
pub enum Status {
    /// All was done and printed.
    Done,
    /// The words aren't those of a command.
    Words,
    /// A file's form or its content has a fault, which is printed.
    Refused,
    /// A run of flips is longer than the budget.
    FlipBudget,
    /// There was no memory.
    Memory,
    /// A file couldn't be read.
    ReadFault,
    /// A file or the line couldn't be written.
    WriteFault,
    /// A certificate doesn't show what it says.
    No,
}

impl Status {
    pub fn number(self) -> u8
        ensures { result ≡ number_of self }
    {
        self as u8
    }
}

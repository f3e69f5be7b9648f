// What is wrong with a text that is read line by line.

/// The kind of the first fault of a text of lines, in the order in which it is looked for.
#[derive(Clone, Copy, Debug, PartialEq, Eq)]
pub enum CertKind {
    /// The text ends before the line, or the line lacks its line feed.
    Cut,
    /// The line isn't one that may stand there.
    Shape,
    /// Bytes follow the last line.
    Rest,
}

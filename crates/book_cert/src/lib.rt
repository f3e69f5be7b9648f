//! The solution and the certificate that a solver writes for an instance.
#![tactic(auto)]

ghost use Rattle.book_cert.specs.Laws.{CertificatesAreWritable, SolvedBooksAreWritten, WhatIsWrittenIsShown};

mod certificate;
mod journal;
mod rows;
mod solution;
mod threads;
mod writing;

pub use certificate::certificate_of;
pub use solution::solution_of;
pub use writing::{Written, write_alone, write_together};

/// The laws of what a solver writes.
pub fn laws()
    ensures certificates_are_writable { CertificatesAreWritable }
    ensures solved_books_are_written { SolvedBooksAreWritten }
    ensures what_is_written_is_shown { WhatIsWrittenIsShown }
{}

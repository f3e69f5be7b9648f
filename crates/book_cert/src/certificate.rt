// The certificate of a book.
ghost use Rattle.std.specs.Prelude.{◌≡◌, IfOk};
ghost use Rattle.book_core.specs.HeldBooks.{IsBelowPlans};
ghost use Rattle.book_cert.specs.Certificates.{IsCertificateOf};

use crate::journal::journal_of;
use crate::rows::rows_of;
use book_core::Book;
use cert_text::Cert;
use std::alloc::{AllocError, Global};

// The version of certificates that are written.
const VERSION: u32 = 3;

/// The certificate of a book: what shows the total of its plan and its bound. No plan of the instance has a total below the bound.
///
/// Memory grows with the rounds and logs of the rows. The time grows with them too, and for each two inputs with the number of entries.
pub fn certificate_of(alloc: Global, book: &Book) -> Result<Cert, AllocError>
    ensures cert { IfOk result (IsCertificateOf book.now) }
    ensures below { IfOk result (λ c. IsBelowPlans book.now.problem c.bound) }
{
    let plan = book.plan();
    Ok(Cert {
        version: VERSION,
        uid: plan.inst().uid().copy()?,
        inputs: plan.inst().inputs(),
        copies: plan.inst().copies(),
        opening: book.opening_total(),
        total: plan.total(),
        bound: book.bound(),
        journal: journal_of(alloc, book)?,
        rows: rows_of(alloc, book)?,
        perm: book.perm().copy()?,
    })
}

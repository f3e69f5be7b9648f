//! Certificates as texts.
#![tactic(auto)]

mod cert;
mod fault;
mod heads;
mod journal;
mod numbers;
mod parts;
mod read;
mod reading;
mod threads;
mod uid;
mod write;
mod writing;

pub use cert::{Cert, RowList};
pub use fault::{CertFault, CertReadFault};
pub use host_io::CertKind;
pub use journal::{JournalLine, JournalLines};
pub use read::{laws, read_cert};
pub use write::write_cert;

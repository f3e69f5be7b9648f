// What may cross threads. Each function here is proved where the types named in its calls do.
use crate::{Cert, CertReadFault, JournalLine, JournalLines, RowList};

fn crosses<T: Send + Sync>(_it: &T) {}

// Certificates, their parts and the causes of refusals may be moved and shared.
fn _certificates_cross_threads(
    cert: &Cert,
    line: &JournalLine,
    journal: &JournalLines,
    rows: &RowList,
    fault: &CertReadFault,
) {
    crosses(cert);
    crosses(line);
    crosses(journal);
    crosses(rows);
    crosses(fault);
}

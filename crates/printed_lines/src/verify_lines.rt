// The lines of certificates.
ghost use Rattle.std.specs.Prelude.{◌≡◌, [], ◌∷◌, codes, decimal, IfOk, string_bytes};
ghost use Rattle.printed_lines.specs.Lines.{spaced};
ghost use Rattle.printed_lines.specs.VerifyLines.{kind_word, cert_form_line, yes_line, why_words, no_words, no_line};

use crate::fault_words::{
    before_words, edge_words, input_round_words, log_words, number_words, numbers_words,
    round_words,
};
use cert_text::CertFault;
use host_io::CertKind;
use log_law::LogFault;
use replay::RoundFault;
use std::alloc::{AllocError, Global};
use verify_core::{No, RowWhy};

fn kind_word(kind: CertKind) -> &'static str
    ensures { result.now ≡ kind_word kind }
{
    match kind {
        CertKind::Cut => "Cut",
        CertKind::Shape => "Shape",
        CertKind::Rest => "Rest",
    }
}

/// The first fault of a text as a certificate.
pub fn cert_form_text(alloc: Global, fault: CertFault) -> Result<String, AllocError>
    ensures { IfOk result (λ s. string_bytes s ≡ cert_form_line fault) }
{
    let (kind, line) = (kind_word(fault.kind), fault.line);
    format!(in alloc; "refused certificate {kind} {line}\n")
}

/// The total and the bound that a certificate shows.
pub fn yes_text(alloc: Global, total: u128, bound: u64) -> Result<String, AllocError>
    ensures { IfOk result (λ s. string_bytes s ≡ yes_line total bound) }
{
    format!(in alloc; "yes total {total} bound {bound}\n")
}

// A fault of a log, in a row.
fn row_log_words(alloc: Global, fault: LogFault) -> Result<String, AllocError>
    ensures { IfOk result (λ s. string_bytes s ≡ spaced (why_words (RowWhy.Log fault))) }
{
    let words = log_words(alloc, fault)?;
    before_words(alloc, "Log", words.as_str())
}

// A fault of a round, in a row.
fn row_round_words(alloc: Global, fault: RoundFault) -> Result<String, AllocError>
    ensures { IfOk result (λ s. string_bytes s ≡ spaced (why_words (RowWhy.MetRound fault))) }
{
    let words = round_words(alloc, fault)?;
    before_words(alloc, "MetRound", words.as_str())
}

// What is said in a row, and what is so.
fn said_words(alloc: Global, name: &str, said: u64, is: u64) -> Result<String, AllocError>
    ensures { IfOk result (λ s. string_bytes s ≡ spaced (name.now ∷ decimal said ∷ decimal is ∷ [])) }
{
    numbers_words(alloc, name, u128::from(said), u128::from(is))
}

// A fault of a row.
fn why_words(alloc: Global, why: RowWhy) -> Result<String, AllocError>
    ensures { IfOk result (λ s. string_bytes s ≡ spaced (why_words why)) }
{
    match why {
        RowWhy::BadPair => String::from_str(alloc, "BadPair"),
        RowWhy::EdgeNotThere(e) => edge_words(alloc, "EdgeNotThere", e),
        RowWhy::CountWrong { said, is } => {
            said_words(alloc, "CountWrong", u64::from(said), u64::from(is))
        }
        RowWhy::NoCnf => String::from_str(alloc, "NoCnf"),
        RowWhy::Log(fault) => row_log_words(alloc, fault),
        RowWhy::LowerWrong { said, is } => {
            said_words(alloc, "LowerWrong", u64::from(said), u64::from(is))
        }
        RowWhy::MetRound(fault) => row_round_words(alloc, fault),
        RowWhy::MetEnd(e) => edge_words(alloc, "MetEnd", e),
        RowWhy::MetLength { said, is } => said_words(alloc, "MetLength", said, is),
        RowWhy::EndK { said, is } => said_words(alloc, "EndK", u64::from(said), u64::from(is)),
        RowWhy::TooLargeWrong { said, is } => said_words(alloc, "TooLargeWrong", said, is),
        RowWhy::PointsWrong(is) => number_words(alloc, "PointsWrong", u64::from(is)),
    }
}

// A fault of a row, with its pair.
fn row_words(alloc: Global, i: u32, j: u32, why: RowWhy) -> Result<String, AllocError>
    ensures { IfOk result (λ s. string_bytes s ≡ spaced (no_words (No.RowWrong i j why))) }
{
    let words = why_words(alloc, why)?;
    format!(in alloc; "RowWrong {i} {j} {words}")
}

// A fault of a certificate.
fn no_words(alloc: Global, fault: No) -> Result<String, AllocError>
    ensures { IfOk result (λ s. string_bytes s ≡ spaced (no_words fault)) }
{
    match fault {
        No::UidSolution => String::from_str(alloc, "UidSolution"),
        No::UidCertificate => String::from_str(alloc, "UidCertificate"),
        No::InputCount { said, is } => said_words(alloc, "InputCount", said, is),
        No::CopyCount { said, is } => said_words(alloc, "CopyCount", said, is),
        No::Round(t, fault) => input_round_words(alloc, t, fault),
        No::NoCommonCentre(t) => number_words(alloc, "NoCommonCentre", u64::from(t)),
        No::TotalWrong { said, is } => numbers_words(alloc, "TotalWrong", said, is),
        No::RowWrong(i, j, why) => row_words(alloc, i, j, why),
        No::NotPermutation(place) => number_words(alloc, "NotPermutation", place),
        No::BoundWrong { said, is } => said_words(alloc, "BoundWrong", said, is),
    }
}

/// The first fault of a certificate.
pub fn no_text(alloc: Global, fault: No) -> Result<String, AllocError>
    ensures { IfOk result (λ s. string_bytes s ≡ no_line fault) }
{
    let words = no_words(alloc, fault)?;
    format!(in alloc; "no {words}\n")
}

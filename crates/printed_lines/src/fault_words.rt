// Faults that stand in the lines of other faults: their names and their fields, with a space between.
ghost use Rattle.std.specs.Prelude.{◌≡◌, [], ◌∷◌, ◌++◌, decimal, IfOk, string_bytes};
ghost use Rattle.printed_lines.specs.Lines.{spaced, edge_text, round_words, input_round_words};
ghost use Rattle.printed_lines.specs.VerifyLines.{log_words};

use edge_table::Edge;
use log_law::LogFault;
use replay::RoundFault;
use std::alloc::{AllocError, Global};

/// A name with one number.
pub fn number_words(alloc: Global, name: &str, n: u64) -> Result<String, AllocError>
    ensures { IfOk result (λ s. string_bytes s ≡ spaced (name.now ∷ decimal n ∷ [])) }
{
    format!(in alloc; "{name} {n}")
}

/// A name with two numbers.
pub fn numbers_words(
    alloc: Global,
    name: &str,
    first: u128,
    second: u128,
) -> Result<String, AllocError>
    ensures { IfOk result (λ s. string_bytes s ≡ spaced (name.now ∷ decimal first ∷ decimal second ∷ [])) }
{
    format!(in alloc; "{name} {first} {second}")
}

/// A name with an edge.
pub fn edge_words(alloc: Global, name: &str, e: Edge) -> Result<String, AllocError>
    ensures { IfOk result (λ s. string_bytes s ≡ spaced (name.now ∷ edge_text e ∷ [])) }
{
    let (low, high) = (e.low(), e.high());
    format!(in alloc; "{name} {low}-{high}")
}

/// A name with what stands behind it.
pub fn before_words(alloc: Global, name: &str, words: &str) -> Result<String, AllocError>
    ensures { IfOk result (λ s. string_bytes s ≡ name.now ++ 32 ∷ words.now) }
{
    format!(in alloc; "{name} {words}")
}

// A fault of a round with one edge.
fn edge_fault_words(alloc: Global, name: &str, r: u64, e: Edge) -> Result<String, AllocError>
    ensures { IfOk result (λ s. string_bytes s ≡ spaced (name.now ∷ decimal r ∷ edge_text e ∷ [])) }
{
    let (low, high) = (e.low(), e.high());
    format!(in alloc; "{name} {r} {low}-{high}")
}

// A fault of a round with two edges.
fn edges_fault_words(
    alloc: Global,
    name: &str,
    r: u64,
    e: Edge,
    f: Edge,
) -> Result<String, AllocError>
    ensures { IfOk result (λ s. string_bytes s ≡ spaced (name.now ∷ decimal r ∷ edge_text e ∷ edge_text f ∷ [])) }
{
    let (low, high) = (e.low(), e.high());
    let (from, to) = (f.low(), f.high());
    format!(in alloc; "{name} {r} {low}-{high} {from}-{to}")
}

/// A fault of a round.
pub fn round_words(alloc: Global, fault: RoundFault) -> Result<String, AllocError>
    ensures { IfOk result (λ s. string_bytes s ≡ spaced (round_words fault)) }
{
    match fault {
        RoundFault::NotEdge(r, e) => edge_fault_words(alloc, "NotEdge", r, e),
        RoundFault::Twice(r, e) => edge_fault_words(alloc, "Twice", r, e),
        RoundFault::NotConvex(r, e) => edge_fault_words(alloc, "NotConvex", r, e),
        RoundFault::SharedTriangle(r, e, f) => {
            edges_fault_words(alloc, "SharedTriangle", r, e, f)
        }
    }
}

/// A fault of the rounds of an input.
pub fn input_round_words(alloc: Global, t: u32, fault: RoundFault) -> Result<String, AllocError>
    ensures { IfOk result (λ s. string_bytes s ≡ spaced (input_round_words t fault)) }
{
    let words = round_words(alloc, fault)?;
    format!(in alloc; "Round {t} {words}")
}

/// A fault of a log.
pub fn log_words(alloc: Global, fault: LogFault) -> Result<String, AllocError>
    ensures { IfOk result (λ s. string_bytes s ≡ spaced (log_words fault)) }
{
    match fault {
        LogFault::BadId(place) => number_words(alloc, "BadId", u64::from(place)),
        LogFault::BadVar(place) => number_words(alloc, "BadVar", u64::from(place)),
        LogFault::NotUnit(place, hint) => numbers_words(
            alloc,
            "NotUnit",
            u128::from(place),
            u128::from(hint),
        ),
        LogFault::HintUnused(place) => number_words(alloc, "HintUnused", u64::from(place)),
        LogFault::NoConflict(place) => number_words(alloc, "NoConflict", u64::from(place)),
        LogFault::NoEmptyClause => String::from_str(alloc, "NoEmptyClause"),
    }
}

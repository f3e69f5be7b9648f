// The lines of totals and of refused solutions.
ghost use Rattle.std.specs.Prelude.{◌≡◌, ◌≢◌, [], ◌∷◌, IfOk, string_bytes};
ghost use Rattle.printed_lines.specs.Lines.{line, solution_refused, total_line, solved_line, opening_line, budget_line, solution_form_line, other_uid_line, round_line, input_count_line, no_common_centre_line, score_fault_line};

use crate::fault_words::input_round_words;
use replay::{RoundFault, ScoreFault};
use solution_json::SolForm;
use std::alloc::{AllocError, Global};

/// The total of a solution, each round counted with the weight of its input.
pub fn total_text(alloc: Global, total: u128) -> Result<String, AllocError>
    ensures { IfOk result (λ s. string_bytes s ≡ total_line total) }
{
    format!(in alloc; "total {total}\n")
}

/// The rounds of a solution, and a number that no solution has fewer rounds than.
pub fn solved_text(alloc: Global, total: u128, bound: u128) -> Result<String, AllocError>
    ensures { IfOk result (λ s. string_bytes s ≡ solved_line total bound) }
{
    format!(in alloc; "total {total} bound {bound}\n")
}

/// The rounds of the first plan and of the last, and a number that no plan has fewer rounds than.
pub fn opening_text(
    alloc: Global,
    opening: u128,
    total: u128,
    bound: u128,
) -> Result<String, AllocError>
    ensures { IfOk result (λ s. string_bytes s ≡ opening_line opening total bound) }
{
    format!(in alloc; "opening {opening} total {total} bound {bound}\n")
}

/// The first input whose run is longer than the budget.
pub fn budget_text(alloc: Global, t: u32) -> Result<String, AllocError>
    ensures { IfOk result (λ s. string_bytes s ≡ budget_line t) }
{
    format!(in alloc; "flip budget {t}\n")
}

// A fault with a word.
fn word_text(alloc: Global, name: &str, word: &str) -> Result<String, AllocError>
    ensures { IfOk result (λ s. string_bytes s ≡ line (solution_refused (name.now ∷ word.now ∷ []))) }
{
    format!(in alloc; "refused solution {name} {word}\n")
}

/// The first fault of form of a solution.
pub fn solution_form_text(alloc: Global, form: SolForm) -> Result<String, AllocError>
    ensures { IfOk result (λ s. string_bytes s ≡ solution_form_line form) }
{
    match form {
        SolForm::NotJson => String::from_str(alloc, "refused solution NotJson\n"),
        SolForm::NotObject => String::from_str(alloc, "refused solution NotObject\n"),
        SolForm::Missing(member) => word_text(alloc, "Missing", member.name()),
        SolForm::WrongType(member) => word_text(alloc, "WrongType", member.name()),
        SolForm::NotInteger(k) => format!(in alloc; "refused solution NotInteger {k}\n"),
        SolForm::BadPair(k) => format!(in alloc; "refused solution BadPair {k}\n"),
    }
}

/// What is said of a solution of another instance.
pub fn other_uid_text(alloc: Global) -> Result<String, AllocError>
    ensures { IfOk result (λ s. string_bytes s ≡ other_uid_line) }
{
    String::from_str(alloc, "refused solution UidSolution\n")
}

// How many inputs a solution has lists for, and how many there are.
fn input_count_text(alloc: Global, said: u64, is: u64) -> Result<String, AllocError>
    ensures { IfOk result (λ s. string_bytes s ≡ input_count_line said is) }
{
    format!(in alloc; "refused solution InputCount {said} {is}\n")
}

// The first input that isn't led where the first one is.
fn no_common_centre_text(alloc: Global, t: u32) -> Result<String, AllocError>
    ensures { IfOk result (λ s. string_bytes s ≡ no_common_centre_line t) }
{
    format!(in alloc; "refused solution NoCommonCentre {t}\n")
}

// The first fault in the rounds of an input.
fn round_text(alloc: Global, t: u32, fault: RoundFault) -> Result<String, AllocError>
    ensures { IfOk result (λ s. string_bytes s ≡ round_line t fault) }
{
    let words = input_round_words(alloc, t, fault)?;
    format!(in alloc; "refused solution {words}\n")
}

/// The first fault in a solution's rounds. Want of memory has no line.
pub fn score_fault_text(alloc: Global, fault: ScoreFault) -> Result<String, AllocError>
    ensures text { IfOk result (λ s. string_bytes s ≡ score_fault_line fault) }
    ensures named { IfOk result (λ s. fault ≢ ScoreFault.OutOfMemory) }
{
    match fault {
        ScoreFault::InputCount { said, is } => input_count_text(alloc, said, is),
        ScoreFault::Round(t, fault) => round_text(alloc, t, fault),
        ScoreFault::NoCommonCentre(t) => no_common_centre_text(alloc, t),
        ScoreFault::OutOfMemory => Err(AllocError),
    }
}

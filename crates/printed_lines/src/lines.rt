// The lines of refused words, of instances and of runs.
ghost use Rattle.std.specs.Prelude.{◌≡◌, [], ◌∷◌, decimal, IfOk, string_bytes};
ghost use Rattle.printed_lines.specs.Lines.{line, instance_refused, valid_line, words_line, bad_line, form_line, flips_line, no_such_input_line};

use edge_table::Edge;
use instance_json::Form;
use std::alloc::{AllocError, Global};
use tri_check::Bad;

/// What is said of words that are those of no command.
pub fn words_text(alloc: Global) -> Result<String, AllocError>
    ensures { IfOk result (λ s. string_bytes s ≡ words_line) }
{
    String::from_str(alloc, "words refused\n")
}

/// The numbers of points and of inputs of a valid instance.
pub fn valid_text(alloc: Global, points: u32, inputs: u32) -> Result<String, AllocError>
    ensures { IfOk result (λ s. string_bytes s ≡ valid_line points inputs) }
{
    format!(in alloc; "valid points {points} inputs {inputs}\n")
}

/// The number of flips of a run, and a number that no run has more flips than.
pub fn flips_text(alloc: Global, flips: u64, bound: u64) -> Result<String, AllocError>
    ensures { IfOk result (λ s. string_bytes s ≡ flips_line flips bound) }
{
    format!(in alloc; "flips {flips} bound {bound}\n")
}

/// The place of an input that an instance doesn't have.
pub fn no_such_input_text(alloc: Global, t: u64) -> Result<String, AllocError>
    ensures { IfOk result (λ s. string_bytes s ≡ no_such_input_line t) }
{
    format!(in alloc; "refused instance NoSuchInput {t}\n")
}

/// The first fault of an instance.
pub fn bad_text(alloc: Global, bad: Bad) -> Result<String, AllocError>
    ensures { IfOk result (λ s. string_bytes s ≡ bad_line bad) }
{
    match bad {
        Bad::TooManyPoints(n) => format!(in alloc; "refused instance TooManyPoints {n}\n"),
        Bad::TooManyInputs(m) => format!(in alloc; "refused instance TooManyInputs {m}\n"),
        Bad::TooManyPairs(c) => format!(in alloc; "refused instance TooManyPairs {c}\n"),
        Bad::CoordinateRange(i) => format!(in alloc; "refused instance CoordinateRange {i}\n"),
        Bad::TooFewPoints(n) => format!(in alloc; "refused instance TooFewPoints {n}\n"),
        Bad::RepeatedPoint(i, j) => numbers_text(
            alloc,
            "RepeatedPoint",
            u64::from(i),
            u64::from(j),
        ),
        Bad::Collinear => String::from_str(alloc, "refused instance Collinear\n"),
        Bad::NoInput => String::from_str(alloc, "refused instance NoInput\n"),
        Bad::BadVertex(t, p) => numbers_text(alloc, "BadVertex", u64::from(t), p),
        Bad::Loop(t, p) => numbers_text(alloc, "Loop", u64::from(t), p),
        Bad::Blocked(t, e, q) => blocked_text(alloc, t, e, q),
        Bad::Crossing(t, e, f) => crossing_text(alloc, t, e, f),
        Bad::LonePoint(t, p) => numbers_text(alloc, "LonePoint", u64::from(t), u64::from(p)),
        Bad::OpenSide(t, e) => open_side_text(alloc, t, e),
        Bad::WeightRange(t) => format!(in alloc; "refused instance WeightRange {t}\n"),
        Bad::WeightSum(s) => format!(in alloc; "refused instance WeightSum {s}\n"),
    }
}

// A fault with two numbers.
fn numbers_text(alloc: Global, name: &str, first: u64, second: u64) -> Result<String, AllocError>
    ensures { IfOk result (λ s. string_bytes s ≡ line (instance_refused (name.now ∷ decimal first ∷ decimal second ∷ []))) }
{
    format!(in alloc; "refused instance {name} {first} {second}\n")
}

fn blocked_text(alloc: Global, t: u32, e: Edge, q: u32) -> Result<String, AllocError>
    ensures { IfOk result (λ s. string_bytes s ≡ bad_line (Bad.Blocked t e q)) }
{
    let (low, high) = (e.low(), e.high());
    format!(in alloc; "refused instance Blocked {t} {low}-{high} {q}\n")
}

fn crossing_text(alloc: Global, t: u32, e: Edge, f: Edge) -> Result<String, AllocError>
    ensures { IfOk result (λ s. string_bytes s ≡ bad_line (Bad.Crossing t e f)) }
{
    let (low, high) = (e.low(), e.high());
    let (from, to) = (f.low(), f.high());
    format!(in alloc; "refused instance Crossing {t} {low}-{high} {from}-{to}\n")
}

fn open_side_text(alloc: Global, t: u32, e: Edge) -> Result<String, AllocError>
    ensures { IfOk result (λ s. string_bytes s ≡ bad_line (Bad.OpenSide t e)) }
{
    let (low, high) = (e.low(), e.high());
    format!(in alloc; "refused instance OpenSide {t} {low}-{high}\n")
}

// A fault with a word.
fn word_text(alloc: Global, name: &str, word: &str) -> Result<String, AllocError>
    ensures { IfOk result (λ s. string_bytes s ≡ line (instance_refused (name.now ∷ word.now ∷ []))) }
{
    format!(in alloc; "refused instance {name} {word}\n")
}

// A fault with a word and a number.
fn place_text(alloc: Global, name: &str, word: &str, place: u64) -> Result<String, AllocError>
    ensures { IfOk result (λ s. string_bytes s ≡ line (instance_refused (name.now ∷ word.now ∷ decimal place ∷ []))) }
{
    format!(in alloc; "refused instance {name} {word} {place}\n")
}

/// The first fault of form of an instance.
pub fn form_text(alloc: Global, form: Form) -> Result<String, AllocError>
    ensures { IfOk result (λ s. string_bytes s ≡ form_line form) }
{
    match form {
        Form::NotJson => String::from_str(alloc, "refused instance NotJson\n"),
        Form::NotObject => String::from_str(alloc, "refused instance NotObject\n"),
        Form::Missing(member) => word_text(alloc, "Missing", member.name()),
        Form::WrongType(member) => word_text(alloc, "WrongType", member.name()),
        Form::NotInteger(member, place) => place_text(alloc, "NotInteger", member.name(), place),
        Form::LengthMismatch(x, y) => numbers_text(alloc, "LengthMismatch", x, y),
        Form::WeightCount(w, m) => numbers_text(alloc, "WeightCount", w, m),
    }
}

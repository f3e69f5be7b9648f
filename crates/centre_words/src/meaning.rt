// What the matches of a command ask for.
ghost use Rattle.std.specs.Prelude.{◌≡◌, ◌↔◌, IsTrue, [], ◌∷◌, Some, None, IfOk, Err, ℕ, Option, codes, option_map};
ghost use Rattle.clap.specs.Words.{first_of, found_of, rows_of};
ghost use Rattle.centre_words.specs.Words.{AllDiffer, IsChosen};
ghost use Rattle.centre_words.specs.Rows.{number_of};
ghost use Rattle.centre_words.specs.Commands.{AsksBy, values_in};
ghost use Rattle.centre_words.specs.declared.asked.Asked.{Asked};

use crate::asked::{Asked, WordsFault};
use crate::name::Name;
use crate::number::number_spelled;
use crate::table::{
    BENCH_INPUTS, BENCH_POINTS, BENCH_SEED, FLIPS, INPUT, Number, SEED, TURNS, WORKERS,
};
use clap::ArgMatches;
use std::alloc::Global;

fn text_in<'a>(found: &ArgMatches<'a>, id: &str) -> Option<&'a str>
    ensures { option_map (λ s. s.now) result ≡ first_of id.now (rows_of (found_of found.now)) }
{
    found.get_str(id)
}

// The name that an argument has.
fn name_in(alloc: Global, found: &ArgMatches<'_>, id: &str) -> Result<Name, WordsFault>
    ensures ok { IfOk result (λ name. first_of id.now (rows_of (found_of found.now)) ≡ Some name) }
    ensures words { result ≡ Err WordsFault.Words → first_of id.now (rows_of (found_of found.now)) ≡ None }
{
    match text_in(found, id) {
        Some(text) => match Name::of(alloc, text) {
            Ok(name) => Ok(name),
            Err(_) => Err(WordsFault::OutOfMemory),
        },
        None => Err(WordsFault::Words),
    }
}

// The number of an option, or its usual one.
fn number_in(found: &ArgMatches<'_>, number: Number) -> Result<Option<u64>, WordsFault>
    ensures ok { IfOk result (IsChosen (number_of number) (values_in (rows_of (found_of found.now)) number.name.now)) }
    ensures words { (e : WordsFault) → result ≡ Err e → (n : Option ℕ) → ¬ IsChosen (number_of number) (values_in (rows_of (found_of found.now)) number.name.now) n }
{
    match text_in(found, number.name) {
        Some(word) => match number_spelled(word, number) {
            Some(n) => Ok(Some(n)),
            None => Err(WordsFault::Words),
        },
        None => Ok(number.usual),
    }
}

// A number that there must be.
fn some_number_in(found: &ArgMatches<'_>, number: Number) -> Result<u64, WordsFault>
    ensures ok { IfOk result (λ n. IsChosen (number_of number) (values_in (rows_of (found_of found.now)) number.name.now) (Some n)) }
    ensures words { (e : WordsFault) → result ≡ Err e → (n : ℕ) → ¬ IsChosen (number_of number) (values_in (rows_of (found_of found.now)) number.name.now) (Some n) }
{
    match number_in(found, number)? {
        Some(n) => Ok(n),
        None => Err(WordsFault::Words),
    }
}

// Whether no two of the names are equal.
fn all_differ(instance: &Name, solution: &Name, certificate: &Name) -> bool
    ensures { IsTrue result ↔ AllDiffer (instance.now ∷ solution.now ∷ certificate.now ∷ []) }
{
    instance != solution && instance != certificate && solution != certificate
}

fn solve_by(alloc: Global, found: &ArgMatches<'_>) -> Result<Asked, WordsFault>
    ensures ok { IfOk result (AsksBy (codes "solve") (rows_of (found_of found.now))) }
    ensures words { result ≡ Err WordsFault.Words → (a : Asked) → ¬ AsksBy (codes "solve") (rows_of (found_of found.now)) a }
{
    let instance = name_in(alloc, found, "instance")?;
    let solution = name_in(alloc, found, "solution")?;
    let certificate = name_in(alloc, found, "certificate")?;
    if !all_differ(&instance, &solution, &certificate) {
        return Err(WordsFault::Words);
    }
    let workers = some_number_in(found, WORKERS)?;
    let turns = some_number_in(found, TURNS)?;
    let seed = some_number_in(found, SEED)?;
    let flips = number_in(found, FLIPS)?;
    Ok(Asked::Solve {
        instance,
        solution,
        certificate,
        workers: workers as u32,
        turns: turns as u32,
        seed,
        flips,
    })
}

fn bench_by(found: &ArgMatches<'_>) -> Result<Asked, WordsFault>
    ensures ok { IfOk result (AsksBy (codes "bench") (rows_of (found_of found.now))) }
    ensures words { result ≡ Err WordsFault.Words → (a : Asked) → ¬ AsksBy (codes "bench") (rows_of (found_of found.now)) a }
{
    let seed = some_number_in(found, BENCH_SEED)?;
    let points = some_number_in(found, BENCH_POINTS)?;
    let inputs = some_number_in(found, BENCH_INPUTS)?;
    Ok(Asked::Bench {
        seed,
        points: points as u32,
        inputs: inputs as u32,
    })
}

/// What the matches of a command ask for.
pub fn asked_by(alloc: Global, command: &str, found: &ArgMatches<'_>) -> Result<Asked, WordsFault>
    ensures ok { IfOk result (AsksBy command.now (rows_of (found_of found.now))) }
    ensures words { result ≡ Err WordsFault.Words → (a : Asked) → ¬ AsksBy command.now (rows_of (found_of found.now)) a }
{
    if command == "check" {
        Ok(Asked::Check {
            instance: name_in(alloc, found, "instance")?,
        })
    } else if command == "score" {
        Ok(Asked::Score {
            instance: name_in(alloc, found, "instance")?,
            solution: name_in(alloc, found, "solution")?,
        })
    } else if command == "solve" {
        solve_by(alloc, found)
    } else if command == "verify" {
        Ok(Asked::Verify {
            instance: name_in(alloc, found, "instance")?,
            solution: name_in(alloc, found, "solution")?,
            certificate: name_in(alloc, found, "certificate")?,
        })
    } else if command == "trace" {
        Ok(Asked::Trace {
            instance: name_in(alloc, found, "instance")?,
            t: some_number_in(found, INPUT)?,
        })
    } else if command == "bench" {
        bench_by(found)
    } else {
        Err(WordsFault::Words)
    }
}

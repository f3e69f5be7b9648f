// What comes of a trial of a call.
use std::alloc::AllocError;

// What came of a call that needs memory.
#[derive(Clone, Copy, Debug, PartialEq, Eq)]
pub(crate) enum Trial {
    // It was answered at once.
    Answered,
    // It was refused memory and left what is promised, and was answered when it was made again.
    Kept,
    // It left something else, or was answered otherwise.
    Broken,
}

// The trial, if the test of it holds.
pub(crate) fn unless_broken(holds: bool, trial: Trial) -> Trial {
    if holds { trial } else { Trial::Broken }
}

// What is printed of it.
pub(crate) fn text_of(trial: Result<Trial, AllocError>) -> &'static str {
    match trial {
        Ok(Trial::Answered) => " answered\n",
        Ok(Trial::Kept) => " kept\n",
        Ok(Trial::Broken) => " broken\n",
        Err(_) => " unmade\n",
    }
}

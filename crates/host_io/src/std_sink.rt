// Standard output as a sink. What it tells isn't known.
ghost use Rattle.std.specs.Prelude.{◌≡◌, ◌≤◌, ◌<◌, [], None, Ok, length, IfOk, if◌then◌else◌};
ghost use Rattle.std.specs.Result.{is_err};
ghost use Rattle.host_io.specs.Store.{one_more};
ghost use Rattle.host_io.specs.Sink.{Puts, SinkHasCause};

use crate::{Sink, SinkFail};
use std::io::{Write, writer};
use std::marker::Model;

/// Standard output, through the runtime that it keeps. It tells nothing, and is seen as its count of faults.
pub struct StdSink<R: Print + Drop> {
    rt: R,
    faults: u64,
}

impl<R: Print + Drop> Model for StdSink<R> {
    ghost use Rattle.std.specs.Prelude.{ℕ};

    ghost Value = { ℕ };

    ghost view = { λ s. s.faults };
}

impl<R: Print + Drop> Drop for StdSink<R> {
    fn drop(self) {
        let StdSink { rt: _, faults: _ } = self;
    }
}

impl<R: Print + Drop> StdSink<R> {
    /// Standard output, with no fault so far.
    pub fn make(rt: R) -> Self
        ensures { result ≡ 0 }
    {
        StdSink { rt, faults: 0 }
    }
}

impl<R: Print + Drop> Sink for StdSink<R> {
    ghost told = { λ _. None };

    ghost faults = { λ s. s };

    fn put(&mut self, piece: &[u8]) -> Result<usize, SinkFail>
        ensures counts { self.new ≡ (if is_err result then one_more self.old else self.old) }
        ensures content { Puts None None piece.now result }
        ensures bound { IfOk result (λ n. n ≤ length piece.now) }
        ensures some { IfOk result (λ n. 0 < length piece.now → 0 < n) }
        ensures empty { piece.now ≡ [] → result ≡ Ok 0 }
        ensures cause { SinkHasCause self.old self.new result }
    {
        if piece.is_empty() {
            return Ok(0);
        }
        match writer(&self.rt).write(piece) {
            Ok(count) if count > 0 => Ok(count),
            _ => {
                self.faults = self.faults.saturating_add(1);
                Err(SinkFail::Failed)
            }
        }
    }
}

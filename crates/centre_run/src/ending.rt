// The number that the program ends with.
ghost use Rattle.std.specs.Prelude.{◌≡◌};
ghost use Rattle.centre_words.specs.Words.{texts};
ghost use Rattle.centre_run.specs.declared.status.Status.{Status};
ghost use Rattle.centre_run.specs.Statuses.{number_of};
ghost use Rattle.centre_run.specs.Ends.{IsEnd};

use crate::top::run;
use host_io::{Sink, Store};
use std::alloc::Global;
use std::sync::Wait;
use std::thread::Threads;
use worker_crew::Gate;

/// Does what the words ask for, and answers the number of the status that the run ends with.
///
/// `words` are those after the program's name.
pub fn end_number<R: Threads + Wait + Sync, S: Store, O: Sink, G: Gate + Sync>(
    rt: &R,
    alloc: Global,
    words: &[String],
    store: &mut S,
    out: &mut O,
    gate: &G,
) -> u8
    ensures { (status : Status) × (result ≡ number_of status) × IsEnd (texts words.now)
        (record { held = S.held store.old; read_faults = S.read_faults store.old; write_faults = S.write_faults store.old; calls = S.calls store.old })
        (record { held = S.held store.new; read_faults = S.read_faults store.new; write_faults = S.write_faults store.new; calls = S.calls store.new })
        (record { told = O.told out.old; faults = O.faults out.old })
        (record { told = O.told out.new; faults = O.faults out.new })
        status }
{
    run(rt, alloc, words, store, out, gate).number()
}

// The top call: from the words to the status and the printed line.
ghost use Rattle.std.specs.Prelude.{◌≡◌, ◌⊎◌, ◌↔◌, ◌≤◌, ℕ, IfOk, IsErrOf, IsTrue, string_bytes};
ghost use denote.Param.Send.{IsSync};
ghost use Rattle.host_io.specs.Store.{Rose};
ghost use Rattle.printed_lines.specs.Lines.{words_line};
ghost use Rattle.centre_words.specs.Words.{texts, Asks, IsUnasked};
ghost use Rattle.centre_words.specs.declared.asked.Asked.{Asked};
ghost use Rattle.book_solve.specs.declared.order.Order.{Order};
ghost use Rattle.centre_run.specs.Calls.{CallsFor, CallsInOrder};
ghost use Rattle.centre_run.specs.Ends.{IsEnd, IsRefusal, IsPut};
ghost use Rattle.centre_run.specs.Solvers.{IsFound};
ghost use Rattle.centre_run.specs.Runs.{Does, Begins, BreaksOff, KeepsOthers, IsReadOnly, HasReadCause, CallsOnce, IsFaultless, Completes, Tells, TellsPart, AsksToVerify, AllowsFewFlips, WritesHeadline, WritesReplayableBook, WritesSettledPlan, WritesBestAssignment, WritesAnswersThenSettling, WritesTurnsInOrder, WritesFewLateTurns, WritesProvedBound, WritesWhatVerifies, AsksForSolution, AsksForWorkers};

use crate::benching::bench_reply;
use crate::checking::check_file;
use crate::reply::{Quiet, Reply, with_line};
use crate::scoring::score_files;
use crate::solving::{SolveOptions, Targets, solve_file};
use crate::status::Status;
use crate::tracing::trace_file;
use crate::verifying::verify_files;
use book_cert::{Written, write_alone, write_together};
use book_solve::Order;
use centre_words::{Asked, WordsFault, read_words};
use host_io::{Sink, Store, put_all};
use lawson_start::StartFault;
use printed_lines::words_text;
use std::alloc::{AllocError, Global};
use std::sync::{Arc, Wait};
use std::thread::Threads;
use tri_check::Instance;
use worker_crew::Gate;

// What is said of words that are those of no command.
fn words_reply(alloc: Global) -> Result<Reply, Quiet>
    ensures says { IfOk result (λ r. (r.status ≡ Status.Words) × (string_bytes r.line ≡ words_line)) }
    ensures read { IsErrOf result Quiet.ReadFault → ⊥ }
    ensures write { IsErrOf result Quiet.WriteFault → ⊥ }
{
    with_line(Status::Words, words_text(alloc))
}

// Does what the words call for, all but the printing.
fn reply_to<S: Store, F: FnOnce(Arc<Instance>, Order) -> Result<Written, StartFault>>(
    alloc: Global,
    words: &[String],
    store: &mut S,
    solver: F,
) -> Result<Reply, Quiet>
    requires can { (workers : ℕ) → AsksForSolution (texts words.now) workers → (i : _) (o : Order) → o.turns ≤ 1_000_000 → o.workers ≡ workers → F.pre solver i o }
    requires finds { (i : _) (o : Order) (found : _) → F.post solver i o found → IsFound i.value o found }
    ensures does { IfOk result (λ r. Does (texts words.now) (S.held store.old) (S.held store.new) r.status (string_bytes r.line)) }
    ensures cause { IsErrOf result Quiet.ReadFault
        → HasReadCause (texts words.now) (S.held store.old) (S.read_faults store.old) (S.read_faults store.new) }
    ensures unread { IsErrOf result Quiet.ReadFault → S.held store.new ≡ S.held store.old }
    ensures memory { IsErrOf result Quiet.Memory → Begins (texts words.now) (S.held store.old) (S.held store.new) }
    ensures unwritten { IsErrOf result Quiet.WriteFault → Rose (S.write_faults store.old) (S.write_faults store.new) }
    ensures broken { IsErrOf result Quiet.WriteFault → BreaksOff (texts words.now) (S.held store.old) (S.held store.new) }
    ensures asked { IsErrOf result Quiet.ReadFault → ¬ IsUnasked (texts words.now) }
    ensures asked_to_write { IsErrOf result Quiet.WriteFault → ¬ IsUnasked (texts words.now) }
    ensures read_only { IsReadOnly (texts words.now) → S.write_faults store.new ≡ S.write_faults store.old }
    ensures calls { CallsOnce (texts words.now) (S.calls store.old) (S.calls store.new) }
    ensures uncalled { IsUnasked (texts words.now) → S.calls store.new ≡ S.calls store.old }
    ensures called { IfOk result (λ r. (c : Asked) → Asks (texts words.now) c → CallsFor c r.status (S.calls store.old) (S.calls store.new)) }
    ensures stopped { IsErrOf result Quiet.ReadFault
        → CallsInOrder (texts words.now) (S.held store.old) (Rose (S.read_faults store.old) (S.read_faults store.new)) Status.ReadFault (S.calls store.old) (S.calls store.new) }
    ensures broken_calls { IsErrOf result Quiet.WriteFault
        → CallsInOrder (texts words.now) (S.held store.old) (Rose (S.read_faults store.old) (S.read_faults store.new)) Status.WriteFault (S.calls store.old) (S.calls store.new) }
{
    match read_words(alloc, words) {
        Ok(Asked::Check { instance }) => check_file(alloc, store, instance.text()),
        Ok(Asked::Score { instance, solution }) => {
            score_files(alloc, store, instance.text(), solution.text())
        }
        Ok(
            Asked::Solve {
                instance,
                solution,
                certificate,
                workers,
                turns,
                seed,
                flips,
            },
        ) => {
            let targets = Targets {
                solution: solution.text(),
                certificate: certificate.text(),
            };
            let options = SolveOptions {
                workers,
                turns,
                seed,
                flips,
            };
            solve_file(alloc, store, instance.text(), targets, options, solver)
        }
        Ok(
            Asked::Verify {
                instance,
                solution,
                certificate,
            },
        ) => verify_files(
            alloc,
            store,
            instance.text(),
            solution.text(),
            certificate.text(),
        ),
        Ok(Asked::Trace { instance, t }) => trace_file(alloc, store, instance.text(), t),
        Ok(
            Asked::Bench {
                seed,
                points,
                inputs,
            },
        ) => bench_reply(alloc, seed, points, inputs),
        Err(WordsFault::Words) => words_reply(alloc),
        Err(WordsFault::OutOfMemory) => Err(Quiet::Memory),
    }
}

// Puts the line of a reply, and answers how the run ends.
fn put_reply<O: Sink>(out: &mut O, reply: Result<Reply, Quiet>) -> Status
    ensures { IsPut (record { told = O.told out.old; faults = O.faults out.old }) (record { told = O.told out.new; faults = O.faults out.new }) reply result }
{
    let reply = match reply {
        Ok(reply) => reply,
        Err(Quiet::Memory) => return Status::Memory,
        Err(Quiet::ReadFault) => return Status::ReadFault,
        Err(Quiet::WriteFault) => return Status::WriteFault,
    };
    match put_all(out, reply.line.as_bytes()) {
        Ok(()) => {}
        Err(_) => return Status::WriteFault,
    }
    reply.status
}

// Does what the words ask for, with a solver for `solve`.
fn run_by<S: Store, O: Sink, F: FnOnce(Arc<Instance>, Order) -> Result<Written, StartFault>>(
    alloc: Global,
    words: &[String],
    store: &mut S,
    out: &mut O,
    solver: F,
) -> Status
    requires can { (workers : ℕ) → AsksForSolution (texts words.now) workers → (i : _) (o : Order) → o.turns ≤ 1_000_000 → o.workers ≡ workers → F.pre solver i o }
    requires finds { (i : _) (o : Order) (found : _) → F.post solver i o found → IsFound i.value o found }
    ensures { IsEnd (texts words.now)
        (record { held = S.held store.old; read_faults = S.read_faults store.old; write_faults = S.write_faults store.old; calls = S.calls store.old })
        (record { held = S.held store.new; read_faults = S.read_faults store.new; write_faults = S.write_faults store.new; calls = S.calls store.new })
        (record { told = O.told out.old; faults = O.faults out.old })
        (record { told = O.told out.new; faults = O.faults out.new })
        result }
{
    let reply = reply_to(alloc, words, store, solver);
    put_reply(out, reply)
}

// What is written for an order, by as many workers as it asks for.
fn write_by<R: Threads + Wait + Sync, G: Gate + Sync>(
    rt: &R,
    alloc: Global,
    instance: Arc<Instance>,
    order: Order,
    gate: &G,
) -> Result<Written, StartFault>
    requires turns { order.turns ≤ 1_000_000 }
    requires workers { order.workers ≤ 16 }
    ensures { IsFound instance.value order result }
{
    if order.workers == 0 {
        write_alone(alloc, instance, order)
    } else {
        write_together(rt, alloc, instance, order, gate)
    }
}

/// Does what the words ask for: reads and writes the files that they name, and puts one line. Where they ask for workers it waits for them, and the gate is called before each turn.
///
/// `words` are those after the program's name.
pub fn run<R: Threads + Wait + Sync, S: Store, O: Sink, G: Gate + Sync>(
    rt: &R,
    alloc: Global,
    words: &[String],
    store: &mut S,
    out: &mut O,
    gate: &G,
) -> Status
    // 0: what the command asks of the files holds, its files were written, and the line that says so was put.
    ensures done { result ≡ Status.Done
        → Tells (texts words.now) (S.held store.old) (S.held store.new) Status.Done (O.told out.old) (O.told out.new) }
    // 1: exactly by the words, which alone decide.
    ensures words { result ≡ Status.Words
        → Tells (texts words.now) (S.held store.old) (S.held store.new) Status.Words (O.told out.old) (O.told out.new) }
    // 2: a file has a fault, and the line that names the first one was put.
    ensures refused { result ≡ Status.Refused
        → Tells (texts words.now) (S.held store.old) (S.held store.new) Status.Refused (O.told out.old) (O.told out.new) }
    // 3: the run of an input is longer than the budget, and the line that names the first one was put.
    ensures budget { result ≡ Status.FlipBudget
        → Tells (texts words.now) (S.held store.old) (S.held store.new) Status.FlipBudget (O.told out.old) (O.told out.new) }
    // So it comes only where a number of flips is given that is less than the pairs of points, never with the usual number.
    ensures budget_is_short { result ≡ Status.FlipBudget → AllowsFewFlips (texts words.now) (S.held store.old) }
    // 7: a certificate doesn't show what it says, and the line that names its first fault was put. Only `verify` ends so.
    ensures no { result ≡ Status.No
        → Tells (texts words.now) (S.held store.old) (S.held store.new) Status.No (O.told out.old) (O.told out.new) }
    ensures no_by_verify { result ≡ Status.No → AsksToVerify (texts words.now) }
    // What `solve` writes: a replayable book; its plan is settled; a best assignment over earned rows; each journal line a turn's answer or a move of settling; where no worker is asked for the turns in order, and none missed, and else few that came too late; and the bound is above no plan's total. `verify` says yes of it, with the same numbers.
    // Whatever the interleaving of the workers, all of it but `verify`.
    ensures headline { result ≡ Status.Done → WritesHeadline (texts words.now) (S.held store.old) (S.held store.new) }
    ensures replayable_book { result ≡ Status.Done → WritesReplayableBook (texts words.now) (S.held store.old) (S.held store.new) }
    ensures settled { result ≡ Status.Done → WritesSettledPlan (texts words.now) (S.held store.old) (S.held store.new) }
    ensures best_assignment { result ≡ Status.Done → WritesBestAssignment (texts words.now) (S.held store.old) (S.held store.new) }
    ensures answers_then_settling { result ≡ Status.Done → WritesAnswersThenSettling (texts words.now) (S.held store.old) (S.held store.new) }
    ensures turns_in_order { result ≡ Status.Done → WritesTurnsInOrder (texts words.now) (S.held store.old) (S.held store.new) }
    ensures late_turns_are_few { result ≡ Status.Done → WritesFewLateTurns (texts words.now) (S.held store.old) (S.held store.new) }
    ensures bound_below_plans { result ≡ Status.Done → WritesProvedBound (texts words.now) (S.held store.old) (S.held store.new) }
    ensures verifies { result ≡ Status.Done → WritesWhatVerifies (texts words.now) (S.held store.new) (O.told out.old) (O.told out.new) }
    // 4: free, and nothing was put. Nothing was written before the work was done, and then whole files alone, in order.
    ensures memory { result ≡ Status.Memory → O.told out.new ≡ O.told out.old }
    ensures memory_kept { result ≡ Status.Memory → Begins (texts words.now) (S.held store.old) (S.held store.new) }
    // 5: a read fault was counted, or a telling store doesn't hold a name; nothing was written or put.
    ensures read_fault { result ≡ Status.ReadFault
        → HasReadCause (texts words.now) (S.held store.old) (S.read_faults store.old) (S.read_faults store.new) }
    ensures read_fault_told { result ≡ Status.ReadFault → O.told out.new ≡ O.told out.old }
    ensures read_fault_kept { result ≡ Status.ReadFault → S.held store.new ≡ S.held store.old }
    // 6: a fault of a write or of the sink was counted. Either the writing of another status's files broke off, and nothing was put; or they were written, and a first part of its line was put.
    ensures write_fault { result ≡ Status.WriteFault
        → Rose (S.write_faults store.old) (S.write_faults store.new) ⊎ Rose (O.faults out.old) (O.faults out.new) }
    ensures write_fault_told { result ≡ Status.WriteFault
        → TellsPart (texts words.now) (S.held store.old) (S.held store.new) (O.told out.old) (O.told out.new) }

    // Nothing else ends a run: where the store tells what it holds and no fault is counted, the status is the one that the words and the files call for, if there is memory.
    ensures complete { Completes (texts words.now) (S.held store.old)
        (IsFaultless (S.read_faults store.old) (S.read_faults store.new) (S.write_faults store.old) (S.write_faults store.new) (O.faults out.old) (O.faults out.new))
        result }
    ensures words_decide { IsUnasked (texts words.now) → ¬ Rose (O.faults out.old) (O.faults out.new)
        → (result ≡ Status.Words) ⊎ (result ≡ Status.Memory) }

    // The store keeps what it holds under all names but those that the command writes. It is called at most once for each file of the command, and not where the words are those of no command. Names are read in order, up to the first that can't be; then names are written, where all was done.
    ensures kept { KeepsOthers (texts words.now) (S.held store.old) (S.held store.new) }
    ensures read_only { IsReadOnly (texts words.now) → S.write_faults store.new ≡ S.write_faults store.old }
    ensures calls { CallsOnce (texts words.now) (S.calls store.old) (S.calls store.new) }
    ensures in_order { CallsInOrder (texts words.now) (S.held store.old) (Rose (S.read_faults store.old) (S.read_faults store.new)) result (S.calls store.old) (S.calls store.new) }
    ensures uncalled { IsUnasked (texts words.now) → S.calls store.new ≡ S.calls store.old }
{
    run_by(
        alloc,
        words,
        store,
        out,
        |instance: Arc<Instance>, order: Order| -> Result<Written, StartFault>
            requires { (order.turns ≤ 1_000_000) × (order.workers ≤ 16) × IsSync R.row × IsSync G.row }
            ensures { IsFound instance.value order result }
        { write_by(rt, alloc, instance, order, gate) },
    )
}

// Whether the words ask for workers.
fn ask_for_workers(alloc: Global, words: &[String]) -> Result<bool, AllocError>
    ensures { IfOk result (λ asked. (IsTrue asked) ↔ AsksForWorkers (texts words.now)) }
{
    match read_words(alloc, words) {
        Ok(Asked::Solve { workers, .. }) => Ok(workers > 0),
        Ok(Asked::Check { .. }) => Ok(false),
        Ok(Asked::Score { .. }) => Ok(false),
        Ok(Asked::Verify { .. }) => Ok(false),
        Ok(Asked::Trace { .. }) => Ok(false),
        Ok(Asked::Bench { .. }) => Ok(false),
        Err(WordsFault::Words) => Ok(false),
        Err(WordsFault::OutOfMemory) => Err(AllocError),
    }
}

/// Does what the words ask for on one thread, and never waits. Words that ask for workers, as those of `solve` do where they say nothing of them, it refuses as words of no command.
///
/// `words` are those after the program's name.
pub fn run_plain<S: Store, O: Sink>(
    alloc: Global,
    words: &[String],
    store: &mut S,
    out: &mut O,
) -> Status
    ensures plain { ¬ AsksForWorkers (texts words.now) → IsEnd (texts words.now)
        (record { held = S.held store.old; read_faults = S.read_faults store.old; write_faults = S.write_faults store.old; calls = S.calls store.old })
        (record { held = S.held store.new; read_faults = S.read_faults store.new; write_faults = S.write_faults store.new; calls = S.calls store.new })
        (record { told = O.told out.old; faults = O.faults out.old })
        (record { told = O.told out.new; faults = O.faults out.new })
        result }
    ensures workers { AsksForWorkers (texts words.now) → IsRefusal
        (record { held = S.held store.old; read_faults = S.read_faults store.old; write_faults = S.write_faults store.old; calls = S.calls store.old })
        (record { held = S.held store.new; read_faults = S.read_faults store.new; write_faults = S.write_faults store.new; calls = S.calls store.new })
        (record { told = O.told out.old; faults = O.faults out.old })
        (record { told = O.told out.new; faults = O.faults out.new })
        result }
{
    match ask_for_workers(alloc, words) {
        Ok(true) => put_reply(out, words_reply(alloc)),
        Ok(false) => run_by(
            alloc,
            words,
            store,
            out,
            |instance: Arc<Instance>, order: Order| -> Result<Written, StartFault>
                requires { (order.turns ≤ 1_000_000) × (order.workers ≡ 0) }
                ensures { IsFound instance.value order result }
            { write_alone(alloc, instance, order) },
        ),
        Err(_) => Status::Memory,
    }
}

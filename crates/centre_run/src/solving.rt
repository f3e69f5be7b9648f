// The command `solve`.
ghost use Rattle.std.specs.Prelude.{◌≡◌, ◌⊎◌, ◌+◌, ◌≤◌, [], ◌∷◌, Some, None, Ok, IfOk, OnOk, IsErrOf, string_bytes};
ghost use Rattle.host_io.specs.Store.{Counts, Rose, one_more};
ghost use Rattle.tri_check.specs.Problems.{IsProblem};
ghost use Rattle.solution_json.specs.Texts.{text_of};
ghost use Rattle.solution_json.specs.Forms.{Spells};
ghost use Rattle.cert_text.specs.Certs.{IsWritable};
ghost use Rattle.cert_text.specs.Texts.{cert_text};
ghost use Rattle.cert_text.specs.Forms as cert_form;
ghost use Rattle.centre_words.specs.declared.asked.Asked.TheVariants.{Solve};
ghost use Rattle.printed_lines.specs.Lines.{solved_line};
ghost use Rattle.centre_run.specs.Orders.{order_of};
ghost use Rattle.book_solve.specs.declared.order.Order.{Order};
ghost use Rattle.centre_run.specs.Solvers.{IsFound};
ghost use Rattle.centre_run.specs.Calls.{after_writing, CallsFor, StopsReading, StopsWriting};
ghost use Rattle.centre_run.specs.Runs.{OrderSays, SolveSays, HasWritten, HasBegun, HasBrokenOff, files_under, CommandDoes, CommandBegins, CommandBreaksOff, LacksFile};

use crate::reply::{Quiet, Reply, read_file, with_line, write_file};
use crate::status::Status;
use book_cert::Written;
use book_solve::Order;
use cert_text::{Cert, write_cert};
use host_io::{Bytes, Store};
use instance_json::{InstanceFault, read_instance};
use lawson_start::StartFault;
use printed_lines::{bad_text, budget_text, form_text, solved_text};
use solution_json::{Solution, solution_text};
use std::alloc::{AllocError, Global};
use std::sync::Arc;
use tri_check::{CheckFault, Instance};

// How many workers take turns side by side, how many improvers take a turn, the seed that they draw from, and how many flips the run of an input may have, if a number is given.
#[derive(Clone, Copy, Debug, PartialEq, Eq)]
pub(crate) struct SolveOptions {
    pub(crate) workers: u32,
    pub(crate) turns: u32,
    pub(crate) seed: u64,
    pub(crate) flips: Option<u64>,
}

// The names of the files that are written.
#[derive(Clone, Copy, Debug)]
pub(crate) struct Targets<'a> {
    pub(crate) solution: &'a str,
    pub(crate) certificate: &'a str,
}

// The texts of a solution and of its certificate.
#[derive(Debug, Drop)]
struct Texts {
    solution: Bytes,
    certificate: Bytes,
}

// What is said, and the texts that are written, if some are.
#[derive(Debug, Drop)]
struct Solved {
    reply: Reply,
    texts: Option<Texts>,
}

// What the options ask of the solver.
fn order_of(instance: &Instance, options: SolveOptions) -> Order
    ensures { result ≡ order_of instance.now options }
{
    let points = u64::from(instance.count());
    let flips = match options.flips {
        Some(flips) => flips,
        None => points * (points - 1) / 2,
    };
    Order {
        flips,
        turns: options.turns,
        seed: options.seed,
        workers: options.workers,
    }
}

// The texts of a solution and of its certificate.
fn texts_of(alloc: Global, written: &Written) -> Result<Texts, AllocError>
    requires { IsWritable written.now.certificate }
    ensures texts { IfOk result (λ t. t ≡ record { solution = text_of written.now.solution; certificate = cert_text written.now.certificate }) }
    ensures solution { IfOk result (λ _. Spells (text_of written.now.solution) written.now.solution) }
    ensures certificate { IfOk result (λ _. cert_form.Spells (cert_text written.now.certificate) written.now.certificate) }
{
    let solution = solution_text(alloc, &written.solution)?;
    let certificate = write_cert(alloc, &written.certificate)?;
    Ok(Texts {
        solution,
        certificate,
    })
}

// A solution with its certificate, their total and their bound.
fn found(alloc: Global, written: &Written) -> Result<Solved, Quiet>
    requires { IsWritable written.now.certificate }
    ensures status { IfOk result (λ s. s.reply.status ≡ Status.Done) }
    ensures line { IfOk result (λ s. string_bytes s.reply.line ≡ solved_line written.now.certificate.total written.now.certificate.bound) }
    ensures texts { IfOk result (λ s. s.texts ≡ Some (record { solution = text_of written.now.solution; certificate = cert_text written.now.certificate })) }
    ensures solution { IfOk result (λ _. Spells (text_of written.now.solution) written.now.solution) }
    ensures certificate { IfOk result (λ _. cert_form.Spells (cert_text written.now.certificate) written.now.certificate) }
    ensures read { IsErrOf result Quiet.ReadFault → ⊥ }
    ensures write { IsErrOf result Quiet.WriteFault → ⊥ }
{
    let texts = texts_of(alloc, written)?;
    let line = solved_text(
        alloc,
        written.certificate.total,
        u128::from(written.certificate.bound),
    )?;
    Ok(Solved {
        reply: Reply {
            status: Status::Done,
            line,
        },
        texts: Some(texts),
    })
}

// A line, where there is no solution.
fn without_texts(status: Status, line: Result<String, AllocError>) -> Result<Solved, Quiet>
    ensures status { IfOk result (λ s. s.reply.status ≡ status) }
    ensures line { IfOk result (λ s. line ≡ Ok s.reply.line) }
    ensures texts { IfOk result (λ s. s.texts ≡ None) }
    ensures read { IsErrOf result Quiet.ReadFault → ⊥ }
    ensures write { IsErrOf result Quiet.WriteFault → ⊥ }
{
    let reply = with_line(status, line)?;
    Ok(Solved { reply, texts: None })
}

// What `solve` says of an instance, by a solver that finds what is written for an order.
fn solve_instance<F: FnOnce(Arc<Instance>, Order) -> Result<Written, StartFault>>(
    alloc: Global,
    instance: Arc<Instance>,
    options: SolveOptions,
    solver: F,
) -> Result<Solved, Quiet>
    requires turns { options.turns ≤ 1_000_000 }
    requires can { (i : _) (o : Order) → o.turns ≤ 1_000_000 → o.workers ≡ options.workers → F.pre solver i o }
    requires finds { (i : _) (o : Order) (found : _) → F.post solver i o found → IsFound i.value o found }
    ensures says { IfOk result (λ s. OrderSays instance.value (order_of instance.value options) s.reply.status (string_bytes s.reply.line) s.texts) }
    ensures problem { IsProblem instance.value.points instance.value.inputs }
    ensures read { IsErrOf result Quiet.ReadFault → ⊥ }
    ensures write { IsErrOf result Quiet.WriteFault → ⊥ }
{
    let _ = instance.count();
    let order = order_of(&instance, options);
    match solver(instance, order) {
        Ok(written) => found(alloc, &written),
        Err(StartFault::FlipBudget(t)) => without_texts(Status::FlipBudget, budget_text(alloc, t)),
        Err(StartFault::OutOfMemory) => Err(Quiet::Memory),
    }
}

// What `solve` says of the bytes of a file.
fn solve_bytes<F: FnOnce(Arc<Instance>, Order) -> Result<Written, StartFault>>(
    alloc: Global,
    bytes: &[u8],
    options: SolveOptions,
    solver: F,
) -> Result<Solved, Quiet>
    requires turns { options.turns ≤ 1_000_000 }
    requires can { (i : _) (o : Order) → o.turns ≤ 1_000_000 → o.workers ≡ options.workers → F.pre solver i o }
    requires finds { (i : _) (o : Order) (found : _) → F.post solver i o found → IsFound i.value o found }
    ensures says { IfOk result (λ s. SolveSays bytes.now options s.reply.status (string_bytes s.reply.line) s.texts) }
    ensures read { IsErrOf result Quiet.ReadFault → ⊥ }
    ensures write { IsErrOf result Quiet.WriteFault → ⊥ }
{
    let raw = match read_instance(alloc, bytes) {
        Ok(raw) => raw,
        Err(InstanceFault::Form(form)) => {
            return without_texts(Status::Refused, form_text(alloc, form));
        }
        Err(InstanceFault::OutOfMemory) => return Err(Quiet::Memory),
    };
    match Instance::check(alloc, raw) {
        Ok(instance) => solve_instance(alloc, instance, options, solver),
        Err(CheckFault::Bad(bad)) => without_texts(Status::Refused, bad_text(alloc, bad)),
        Err(CheckFault::OutOfMemory) => Err(Quiet::Memory),
    }
}

// Writes two texts under two names, the first one first.
fn write_both<S: Store>(store: &mut S, targets: Targets<'_>, texts: &Texts) -> Result<(), Quiet>
    ensures written { OnOk result (HasWritten (S.held store.old) (S.held store.new) (files_under targets.entry.solution.now targets.entry.certificate.now (Some texts.now))) }
    ensures memory { IsErrOf result Quiet.Memory → HasBegun (S.held store.old) (S.held store.new) (files_under targets.entry.solution.now targets.entry.certificate.now (Some texts.now)) }
    ensures read { IsErrOf result Quiet.ReadFault → ⊥ }
    ensures cause { IsErrOf result Quiet.WriteFault → Rose (S.write_faults store.old) (S.write_faults store.new) }
    ensures broken { IsErrOf result Quiet.WriteFault → HasBrokenOff (S.held store.old) (S.held store.new) (files_under targets.entry.solution.now targets.entry.certificate.now (Some texts.now)) }
    ensures reads { S.read_faults store.new ≡ S.read_faults store.old }
    ensures calls { S.calls store.new ≤ S.calls store.old + 2 }
    ensures called { OnOk result (S.calls store.new ≡ one_more (one_more (S.calls store.old))) }
    ensures broken_call { IsErrOf result Quiet.WriteFault → Counts (S.calls store.old) (S.calls store.new) ⊎ (S.calls store.new ≡ one_more (one_more (S.calls store.old))) }
{
    match write_file(store, targets.solution, texts.solution.as_slice()) {
        Ok(()) => write_file(store, targets.certificate, texts.certificate.as_slice()),
        Err(why) => Err(why),
    }
}

// Writes the texts under their names, where there are some.
fn write_texts<S: Store>(
    store: &mut S,
    targets: Targets<'_>,
    texts: &Option<Texts>,
) -> Result<(), Quiet>
    ensures written { OnOk result (HasWritten (S.held store.old) (S.held store.new) (files_under targets.entry.solution.now targets.entry.certificate.now texts.now)) }
    ensures memory { IsErrOf result Quiet.Memory → HasBegun (S.held store.old) (S.held store.new) (files_under targets.entry.solution.now targets.entry.certificate.now texts.now) }
    ensures read { IsErrOf result Quiet.ReadFault → ⊥ }
    ensures cause { IsErrOf result Quiet.WriteFault → Rose (S.write_faults store.old) (S.write_faults store.new) }
    ensures broken { IsErrOf result Quiet.WriteFault → HasBrokenOff (S.held store.old) (S.held store.new) (files_under targets.entry.solution.now targets.entry.certificate.now texts.now) }
    ensures reads { S.read_faults store.new ≡ S.read_faults store.old }
    ensures calls { S.calls store.new ≤ S.calls store.old + 2 }
    ensures called { OnOk result (S.calls store.new ≡ after_writing texts.now (S.calls store.old)) }
    ensures broken_call { IsErrOf result Quiet.WriteFault → Counts (S.calls store.old) (S.calls store.new) ⊎ (S.calls store.new ≡ one_more (one_more (S.calls store.old))) }
{
    match texts {
        Some(texts) => write_both(store, targets, texts),
        None => Ok(()),
    }
}

// Reads an instance, and writes the solution that was found and its certificate, if one was, once all work is done.
pub(crate) fn solve_file<S: Store, F: FnOnce(Arc<Instance>, Order) -> Result<Written, StartFault>>(
    alloc: Global,
    store: &mut S,
    instance: &str,
    targets: Targets<'_>,
    options: SolveOptions,
    solver: F,
) -> Result<Reply, Quiet>
    requires turns { options.turns ≤ 1_000_000 }
    requires can { (i : _) (o : Order) → o.turns ≤ 1_000_000 → o.workers ≡ options.workers → F.pre solver i o }
    requires finds { (i : _) (o : Order) (found : _) → F.post solver i o found → IsFound i.value o found }
    ensures does { IfOk result (λ r. CommandDoes (S.held store.old) (S.held store.new) (Solve instance.now targets.entry.solution.now targets.entry.certificate.now options.workers options.turns options.seed options.flips) r.status (string_bytes r.line)) }
    ensures cause { IsErrOf result Quiet.ReadFault → Rose (S.read_faults store.old) (S.read_faults store.new)
        ⊎ LacksFile (S.held store.old) (Solve instance.now targets.entry.solution.now targets.entry.certificate.now options.workers options.turns options.seed options.flips) }
    ensures unread { IsErrOf result Quiet.ReadFault → S.held store.new ≡ S.held store.old }
    ensures memory { IsErrOf result Quiet.Memory → (S.held store.new ≡ S.held store.old)
        ⊎ CommandBegins (S.held store.old) (S.held store.new) (Solve instance.now targets.entry.solution.now targets.entry.certificate.now options.workers options.turns options.seed options.flips) }
    ensures unwritten { IsErrOf result Quiet.WriteFault → Rose (S.write_faults store.old) (S.write_faults store.new) }
    ensures broken { IsErrOf result Quiet.WriteFault → CommandBreaksOff (S.held store.old) (S.held store.new) (Solve instance.now targets.entry.solution.now targets.entry.certificate.now options.workers options.turns options.seed options.flips) }
    ensures calls { S.calls store.new ≤ S.calls store.old + 3 }
    ensures called { IfOk result (λ r. CallsFor (Solve instance.now targets.entry.solution.now targets.entry.certificate.now options.workers options.turns options.seed options.flips) r.status (S.calls store.old) (S.calls store.new)) }
    ensures stopped { IsErrOf result Quiet.ReadFault
        → StopsReading (S.held store.old) (Rose (S.read_faults store.old) (S.read_faults store.new)) (instance.now ∷ []) (S.calls store.old) (S.calls store.new) }
    ensures broken_calls { IsErrOf result Quiet.WriteFault
        → StopsWriting (Solve instance.now targets.entry.solution.now targets.entry.certificate.now options.workers options.turns options.seed options.flips) (S.calls store.old) (S.calls store.new) }
{
    let bytes = read_file(alloc, store, instance)?;
    let solved = solve_bytes(alloc, bytes.as_slice(), options, solver)?;
    write_texts(store, targets, &solved.texts)?;
    Ok(solved.reply)
}

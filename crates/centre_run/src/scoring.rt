// The command `score`.
ghost use Rattle.std.specs.Prelude.{◌≡◌, ◌⊎◌, ◌+◌, ◌≤◌, [], ◌∷◌, length, IfOk, IsErrOf, string_bytes};
ghost use Rattle.host_io.specs.Store.{Rose};
ghost use Rattle.tri_check.specs.Problems.{IsProblem};
ghost use Rattle.centre_words.specs.declared.asked.Asked.TheVariants.{Score};
ghost use Rattle.centre_run.specs.Calls.{CallsFor, StopsReading};
ghost use Rattle.centre_run.specs.Runs.{SolutionSays, RawSays, ScoreSays, CommandDoes, LacksFile};

use crate::reply::{Quiet, Reply, read_file, with_line};
use crate::status::Status;
use host_io::Store;
use instance_json::{InstanceFault, read_instance};
use printed_lines::{
    bad_text, form_text, other_uid_text, score_fault_text, solution_form_text, total_text,
};
use replay::score;
use solution_json::{Solution, SolutionFault, read_solution};
use std::alloc::Global;
use tri_check::{CheckFault, Instance, RawInstance};

// What a solution says of an instance: its total, or its first fault.
fn solution_reply(alloc: Global, instance: &Instance, solution: &Solution) -> Result<Reply, Quiet>
    ensures says { IfOk result (λ r. SolutionSays instance.now solution.now r.status (string_bytes r.line)) }
    ensures problem { IsProblem instance.now.points instance.now.inputs }
    ensures read { IsErrOf result Quiet.ReadFault → ⊥ }
    ensures write { IsErrOf result Quiet.WriteFault → ⊥ }
{
    let _ = instance.count();
    if !solution.uid.same(instance.uid()) {
        return with_line(Status::Refused, other_uid_text(alloc));
    }
    match score(alloc, instance, &solution.lists) {
        Ok(scored) => with_line(Status::Done, total_text(alloc, scored.total)),
        Err(fault) => with_line(Status::Refused, score_fault_text(alloc, fault)),
    }
}

// What `score` says of values that have the form of an instance and of a solution.
fn score_raw(alloc: Global, raw: RawInstance, solution: &Solution) -> Result<Reply, Quiet>
    requires { length raw.weights ≡ length raw.inputs }
    ensures says { IfOk result (λ r. RawSays raw (λ instance. SolutionSays instance solution.now) r.status (string_bytes r.line)) }
    ensures read { IsErrOf result Quiet.ReadFault → ⊥ }
    ensures write { IsErrOf result Quiet.WriteFault → ⊥ }
{
    match Instance::check(alloc, raw) {
        Ok(instance) => solution_reply(alloc, &instance, solution),
        Err(CheckFault::Bad(bad)) => with_line(Status::Refused, bad_text(alloc, bad)),
        Err(CheckFault::OutOfMemory) => Err(Quiet::Memory),
    }
}

// What `score` says of the bytes of two files.
fn score_bytes(alloc: Global, bytes: &[u8], others: &[u8]) -> Result<Reply, Quiet>
    ensures says { IfOk result (λ r. ScoreSays bytes.now others.now r.status (string_bytes r.line)) }
    ensures read { IsErrOf result Quiet.ReadFault → ⊥ }
    ensures write { IsErrOf result Quiet.WriteFault → ⊥ }
{
    let raw = match read_instance(alloc, bytes) {
        Ok(raw) => raw,
        Err(InstanceFault::Form(form)) => return with_line(Status::Refused, form_text(alloc, form)),
        Err(InstanceFault::OutOfMemory) => return Err(Quiet::Memory),
    };
    let solution = match read_solution(alloc, others) {
        Ok(solution) => solution,
        Err(SolutionFault::Form(form)) => {
            return with_line(Status::Refused, solution_form_text(alloc, form));
        }
        Err(SolutionFault::OutOfMemory) => return Err(Quiet::Memory),
    };
    score_raw(alloc, raw, &solution)
}

// What `score` says of two files.
pub(crate) fn score_files<S: Store>(
    alloc: Global,
    store: &mut S,
    instance: &str,
    solution: &str,
) -> Result<Reply, Quiet>
    ensures does { IfOk result (λ r. CommandDoes (S.held store.old) (S.held store.new) (Score instance.now solution.now) r.status (string_bytes r.line)) }
    ensures cause { IsErrOf result Quiet.ReadFault → Rose (S.read_faults store.old) (S.read_faults store.new)
        ⊎ LacksFile (S.held store.old) (Score instance.now solution.now) }
    ensures write { IsErrOf result Quiet.WriteFault → ⊥ }
    ensures kept { S.held store.new ≡ S.held store.old }
    ensures writes { S.write_faults store.new ≡ S.write_faults store.old }
    ensures calls { S.calls store.new ≤ S.calls store.old + 2 }
    ensures called { IfOk result (λ r. CallsFor (Score instance.now solution.now) r.status (S.calls store.old) (S.calls store.new)) }
    ensures stopped { IsErrOf result Quiet.ReadFault
        → StopsReading (S.held store.old) (Rose (S.read_faults store.old) (S.read_faults store.new)) (instance.now ∷ solution.now ∷ []) (S.calls store.old) (S.calls store.new) }
{
    let bytes = read_file(alloc, store, instance)?;
    let others = read_file(alloc, store, solution)?;
    score_bytes(alloc, bytes.as_slice(), others.as_slice())
}

// The command `trace`.
ghost use Rattle.std.specs.Prelude.{◌≡◌, ◌⊎◌, IfOk, IsErrOf, string_bytes};
ghost use Rattle.host_io.specs.Store.{Counts, Rose};
ghost use Rattle.tri_check.specs.Problems.{IsProblem};
ghost use Rattle.centre_words.specs.declared.asked.Asked.TheVariants.{Trace};
ghost use Rattle.centre_run.specs.Runs.{RunSays, TraceSays, CommandDoes, LacksFile};

use crate::reply::{Quiet, Reply, read_file, with_line};
use crate::status::Status;
use host_io::Store;
use instance_json::{InstanceFault, read_instance};
use lawson_law::run_bound;
use lawson_start::trace;
use printed_lines::{bad_text, flips_text, form_text, no_such_input_text};
use std::alloc::Global;
use tri_check::{CheckFault, Instance};

// What `trace` says of an instance.
fn run_reply(alloc: Global, instance: &Instance, t: u64) -> Result<Reply, Quiet>
    ensures says { IfOk result (λ r. RunSays instance.now t r.status (string_bytes r.line)) }
    ensures problem { IsProblem instance.now.points instance.now.inputs }
    ensures read { IsErrOf result Quiet.ReadFault → ⊥ }
    ensures write { IsErrOf result Quiet.WriteFault → ⊥ }
{
    let bound = run_bound(instance.count());
    if t >= u64::from(instance.inputs()) {
        return with_line(Status::Refused, no_such_input_text(alloc, t));
    }
    match trace(alloc, instance, t as u32) {
        Ok(run) => with_line(
            Status::Done,
            flips_text(alloc, run.flips.len() as u64, bound),
        ),
        Err(_) => Err(Quiet::Memory),
    }
}

// What `trace` says of the bytes of a file.
fn trace_bytes(alloc: Global, bytes: &[u8], t: u64) -> Result<Reply, Quiet>
    ensures says { IfOk result (λ r. TraceSays bytes.now t r.status (string_bytes r.line)) }
    ensures read { IsErrOf result Quiet.ReadFault → ⊥ }
    ensures write { IsErrOf result Quiet.WriteFault → ⊥ }
{
    let raw = match read_instance(alloc, bytes) {
        Ok(raw) => raw,
        Err(InstanceFault::Form(form)) => return with_line(Status::Refused, form_text(alloc, form)),
        Err(InstanceFault::OutOfMemory) => return Err(Quiet::Memory),
    };
    match Instance::check(alloc, raw) {
        Ok(instance) => run_reply(alloc, &instance, t),
        Err(CheckFault::Bad(bad)) => with_line(Status::Refused, bad_text(alloc, bad)),
        Err(CheckFault::OutOfMemory) => Err(Quiet::Memory),
    }
}

// What `trace` says of a file.
pub(crate) fn trace_file<S: Store>(
    alloc: Global,
    store: &mut S,
    name: &str,
    t: u64,
) -> Result<Reply, Quiet>
    ensures does { IfOk result (λ r. CommandDoes (S.held store.old) (S.held store.new) (Trace name.now t) r.status (string_bytes r.line)) }
    ensures cause { IsErrOf result Quiet.ReadFault → Rose (S.read_faults store.old) (S.read_faults store.new)
        ⊎ LacksFile (S.held store.old) (Trace name.now t) }
    ensures write { IsErrOf result Quiet.WriteFault → ⊥ }
    ensures kept { S.held store.new ≡ S.held store.old }
    ensures writes { S.write_faults store.new ≡ S.write_faults store.old }
    ensures counted { Counts (S.calls store.old) (S.calls store.new) }
{
    let bytes = read_file(alloc, store, name)?;
    trace_bytes(alloc, bytes.as_slice(), t)
}

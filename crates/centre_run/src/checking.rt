// The command `check`.
ghost use Rattle.std.specs.Prelude.{◌≡◌, ◌⊎◌, length, IfOk, IsErrOf, string_bytes};
ghost use Rattle.host_io.specs.Store.{Counts, Rose};
ghost use Rattle.printed_lines.specs.Lines.{valid_line};
ghost use Rattle.centre_words.specs.declared.asked.Asked.TheVariants.{Check};
ghost use Rattle.centre_run.specs.Runs.{CheckSays, CommandDoes, LacksFile};

use crate::reply::{Quiet, Reply, read_file, with_line};
use crate::status::Status;
use host_io::Store;
use instance_json::{InstanceFault, read_instance};
use printed_lines::{bad_text, form_text, valid_text};
use std::alloc::Global;
use tri_check::{CheckFault, Instance};

// What `check` says of an instance.
fn valid_reply(alloc: Global, instance: &Instance) -> Result<Reply, Quiet>
    ensures says { IfOk result (λ r. (r.status ≡ Status.Done)
        × (string_bytes r.line ≡ valid_line (length instance.now.points) (length instance.now.inputs))) }
    ensures read { IsErrOf result Quiet.ReadFault → ⊥ }
    ensures write { IsErrOf result Quiet.WriteFault → ⊥ }
{
    with_line(
        Status::Done,
        valid_text(alloc, instance.count(), instance.inputs()),
    )
}

// What `check` says of the bytes of a file.
fn check_bytes(alloc: Global, bytes: &[u8]) -> Result<Reply, Quiet>
    ensures says { IfOk result (λ r. CheckSays bytes.now r.status (string_bytes r.line)) }
    ensures read { IsErrOf result Quiet.ReadFault → ⊥ }
    ensures write { IsErrOf result Quiet.WriteFault → ⊥ }
{
    let raw = match read_instance(alloc, bytes) {
        Ok(raw) => raw,
        Err(InstanceFault::Form(form)) => return with_line(Status::Refused, form_text(alloc, form)),
        Err(InstanceFault::OutOfMemory) => return Err(Quiet::Memory),
    };
    match Instance::check(alloc, raw) {
        Ok(instance) => valid_reply(alloc, &instance),
        Err(CheckFault::Bad(bad)) => with_line(Status::Refused, bad_text(alloc, bad)),
        Err(CheckFault::OutOfMemory) => Err(Quiet::Memory),
    }
}

// What `check` says of a file.
pub(crate) fn check_file<S: Store>(alloc: Global, store: &mut S, name: &str) -> Result<Reply, Quiet>
    ensures does { IfOk result (λ r. CommandDoes (S.held store.old) (S.held store.new) (Check name.now) r.status (string_bytes r.line)) }
    ensures cause { IsErrOf result Quiet.ReadFault → Rose (S.read_faults store.old) (S.read_faults store.new)
        ⊎ LacksFile (S.held store.old) (Check name.now) }
    ensures write { IsErrOf result Quiet.WriteFault → ⊥ }
    ensures kept { S.held store.new ≡ S.held store.old }
    ensures writes { S.write_faults store.new ≡ S.write_faults store.old }
    ensures counted { Counts (S.calls store.old) (S.calls store.new) }
{
    let bytes = read_file(alloc, store, name)?;
    check_bytes(alloc, bytes.as_slice())
}

// The command `verify`.
ghost use Rattle.std.specs.Prelude.{◌≡◌, ◌⊎◌, ◌+◌, ◌≤◌, [], ◌∷◌, length, IfOk, IsErrOf, string_bytes};
ghost use Rattle.host_io.specs.Store.{Rose};
ghost use Rattle.tri_check.specs.Problems.{IsProblem};
ghost use Rattle.cert_text.specs.Certs.{IsWritable};
ghost use Rattle.centre_words.specs.declared.asked.Asked.TheVariants.{Verify};
ghost use Rattle.centre_run.specs.Calls.{CallsFor, StopsReading};
ghost use Rattle.centre_run.specs.Runs.{RawSays, CertificateSays, VerifySays, CommandDoes, LacksFile};

use crate::reply::{Quiet, Reply, read_file, with_line};
use crate::status::Status;
use cert_text::{Cert, CertReadFault, read_cert};
use host_io::Store;
use instance_json::{InstanceFault, read_instance};
use printed_lines::{bad_text, cert_form_text, form_text, no_text, solution_form_text, yes_text};
use solution_json::{Solution, SolutionFault, read_solution};
use std::alloc::Global;
use tri_check::{CheckFault, Instance, RawInstance};
use verify_core::{VerifyFault, verify};

// What a certificate says of a solution of an instance: its total and its bound, or its first fault.
fn certificate_reply(
    alloc: Global,
    instance: &Instance,
    solution: &Solution,
    cert: &Cert,
) -> Result<Reply, Quiet>
    requires { IsWritable cert.now }
    ensures says { IfOk result (λ r. CertificateSays instance.now solution.now cert.now r.status (string_bytes r.line)) }
    ensures problem { IsProblem instance.now.points instance.now.inputs }
    ensures read { IsErrOf result Quiet.ReadFault → ⊥ }
    ensures write { IsErrOf result Quiet.WriteFault → ⊥ }
{
    let _ = instance.count();
    match verify(alloc, instance, solution, cert) {
        Ok(yes) => with_line(Status::Done, yes_text(alloc, yes.total, yes.bound)),
        Err(VerifyFault::No(fault)) => with_line(Status::No, no_text(alloc, fault)),
        Err(VerifyFault::OutOfMemory) => Err(Quiet::Memory),
    }
}

// What `verify` says of values that have the form of an instance, of a solution and of a certificate.
fn verify_raw(
    alloc: Global,
    raw: RawInstance,
    solution: &Solution,
    cert: &Cert,
) -> Result<Reply, Quiet>
    requires weights { length raw.weights ≡ length raw.inputs }
    requires writable { IsWritable cert.now }
    ensures says { IfOk result (λ r. RawSays raw (λ instance. CertificateSays instance solution.now cert.now) r.status (string_bytes r.line)) }
    ensures read { IsErrOf result Quiet.ReadFault → ⊥ }
    ensures write { IsErrOf result Quiet.WriteFault → ⊥ }
{
    match Instance::check(alloc, raw) {
        Ok(instance) => certificate_reply(alloc, &instance, solution, cert),
        Err(CheckFault::Bad(bad)) => with_line(Status::Refused, bad_text(alloc, bad)),
        Err(CheckFault::OutOfMemory) => Err(Quiet::Memory),
    }
}

// What `verify` says of the bytes of three files.
fn verify_bytes(alloc: Global, bytes: &[u8], others: &[u8], last: &[u8]) -> Result<Reply, Quiet>
    ensures says { IfOk result (λ r. VerifySays bytes.now others.now last.now r.status (string_bytes r.line)) }
    ensures read { IsErrOf result Quiet.ReadFault → ⊥ }
    ensures write { IsErrOf result Quiet.WriteFault → ⊥ }
{
    let raw = match read_instance(alloc, bytes) {
        Ok(raw) => raw,
        Err(InstanceFault::Form(form)) => return with_line(Status::Refused, form_text(alloc, form)),
        Err(InstanceFault::OutOfMemory) => return Err(Quiet::Memory),
    };
    let solution = match read_solution(alloc, others) {
        Ok(solution) => solution,
        Err(SolutionFault::Form(form)) => {
            return with_line(Status::Refused, solution_form_text(alloc, form));
        }
        Err(SolutionFault::OutOfMemory) => return Err(Quiet::Memory),
    };
    let cert = match read_cert(alloc, last) {
        Ok(cert) => cert,
        Err(CertReadFault::Cert(fault)) => {
            return with_line(Status::Refused, cert_form_text(alloc, fault));
        }
        Err(CertReadFault::OutOfMemory) => return Err(Quiet::Memory),
    };
    verify_raw(alloc, raw, &solution, &cert)
}

// What `verify` says of three files.
pub(crate) fn verify_files<S: Store>(
    alloc: Global,
    store: &mut S,
    instance: &str,
    solution: &str,
    certificate: &str,
) -> Result<Reply, Quiet>
    ensures does { IfOk result (λ r. CommandDoes (S.held store.old) (S.held store.new) (Verify instance.now solution.now certificate.now) r.status (string_bytes r.line)) }
    ensures cause { IsErrOf result Quiet.ReadFault → Rose (S.read_faults store.old) (S.read_faults store.new)
        ⊎ LacksFile (S.held store.old) (Verify instance.now solution.now certificate.now) }
    ensures write { IsErrOf result Quiet.WriteFault → ⊥ }
    ensures kept { S.held store.new ≡ S.held store.old }
    ensures writes { S.write_faults store.new ≡ S.write_faults store.old }
    ensures calls { S.calls store.new ≤ S.calls store.old + 3 }
    ensures called { IfOk result (λ r. CallsFor (Verify instance.now solution.now certificate.now) r.status (S.calls store.old) (S.calls store.new)) }
    ensures stopped { IsErrOf result Quiet.ReadFault
        → StopsReading (S.held store.old) (Rose (S.read_faults store.old) (S.read_faults store.new)) (instance.now ∷ solution.now ∷ certificate.now ∷ []) (S.calls store.old) (S.calls store.new) }
{
    let bytes = read_file(alloc, store, instance)?;
    let others = read_file(alloc, store, solution)?;
    let last = read_file(alloc, store, certificate)?;
    verify_bytes(alloc, bytes.as_slice(), others.as_slice(), last.as_slice())
}

// What a run replies, and the files that it reads.
ghost use Rattle.std.specs.Prelude.{◌≡◌, ◌⊎◌, ◌≤◌, [], ◌∷◌, IfOk, OnOk, IsErrOf, Ok};
ghost use Rattle.host_io.specs.Store.{Counts, Rose};
ghost use Rattle.centre_run.specs.declared.reply.Quiet.TheVariants as quiet;
ghost use Rattle.centre_run.specs.Runs.{MayHold, IsUnheld, HasWritten, HasBrokenOff};

use crate::status::Status;
use host_io::{Bytes, Store, StoreFail};
use std::alloc::{AllocError, Global};

// What is to be printed, and the status that it stands for.
#[derive(Debug, Drop)]
pub(crate) struct Reply {
    pub(crate) status: Status,
    pub(crate) line: String,
}

// Why nothing is printed.
#[derive(Clone, Copy, Debug, PartialEq, Eq)]
pub(crate) enum Quiet {
    Memory,
    ReadFault,
    WriteFault,
}

impl From<AllocError> for Quiet {
    ghost from_gives = { λ _ e. e ≡ quiet.Memory };

    fn from(_e: AllocError) -> Self {
        Quiet::Memory
    }
}

pub(crate) fn with_line(status: Status, line: Result<String, AllocError>) -> Result<Reply, Quiet>
    ensures status { IfOk result (λ r. r.status ≡ status) }
    ensures line { IfOk result (λ r. line ≡ Ok r.line) }
    ensures read { IsErrOf result Quiet.ReadFault → ⊥ }
    ensures write { IsErrOf result Quiet.WriteFault → ⊥ }
{
    match line {
        Ok(line) => Ok(Reply { status, line }),
        Err(_) => Err(Quiet::Memory),
    }
}

// All bytes under a name.
pub(crate) fn read_file<S: Store>(alloc: Global, store: &mut S, name: &str) -> Result<Bytes, Quiet>
    ensures held { IfOk result (λ bytes. MayHold (S.held store.old) name.now bytes) }
    ensures cause { IsErrOf result Quiet.ReadFault → Rose (S.read_faults store.old) (S.read_faults store.new)
        ⊎ IsUnheld (S.held store.old) name.now }
    ensures write { IsErrOf result Quiet.WriteFault → ⊥ }
    ensures later { S.read_faults store.old ≤ S.read_faults store.new }
    ensures kept { S.held store.new ≡ S.held store.old }
    ensures writes { S.write_faults store.new ≡ S.write_faults store.old }
    ensures counted { Counts (S.calls store.old) (S.calls store.new) }
{
    match store.read(alloc, name) {
        Ok(bytes) => Ok(bytes),
        Err(StoreFail::OutOfMemory) => Err(Quiet::Memory),
        Err(StoreFail::Failed | StoreFail::NotHeld) => Err(Quiet::ReadFault),
    }
}

// Writes all bytes under a name.
pub(crate) fn write_file<S: Store>(store: &mut S, name: &str, bytes: &[u8]) -> Result<(), Quiet>
    ensures written { OnOk result (HasWritten (S.held store.old) (S.held store.new) ((name.now, bytes.now) ∷ [])) }
    ensures memory { IsErrOf result Quiet.Memory → S.held store.new ≡ S.held store.old }
    ensures read { IsErrOf result Quiet.ReadFault → ⊥ }
    ensures cause { IsErrOf result Quiet.WriteFault → Rose (S.write_faults store.old) (S.write_faults store.new) }
    ensures broken { IsErrOf result Quiet.WriteFault → HasBrokenOff (S.held store.old) (S.held store.new) ((name.now, bytes.now) ∷ []) }
    ensures later { S.write_faults store.old ≤ S.write_faults store.new }
    ensures reads { S.read_faults store.new ≡ S.read_faults store.old }
    ensures counted { Counts (S.calls store.old) (S.calls store.new) }
{
    match store.write(name, bytes) {
        Ok(()) => Ok(()),
        Err(StoreFail::OutOfMemory) => Err(Quiet::Memory),
        Err(StoreFail::Failed) => Err(Quiet::WriteFault),
        // No write answers this.
        Err(StoreFail::NotHeld) => unreachable!(),
    }
}

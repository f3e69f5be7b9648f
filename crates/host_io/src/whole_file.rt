// Whole files: read to their end, and written beside their name before they stand under it.
ghost use Rattle.std.specs.Prelude.{◌≡◌, ◌≤◌, ◌<◌, ◌↔◌, ◌+◌, IsTrue, IfOk, OnOk, IsErrOf, length};
ghost use Rattle.std.specs.Io.KnownBytes.{Appends};
ghost use Rattle.host_io.specs.Folder.{IsAll, IsLonger};
ghost use Rattle.host_io.specs.declared.whole_file.FileFault.TheVariants as faults;

use crate::Bytes;
use std::alloc::{AllocError, AllocFailed, Global};
use std::fs;
use std::fs::{File, Metadata, OpenFile};
use std::io::{ErrorKind, Read, Write};
use std::os::unix::fs::MetadataExt;
use std::rt::Files;

// The most bytes that a file has which is read or written.
pub(crate) const LONGEST: usize = 1_073_741_824;

const PIECE: usize = 16_384;

// How many names are tried for the file that a write goes to first.
const NAMES: u32 = 100;

// Why a file wasn't read or written whole.
#[derive(Clone, Copy, Debug, PartialEq, Eq)]
pub(crate) enum FileFault {
    // It has more than the most bytes.
    TooLong,
    // It was read before, under this name or another one, and so isn't written.
    WasRead,
    // The system refused a call.
    Refused,
    OutOfMemory,
}

impl From<AllocError> for FileFault {
    ghost from_gives = { λ _ e. e ≡ faults.OutOfMemory };

    fn from(_: AllocError) -> Self {
        FileFault::OutOfMemory
    }
}

impl<T: Drop> From<AllocFailed<T>> for FileFault {
    ghost from_gives = { λ _ e. e ≡ faults.OutOfMemory };

    fn from(_: AllocFailed<T>) -> Self {
        FileFault::OutOfMemory
    }
}

// A file of the system, whatever its names are.
#[derive(Clone, Copy, Debug, PartialEq, Eq)]
pub(crate) struct FileId {
    device: u64,
    number: u64,
}

fn id_of(about: &Metadata) -> FileId {
    FileId {
        device: about.dev(),
        number: about.ino(),
    }
}

// All bytes of a reader, unless they are more than the limit.
fn read_all<F: Read>(alloc: Global, file: &mut F) -> Result<Bytes, FileFault>
    ensures all { IfOk result (λ bytes. IsAll (F.remaining file.old) bytes) }
    ensures limit { IfOk result (λ bytes. length bytes ≤ LONGEST) }
    ensures too_long { IsErrOf result FileFault.TooLong → IsLonger LONGEST (F.remaining file.old) }
    ensures unread { IsErrOf result FileFault.WasRead → ⊥ }
{
    let mut bytes = Bytes::make(alloc);
    let mut piece = [0u8; PIECE];
    for _ in 0..u64::MAX {
        let Ok(count) = file.read(&mut piece) else {
            return Err(FileFault::Refused);
        };
        if count == 0 {
            return Ok(bytes);
        }
        if bytes.len() > LONGEST - count {
            return Err(FileFault::TooLong);
        }
        bytes.append(&piece[..count])?;
    }
    Err(FileFault::Refused)
}

// Whether a writer took all bytes.
fn write_all<F: Write>(file: &mut F, bytes: &[u8]) -> bool
    ensures { IsTrue result → Appends (F.contents file.old) (F.contents file.new) bytes.now }
{
    let mut rest = bytes;
    while !rest.is_empty() {
        match file.write(rest) {
            Ok(count) if count > 0 => rest = &rest[count..],
            _ => return false,
        }
    }
    file.flush().is_ok()
}

// All bytes of the file with this name, which is then one of those that were read.
pub(crate) fn read_file<R: Files>(
    rt: &R,
    alloc: Global,
    read: &mut Vec<FileId>,
    name: &str,
) -> Result<Bytes, FileFault>
    ensures all { IfOk result (λ bytes. (file : R.File) × IsAll (R.File.remaining file) bytes) }
    ensures limit { IfOk result (λ bytes. length bytes ≤ LONGEST) }
    ensures too_long { IsErrOf result FileFault.TooLong → (file : R.File) × IsLonger LONGEST (R.File.remaining file) }
    ensures noted { OnOk result (length read.new.items ≡ length read.old.items + 1) }
{
    let Ok(mut file) = fs::open(rt, name) else {
        return Err(FileFault::Refused);
    };
    let Ok(about) = file.metadata() else {
        return Err(FileFault::Refused);
    };
    read.push(id_of(&about))?;
    read_all(alloc, &mut file)
}

// Whether the name is one of a file that was read.
fn was_read<R: Files>(rt: &R, read: &[FileId], name: &str) -> bool {
    match fs::metadata(rt, name) {
        Ok(about) => read.contains(&id_of(&about)),
        Err(_) => false,
    }
}

// A new file in the same folder, and its name.
fn make_beside<R: Files + AllocGlobal>(rt: &R, name: &str) -> Result<(R::File, String), FileFault>
    ensures not_long { IsErrOf result FileFault.TooLong → ⊥ }
{
    for n in 0..NAMES {
        let beside = format!(in rt.alloc(); "{name}.part{n}")?;
        match File::create_new(rt, beside.as_str()) {
            Ok(file) => return Ok((file, beside)),
            Err(error) if error.kind() == ErrorKind::AlreadyExists => {}
            Err(_) => return Err(FileFault::Refused),
        }
    }
    Err(FileFault::Refused)
}

// Writes into the file with this name, from its beginning.
fn write_into<R: Files>(rt: &R, name: &str, bytes: &[u8]) -> Result<(), FileFault>
    ensures all { OnOk result ((old : R.File) × (new : R.File) × Appends (R.File.contents old) (R.File.contents new) bytes.now) }
    ensures not_long { IsErrOf result FileFault.TooLong → ⊥ }
{
    let Ok(mut file) = fs::create(rt, name) else {
        return Err(FileFault::Refused);
    };
    if write_all(&mut file, bytes) {
        Ok(())
    } else {
        Err(FileFault::Refused)
    }
}

// Writes into a new file beside the name, and gives it the name once it is whole. Where that fails, the name stands for what it stood for.
fn write_beside<R: Files + AllocGlobal>(rt: &R, name: &str, bytes: &[u8]) -> Result<(), FileFault>
    ensures all { OnOk result ((old : R.File) × (new : R.File) × Appends (R.File.contents old) (R.File.contents new) bytes.now) }
    ensures not_long { IsErrOf result FileFault.TooLong → ⊥ }
{
    let (mut file, beside) = make_beside(rt, name)?;
    if write_all(&mut file, bytes)
        && file.sync_all().is_ok()
        && fs::rename(rt, beside.as_str(), name).is_ok()
    {
        return Ok(());
    }
    let _ = fs::remove_file(rt, beside.as_str());
    Err(FileFault::Refused)
}

// Puts the bytes under the name, unless they are more than the limit or the file was read. A name of what is no plain file, as of a link or a device, is written into.
pub(crate) fn write_file<R: Files + AllocGlobal>(
    rt: &R,
    read: &[FileId],
    name: &str,
    bytes: &[u8],
) -> Result<(), FileFault>
    ensures all { OnOk result ((old : R.File) × (new : R.File) × Appends (R.File.contents old) (R.File.contents new) bytes.now) }
    ensures too_long { IsErrOf result FileFault.TooLong ↔ LONGEST < length bytes.now }
{
    if bytes.len() > LONGEST {
        return Err(FileFault::TooLong);
    }
    if was_read(rt, read, name) {
        return Err(FileFault::WasRead);
    }
    match fs::symlink_metadata(rt, name) {
        Ok(about) if !about.is_file() => write_into(rt, name, bytes),
        _ => write_beside(rt, name, bytes),
    }
}

// Whole files: calls that move few bytes, calls that fail in mid-stream, long files, and the names that are opened.
ghost use Rattle.std.specs.Prelude.{◌≤◌, IfOk};

use host_io::*;
use std::alloc::{Allocator, Global};
use std::cell::RefCell;
use std::fs::{Metadata, OpenFile, OpenOptions};
use std::io::{ErrorKind, Read, Seek, SeekFrom, Write};
use std::os::unix::fs::symlink;
use std::rt::Files;
use std::test::Fail;
use std::{fs, io};

// Files that are made for a test. All hold one text, and what is written to any is kept together.
#[derive(Clone, Copy)]
struct Shelf<'a> {
    alloc: Global,
    text: &'a [u8],
    // The most bytes that a call moves.
    step: usize,
    // How many calls of an opened file succeed.
    calls: usize,
    // What was opened, renamed and removed, in order.
    log: &'a RefCell<String>,
    written: &'a RefCell<Vec<u8>>,
}

// One of them, opened.
#[derive(Drop)]
struct ShelfFile<'a> {
    rest: &'a [u8],
    step: usize,
    calls: usize,
    written: &'a RefCell<Vec<u8>>,
}

impl<'a> Shelf<'a> {
    fn note(&self, done: &str, name: &str) -> io::Result<()> {
        if let Ok(mut log) = self.log.try_borrow_mut() {
            let log = &mut *log;
            log.push_str(done)?;
            log.push_str(name)?;
        }
        Ok(())
    }
}

fn refused<T>() -> io::Result<T> {
    Err(io::Error::from(ErrorKind::Unsupported))
}

impl<'a> ShelfFile<'a> {
    // How many of so many bytes the next call moves.
    fn next(&mut self, most: usize) -> io::Result<usize>
        ensures { IfOk result (λ n. n ≤ most) }
    {
        if self.calls == 0 {
            return Err(io::Error::from(ErrorKind::Other));
        }
        self.calls -= 1;
        Ok(self.step.min(most))
    }
}

impl<'a> Alloc for Shelf<'a> {
    type A = Global;

    fn alloc(&self) -> Global {
        self.alloc
    }
}

impl<'a> Files for Shelf<'a> {
    type File = ShelfFile<'a>;

    type Dir = ShelfFile<'a>;

    fn open_file(&self, how: &OpenOptions, path: &str) -> io::Result<ShelfFile<'a>> {
        self.note(if how.asks_create_new() { "+" } else { "?" }, path)?;
        Ok(ShelfFile {
            rest: self.text,
            step: self.step,
            calls: self.calls,
            written: self.written,
        })
    }

    fn open_dir(&self, _path: &str) -> io::Result<ShelfFile<'a>> {
        refused()
    }

    fn metadata(&self, _path: &str) -> io::Result<Metadata> {
        refused()
    }

    fn symlink_metadata(&self, _path: &str) -> io::Result<Metadata> {
        refused()
    }

    fn copy(&self, _from: &str, _to: &str) -> io::Result<u64> {
        refused()
    }

    fn rename(&self, from: &str, to: &str) -> io::Result<()> {
        self.note(" ", from)?;
        self.note(">", to)
    }

    fn remove_file(&self, path: &str) -> io::Result<()> {
        self.note(" -", path)
    }

    fn create_dir(&self, _path: &str) -> io::Result<()> {
        refused()
    }

    fn remove_dir(&self, _path: &str) -> io::Result<()> {
        refused()
    }

    fn remove_dir_all<B: Allocator>(&self, _alloc: B, _path: &str) -> io::Result<()> {
        refused()
    }
}

impl<'a> Read for ShelfFile<'a> {
    fn read(&mut self, buf: &mut [u8]) -> io::Result<usize> {
        let rest = self.rest;
        let count = self.next(rest.len().min(buf.len()))?;
        buf[..count].copy_from_slice(&rest[..count]);
        self.rest = &rest[count..];
        Ok(count)
    }
}

impl<'a> Write for ShelfFile<'a> {
    fn write(&mut self, buf: &[u8]) -> io::Result<usize> {
        let count = self.next(buf.len())?;
        if let Ok(mut written) = self.written.try_borrow_mut() {
            written.extend_from_slice(&buf[..count])?;
        }
        Ok(count)
    }

    fn flush(&mut self) -> io::Result<()> {
        Ok(())
    }
}

impl<'a> Seek for ShelfFile<'a> {
    fn seek(&mut self, _to: SeekFrom) -> io::Result<u64> {
        refused()
    }
}

impl<'a> OpenFile for ShelfFile<'a> {
    fn metadata(&self) -> io::Result<Metadata> {
        Ok(Metadata::of_file(0))
    }

    fn set_len(&self, _size: u64) -> io::Result<()> {
        refused()
    }

    fn sync_all(&self) -> io::Result<()> {
        Ok(())
    }

    fn sync_data(&self) -> io::Result<()> {
        Ok(())
    }
}

// What a read of a text of ten bytes under `a` answers, three a call, where so many calls succeed; and what was opened.
fn read_of_few(alloc: Global, calls: usize) -> (Result<Bytes, StoreFail>, String) {
    let log = RefCell::new(String::new(alloc));
    let written = RefCell::new(Vec::new(alloc));
    let shelf = Shelf {
        alloc,
        text: b"0123456789",
        step: 3,
        calls,
        log: &log,
        written: &written,
    };
    let read = DirStore::make(shelf).read(alloc, "a");
    (read, log.into_inner())
}

#[test]
fn a_read_takes_as_many_calls_as_it_needs(rt: HostRuntime) -> Result<(), Fail> {
    let (read, log) = read_of_few(rt.alloc(), 5);
    assert_eq!(rt; log.as_str(), "?a");
    assert_eq!(rt; read?.as_slice(), b"0123456789".as_slice());
    Ok(())
}

#[test]
fn a_read_that_breaks_off_answers_nothing(rt: HostRuntime) {
    for calls in 0..5 {
        let (read, _) = read_of_few(rt.alloc(), calls);
        assert!(rt; matches!(&read, Err(StoreFail::Failed)));
    }
}

// Whether ten bytes are written under `a`, four a call, where so many calls succeed; then what was opened, renamed and removed, and what was written.
fn write_of_few(alloc: Global, calls: usize) -> Result<(bool, String, Vec<u8>), Fail> {
    let log = RefCell::new(String::new(alloc));
    let written = RefCell::new(Vec::new(alloc));
    let shelf = Shelf {
        alloc,
        text: b"",
        step: 4,
        calls,
        log: &log,
        written: &written,
    };
    let done = DirStore::make(shelf).write("a", b"0123456789").is_ok();
    Ok((done, log.into_inner(), written.into_inner()))
}

#[test]
fn a_write_goes_to_a_new_file_that_gets_the_name(rt: HostRuntime) -> Result<(), Fail> {
    let (done, log, written) = write_of_few(rt.alloc(), 3)?;
    assert!(rt; done);
    assert_eq!(rt; log.as_str(), "+a.part0 a.part0>a");
    assert_eq!(rt; written.as_slice(), b"0123456789".as_slice());
    Ok(())
}

#[test]
fn a_write_that_breaks_off_leaves_nothing(rt: HostRuntime) -> Result<(), Fail> {
    for calls in 0..3 {
        let (done, log, _) = write_of_few(rt.alloc(), calls)?;
        assert!(rt; !done);
        assert_eq!(rt; log.as_str(), "+a.part0 -a.part0");
    }
    Ok(())
}

// Files that earlier tests left behind.
fn clear(rt: &HostRuntime, names: &[&str]) {
    for name in names {
        let _ = fs::remove_file(rt, *name);
    }
}

#[test]
fn a_long_file_is_written_and_read_back(rt: HostRuntime) -> Result<(), Fail> {
    let alloc = rt.alloc();
    let mut long = Vec::new(alloc);
    for i in 0..100_000u32 {
        long.push((i % 251) as u8)?;
    }
    let mut store = DirStore::make(&rt);
    store.write("long", b"old")?;
    store.write("long", &long)?;
    let bytes = store.read(alloc, "long")?;
    assert_eq!(rt; bytes.as_slice(), long.as_slice());
    assert!(rt; fs::metadata(&rt, "long.part0").is_err());
    clear(&rt, &["long"]);
    Ok(())
}

#[test]
fn a_folder_that_is_missing_takes_no_file(rt: HostRuntime) -> Result<(), Fail> {
    let mut store = DirStore::make(&rt);
    assert_eq!(rt;
        store.write("no_folder/file", b"some bytes"),
        Err(StoreFail::Failed)
    );
    assert_eq!(rt; store.write(".", b"some bytes"), Err(StoreFail::Failed));
    Ok(())
}

#[test]
fn what_was_read_is_not_written_under_another_name(rt: HostRuntime) -> Result<(), Fail> {
    let alloc = rt.alloc();
    clear(&rt, &["read", "link", "twin"]);
    let mut store = DirStore::make(&rt);
    store.write("read", b"old")?;
    symlink(&rt, "read", "link")?;
    fs::hard_link(&rt, "read", "twin")?;
    store.write("link", b"new")?;
    let bytes = store.read(alloc, "read")?;
    assert_eq!(rt; bytes.as_slice(), b"new".as_slice());
    for name in ["read", "./read", "link", "twin"] {
        assert_eq!(rt; store.write(name, b"lost"), Err(StoreFail::Failed));
    }
    let again = store.read(alloc, "twin")?;
    assert_eq!(rt; again.as_slice(), b"new".as_slice());
    clear(&rt, &["read", "link", "twin"]);
    Ok(())
}

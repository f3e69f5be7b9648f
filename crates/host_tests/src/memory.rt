// Each call with ample memory, and what no clause says of files and of standard output.
use host_io::*;
use std::alloc::Global;
use std::test::Fail;

#[test]
fn bytes_are_a_list(rt: HostRuntime) -> Result<(), Fail> {
    let mut bytes = Bytes::of(rt.alloc(), b"ab")?;
    bytes.push(b'c')?;
    bytes.append(b"de")?;
    let copy = bytes.copy()?;
    assert_eq!(rt; copy.as_slice(), b"abcde".as_slice());
    assert_eq!(rt; (copy.len(), *copy.at(4)), (5, b'e'));
    assert!(rt; Bytes::make(rt.alloc()).is_empty());
    Ok(())
}

#[test]
fn a_store_in_memory_fails_where_it_was_told_to(rt: HostRuntime) -> Result<(), Fail> {
    let alloc = rt.alloc();
    let mut store = MemStore::make(alloc);
    store.hold("q", b"old")?;
    store.fail_at(1, 9)?;
    store.fail_at(1, 2)?;
    store.fail_at(3, 0)?;
    assert_eq!(rt; store.write("r", b"new"), Ok(()));
    assert_eq!(rt; store.write("q", b"new"), Err(StoreFail::Failed));
    assert_eq!(rt; read(&mut store, alloc, "s"), Err(StoreFail::NotHeld));
    assert_eq!(rt; read(&mut store, alloc, "r"), Err(StoreFail::Failed));
    assert_eq!(rt; read(&mut store, alloc, "r"), Ok(3));
    assert_eq!(rt; store.look("q"), Some(b"ne".as_slice()));
    assert_eq!(rt; store.look("s"), None);
    Ok(())
}

// How many bytes a read answers.
fn read<S: Store>(store: &mut S, alloc: Global, name: &str) -> Result<usize, StoreFail> {
    Ok(store.read(alloc, name)?.len())
}

#[test]
fn a_sink_in_memory_takes_what_there_is_room_for(rt: HostRuntime) -> Result<(), Fail> {
    let mut out = MemSink::make(rt.alloc());
    out.reserve(5)?;
    out.fail_at(1)?;
    out.stall_at(2)?;
    assert_eq!(rt; put_all(&mut out, b"ab"), Ok(()));
    assert_eq!(rt; out.put(b"c"), Err(SinkFail::Failed));
    assert_eq!(rt; out.put(b"c"), Err(SinkFail::Failed));
    assert_eq!(rt; out.put(b"cdef"), Err(SinkFail::Failed));
    assert_eq!(rt; out.put(b"cde"), Ok(3));
    assert_eq!(rt; out.put(b""), Ok(0));
    assert_eq!(rt; out.bytes(), b"abcde".as_slice());
    Ok(())
}

#[test]
fn a_file_is_written_and_read_back(rt: HostRuntime) -> Result<(), Fail> {
    let alloc = rt.alloc();
    let mut store = DirStore::make(&rt);
    assert_eq!(rt; store.write("written", b"some bytes"), Ok(()));
    let bytes = store.read(alloc, "written")?;
    assert_eq!(rt; bytes.as_slice(), b"some bytes".as_slice());
    assert_eq!(rt; read(&mut store, alloc, "missing"), Err(StoreFail::Failed));
    std::fs::remove_file(&rt, "written")?;
    Ok(())
}

#[test]
fn standard_output_takes_a_short_piece(rt: HostRuntime) -> Result<(), Fail> {
    let mut out = StdSink::make(&rt);
    assert_eq!(rt; out.put(b"a line\n"), Ok(7));
    assert_eq!(rt; out.put(b""), Ok(0));
    Ok(())
}

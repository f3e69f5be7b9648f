// What may cross threads. Each function here is proved where the types named in its calls do.
use crate::{Bytes, CertKind, DirStore, MemSink, MemStore, SinkFail, StdSink, StoreFail};
use std::rt::Files;

fn crosses<T: Send + Sync>(_it: &T) {}

// Stores and sinks in memory, bytes, causes and kinds of faults may be moved and shared.
fn _memory_crosses_threads(
    store: &MemStore,
    sink: &MemSink,
    bytes: &Bytes,
    read: &StoreFail,
    put: &SinkFail,
    kind: &CertKind,
) {
    crosses(store);
    crosses(sink);
    crosses(bytes);
    crosses(read);
    crosses(put);
    crosses(kind);
}

// A store of files and a sink for standard output may be moved and shared where the handle may.
fn _handles_cross_threads<R: Files + Print + AllocGlobal + Drop + Send + Sync>(
    store: &DirStore<R>,
    sink: &StdSink<R>,
) {
    crosses(store);
    crosses(sink);
}

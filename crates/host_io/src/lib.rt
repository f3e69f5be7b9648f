//! What a program reads and writes: a store of named files, and a sink of bytes.
#![tactic(auto)]

mod bytes;
mod cert_kind;
mod dir_store;
mod fail;
mod mem_sink;
mod mem_store;
mod sink;
mod std_sink;
mod store;
mod threads;
mod whole_file;

pub use bytes::Bytes;
pub use cert_kind::CertKind;
pub use dir_store::DirStore;
pub use fail::{SinkFail, StoreFail};
pub use mem_sink::MemSink;
pub use mem_store::MemStore;
pub use sink::{Sink, put_all};
pub use std_sink::StdSink;
pub use store::Store;

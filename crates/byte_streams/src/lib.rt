//! Where bytes come from and where text goes: a source that is read, a sink that is written to, each
//! with its count of failures.
//!
//! `FromRead` and `ToWrite` are readers and writers of std, `FromMemory` and `ToMemory` bytes in
//! memory. `write_all` writes a whole text, however few bytes each write takes.
//!
//! Where standard input, output or error is in a mode in which nothing waits, as a shell or a parent process may leave
//! it, a read or a write that would have to wait fails with `WouldBlock`. A `Patient` pauses then, and tries again.
#![tactic(auto)]

mod ends;
mod failures;
mod memory;
mod patient;
mod reader;
mod sink;
mod source;
mod streams;
mod writer;
mod writing;

pub use ends::{FromRead, ToWrite};
pub use failures::Failures;
pub use memory::{FromMemory, ToMemory};
pub use patient::Patient;
pub use reader::Reader;
pub use sink::{Sink, SinkFailed};
pub use source::{Source, SourceFailed};
pub use writer::Writer;
pub use writing::{WriteFailed, write_all};

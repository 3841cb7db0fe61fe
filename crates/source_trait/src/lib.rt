//! What a run meets outside: files, sources and sinks, by what they hold and how often they failed.
//!
//! Crates above read files, attach relations, ask requests and write bytes through the three traits alone, so what
//! they promise holds for every source. The forms in memory tell everything that they hold, and serve their tests.
//! Begin at `specs/Asking.antt`.
#![tactic(auto)]

mod crowded;
mod failing;
mod files;
mod holding;
mod index;
mod lanes;
mod matching;
mod memory_files;
mod memory_sink;
mod memory_source;
mod packed_texts;
mod request_log;
mod sink;
mod source;
mod table;
mod untold;
mod work;

pub use failing::FailingCalls;
pub use files::{FileFault, Files};
pub use holding::{Attachment, Holding};
pub use lanes::{Boxed, Kind, Kinds, Lane, attach_on, call_on};
pub use meaning::types::{Request, Requests};
pub use memory_files::{MemoryFiles, NamedBytes, NamedFile, names_differ};
pub use memory_sink::MemorySink;
pub use memory_source::{MemorySource, locators_differ};
pub use request_log::RequestLog;
pub use sink::{Sink, SinkFault};
pub use source::{AttachFault, CallFault, Source};
pub use table::{Table, Tables};
pub use untold::Untold;
pub use work::{Ask, Asked};

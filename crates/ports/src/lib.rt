//! Where bytes come from and go to, and what every layer answers when a call can't be carried out.
#![tactic(auto)]

mod copies;
mod faults;
mod mem_sink;
mod mem_source;
mod sink;
mod source;
mod standard;
mod sure;
mod transfer;

pub use faults::{LlError, LlFault, OutOfMemory, SpvError, SpvFault};
pub use mem_sink::MemSink;
pub use mem_source::MemSource;
pub use sink::Sink;
pub use source::{Failed, Source};
pub use standard::{StdSink, StdSource};
pub use sure::{SureSink, SureSource};
pub use transfer::{ReadAllError, WriteFault, read_all, write_all};

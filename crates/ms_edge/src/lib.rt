//! The outside world as the rest of monastr sees it: files, the sink of the report, the words of the command line, and refusals.
#![tactic(auto)]

mod command_line;
mod disk;
mod files;
mod log;
mod mem_files;
mod mem_sink;
mod refusal;
mod sink;
mod stdout;

pub use command_line::CommandLine;
pub use disk::DiskFiles;
pub use files::{Files, ReadAnswer, WriteFailed};
pub use mem_files::MemFiles;
pub use mem_sink::MemSink;
pub use refusal::{Refusal, Status};
pub use sink::{Sink, SinkFailed, SinkStop, write_all};
pub use stdout::StdSink;

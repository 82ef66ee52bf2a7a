ghost use Rattle.std.specs.Prelude.{◌≡◌, ◌⊎◌, []};
ghost use Rattle.ms_edge.specs.Counts.{Rose};
ghost use Rattle.ms_edge.specs.Refusal.{IsPlaced, place_of};
ghost use Rattle.ms_report.specs.Line.{HasLine};
ghost use Rattle.ms_app.specs.Answer.{Prints, status_of, answer_of};

use ms_edge::{Refusal, Sink, Status, write_all};
use ms_list::{List, Text};
use ms_report::refusal_line;
use std::alloc::Global;

/// The line of the refusal for want of memory, which takes none.
const OUT_OF_MEMORY: &[u8] = b"70 out of memory\n";

/// The beginning of the line of a file that was not written.
const UNWRITTEN: &[u8] = b"61 write fault: ";

/// Prints the text, and ends with the status that goes with it.
pub fn print<S: Sink>(out: &mut S, status: Status, text: &[u8]) -> Status
    ensures { Prints (S.told out.old) (S.told out.new) (record { status = status; text = text.now }) result }
{
    match write_all(out, text) {
        Ok(()) => status,
        Err(_) => Status::SinkFault,
    }
}

/// The status that goes with a refusal.
fn status(refusal: &Refusal) -> Status
    ensures { result ≡ status_of refusal.now }
{
    match refusal {
        Refusal::FileSize { .. }
        | Refusal::Includes { .. }
        | Refusal::Depth { .. }
        | Refusal::CoreSize
        | Refusal::Nodes { .. } => Status::Limit,
        Refusal::ReadFault { .. } | Refusal::WriteFault { .. } => Status::FileFault,
        Refusal::SinkFault { .. } => Status::SinkFault,
        Refusal::Memory => Status::NoMemory,
        Refusal::Word { .. }
        | Refusal::NumberTooLarge { .. }
        | Refusal::Grammar { .. }
        | Refusal::Unclosed { .. }
        | Refusal::UnknownName { .. }
        | Refusal::Twice { .. }
        | Refusal::WrongOrder { .. }
        | Refusal::Arity { .. }
        | Refusal::ConstRange { .. }
        | Refusal::NotHere { .. }
        | Refusal::LeftOut { .. }
        | Refusal::VarsDiffer
        | Refusal::FileMissing { .. }
        | Refusal::IncludeCycle { .. }
        | Refusal::ImportMissing { .. }
        | Refusal::ImportText { .. }
        | Refusal::ImportMode { .. }
        | Refusal::ImportVars { .. }
        | Refusal::ImportOpen { .. }
        | Refusal::AutomatonText { .. }
        | Refusal::CertText { .. } => Status::Refused,
    }
}

/// Prints that there is no memory, which takes none.
pub fn out_of_memory<S: Sink>(out: &mut S) -> Status
    ensures { Prints (S.told out.old) (S.told out.new) (answer_of Refusal.Memory []) result }
{
    print(out, Status::NoMemory, OUT_OF_MEMORY)
}

/// Prints the line of a refusal, or that there is no memory for it.
pub fn refuse<S: Sink>(alloc: Global, refusal: &Refusal, files: &List<Text>, out: &mut S) -> Status
    requires has_line { HasLine refusal.now }
    requires is_placed { IsPlaced (place_of refusal.now) files.now }
    ensures printed { Prints (S.told out.old) (S.told out.new) (answer_of refusal.now files.now) result
        ⊎ Prints (S.told out.old) (S.told out.new) (answer_of Refusal.Memory []) result }
    ensures sink_only { result ≡ Status.SinkFault → Rose (S.told out.old).faults (S.told out.new).faults }
{
    match refusal_line(alloc, refusal, files) {
        Ok(line) => print(out, status(refusal), line.slice()),
        Err(_) => out_of_memory(out),
    }
}

/// Prints the line of a file that was not written. It takes no memory.
pub fn print_unwritten<S: Sink>(name: &Text, out: &mut S) -> Status
    ensures printed { Prints (S.told out.old) (S.told out.new) (answer_of (Refusal.WriteFault name.now) []) result }
    ensures sink_only { result ≡ Status.SinkFault → Rose (S.told out.old).faults (S.told out.new).faults }
{
    match write_all(out, UNWRITTEN) {
        Ok(()) => {}
        Err(_) => return Status::SinkFault,
    }
    match write_all(out, name.bytes()) {
        Ok(()) => {}
        Err(_) => return Status::SinkFault,
    }
    match write_all(out, b"\n") {
        Ok(()) => Status::FileFault,
        Err(_) => Status::SinkFault,
    }
}

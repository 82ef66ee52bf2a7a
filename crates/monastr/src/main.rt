//! The program: `monastr decide FILE`.
#![tactic(auto)]

ghost use Rattle.ms_edge.specs.declared.refusal.Status.TheVariants as statuses;
ghost use Rattle.monastr.specs.Exit.{exit_of, exit_without_words};
ghost use Rattle.std.specs.Prelude.{◌≡◌, ◌⊎◌, IfErr};

use ms_app::run;
use ms_edge::{CommandLine, DiskFiles, Status, StdSink};
use std::env::{self, Env};
use std::io::ErrorKind;
use std::process::ExitCode;

/// The exit status where no memory is found for the words, as for a run that finds none.
const NO_MEMORY: u8 = 6;

/// The exit status where the words cannot be read for another cause.
const NO_WORDS: u8 = 7;

fn main(rt: HostRuntime) -> ExitCode {
    match words(&rt) {
        Ok(words) => {
            let mut files = DiskFiles::new(rt);
            let mut out = StdSink::new(rt);
            ExitCode::from(code(run(rt.alloc(), &words, &mut files, &mut out)))
        }
        Err(status) => ExitCode::from(status),
    }
}

/// The words after the program's name, or the exit status where there are none to be had.
fn words(rt: &(impl Env + AllocGlobal)) -> Result<CommandLine, u8>
    ensures { IfErr result (λ status. (status ≡ exit_of statuses.NoMemory) ⊎ (status ≡ exit_without_words)) }
{
    let arguments = match env::args(rt) {
        Ok(arguments) => arguments,
        Err(error) if error.kind() == ErrorKind::OutOfMemory => return Err(NO_MEMORY),
        Err(_) => return Err(NO_WORDS),
    };
    let mut words = CommandLine::new(rt.alloc());
    for word in arguments.skip(1) {
        if words.push(word.as_str()).is_err() {
            return Err(NO_MEMORY);
        }
    }
    Ok(words)
}

/// The exit status of a status.
fn code(status: Status) -> u8
    ensures { result ≡ exit_of status }
{
    match status {
        Status::Done => 0,
        Status::Usage => 1,
        Status::Refused => 2,
        Status::Limit => 3,
        Status::FileFault => 4,
        Status::SinkFault => 5,
        Status::NoMemory => NO_MEMORY,
    }
}

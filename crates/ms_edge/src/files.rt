ghost use Rattle.std.specs.Prelude.{◌≡◌, ◌≤◌, length, IfOk, IfErr, OnOk, OnErr};
ghost use Rattle.ms_edge.specs.Counts.{Rose};
ghost use Rattle.ms_edge.specs.Files.{FilesTold, Holds, IsCauseOfRead, KeepsOthers, NoCountFell, OnlyRead};

use ms_list::Bytes;
use std::alloc::Global;
use thiserror::Error;

/// Why a file was not read.
#[derive(Clone, Copy, Debug, PartialEq, Eq, Error)]
pub enum ReadAnswer {
    #[error("no such file")]
    Missing,
    #[error("the read failed")]
    Failed,
    #[error("the file is longer than its limit")]
    TooLong,
    #[error("out of memory")]
    NoMemory,
}

/// A file was not written.
#[derive(Clone, Copy, Debug, Error)]
#[error("the write failed")]
pub struct WriteFailed;

/// Files by name.
pub trait Files {
    // What is held under each name, where that is told, and how often a read or a write has failed, a file was not there,
    // a file was too long.
    ghost told: { Self → FilesTold };

    /// The bytes of a file, of which there are at most so many.
    fn read(&mut self, alloc: Global, name: &str, limit: u64) -> Result<Bytes, ReadAnswer>
        ensures bytes { IfOk result (λ bytes. Holds (told self.old).held name.now bytes) }
        ensures within { IfOk result (λ bytes. length bytes ≤ limit) }
        ensures cause { IfErr result (IsCauseOfRead (told self.old) (told self.new) name.now limit) }
        ensures only_read { OnlyRead (told self.old) (told self.new) };

    /// Makes the name hold the bytes. After a failure the named file may hold anything.
    fn write(&mut self, name: &str, bytes: &[u8]) -> Result<(), WriteFailed>
        ensures written { OnOk result (Holds (told self.new).held name.now bytes.now) }
        ensures cause { OnErr result (Rose (told self.old).faults (told self.new).faults) }
        ensures others { KeepsOthers (told self.old).held (told self.new).held name.now }
        ensures counts { NoCountFell (told self.old) (told self.new) };
}

ghost use Rattle.std.specs.Prelude.{◌≡◌, ◌+◌, ◌≤◌, ◌<◌, ℕ, length, vec_len, Option, None, IfErr, IfOk, IfSome, OnErr, OnOk};
ghost use Rattle.std.specs.Io.KnownBytes.{Appends};
ghost use Rattle.ms_edge.specs.Counts.{Rose};
ghost use Rattle.ms_edge.specs.declared.files.ReadAnswer.TheVariants as answers;
ghost use Rattle.ms_edge.specs.Files.{Holding, IsCauseOfRead, NoCountFell, OnlyRead, untold};

use crate::files::{Files, ReadAnswer, WriteFailed};
use ms_list::{Bytes, List};
use std::alloc::Global;
use std::fs::File;
use std::io::{ErrorKind, Read, Write};
use std::rt::Runtime;

/// The files of the machine. Nothing is known of what they hold; each failure, absence and overlong
/// file is counted.
#[derive(Drop)]
pub struct DiskFiles<R: Runtime> {
    rt: R,
    faults: u64,
    absences: u64,
    overlongs: u64,
}

impl<R: Runtime> DiskFiles<R> {
    pub fn new(rt: R) -> DiskFiles<R>
        ensures faults { result.faults ≡ 0 }
        ensures absences { result.absences ≡ 0 }
        ensures overlongs { result.overlongs ≡ 0 }
    {
        DiskFiles {
            rt,
            faults: 0,
            absences: 0,
            overlongs: 0,
        }
    }

    /// The bytes of a file, read from the device.
    fn load(&self, alloc: Global, name: &str, limit: u64) -> Result<Bytes, ReadAnswer>
        ensures { IfOk result (λ bytes. length bytes ≤ limit) }
    {
        match File::open(&self.rt, name) {
            Ok(file) => read_up_to(alloc, file, limit),
            Err(error) if error.kind() == ErrorKind::NotFound => Err(ReadAnswer::Missing),
            Err(_) => Err(ReadAnswer::Failed),
        }
    }

    /// Makes the file on the device hold the bytes.
    fn store(&self, name: &str, bytes: &[u8]) -> Result<(), WriteFailed> {
        let mut file = File::create(&self.rt, name).map_err(|_| WriteFailed)?;
        put(&mut file, bytes)
    }
}

/// The bytes up to the end of the file, of which there may be at most so many: of a longer file one
/// byte more is read.
fn read_up_to<F: Read + Drop>(alloc: Global, file: F, limit: u64) -> Result<Bytes, ReadAnswer>
    ensures within { IfOk result (λ bytes. length bytes ≤ limit) }
    ensures whole { IfOk result (λ bytes. IfSome (F.remaining file) (λ left. bytes ≡ left)) }
    ensures longer { IfErr result (λ answer. answer ≡ answers.TooLong → IfSome (F.remaining file) (λ left. limit < length left)) }
{
    let mut bytes = Vec::new(alloc);
    match file.take(limit.saturating_add(1)).read_to_end(&mut bytes) {
        Ok(_) if bytes.len() as u64 <= limit => Ok(List::from(bytes)),
        Ok(_) => Err(ReadAnswer::TooLong),
        Err(error) if error.kind() == ErrorKind::OutOfMemory => Err(ReadAnswer::NoMemory),
        Err(_) => Err(ReadAnswer::Failed),
    }
}

/// Writes all the bytes behind what is in the file.
fn put<F: Write>(file: &mut F, bytes: &[u8]) -> Result<(), WriteFailed>
    ensures { OnOk result (Appends (F.contents file.old) (F.contents file.new) bytes.now) }
{
    file.write_all(bytes).map_err(|_| WriteFailed)
}

impl<R: Runtime> Files for DiskFiles<R> {
    ghost told = { λ files. untold files.faults files.absences files.overlongs };

    fn read(&mut self, alloc: Global, name: &str, limit: u64) -> Result<Bytes, ReadAnswer>
        ensures within { IfOk result (λ bytes. length bytes ≤ limit) }
        ensures cause { IfErr result (IsCauseOfRead
            (untold self.old.faults self.old.absences self.old.overlongs) (untold self.new.faults self.new.absences self.new.overlongs)
            name.now limit) }
        ensures only_read { OnlyRead
            (untold self.old.faults self.old.absences self.old.overlongs) (untold self.new.faults self.new.absences self.new.overlongs) }

        // Where the bytes were read, no count rose.
        ensures same { OnOk result (self.new ≡ self.old) }
    {
        let answer = self.load(alloc, name, limit);
        match &answer {
            Err(ReadAnswer::Missing) => self.absences = self.absences.saturating_add(1),
            Err(ReadAnswer::Failed) => self.faults = self.faults.saturating_add(1),
            Err(ReadAnswer::TooLong) => self.overlongs = self.overlongs.saturating_add(1),
            Err(ReadAnswer::NoMemory) | Ok(_) => {}
        }
        answer
    }

    fn write(&mut self, name: &str, bytes: &[u8]) -> Result<(), WriteFailed>
        ensures cause { OnErr result (Rose self.old.faults self.new.faults) }
        ensures counts { NoCountFell
            (untold self.old.faults self.old.absences self.old.overlongs) (untold self.new.faults self.new.absences self.new.overlongs) }

        // Where the bytes were written, no count rose.
        ensures same { OnOk result (self.new ≡ self.old) }
    {
        let answer = self.store(name, bytes);
        if answer.is_err() {
            self.faults = self.faults.saturating_add(1);
        }
        answer
    }
}

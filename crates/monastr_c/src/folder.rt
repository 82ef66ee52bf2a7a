ghost use Rattle.std.specs.Prelude.{◌≡◌, ◌≤◌, ◌↔◌, ◌++◌, [], IfOk, IsTrue, IsErrOf, None, Some, length};
ghost use Rattle.std.specs.Option.{option_copied};
ghost use Rattle.ms_edge.specs.Files.{HoldsMoreThan};
ghost use Rattle.ms_edge.specs.FilesInMemory.{held_under};
ghost use Rattle.monastr_c.specs.Buffers.{FilesAddUp, files_in};
ghost use Rattle.monastr_c.specs.Told.{files_told};

use crate::buffers::{append, last_of};
use crate::request::{FileLengths, Request};
use ms_edge::{Files, ReadAnswer, WriteFailed};
use ms_list::{Bytes, List};
use std::alloc::Global;

/// The files that a request hands over, and behind them those that were written. A write fails only where there is no memory for it.
#[derive(Drop)]
pub struct Folder<'a> {
    pub given: &'a [u8],
    pub given_lengths: &'a [FileLengths],
    pub written: Vec<u8>,
    pub written_lengths: Vec<FileLengths>,
    pub faults: u64,
    pub absences: u64,
    pub overlongs: u64,
    ghost adds_up: { FilesAddUp written.items written_lengths.items },
}

impl<'a> Folder<'a> {
    /// The files that were handed over. It takes no memory.
    pub fn new(alloc: Global, given: &'a [u8], given_lengths: &'a [FileLengths]) -> Folder<'a>
        ensures given { result.given.now ≡ given.now }
        ensures given_lengths { result.given_lengths.now ≡ given_lengths.now }
        ensures written { result.written.items ≡ [] }
        ensures written_lengths { result.written_lengths.items ≡ [] }
        ensures faults { result.faults ≡ 0 }
        ensures absences { result.absences ≡ 0 }
        ensures overlongs { result.overlongs ≡ 0 }
    {
        Folder {
            given,
            given_lengths,
            written: Vec::new(alloc),
            written_lengths: Vec::new(alloc),
            faults: 0,
            absences: 0,
            overlongs: 0,
        }
    }

    /// Whether the files that were handed over are still those of the request.
    pub fn is_over(&self, request: &Request<'_>) -> bool
        ensures { IsTrue result ↔ (self.now.given.now ≡ request.now.files.now) × (self.now.given_lengths.now ≡ request.now.file_lengths.now) }
    {
        self.given == request.files && self.given_lengths == request.file_lengths
    }

    /// The bytes that are held under the name.
    fn get(&self, name: &[u8]) -> Option<&[u8]>
        ensures { option_copied result ≡ held_under (files_in self.now.given.now self.now.given_lengths.now
            ++ files_in self.now.written.items self.now.written_lengths.items) name.now }
    {
        let held = last_of(None, self.given, self.given_lengths, name);
        last_of(held, &self.written, &self.written_lengths, name)
    }

    /// What a read finds.
    fn found(&self, alloc: Global, name: &str, limit: u64) -> Result<Bytes, ReadAnswer>
        ensures bytes { IfOk result (λ bytes. held_under (files_in self.now.given.now self.now.given_lengths.now
            ++ files_in self.now.written.items self.now.written_lengths.items) name.now ≡ Some bytes) }
        ensures within { IfOk result (λ bytes. length bytes ≤ limit) }
        ensures missing { IsErrOf result ReadAnswer.Missing → held_under (files_in self.now.given.now self.now.given_lengths.now
            ++ files_in self.now.written.items self.now.written_lengths.items) name.now ≡ None }
        ensures too_long { IsErrOf result ReadAnswer.TooLong → HoldsMoreThan (Some (held_under (files_in self.now.given.now self.now.given_lengths.now
            ++ files_in self.now.written.items self.now.written_lengths.items))) name.now limit }
        ensures no_fault { IsErrOf result ReadAnswer.Failed → ⊥ }
    {
        let Some(bytes) = self.get(name.as_bytes()) else {
            return Err(ReadAnswer::Missing);
        };
        if bytes.len() as u64 > limit {
            return Err(ReadAnswer::TooLong);
        }
        match Vec::from_slice(alloc, bytes) {
            Ok(copy) => Ok(List::from(copy)),
            Err(_) => Err(ReadAnswer::NoMemory),
        }
    }
}

impl Files for Folder<'_> {
    ghost told = { λ folder. files_told (files_in folder.given.now folder.given_lengths.now ++ files_in folder.written.items folder.written_lengths.items)
        folder.faults folder.absences folder.overlongs };

    fn read(&mut self, alloc: Global, name: &str, limit: u64) -> Result<Bytes, ReadAnswer> {
        let answer = self.found(alloc, name, limit);
        match &answer {
            Err(ReadAnswer::Missing) => self.absences = self.absences.saturating_add(1),
            Err(ReadAnswer::TooLong) => self.overlongs = self.overlongs.saturating_add(1),
            Err(ReadAnswer::Failed | ReadAnswer::NoMemory) | Ok(_) => {}
        }
        answer
    }

    fn write(&mut self, name: &str, bytes: &[u8]) -> Result<(), WriteFailed> {
        match append(
            &mut self.written,
            &mut self.written_lengths,
            name.as_bytes(),
            bytes,
        ) {
            Ok(()) => Ok(()),
            Err(_) => {
                self.faults = self.faults.saturating_add(1);
                Err(WriteFailed)
            }
        }
    }
}

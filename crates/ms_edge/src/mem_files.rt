ghost use Rattle.std.specs.Prelude.{◌≡◌, ◌+◌, ◌-◌, ◌<◌, ◌≤◌, ◌↔◌, [], ◌∷◌, ◌++◌, ℕ, length, Contains, Option, Some, None, IfErr, IfOk, OnOk, OnErr, IsErr, IsErrOf};
ghost use Rattle.std.specs.Option.{option_copied};
ghost use Rattle.ms_edge.specs.Counts.{Rose, counted};
ghost use Rattle.ms_edge.specs.Files.{HoldsMoreThan, IsCauseOfRead, KeepsOthers, NoCountFell, OnlyRead};
ghost use Rattle.ms_edge.specs.FilesInMemory.{held_under, told_of, WriteFails, with_entry, after_writing, after_failing, noted, after_reading};

use crate::files::{Files, ReadAnswer, WriteFailed};
use crate::log::{Span, append, last_of};
use ms_list::{Bytes, List, NoMemory};
use std::alloc::Global;
use std::marker::Model;

/// Files in memory that fail at the listed calls. Reads and writes are counted apart, from 0.
#[derive(Drop)]
pub struct MemFiles {
    buffer: Vec<u8>,
    spans: Vec<Span>,
    failing_reads: List<u64>,
    failing_writes: List<u64>,
    reads: u64,
    writes: u64,
    last_write: u64,
    room: u64,
    faults: u64,
    absences: u64,
    overlongs: u64,
}

impl Model for MemFiles {
    ghost use Rattle.std.specs.Prelude.{◌+◌, ◌-◌, ◌≤◌, All, length, vec_len, vec_capacity};
    ghost use Rattle.ms_edge.specs.FilesInMemory.{FilesInMemory};

    ghost Value = { FilesInMemory };

    ghost use Rattle.ms_edge.specs.Span.{IsWithin, entries_in};

    ghost view = { λ f. record {
      entries = entries_in f.buffer.items f.spans.items;
      failing_reads = f.failing_reads;
      failing_writes = f.failing_writes;
      reads = f.reads;
      writes = f.writes;
      last_write = f.last_write;
      room = f.room;
      faults = f.faults;
      absences = f.absences;
      overlongs = f.overlongs;
    } };

    // Every span lies in the buffer, and there is room for the writes that are still to succeed.
    ghost invariant = { λ f. All (IsWithin (length f.buffer.items)) f.spans.items
        × (vec_len f.buffer + f.room ≤ vec_capacity f.buffer)
        × (vec_len f.spans + (f.last_write - f.writes) ≤ vec_capacity f.spans) };
}

impl MemFiles {
    /// No files, with the memory for so many writes of so many bytes of names and contents together.
    pub fn new(
        alloc: Global,
        writes: u32,
        room: u64,
        failing_reads: List<u64>,
        failing_writes: List<u64>,
    ) -> Result<MemFiles, NoMemory>
        ensures { IfOk result (λ files. files ≡ record {
          entries = [];
          failing_reads = failing_reads;
          failing_writes = failing_writes;
          reads = 0;
          writes = 0;
          last_write = writes;
          room = room;
          faults = 0;
          absences = 0;
          overlongs = 0;
        }) }
    {
        let Ok(buffer) = Vec::with_capacity(alloc, room as usize) else {
            return Err(NoMemory);
        };
        let Ok(spans) = Vec::with_capacity(alloc, writes as usize) else {
            return Err(NoMemory);
        };
        Ok(MemFiles {
            buffer,
            spans,
            failing_reads,
            failing_writes,
            reads: 0,
            writes: 0,
            last_write: writes as u64,
            room,
            faults: 0,
            absences: 0,
            overlongs: 0,
        })
    }

    /// The bytes that are held under the name.
    pub fn get(&self, name: &str) -> Option<&[u8]>
        ensures { option_copied result ≡ held_under self.now.entries name.now }
    {
        last_of(&self.spans, &self.buffer, name.as_bytes())
    }

    /// Makes the name hold the bytes, beside the memory for the writes. A refusal changes nothing.
    pub fn put(&mut self, name: &str, bytes: &[u8]) -> Result<(), NoMemory>
        ensures ok { OnOk result (self.new ≡ with_entry self.old name.now bytes.now) }
        ensures err { OnErr result (self.new ≡ self.old) }
    {
        let Some(room) = (self.room as usize).checked_add(name.len() + bytes.len()) else {
            return Err(NoMemory);
        };
        if self.buffer.reserve(room).is_err() {
            return Err(NoMemory);
        }
        let writes = self.last_write.saturating_sub(self.writes) as usize;
        let Some(entries) = writes.checked_add(1) else {
            return Err(NoMemory);
        };
        if self.spans.reserve(entries).is_err() {
            return Err(NoMemory);
        }
        append(&mut self.spans, &mut self.buffer, name.as_bytes(), bytes);
        Ok(())
    }

    /// Notes that a read ends with this answer.
    fn note(&mut self, answer: ReadAnswer)
        ensures { self.new ≡ noted answer self.old }
    {
        match answer {
            ReadAnswer::Missing => self.absences = self.absences.saturating_add(1),
            ReadAnswer::Failed => self.faults = self.faults.saturating_add(1),
            ReadAnswer::TooLong => self.overlongs = self.overlongs.saturating_add(1),
            ReadAnswer::NoMemory => {}
        }
    }

    /// What a read that does not fail finds.
    fn found(&self, alloc: Global, name: &str, limit: u64) -> Result<Bytes, ReadAnswer>
        ensures bytes { IfOk result (λ bytes. held_under self.now.entries name.now ≡ Some bytes) }
        ensures within { IfOk result (λ bytes. length bytes ≤ limit) }
        ensures missing { IsErrOf result ReadAnswer.Missing → held_under self.now.entries name.now ≡ None }
        ensures too_long { IsErrOf result ReadAnswer.TooLong → HoldsMoreThan (Some (held_under self.now.entries)) name.now limit }
        ensures no_fault { IsErrOf result ReadAnswer.Failed → ⊥ }
    {
        let Some(bytes) = self.get(name) else {
            return Err(ReadAnswer::Missing);
        };
        if bytes.len() as u64 > limit {
            return Err(ReadAnswer::TooLong);
        }
        match Vec::from_slice(alloc, bytes) {
            Ok(copy) => Ok(List::from(copy)),
            Err(_) => Err(ReadAnswer::NoMemory),
        }
    }
}

impl Files for MemFiles {
    ghost told = { told_of };

    fn read(&mut self, alloc: Global, name: &str, limit: u64) -> Result<Bytes, ReadAnswer>
        ensures bytes { IfOk result (λ bytes. held_under self.old.entries name.now ≡ Some bytes) }
        ensures within { IfOk result (λ bytes. length bytes ≤ limit) }
        ensures cause { IfErr result (IsCauseOfRead (told_of self.old) (told_of self.new) name.now limit) }
        ensures only_read { OnlyRead (told_of self.old) (told_of self.new) }

        ensures failed { IsErrOf result ReadAnswer.Failed ↔ Contains self.old.failing_reads self.old.reads }
        ensures after { self.new ≡ after_reading result self.old }
    {
        let fails = self.failing_reads.slice().contains(&self.reads);
        self.reads = self.reads.saturating_add(1);
        let answer = if fails {
            Err(ReadAnswer::Failed)
        } else {
            self.found(alloc, name, limit)
        };
        if let Err(cause) = &answer {
            self.note(*cause);
        }
        answer
    }

    fn write(&mut self, name: &str, bytes: &[u8]) -> Result<(), WriteFailed>
        ensures written { OnOk result (held_under self.new.entries name.now ≡ Some bytes.now) }
        ensures cause { OnErr result (Rose self.old.faults self.new.faults) }
        ensures others { KeepsOthers (Some (held_under self.old.entries)) (Some (held_under self.new.entries)) name.now }
        ensures counts { NoCountFell (told_of self.old) (told_of self.new) }

        ensures fails { IsErr result ↔ WriteFails self.old name.now bytes.now }
        ensures after { OnOk result (self.new ≡ after_writing self.old name.now bytes.now) }
        ensures after_fault { OnErr result (self.new ≡ after_failing self.old) }
    {
        let size = (name.len() + bytes.len()) as u64;
        let fails = self.failing_writes.slice().contains(&self.writes)
            || self.last_write <= self.writes
            || self.room < size;
        if fails {
            self.writes = self.writes.saturating_add(1);
            self.faults = self.faults.saturating_add(1);
            return Err(WriteFailed);
        }
        append(&mut self.spans, &mut self.buffer, name.as_bytes(), bytes);
        self.writes = self.writes.saturating_add(1);
        self.room -= size;
        Ok(())
    }
}

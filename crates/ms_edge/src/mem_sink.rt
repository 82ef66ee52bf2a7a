ghost use Rattle.std.specs.Prelude.{◌≡◌, [], ◌<◌, ◌≤◌, ◌↔◌, length, take, IfOk, IsErr, OnErr, Some};
ghost use Rattle.ms_edge.specs.Counts.{Rose};
ghost use Rattle.ms_edge.specs.Sink.{grown};
ghost use Rattle.ms_edge.specs.SinkInMemory.{Fails, told_of, part_taken, after_taking, after_failing};

use crate::sink::{Sink, SinkFailed};
use ms_list::{List, NoMemory};
use std::alloc::Global;
use std::marker::Model;

/// A sink in memory that takes so many bytes in a call and at all, and fails at the listed calls,
/// which are counted from 0.
#[derive(Drop)]
pub struct MemSink {
    taken: Vec<u8>,
    piece: u64,
    room: u64,
    failing: List<u64>,
    calls: u64,
    faults: u64,
}

impl Model for MemSink {
    ghost use Rattle.std.specs.Prelude.{◌<◌, ◌≤◌, vec_len, vec_capacity};
    ghost use Rattle.ms_edge.specs.SinkInMemory.{SinkInMemory};

    ghost Value = { SinkInMemory };

    ghost view = { λ s. record { taken = s.taken.items; piece = s.piece; room = s.room; failing = s.failing; calls = s.calls; faults = s.faults } };

    ghost invariant = { λ s. (0 < s.piece) × (vec_len s.taken ≤ s.room) × (s.room ≤ vec_capacity s.taken) };
}

impl MemSink {
    /// A sink that has taken nothing, with the memory for all that it will take.
    pub fn new(
        alloc: Global,
        piece: u64,
        room: u64,
        failing: List<u64>,
    ) -> Result<MemSink, NoMemory>
        requires { 0 < piece }
        ensures { IfOk result (λ sink. sink ≡ record { taken = []; piece = piece; room = room; failing = failing; calls = 0; faults = 0 }) }
    {
        match Vec::with_capacity(alloc, room as usize) {
            Ok(taken) => Ok(MemSink {
                taken,
                piece,
                room,
                failing,
                calls: 0,
                faults: 0,
            }),
            Err(_) => Err(NoMemory),
        }
    }

    /// What was taken.
    pub fn bytes(&self) -> &[u8]
        ensures { result.now ≡ self.now.taken }
    {
        self.taken.as_slice()
    }
}

impl Sink for MemSink {
    ghost told = { told_of };

    fn write(&mut self, piece: &[u8]) -> Result<usize, SinkFailed>
        requires { 0 < length piece.now }
        ensures some { IfOk result (λ count. 0 < count) }
        ensures within { IfOk result (λ count. count ≤ length piece.now) }
        ensures took { IfOk result (λ count. Some self.new.taken ≡ grown (Some self.old.taken) (take count piece.now)) }
        ensures cause { OnErr result (Rose self.old.faults self.new.faults) }
        ensures kept { OnErr result (Some self.new.taken ≡ Some self.old.taken) }
        ensures faults_last { self.old.faults ≤ self.new.faults }

        ensures fails { IsErr result ↔ Fails self.old }
        ensures part { IfOk result (λ count. count ≡ part_taken self.old piece.now) }
        ensures after { IfOk result (λ count. self.new ≡ after_taking self.old count piece.now) }
        ensures after_fault { OnErr result (self.new ≡ after_failing self.old) }
    {
        let fails = self.taken.len() as u64 == self.room
            || self.failing.slice().contains(&self.calls);
        self.calls = self.calls.saturating_add(1);
        if fails {
            self.faults = self.faults.saturating_add(1);
            return Err(SinkFailed);
        }
        let room = self.room - self.taken.len() as u64;
        let count = piece.len().min(self.piece.min(room) as usize);
        match self.taken.extend_from_slice(&piece[..count]) {
            Ok(()) => Ok(count),
            Err(_) => unreachable!(),
        }
    }
}

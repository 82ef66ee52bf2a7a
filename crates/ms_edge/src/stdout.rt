ghost use Rattle.std.specs.Prelude.{◌≡◌, ◌<◌, ◌≤◌, None, length, take, IfOk, OnErr, OnOk};
ghost use Rattle.std.specs.Io.KnownBytes.{Appends};
ghost use Rattle.ms_edge.specs.Counts.{Rose};

use crate::sink::{Sink, SinkFailed};
use std::io;
use std::io::Write;
use std::rt::Runtime;

/// Standard output. Nothing is known of what it has taken; each failure is counted.
#[derive(Drop)]
pub struct StdSink<R: Runtime> {
    rt: R,
    faults: u64,
}

impl<R: Runtime> StdSink<R> {
    pub fn new(rt: R) -> StdSink<R>
        ensures { result.faults ≡ 0 }
    {
        StdSink { rt, faults: 0 }
    }
}

impl<R: Runtime> Sink for StdSink<R> {
    ghost told = { λ sink. record { taken = None; faults = sink.faults } };

    fn write(&mut self, piece: &[u8]) -> Result<usize, SinkFailed>
        ensures some { IfOk result (λ count. 0 < count) }
        ensures within { IfOk result (λ count. count ≤ length piece.now) }
        ensures cause { OnErr result (Rose self.old.faults self.new.faults) }
        ensures faults_last { self.old.faults ≤ self.new.faults }

        // Where something was taken, the count did not rise.
        ensures same { OnOk result (self.new ≡ self.old) }
    {
        let answer = put_some(&mut io::writer(&self.rt), piece);
        if answer.is_err() {
            self.faults = self.faults.saturating_add(1);
        }
        answer
    }
}

/// Writes some first bytes of the piece behind what the writer holds, at least one, and says how many.
fn put_some<W: Write>(out: &mut W, piece: &[u8]) -> Result<usize, SinkFailed>
    ensures some { IfOk result (λ count. 0 < count) }
    ensures within { IfOk result (λ count. count ≤ length piece.now) }
    ensures took { IfOk result (λ count. Appends (W.contents out.old) (W.contents out.new) (take count piece.now)) }
{
    match out.write(piece) {
        Ok(count) if count != 0 => Ok(count),
        _ => Err(SinkFailed),
    }
}

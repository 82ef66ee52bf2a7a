ghost use Rattle.std.specs.Prelude.{◌≡◌, ◌<◌, ◌≤◌, length, take, IfOk, OnOk, OnErr, IfErr};
ghost use Rattle.ms_edge.specs.Counts.{Rose};
ghost use Rattle.ms_edge.specs.Sink.{grown, SinkTold};

use thiserror::Error;

/// A sink took nothing of a piece.
#[derive(Clone, Copy, Debug, Error)]
#[error("the sink failed")]
pub struct SinkFailed;

/// A sink failed after it had taken so many bytes of a text.
#[derive(Clone, Copy, PartialEq, Eq)]
pub struct SinkStop {
    pub taken: u64,
}

/// Where the report goes, as standard output.
pub trait Sink {
    // The bytes taken so far, where they are told, and how often the sink has failed.
    ghost told: { Self → SinkTold };

    /// Takes some first bytes of the piece, at least one, and says how many.
    fn write(&mut self, piece: &[u8]) -> Result<usize, SinkFailed>
        requires { 0 < length piece.now }
        ensures some { IfOk result (λ count. 0 < count) }
        ensures within { IfOk result (λ count. count ≤ length piece.now) }
        ensures took { IfOk result (λ count. (told self.new).taken ≡ grown (told self.old).taken (take count piece.now)) }

        ensures cause { OnErr result (Rose (told self.old).faults (told self.new).faults) }
        ensures kept { OnErr result ((told self.new).taken ≡ (told self.old).taken) }

        ensures faults_last { (told self.old).faults ≤ (told self.new).faults };
}

/// Writes all the bytes, piece after piece. It takes no memory.
pub fn write_all<S: Sink>(out: &mut S, bytes: &[u8]) -> Result<(), SinkStop>
    ensures all { OnOk result ((S.told out.new).taken ≡ grown (S.told out.old).taken bytes.now) }
    ensures front { IfErr result (λ stop. (S.told out.new).taken ≡ grown (S.told out.old).taken (take stop.taken bytes.now)) }
    ensures fewer { IfErr result (λ stop. stop.taken < length bytes.now) }
    ensures cause { OnErr result (Rose (S.told out.old).faults (S.told out.new).faults) }
    ensures faults_last { (S.told out.old).faults ≤ (S.told out.new).faults }
{
    let mut done = 0;
    while done < bytes.len() {
        match out.write(&bytes[done..]) {
            Ok(count) => done += count,
            Err(_) => return Err(SinkStop { taken: done as u64 }),
        }
    }
    Ok(())
}

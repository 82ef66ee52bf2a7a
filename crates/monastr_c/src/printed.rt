ghost use Rattle.std.specs.Prelude.{◌≡◌, [], Some};

use ms_edge::{Sink, SinkFailed};
use std::alloc::Global;

/// A sink in memory that takes all that is printed. It fails only where there is no memory for more, and then that is counted.
#[derive(Drop)]
pub struct Printed {
    pub taken: Vec<u8>,
    pub faults: u64,
}

impl Printed {
    /// Nothing was printed yet. It takes no memory.
    pub fn new(alloc: Global) -> Printed
        ensures taken { result.taken.items ≡ [] }
        ensures faults { result.faults ≡ 0 }
    {
        Printed {
            taken: Vec::new(alloc),
            faults: 0,
        }
    }
}

impl Sink for Printed {
    ghost told = { λ sink. record { taken = Some sink.taken.items; faults = sink.faults } };

    fn write(&mut self, piece: &[u8]) -> Result<usize, SinkFailed> {
        match self.taken.extend_from_slice(piece) {
            Ok(()) => Ok(piece.len()),
            Err(_) => {
                self.faults = self.faults.saturating_add(1);
                Err(SinkFailed)
            }
        }
    }
}

ghost use Rattle.std.specs.Prelude.{◌≡◌};
ghost use Rattle.ms_ltlf.specs.Tree.{depth};
ghost use Rattle.ms_ltlf.specs.View.{temporal_of};
ghost use Rattle.ms_parse_stack.specs.inner.Machine.{entered, moved};
ghost use Rattle.ms_ltlf_parse.specs.inner.Machine.{leaf, machine, opened};
ghost use Rattle.ms_ltlf_parse.specs.inner.States.{ComesTo, IsMeasured, frame_of, state_of};

use crate::frame::{Frame, Operand};
use crate::state::{Begun, Outcome};
use ms_ltlf::Ltl;
use ms_parse_stack::{Stop, enter};

/// A frame where an operand is wanted.
pub fn open(begun: &mut Begun, outcome: Outcome, frame: Frame) -> Result<Outcome, Stop>
    requires { IsMeasured begun.old outcome }
    ensures { ComesTo (entered machine (opened (frame_of frame)) (state_of begun.old outcome)) begun.new result }
{
    match outcome {
        Outcome::Wanted => enter(begun, frame),
        Outcome::Holding(_) => Err(Stop::Misplaced),
        Outcome::Done(_) => Err(Stop::Misplaced),
    }
}

/// An operand of one symbol.
pub fn read_leaf(begun: &Begun, outcome: Outcome, formula: Ltl) -> Result<Outcome, Stop>
    requires measured { IsMeasured begun.now outcome }
    requires leaf { depth (temporal_of formula) ≡ 1 }
    ensures { ComesTo (moved machine (leaf (temporal_of formula)) (state_of begun.now outcome)) begun.now result }
{
    match outcome {
        Outcome::Wanted => Ok(Outcome::Holding(Operand { formula, height: 1 })),
        Outcome::Holding(_) => Err(Stop::Misplaced),
        Outcome::Done(_) => Err(Stop::Misplaced),
    }
}

ghost use Rattle.std.specs.Prelude.{◌≡◌, ℕ, List};
ghost use Rattle.ms_parse_stack.specs.inner.Machine.{follows, performed};
ghost use Rattle.ms_ltlf_parse.specs.inner.Machine.{machine, step};
ghost use Rattle.ms_ltlf_parse.specs.inner.States.{ComesTo, IsMeasured, state_of};
ghost use Rattle.ms_ltlf_parse.specs.inner.Terminals.{symbol_with};

use crate::enter::{open, read_leaf};
use crate::frame::Frame;
use crate::operator::Binary;
use crate::state::{Begun, Outcome};
use crate::terminal::Terminal;
use ms_list::let_go;
use ms_ltlf::Ltl;
use ms_parse_stack::{Sign, Stop, follow};
use std::alloc::Global;

/// A sign behind an operand.
fn read_sign(
    alloc: Global,
    begun: &mut Begun,
    outcome: Outcome,
    sign: Sign<Binary>,
) -> Result<Outcome, Stop>
    requires { IsMeasured begun.old outcome }
    ensures { ComesTo (performed machine (follows sign) (state_of begun.old outcome)) begun.new result }
{
    match outcome {
        Outcome::Holding(operand) => follow(alloc, begun, operand, sign),
        Outcome::Wanted => Err(Stop::Misplaced),
        Outcome::Done(_) => Err(Stop::Misplaced),
    }
}

/// A step over a symbol. `number` is that of the proposition, where the symbol is one.
pub fn step(
    alloc: Global,
    begun: &mut Begun,
    outcome: Outcome,
    terminal: Terminal,
    number: u32,
) -> Result<Outcome, Stop>
    requires { IsMeasured begun.old outcome }
    ensures { (number_of : List ℕ → ℕ) (bytes : List ℕ) → (terminal ≡ Terminal.Name → number_of bytes ≡ number) →
        ComesTo (step number_of (state_of begun.old outcome) (symbol_with terminal bytes)) begun.new result }
{
    match terminal {
        Terminal::Name => read_leaf(begun, outcome, Ltl::Prop(number)),
        Terminal::True => read_leaf(begun, outcome, Ltl::True),
        Terminal::False => read_leaf(begun, outcome, Ltl::False),
        Terminal::Prefix(op) => open(begun, outcome, Frame::Prefix(op)),
        Terminal::Infix(op) => read_sign(alloc, begun, outcome, Sign::Infix(op)),
        Terminal::Joining(op) => read_sign(alloc, begun, outcome, Sign::Joining(op)),
        Terminal::Open => open(begun, outcome, Frame::Brackets),
        Terminal::Close => read_sign(alloc, begun, outcome, Sign::Close),
        Terminal::Semicolon => read_sign(alloc, begun, outcome, Sign::End),
        Terminal::Other => {
            let_go(outcome);
            Err(Stop::Misplaced)
        }
    }
}

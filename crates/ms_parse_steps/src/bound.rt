ghost use Rattle.std.specs.Prelude.{◌≡◌, ℕ, Bool, List};
ghost use Rattle.ms_parse_grammar.specs.Grammar.{binary_level, is_in};
ghost use Rattle.ms_parse_steps.specs.inner.Ends.{ends_part};
ghost use Rattle.ms_parse_steps.specs.inner.Machine.{bound, in_part};
ghost use Rattle.ms_parse_steps.specs.inner.Terminals.{symbol_with};
ghost use Rattle.ms_parse_steps.specs.inner.Stack.{stack_of};

use crate::frame::Frame;
use crate::terminal::Terminal;
use crate::top::in_part;
use ms_logic::Rel;
use ms_parse_grammar::{Binary, junction_reach};

fn is_in(op: Binary) -> bool
    ensures { result ≡ is_in op }
{
    matches!(op, Binary::Relation(Rel::Member))
}

fn looseness(op: Binary) -> u32
    ensures { result ≡ binary_level op }
{
    match op {
        Binary::Equivalence => 0,
        Binary::Implication => 1,
        Binary::Relation(_) => 5,
        Binary::Union => 6,
        Binary::Intersection => 7,
        Binary::Difference => 8,
    }
}

/// Whether a terminal is the `in` that ends the right side of a `let`.
pub fn ends_part(stack: &[Frame], terminal: Terminal) -> bool
    ensures { (bytes : List ℕ) → result ≡ ends_part (in_part (stack_of stack.now)) (symbol_with terminal bytes) }
{
    match terminal {
        Terminal::Infix(op) => is_in(op) && in_part(stack),
        _ => false,
    }
}

/// How loosely a terminal binds behind an expression; 0 where it is no operator.
pub fn bound(terminal: Terminal, is_end: bool) -> u32
    ensures { (bytes : List ℕ) (inside : Bool) → is_end ≡ ends_part inside (symbol_with terminal bytes) → result ≡ bound inside (symbol_with terminal bytes) }
{
    match terminal {
        Terminal::Infix(op) => { if is_end { 0 } else { looseness(op) + 1 } }
        Terminal::Joining(op) => junction_reach(op) + 1,
        Terminal::Shift(_) => 10,
        _ => 0,
    }
}

ghost use Rattle.std.specs.Prelude.{◌≡◌, ◌-◌, ◌≤◌, ◌<◌, ◌+◌, ℕ, suc, false, List, length, IsTrue};
ghost use Rattle.ms_text.specs.TokenList.{Lexed};
ghost use Rattle.ms_parse_steps.specs.inner.Machine.{Context, Move, enter, starter, too_deep, unopened};
ghost use Rattle.ms_parse_grammar.specs.Grammar.{level, greatest_depth};
ghost use Rattle.ms_parse_steps.specs.inner.Frames.{frame_of};
ghost use Rattle.ms_parse_steps.specs.inner.Outcomes.{StopsAs, ActsAs};
ghost use Rattle.ms_parse_steps.specs.inner.Terminals.{symbol_with, behind};
ghost use Rattle.ms_parse_steps.specs.inner.Stack.{stack_of};
ghost use Rattle.ms_parse_grammar.specs.View.{expression_of};

use crate::frame::Frame;
use crate::input::Input;
use crate::operand::GREATEST_DEPTH;
use crate::outcome::{Outcome, Taken};
use crate::stack::push_frame;
use crate::stop::Stop;
use crate::terminal::Terminal;
use ms_logic::{Expr, Form};

/// Whether the depth leaves room for an expression in a new frame.
pub fn has_room(stack: &[Frame]) -> bool
    ensures yes { IsTrue result → suc (suc (length (stack_of stack.now))) ≤ greatest_depth }
    ensures no { result ≡ false → greatest_depth < suc (suc (length (stack_of stack.now))) }
{
    stack.len() < 299
}

fn may_begin(terminal: Terminal) -> bool
    ensures { (bytes : List ℕ) → result ≡ starter (symbol_with terminal bytes) }
{
    match terminal {
        Terminal::Name => true,
        Terminal::Number(_) => true,
        Terminal::Prefix(_) => true,
        Terminal::Quantifier(..) => true,
        Terminal::Let(_) => true,
        Terminal::True => true,
        Terminal::False => true,
        Terminal::Dollar => true,
        Terminal::Empty => true,
        Terminal::Pconst => true,
        Terminal::Import => true,
        Terminal::Export => true,
        Terminal::Restrict => true,
        Terminal::OpenRound => true,
        Terminal::OpenCurly => true,
        _ => false,
    }
}

impl Input<'_> {
    /// Why the first token in a list cannot stand there, where the depth leaves no room for an expression.
    pub fn stop_inside(self, i: u32) -> Stop
        ensures { StopsAs self.entry.file self.entry.tokens.now (unopened (behind self.entry.file self.entry.tokens.now i)) result }
    {
        let Some((terminal, _)) = self.terminal_at(i) else {
            return Stop::Refused(i);
        };
        if may_begin(terminal) {
            return Stop::TooDeep(i);
        }
        Stop::Refused(i)
    }
}

/// Puts a frame on the stack, where the depth leaves room for an expression in it, and else stops.
pub fn enter(stack: &mut Vec<Frame>, frame: Frame, i: u32, otherwise: Stop) -> Taken
    ensures { (c : Context) (file : ℕ) (lexed : Lexed) (stuck : Move) → StopsAs file lexed stuck otherwise →
        ActsAs c file lexed (enter greatest_depth c (frame_of frame) (stack_of stack.old.items) stuck (behind file lexed i)) stack.new.items result }
{
    if !has_room(stack) {
        return Err(otherwise);
    }
    let inside = frame.height().max(1);
    if stack.len() as u32 + 1 + inside > GREATEST_DEPTH {
        return Err(otherwise);
    }
    push_frame(stack, frame)?;
    Ok((Outcome::Wanted, i))
}

/// Puts a frame on the stack behind a token, where the depth leaves room for an expression in it.
pub fn begin_frame(stack: &mut Vec<Frame>, frame: Frame, i: u32) -> Taken
    ensures { (c : Context) (file : ℕ) (lexed : Lexed) →
        ActsAs c file lexed (enter greatest_depth c (frame_of frame) (stack_of stack.old.items) (too_deep (behind file lexed (i - 1))) (behind file lexed i)) stack.new.items result }
{
    enter(stack, frame, i, Stop::TooDeep(i.saturating_sub(1)))
}

/// How tightly an expression binds.
pub fn level(expr: &Expr) -> u32
    ensures { result ≡ level (expression_of expr.now) }
{
    match &expr.form {
        Form::Iff(..) => 0,
        Form::Implies(..) => 1,
        Form::Or(_) => 2,
        Form::And(_) => 3,
        Form::Not(_) => 4,
        Form::Bind(..) => 4,
        Form::Let(..) => 4,
        Form::Relation(..) => 5,
        Form::Union(..) => 6,
        Form::Inter(..) => 7,
        Form::Minus(..) => 8,
        Form::Shift(..) => 9,
        Form::Min(_) => 10,
        Form::Max(_) => 10,
        Form::True => 11,
        Form::False => 11,
        Form::Whole => 11,
        Form::EmptySet => 11,
        Form::Name(_) => 11,
        Form::Number(_) => 11,
        Form::Pconst(_) => 11,
        Form::Paren(_) => 11,
        Form::Literal(_) => 11,
        Form::Call(..) => 11,
        Form::IsEmpty(_) => 11,
        Form::Restrict(_) => 11,
        Form::Import(..) => 11,
        Form::Export(..) => 11,
    }
}

ghost use Rattle.std.specs.Prelude.{◌≡◌, ◌∷◌, [], ℕ, Bool, List, false, IsTrue};
ghost use Rattle.ms_text.specs.TokenList.{Lexed};
ghost use Rattle.ms_parse_grammar.specs.View.{document_of, expression_of, variables_of};
ghost use Rattle.ms_parse_steps.specs.inner.Ends.{ends_part, IsEnd, IsOperator};
ghost use Rattle.ms_parse_steps.specs.inner.Followed.{settled};
ghost use Rattle.ms_parse_steps.specs.inner.Machine as machine;
ghost use Rattle.ms_parse_steps.specs.inner.Machine.{holding, in_default, in_formula, in_goal, in_predicate, step};
ghost use Rattle.ms_parse_steps.specs.inner.Frames.{frame_of};
ghost use Rattle.ms_parse_steps.specs.inner.Outcomes.{ActsAs};
ghost use Rattle.ms_parse_steps.specs.inner.Terminals.{behind, symbol_with};
ghost use Rattle.ms_parse_steps.specs.inner.Stack.{stack_of};
ghost use Rattle.ms_parse_steps.specs.inner.Configurations.{head_of, StepsAs, context_of};
ghost use Rattle.ms_parse_grammar.specs.Grammar.{greatest_depth};

use crate::bound::{bound, ends_part};
use crate::configuration::Step;
use crate::context::{Context, Signature};
use crate::declare::inside;
use crate::followed::Followed;
use crate::frame::Frame;
use crate::input::Input;
use crate::join::join;
use crate::operand::Operand;
use crate::outcome::Taken;
use crate::parser::Parser;
use crate::settle::shift;
use crate::stack::{collapse, pop_frame};
use crate::stop::Stop;
use crate::terminal::Terminal;
use ms_list::{At, Name, Text};
use ms_logic::{Decl, Order};
use std::alloc::Global;

fn is_operator(terminal: Terminal, is_end: bool) -> bool
    ensures yes { (bytes : List ℕ) (inside : Bool) → is_end ≡ ends_part inside (symbol_with terminal bytes) → IsTrue result → IsOperator inside (symbol_with terminal bytes) }
    ensures no { (bytes : List ℕ) (inside : Bool) → is_end ≡ ends_part inside (symbol_with terminal bytes) → result ≡ false → IsEnd inside (symbol_with terminal bytes) }
{
    match terminal {
        Terminal::Infix(_) => !is_end,
        Terminal::Joining(_) => true,
        Terminal::Shift(_) => true,
        _ => false,
    }
}

impl Input<'_> {
    /// An operator behind its left operand, with the frames around it that go on.
    fn settle_operator(self, stack: &mut Vec<Frame>, followed: Followed) -> Taken
        ensures { (c : machine.Context) (bytes : List ℕ) (inside : Bool) → IsOperator inside (symbol_with followed.terminal bytes) →
            ActsAs c self.entry.file self.entry.tokens.now (settled self.entry.file self.entry.tokens.now c bytes inside followed (stack_of stack.old.items)) stack.new.items result }
    {
        let operand = followed.operand;
        let next = followed.next;
        match followed.terminal {
            Terminal::Infix(op) => shift(stack, op, operand, next),
            Terminal::Joining(op) => join(self.alloc, stack, op, operand, next),
            Terminal::Shift(minus) => self.shift_int(stack, operand, minus, next),
            _ => Err(Stop::Refused(next.saturating_sub(1))),
        }
    }
}

/// What ends an expression in a frame.
fn settle_frame(alloc: Global, stack: &mut Vec<Frame>, frame: Frame, followed: Followed) -> Taken
    ensures { (c : machine.Context) (file : ℕ) (lexed : Lexed) (bytes : List ℕ) (inside : Bool) → IsEnd inside (symbol_with followed.terminal bytes) →
        ActsAs c file lexed (settled file lexed c bytes inside followed (frame_of frame ∷ stack_of stack.old.items)) stack.new.items result }
{
    let operand = followed.operand;
    let next = followed.next;
    match followed.terminal {
        Terminal::CloseRound => frame.close_round(alloc, operand, next),
        Terminal::CloseCurly => frame.close_curly(operand, next),
        Terminal::Comma => frame.comma(alloc, stack, operand, next),
        Terminal::Colon => frame.colon(alloc, stack, operand, next),
        Terminal::Infix(_) => frame.end_parts(stack, operand, next),
        _ => Err(Stop::Refused(next.saturating_sub(1))),
    }
}

impl Input<'_> {
    /// A terminal behind an expression, once the frames that end before it are completed.
    fn settle(self, parser: &mut Parser, context: Context, followed: Followed, is_end: bool) -> Step
        ensures { (bytes : List ℕ) (inside : Bool) → is_end ≡ ends_part inside (symbol_with followed.terminal bytes) →
            StepsAs self.entry.file self.entry.tokens.now (settled self.entry.file self.entry.tokens.now (context_of (document_of parser.old.source) context) bytes inside followed (stack_of parser.old.stack.items)) parser.new result }
    {
        if is_operator(followed.terminal, is_end) {
            let taken = self.settle_operator(&mut parser.stack, followed);
            return inside(context, taken);
        }
        match pop_frame(&mut parser.stack) {
            Some(frame) => inside(
                context,
                settle_frame(self.alloc, &mut parser.stack, frame, followed),
            ),
            None => context.end_expression(self, parser, followed),
        }
    }

    /// A step where an expression has been read.
    pub fn go_on(self, parser: &mut Parser, context: Context, operand: Operand, i: u32) -> Step
        ensures { StepsAs self.entry.file self.entry.tokens.now (step greatest_depth (holding (context_of (document_of parser.old.source) context) (expression_of operand.expr) (stack_of parser.old.stack.items)) (behind self.entry.file self.entry.tokens.now i)) parser.new result }
    {
        let Some((terminal, _)) = self.terminal_at(i) else {
            return Err(Stop::Refused(i));
        };
        let is_end = ends_part(&parser.stack, terminal);
        let looseness = bound(terminal, is_end);
        let operand = collapse(self.alloc, &mut parser.stack, operand, looseness, i)?;
        let followed = Followed {
            operand,
            terminal,
            next: i + 1,
        };
        self.settle(parser, context, followed, is_end)
    }
}

ghost use Rattle.ms_parse_steps.specs.declared.frame.Frame.{Frame};
ghost use Rattle.std.specs.Prelude.{ℕ, List, ◌-◌};
ghost use Rattle.ms_parse_steps.specs.inner.Machine.{Context, Move, pair_then, behind_variable, next_variable, next_part, next_pair};
ghost use Rattle.ms_parse_steps.specs.inner.Outcomes.{Continues, ActsAs};
ghost use Rattle.ms_logic.specs.declared.source.Rename.{Rename};
ghost use Rattle.ms_parse_grammar.specs.Symbol.{Placed};
ghost use Rattle.ms_parse_steps.specs.inner.Terminals.{symbol_with, behind};
ghost use Rattle.ms_parse_steps.specs.inner.Stack.{stack_of};
ghost use Rattle.ms_parse_grammar.specs.View.{variables_of, parts_of};
ghost use Rattle.ms_text.specs.TokenList.{Lexed};
ghost use Rattle.ms_parse_grammar.specs.Grammar.{greatest_depth};

use crate::append::with_unrestricted;
use crate::complete::finish;
use crate::enter::{begin_frame, enter};
use crate::frame::Frame;
use crate::input::Input;
use crate::memory::push;
use crate::operand::{Binder, Domain, Identifier, Locals};
use crate::outcome::{Outcome, Taken};
use crate::punctuation::Punctuation;
use crate::stop::Stop;
use crate::terminal::Terminal;
use ms_list::{At, List, Text};
use ms_logic::{Form, Rename};

impl Input<'_> {
    /// A name of a `let` and `=`, where a name is wanted.
    pub fn next_part(self, stack: &mut Vec<Frame>, locals: Locals, i: u32) -> Taken
        ensures { (c : Context) →
            ActsAs c self.entry.file self.entry.tokens.now (next_part greatest_depth c (stack_of stack.old.items) locals.at locals.order (parts_of locals.parts.list) (behind self.entry.file self.entry.tokens.now i)) stack.new.items result }
    {
        let Some((name, at_name)) = self.name_at(i)? else {
            return Err(Stop::Refused(i));
        };
        let Some(next) = self.behind_mark(i + 1, Punctuation::Equal) else {
            return Err(Stop::Refused(i + 1));
        };
        let variable = Identifier { at: at_name, name };
        enter(
            stack,
            Frame::Part(locals, variable),
            next,
            Stop::TooDeep(i + 1),
        )
    }

    /// A pair of an import behind its comma, and the number behind it.
    fn pair_at(self, i: u32) -> Result<(Rename, u32), Stop>
        ensures { (further : Rename → List Placed → Move) → Continues self.entry.file self.entry.tokens.now (pair_then further (behind self.entry.file self.entry.tokens.now i)) further result }
    {
        let Some((left, at)) = self.name_at(i)? else {
            return Err(Stop::Refused(i));
        };
        let Some(to) = self.behind_mark(i + 1, Punctuation::Arrow) else {
            return Err(Stop::Refused(i + 1));
        };
        let Some((right, at_right)) = self.name_at(to)? else {
            return Err(Stop::Refused(to));
        };
        let pair = Rename {
            at,
            left,
            at_right,
            right,
        };
        Ok((pair, to + 1))
    }

    /// A pair of an import or its end, where these are wanted.
    pub fn next_pair(self, at: At, text: Text, mut pairs: List<Rename>, i: u32) -> Taken
        ensures { (c : Context) (frames : List Frame) →
            ActsAs c self.entry.file self.entry.tokens.now (next_pair c (stack_of frames) at text pairs (behind self.entry.file self.entry.tokens.now i)) frames result }
    {
        if let Some(next) = self.behind_mark(i, Punctuation::CloseRound) {
            let operand = finish(at, Form::Import(text, pairs), 0, i)?;
            return Ok((Outcome::Holding(operand), next));
        }
        let Some(from) = self.behind_mark(i, Punctuation::Comma) else {
            return Err(Stop::Refused(i));
        };
        let (pair, next) = self.pair_at(from)?;
        push(&mut pairs, pair)?;
        Ok((Outcome::Pair(at, text, pairs), next))
    }
}

/// What stands behind a variable of a binder.
fn behind_variable(
    stack: &mut Vec<Frame>,
    binder: Binder,
    variable: Identifier,
    terminal: Terminal,
    i: u32,
) -> Taken
    ensures { (c : Context) (file : ℕ) (lexed : Lexed) (bytes : List ℕ) →
        ActsAs c file lexed (behind_variable greatest_depth c (stack_of stack.old.items) binder.at binder.quant binder.order (variables_of binder.bounds.list) variable.at variable.name (symbol_with terminal bytes) (behind file lexed (i - 1)) (behind file lexed i)) stack.new.items result }
{
    match terminal {
        Terminal::Where => begin_frame(stack, Frame::Domain(Domain { binder, variable }), i),
        Terminal::Comma => {
            let binder = with_unrestricted(binder, variable)?;
            Ok((Outcome::Variable(binder), i))
        }
        Terminal::Colon => {
            let binder = with_unrestricted(binder, variable)?;
            begin_frame(stack, Frame::Body(binder), i)
        }
        _ => Err(Stop::Refused(i.saturating_sub(1))),
    }
}

impl Input<'_> {
    /// A variable of a binder and what stands behind it, where a variable is wanted.
    pub fn next_variable(self, stack: &mut Vec<Frame>, binder: Binder, i: u32) -> Taken
        ensures { (c : Context) →
            ActsAs c self.entry.file self.entry.tokens.now (next_variable greatest_depth c (stack_of stack.old.items) binder.at binder.quant binder.order (variables_of binder.bounds.list) (behind self.entry.file self.entry.tokens.now i)) stack.new.items result }
    {
        let Some((name, at_name)) = self.name_at(i)? else {
            return Err(Stop::Refused(i));
        };
        let Some((terminal, _)) = self.terminal_at(i + 1) else {
            return Err(Stop::Refused(i + 1));
        };
        let variable = Identifier { at: at_name, name };
        behind_variable(stack, binder, variable, terminal, i + 2)
    }
}

ghost use Rattle.std.specs.Prelude.{◌≡◌, ◌<◌, ◌≤◌, suc, length, IfOk, List, ◌-◌};
ghost use Rattle.ms_parse_grammar.specs.Tree.{listed, no_expressions};
ghost use Rattle.ms_parse_steps.specs.inner.Punctuations.{closing, punctuation};
ghost use Rattle.ms_parse_grammar.specs.Grammar.{greatest_depth};
ghost use Rattle.ms_parse_steps.specs.inner.Machine.{Context, begin_name, begin_empty, begin_restrict, begin_export, begin_import, begin_pconst, either_mark, enter_list, holding, mark_then, took, with_room, Move};
ghost use Rattle.ms_parse_steps.specs.inner.Outcomes.{ActsAs, GoesOn};
ghost use Rattle.ms_parse_grammar.specs.Symbol.{Placed, open_round};
ghost use Rattle.ms_parse_steps.specs.inner.Terminals.{behind};
ghost use Rattle.ms_parse_steps.specs.inner.Stack.{stack_of};

use crate::complete::finish;
use crate::enter::{enter, has_room};
use crate::form::listed;
use crate::frame::Frame;
use crate::input::Input;
use crate::operand::{Entries, Operands};
use crate::outcome::{Outcome, Taken};
use crate::punctuation::Punctuation;
use crate::stop::Stop;
use ms_list::{At, List, Name};
use ms_logic::Form;
use ms_parse_grammar::{Bracket, Listing};

/// The bracket behind a list.
fn closing(listing: &Listing) -> Punctuation
    ensures { result ≡ closing listing.now }
{
    match listing {
        Listing::Literal => Punctuation::CloseCurly,
        Listing::Call(_) => Punctuation::CloseRound,
    }
}

impl Input<'_> {
    /// A list begins behind its bracket, and may end at once.
    pub fn begin_list(self, stack: &mut Vec<Frame>, at: At, listing: Listing, i: u32) -> Taken
        ensures { (c : Context) →
            ActsAs c self.entry.file self.entry.tokens.now (either_mark (punctuation (closing listing)) (took (holding c (listed at listing no_expressions) (stack_of stack.old.items))) (enter_list greatest_depth c at listing (stack_of stack.old.items)) (behind self.entry.file self.entry.tokens.now i)) stack.new.items result }
    {
        let list = List::new(self.alloc);
        if let Some(next) = self.behind_mark(i, closing(&listing)) {
            let operand = finish(at, listed(listing, list), 0, i)?;
            return Ok((Outcome::Holding(operand), next));
        }
        let operands = Operands { list, height: 0 };
        let frame = Frame::Listed(Entries {
            at,
            listing,
            operands,
        });
        enter(stack, frame, i, self.stop_inside(i))
    }

    /// A name begins an expression: a call, where a bracket follows.
    pub fn begin_name(self, stack: &mut Vec<Frame>, at: At, name: Name, i: u32) -> Taken
        ensures { (c : Context) →
            ActsAs c self.entry.file self.entry.tokens.now (begin_name greatest_depth c (stack_of stack.old.items) at name (behind self.entry.file self.entry.tokens.now i)) stack.new.items result }
    {
        let Some(inside) = self.behind_mark(i, Punctuation::OpenRound) else {
            let operand = finish(at, Form::Name(name), 0, i)?;
            return Ok((Outcome::Holding(operand), i));
        };
        self.begin_list(stack, at, Listing::Call(name), inside)
    }

    /// The number of the token behind `(`, where the depth leaves room for an expression in brackets.
    fn inside_at(self, stack: &[Frame], i: u32) -> Result<u32, Stop>
        ensures room { IfOk result (λ inside. suc (suc (length (stack_of stack.now))) ≤ greatest_depth) }
        ensures step { (further : List Placed → Move) →
            GoesOn self.entry.file self.entry.tokens.now (with_room greatest_depth (stack_of stack.now) (behind self.entry.file self.entry.tokens.now (i - 1)) (mark_then open_round further (behind self.entry.file self.entry.tokens.now i))) further result }
    {
        if !has_room(stack) {
            return Err(Stop::TooDeep(i.saturating_sub(1)));
        }
        match self.behind_mark(i, Punctuation::OpenRound) {
            Some(inside) => Ok(inside),
            None => Err(Stop::Refused(i)),
        }
    }

    /// `restrict` begins an expression.
    pub fn begin_restrict(self, stack: &mut Vec<Frame>, at: At, i: u32) -> Taken
        ensures { (c : Context) →
            ActsAs c self.entry.file self.entry.tokens.now (with_room greatest_depth (stack_of stack.old.items) (behind self.entry.file self.entry.tokens.now (i - 1)) (begin_restrict c (stack_of stack.old.items) at (behind self.entry.file self.entry.tokens.now i))) stack.new.items result }
    {
        let next = self.inside_at(stack, i)?;
        let frame = Frame::Bracket(at, Bracket::Restriction);
        enter(stack, frame, next, Stop::TooDeep(i.saturating_sub(1)))
    }

    /// `empty` begins an expression: the formula, where a bracket follows.
    pub fn begin_empty(self, stack: &mut Vec<Frame>, at: At, i: u32) -> Taken
        ensures { (c : Context) →
            ActsAs c self.entry.file self.entry.tokens.now (begin_empty greatest_depth c (stack_of stack.old.items) at (behind self.entry.file self.entry.tokens.now i)) stack.new.items result }
    {
        let Some(next) = self.behind_mark(i, Punctuation::OpenRound) else {
            let operand = finish(at, Form::EmptySet, 0, i)?;
            return Ok((Outcome::Holding(operand), i));
        };
        let frame = Frame::Bracket(at, Bracket::Emptiness);
        enter(stack, frame, next, Stop::TooDeep(i))
    }

    /// `export` begins an expression.
    pub fn begin_export(self, stack: &mut Vec<Frame>, at: At, i: u32) -> Taken
        ensures { (c : Context) →
            ActsAs c self.entry.file self.entry.tokens.now (with_room greatest_depth (stack_of stack.old.items) (behind self.entry.file self.entry.tokens.now (i - 1)) (begin_export c (stack_of stack.old.items) at (behind self.entry.file self.entry.tokens.now i))) stack.new.items result }
    {
        let inside = self.inside_at(stack, i)?;
        let Some((text, at_text)) = self.text_at(inside)? else {
            return Err(Stop::Refused(inside));
        };
        let Some(next) = self.behind_mark(inside + 1, Punctuation::Comma) else {
            return Err(Stop::Refused(inside + 1));
        };
        let frame = Frame::Bracket(at, Bracket::Export(at_text, text));
        enter(stack, frame, next, Stop::TooDeep(i.saturating_sub(1)))
    }

    /// `import` begins an expression.
    pub fn begin_import(self, stack: &mut Vec<Frame>, at: At, i: u32) -> Taken
        ensures { (c : Context) →
            ActsAs c self.entry.file self.entry.tokens.now (begin_import c (stack_of stack.old.items) at (behind self.entry.file self.entry.tokens.now i)) stack.new.items result }
    {
        let Some(inside) = self.behind_mark(i, Punctuation::OpenRound) else {
            return Err(Stop::Refused(i));
        };
        let Some((text, _)) = self.text_at(inside)? else {
            return Err(Stop::Refused(inside));
        };
        Ok((Outcome::Pair(at, text, List::new(self.alloc)), inside + 1))
    }

    /// `pconst` begins an expression.
    pub fn begin_pconst(self, stack: &mut Vec<Frame>, at: At, i: u32) -> Taken
        ensures { (c : Context) →
            ActsAs c self.entry.file self.entry.tokens.now (begin_pconst c (stack_of stack.old.items) at (behind self.entry.file self.entry.tokens.now i)) stack.new.items result }
    {
        let Some(inside) = self.behind_mark(i, Punctuation::OpenRound) else {
            return Err(Stop::Refused(i));
        };
        let Some((number, end)) = self.int_at(inside, false)? else {
            return Err(Stop::Refused(inside));
        };
        let Some(next) = self.behind_mark(end, Punctuation::CloseRound) else {
            return Err(Stop::Refused(end));
        };
        let operand = finish(at, Form::Pconst(number), 0, i)?;
        Ok((Outcome::Holding(operand), next))
    }
}

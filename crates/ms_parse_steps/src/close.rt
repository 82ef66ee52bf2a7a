ghost use Rattle.std.specs.Prelude.{ℕ, List, ◌∷◌, ◌-◌};
ghost use Rattle.ms_text.specs.TokenList.{Lexed};
ghost use Rattle.ms_parse_grammar.specs.Grammar.{greatest_depth};
ghost use Rattle.ms_parse_grammar.specs.Tree.{and_expression, enclosed, listed};
ghost use Rattle.ms_parse_grammar.specs.View.{expression_of, expressions_of};
ghost use Rattle.ms_parse_steps.specs.inner.Machine.{Context, close_curly_at, close_round_at, hold, list_frame};
ghost use Rattle.ms_parse_steps.specs.inner.Outcomes.{ActsAs};
ghost use Rattle.ms_parse_steps.specs.inner.Terminals.{behind};
ghost use Rattle.ms_parse_steps.specs.inner.Stack.{stack_of};
ghost use Rattle.ms_parse_steps.specs.declared.frame.Frame.{Frame};

use crate::append::with_expression;
use crate::complete::finish;
use crate::form::{enclosed, listed};
use crate::operand::{Entries, Operand, Operands};
use crate::outcome::{Outcome, Taken};
use crate::stop::Stop;
use ms_list::At;
use ms_parse_grammar::{Bracket, Listing};
use std::alloc::Global;

/// The bracket behind the expression that it encloses.
pub fn end_bracket(alloc: Global, at: At, bracket: Bracket, operand: Operand, i: u32) -> Taken
    ensures { (c : Context) (file : ℕ) (lexed : Lexed) (frames : List Frame) →
        ActsAs c file lexed (hold greatest_depth c (enclosed at bracket (expression_of operand.expr)) (stack_of frames) (behind file lexed (i - 1)) (behind file lexed i)) frames result }
{
    let height = operand.height;
    let form = enclosed(alloc, bracket, operand.expr)?;
    let made = finish(at, form, height, i.saturating_sub(1))?;
    Ok((Outcome::Holding(made), i))
}

/// The bracket behind the last expression of a list.
fn end_list(entries: Entries, operand: Operand, i: u32) -> Taken
    ensures { (c : Context) (file : ℕ) (lexed : Lexed) (frames : List Frame) →
        ActsAs c file lexed (hold greatest_depth c (listed entries.at entries.listing (and_expression (expressions_of entries.operands.list) (expression_of operand.expr))) (stack_of frames) (behind file lexed (i - 1)) (behind file lexed i)) frames result }
{
    let Operands { list, height } = with_expression(entries.operands, operand)?;
    let form = listed(entries.listing, list);
    let made = finish(entries.at, form, height, i.saturating_sub(1))?;
    Ok((Outcome::Holding(made), i))
}

/// `}` behind an entry, which ends a set.
pub fn end_literal(entries: Entries, operand: Operand, i: u32) -> Taken
    ensures { (c : Context) (file : ℕ) (lexed : Lexed) (below : List Frame) →
        ActsAs c file lexed (close_curly_at greatest_depth c (expression_of operand.expr) (list_frame entries.at entries.listing (expressions_of entries.operands.list) ∷ stack_of below) (behind file lexed (i - 1)) (behind file lexed i)) below result }
{
    match entries.listing {
        Listing::Literal => end_list(entries, operand, i),
        Listing::Call(_) => Err(Stop::Refused(i.saturating_sub(1))),
    }
}

/// `)` behind an entry, which ends a call.
pub fn end_call(entries: Entries, operand: Operand, i: u32) -> Taken
    ensures { (c : Context) (file : ℕ) (lexed : Lexed) (below : List Frame) →
        ActsAs c file lexed (close_round_at greatest_depth c (expression_of operand.expr) (list_frame entries.at entries.listing (expressions_of entries.operands.list) ∷ stack_of below) (behind file lexed (i - 1)) (behind file lexed i)) below result }
{
    match entries.listing {
        Listing::Call(_) => end_list(entries, operand, i),
        Listing::Literal => Err(Stop::Refused(i.saturating_sub(1))),
    }
}

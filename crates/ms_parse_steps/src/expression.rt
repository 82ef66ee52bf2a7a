ghost use Rattle.std.specs.Prelude.{◌≡◌, ◌≢◌, ℕ, List, ◌-◌};
ghost use Rattle.ms_text.specs.TokenList.{Lexed};
ghost use Rattle.ms_parse_grammar.specs.Grammar.{depth, prefix_level, greatest_depth};
ghost use Rattle.ms_parse_grammar.specs.Tree.{no_parts, no_variables};
ghost use Rattle.ms_parse_steps.specs.inner.Machine as machine;
ghost use Rattle.ms_parse_steps.specs.inner.Machine.{Context, wanted, holding, begin, begin_binding, part_wanted, step, took, variable_wanted};
ghost use Rattle.ms_parse_steps.specs.inner.Outcomes.{ActsAs, outcome_of};
ghost use Rattle.ms_parse_grammar.specs.Reads.{place};
ghost use Rattle.ms_parse_steps.specs.inner.Terminals.{symbol_with, behind};
ghost use Rattle.ms_parse_steps.specs.inner.Stack.{stack_of};
ghost use Rattle.ms_parse_grammar.specs.Symbol.{prefix_operator, open_round};
ghost use Rattle.ms_parse_grammar.specs.View.{form_of};
ghost use Rattle.ms_parse_steps.specs.declared.frame.Frame.{Frame};
ghost use Rattle.ms_parse_steps.specs.declared.terminal.Terminal.TheVariants as terminals;

use crate::complete::finish;
use crate::enter::{begin_frame, has_room};
use crate::frame::Frame;
use crate::input::Input;
use crate::operand::{Binder, Bounds, Locals, Parts};
use crate::outcome::{Outcome, Taken};
use crate::stop::Stop;
use crate::terminal::Terminal;
use crate::top::need;
use ms_list::{At, List};
use ms_logic::{Form, Order, Quant};
use ms_parse_grammar::{Bracket, Listing, Prefix};
use std::alloc::Global;

fn begin_atom(at: At, form: Form, i: u32) -> Taken
    requires measured { depth (form_of form at) ≡ 1 }
    requires begins { place (form_of form at) ≡ at }
    ensures { (c : Context) (file : ℕ) (lexed : Lexed) (frames : List Frame) →
        ActsAs c file lexed (took (holding c (form_of form at) (stack_of frames)) (behind file lexed i)) frames result }
{
    let operand = finish(at, form, 0, i)?;
    Ok((Outcome::Holding(operand), i))
}

fn begin_bracket(stack: &mut Vec<Frame>, at: At, i: u32) -> Taken
    ensures { (c : Context) (file : ℕ) (lexed : Lexed) →
        ActsAs c file lexed (begin greatest_depth c (stack_of stack.old.items) at open_round (behind file lexed (i - 1)) (behind file lexed i)) stack.new.items result }
{
    let frame = Frame::Bracket(at, Bracket::Parentheses);
    begin_frame(stack, frame, i)
}

fn level_of(op: Prefix) -> u32
    ensures { result ≡ prefix_level op }
{
    match op {
        Prefix::Negation => 4,
        Prefix::Minimum => 10,
        Prefix::Maximum => 10,
    }
}

fn begin_prefix(stack: &mut Vec<Frame>, at: At, op: Prefix, i: u32) -> Taken
    ensures { (c : Context) (file : ℕ) (lexed : Lexed) →
        ActsAs c file lexed (begin greatest_depth c (stack_of stack.old.items) at (prefix_operator op) (behind file lexed (i - 1)) (behind file lexed i)) stack.new.items result }
{
    if need(stack) > level_of(op) {
        return Err(Stop::Refused(i.saturating_sub(1)));
    }
    let frame = Frame::Prefix(at, op);
    begin_frame(stack, frame, i)
}

/// A quantifier wants its first variable.
fn first_variable(alloc: Global, at: At, quant: Quant, order: Order) -> Outcome
    ensures { (c : Context) (st : List machine.Frame) → outcome_of c st result ≡ variable_wanted c st at quant order no_variables }
{
    let bounds = Bounds {
        list: List::new(alloc),
        height: 0,
    };
    Outcome::Variable(Binder {
        at,
        quant,
        order,
        bounds,
    })
}

/// A `let` wants its first part.
fn first_part(alloc: Global, at: At, order: Order) -> Outcome
    ensures { (c : Context) (st : List machine.Frame) → outcome_of c st result ≡ part_wanted c st at order no_parts }
{
    let parts = Parts {
        list: List::new(alloc),
        height: 0,
    };
    Outcome::Part(Locals { at, order, parts })
}

/// A quantifier or a `let` begins an expression, and wants what the outcome says.
fn begin_binding(stack: &[Frame], outcome: Outcome, i: u32) -> Taken
    ensures { (c : Context) (file : ℕ) (lexed : Lexed) →
        ActsAs c file lexed (begin_binding greatest_depth (stack_of stack.now) (outcome_of c (stack_of stack.now) outcome) (behind file lexed (i - 1)) (behind file lexed i)) stack.now result }
{
    if need(stack) > 4 {
        return Err(Stop::Refused(i.saturating_sub(1)));
    }
    if !has_room(stack) {
        return Err(Stop::TooDeep(i.saturating_sub(1)));
    }
    Ok((outcome, i))
}

impl Input<'_> {
    /// A symbol other than a name begins an expression.
    fn begin_terminal(self, stack: &mut Vec<Frame>, at: At, terminal: Terminal, i: u32) -> Taken
        ensures { (c : Context) (bytes : List ℕ) → terminal ≢ terminals.Name →
            ActsAs c self.entry.file self.entry.tokens.now (begin greatest_depth c (stack_of stack.old.items) at (symbol_with terminal bytes) (behind self.entry.file self.entry.tokens.now (i - 1)) (behind self.entry.file self.entry.tokens.now i)) stack.new.items result }
    {
        match terminal {
            Terminal::True => begin_atom(at, Form::True, i),
            Terminal::False => begin_atom(at, Form::False, i),
            Terminal::Dollar => begin_atom(at, Form::Whole, i),
            Terminal::Number(number) => begin_atom(at, Form::Number(number), i),
            Terminal::Empty => self.begin_empty(stack, at, i),
            Terminal::Pconst => self.begin_pconst(stack, at, i),
            Terminal::Import => self.begin_import(stack, at, i),
            Terminal::Restrict => self.begin_restrict(stack, at, i),
            Terminal::Export => self.begin_export(stack, at, i),
            Terminal::OpenCurly => self.begin_list(stack, at, Listing::Literal, i),
            Terminal::OpenRound => begin_bracket(stack, at, i),
            Terminal::Prefix(op) => begin_prefix(stack, at, op, i),
            Terminal::Quantifier(quant, order) => {
                let outcome = first_variable(self.alloc, at, quant, order);
                begin_binding(stack, outcome, i)
            }
            Terminal::Let(order) => {
                let outcome = first_part(self.alloc, at, order);
                begin_binding(stack, outcome, i)
            }
            _ => Err(Stop::Refused(i.saturating_sub(1))),
        }
    }

    /// A step where an expression is wanted.
    pub fn begin(self, stack: &mut Vec<Frame>, i: u32) -> Taken
        ensures { (c : Context) →
            ActsAs c self.entry.file self.entry.tokens.now (step greatest_depth (wanted c (stack_of stack.old.items)) (behind self.entry.file self.entry.tokens.now i)) stack.new.items result }
    {
        if let Some((name, at)) = self.name_at(i)? {
            return self.begin_name(stack, at, name, i + 1);
        }
        let Some((terminal, at)) = self.terminal_at(i) else {
            return Err(Stop::Refused(i));
        };
        self.begin_terminal(stack, at, terminal, i + 1)
    }
}

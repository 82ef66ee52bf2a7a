ghost use Rattle.std.specs.Prelude.{◌≡◌, ◌+◌, ◌<◌, [], ℕ, List, IfNone, IfOk, IfSome};
ghost use Rattle.ms_text.specs.TokenList.{Lexed};
ghost use Rattle.ms_parse_grammar.specs.Symbol.{name};
ghost use Rattle.ms_parse_grammar.specs.Tree.{no_variables};
ghost use Rattle.ms_parse_grammar.specs.View.{document_of};
ghost use Rattle.ms_parse_steps.specs.inner.Machine.{begin_constant, begin_default, begin_include, behind_predicate, begin_predicate, global_wanted, in_formula, next_summand, outside, step, wanted, took};
ghost use Rattle.ms_parse_steps.specs.inner.Goals.{BeginsGoal, IsNoGoal};
ghost use Rattle.ms_parse_steps.specs.inner.Terminals.{behind, IsNext};
ghost use Rattle.ms_parse_steps.specs.inner.Configurations.{head_of, StepsAs};
ghost use Rattle.ms_parse_steps.specs.declared.parser.Parser.{Parser};
ghost use Rattle.ms_parse_grammar.specs.Grammar.{greatest_depth};

use crate::configuration::{Configuration, Step};
use crate::context::{Constant, Context, Globals, Signature};
use crate::declare::inside;
use crate::input::{Input, name_with};
use crate::memory::push;
use crate::parser::Parser;
use crate::punctuation::Punctuation;
use crate::stop::Stop;
use crate::terminal::Terminal;
use ms_list::{At, List, NoMemory, Text};
use ms_logic::{Decl, Order};
use std::alloc::Global;

impl Input<'_> {
    /// `const` begins a declaration.
    fn begin_constant(self, at: At, i: u32) -> Step
        ensures { (parser : Parser) →
            StepsAs self.entry.file self.entry.tokens.now (begin_constant (document_of parser.source) at (behind self.entry.file self.entry.tokens.now i)) parser result }
    {
        let Some((name, at_name)) = self.name_at(i)? else {
            return Err(Stop::Refused(i));
        };
        let Some(from) = self.behind_mark(i + 1, Punctuation::Equal) else {
            return Err(Stop::Refused(i + 1));
        };
        let Some((number, next)) = self.int_at(from, false)? else {
            return Err(Stop::Refused(from));
        };
        let mut sum = List::new(self.alloc);
        push(&mut sum, number)?;
        let constant = Constant {
            at,
            at_name,
            name,
            sum,
        };
        Ok((Configuration::Summand(constant), next))
    }

    /// A terminal and a number of a constant, or its end, where these are wanted.
    pub fn next_summand(self, parser: &mut Parser, mut constant: Constant, i: u32) -> Step
        ensures { StepsAs self.entry.file self.entry.tokens.now (next_summand (document_of parser.old.source) constant.at constant.at_name constant.name constant.sum (behind self.entry.file self.entry.tokens.now i)) parser.new result }
    {
        let Some((terminal, _)) = self.terminal_at(i) else {
            return Err(Stop::Refused(i));
        };
        match terminal {
            Terminal::Semicolon => {
                let decl = Decl::Const(constant.at_name, constant.name, constant.sum);
                parser.declared(constant.at, decl, i + 1)
            }
            Terminal::Shift(minus) => {
                let Some((number, next)) = self.int_at(i + 1, minus)? else {
                    return Err(Stop::Refused(i + 1));
                };
                push(&mut constant.sum, number)?;
                Ok((Configuration::Summand(constant), next))
            }
            _ => Err(Stop::Refused(i)),
        }
    }

    /// What stands behind the name of a predicate.
    fn behind_predicate(self, parser: &mut Parser, signature: Signature, i: u32) -> Step
        requires { signature.parameters ≡ [] }
        ensures { StepsAs self.entry.file self.entry.tokens.now (behind_predicate (document_of parser.old.source) (head_of signature) (behind self.entry.file self.entry.tokens.now i)) parser.new result }
    {
        if let Some(next) = self.behind_mark(i, Punctuation::Equal) {
            return parser.begin_expression(Context::Predicate(signature), next);
        }
        let Some(inside) = self.behind_mark(i, Punctuation::OpenRound) else {
            return Err(Stop::Refused(i));
        };
        if let Some(next) = self.behind_mark(inside, Punctuation::CloseRound) {
            return self.body_of(parser, signature, next);
        }
        Ok((Configuration::Parameter(signature), inside))
    }

    /// `pred` or `macro` begins a declaration.
    fn begin_predicate(self, parser: &mut Parser, at: At, is_pred: bool, i: u32) -> Step
        ensures { StepsAs self.entry.file self.entry.tokens.now (begin_predicate (document_of parser.old.source) at is_pred (behind self.entry.file self.entry.tokens.now i)) parser.new result }
    {
        let Some((name, at_name)) = self.name_at(i)? else {
            return Err(Stop::Refused(i));
        };
        let signature = Signature {
            at,
            is_pred,
            at_name,
            name,
            parameters: List::new(self.alloc),
        };
        self.behind_predicate(parser, signature, i + 1)
    }

    /// `include` begins a declaration.
    fn begin_include(self, parser: &mut Parser, at: At, i: u32) -> Step
        ensures { StepsAs self.entry.file self.entry.tokens.now (begin_include (document_of parser.old.source) at (behind self.entry.file self.entry.tokens.now i)) parser.new result }
    {
        let Some((text, at_text)) = self.text_at(i)? else {
            return Err(Stop::Refused(i));
        };
        let Some(next) = self.behind_mark(i + 1, Punctuation::Semicolon) else {
            return Err(Stop::Refused(i + 1));
        };
        parser.declared(at, Decl::Include(at_text, text), next)
    }

    /// `defaultwhere1` or `defaultwhere2` begins a declaration.
    fn begin_default(self, parser: &mut Parser, at: At, order: Order, i: u32) -> Step
        ensures { StepsAs self.entry.file self.entry.tokens.now (begin_default (document_of parser.old.source) at order (behind self.entry.file self.entry.tokens.now i)) parser.new result }
    {
        let Some(inside) = self.behind_mark(i, Punctuation::OpenRound) else {
            return Err(Stop::Refused(i));
        };
        let Some((name, _)) = self.name_at(inside)? else {
            return Err(Stop::Refused(inside));
        };
        let Some(end) = self.behind_mark(inside + 1, Punctuation::CloseRound) else {
            return Err(Stop::Refused(inside + 1));
        };
        let Some(next) = self.behind_mark(end, Punctuation::Equal) else {
            return Err(Stop::Refused(end));
        };
        parser.begin_expression(Context::Default(at, order, name), next)
    }

    /// The title behind the name `goal`, and its place, where the token with a number is that name and a text follows.
    fn title_at(self, i: u32) -> Result<Option<(Text, At)>, NoMemory>
        ensures next { IfOk result (λ found. IfSome found (λ one. BeginsGoal self.entry.file self.entry.tokens.now i one.0 one.1)) }
        ensures within { IfOk result (λ found. IfSome found (λ one. i + 1 < 67108864)) }
        ensures other { IfOk result (λ found. IfNone found (IsNoGoal (behind self.entry.file self.entry.tokens.now i))) }
    {
        match name_with(self.tokens, self.file, i, b"goal") {
            Some(_) => self.text_at(i + 1),
            None => Ok(None),
        }
    }

    /// A formula begins a declaration.
    fn begin_formula(self, parser: &mut Parser, at: At, i: u32) -> Step
        ensures { StepsAs self.entry.file self.entry.tokens.now (step greatest_depth (wanted (in_formula (document_of parser.old.source) at) []) (behind self.entry.file self.entry.tokens.now i)) parser.new result }
    {
        parser.stack.clear();
        let taken = self.begin(&mut parser.stack, i);
        inside(Context::Formula(at), taken)
    }

    /// A name begins a declaration.
    fn begin_named(self, parser: &mut Parser, at: At, i: u32) -> Step
        ensures { (n : List ℕ) → IsNext self.entry.file self.entry.tokens.now i (name n) at →
            StepsAs self.entry.file self.entry.tokens.now (step greatest_depth (outside (document_of parser.old.source)) (behind self.entry.file self.entry.tokens.now i)) parser.new result }
    {
        match self.title_at(i)? {
            Some((title, at_title)) => {
                parser.begin_expression(Context::Goal(at, at_title, title), i + 2)
            }
            None => self.begin_formula(parser, at, i),
        }
    }
}

/// `var0`, `var1` or `var2` begins a declaration.
fn begin_globals(alloc: Global, at: At, order: Order, i: u32) -> Step
    ensures { (file : ℕ) (lexed : Lexed) (parser : Parser) →
        StepsAs file lexed (took (global_wanted (document_of parser.source) at order no_variables) (behind file lexed i)) parser result }
{
    let list = List::new(alloc);
    Ok((Configuration::Global(Globals { at, order, list }), i))
}

impl Input<'_> {
    /// A declaration begins, where there is another symbol.
    pub fn begin_declaration(self, parser: &mut Parser, i: u32) -> Step
        ensures { StepsAs self.entry.file self.entry.tokens.now (step greatest_depth (outside (document_of parser.old.source)) (behind self.entry.file self.entry.tokens.now i)) parser.new result }
    {
        let Some((terminal, at)) = self.terminal_at(i) else {
            return Err(Stop::Refused(i));
        };
        match terminal {
            Terminal::Variables(order) => begin_globals(self.alloc, at, order, i + 1),
            Terminal::Const => self.begin_constant(at, i + 1),
            Terminal::Predicate(is_pred) => { self.begin_predicate(parser, at, is_pred, i + 1) }
            Terminal::Include => self.begin_include(parser, at, i + 1),
            Terminal::Default(order) => self.begin_default(parser, at, order, i + 1),
            Terminal::Name => self.begin_named(parser, at, i),
            _ => self.begin_formula(parser, at, i),
        }
    }
}

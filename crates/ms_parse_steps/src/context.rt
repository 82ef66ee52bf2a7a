ghost use Rattle.std.specs.Prelude.{[], ℕ, Bool, List, ◌-◌};
ghost use Rattle.ms_text.specs.TokenList.{Lexed};
ghost use Rattle.ms_parse_grammar.specs.Grammar.{greatest_depth};
ghost use Rattle.ms_parse_grammar.specs.View.{document_of, expression_of};
ghost use Rattle.ms_parse_steps.specs.inner.Ends.{IsEnd};
ghost use Rattle.ms_parse_steps.specs.inner.Followed.{settled};
ghost use Rattle.ms_parse_steps.specs.inner.Machine.{close_round_at, comma_at, semicolon_at};
ghost use Rattle.ms_parse_steps.specs.inner.Terminals.{behind, symbol_with};
ghost use Rattle.ms_parse_steps.specs.inner.Configurations.{StepsAs, context_of};
ghost use Rattle.ms_parse_steps.specs.declared.parser.Parser.{Parser};

use crate::configuration::Step;
use crate::followed::Followed;
use crate::globals::another_global;
use crate::input::Input;
use crate::memory::boxed;
use crate::operand::Identifier;
use crate::parameters::another_parameter;
use crate::parser::Parser;
use crate::stop::Stop;
use crate::terminal::Terminal;
use ms_list::{At, List, Name, Text};
use ms_logic::{Bound, Decl, Expr, Order, PlacedInt};
use std::alloc::Global;

/// A constant whose declaration has been begun: the place of its word, its name, and its numbers so far.
#[derive(Drop)]
pub struct Constant {
    pub at: At,
    pub at_name: At,
    pub name: Name,
    pub sum: List<PlacedInt>,
}

/// A declaration of variables that has been begun: the place of its word, and the variables so far.
#[derive(Drop)]
pub struct Globals {
    pub at: At,
    pub order: Order,
    pub list: List<Bound>,
}

/// A predicate or a macro that has been begun: the place of its word, its name, and its parameters so far.
#[derive(Drop)]
pub struct Signature {
    pub at: At,
    pub is_pred: bool,
    pub at_name: At,
    pub name: Name,
    pub parameters: List<Bound>,
}

/// A parameter that has been begun behind those of a predicate or a macro: its order and its name.
#[derive(Drop)]
pub struct Parameter {
    pub signature: Signature,
    pub order: Order,
    pub variable: Identifier,
}

/// A declaration of which an expression has been begun.
pub enum Context {
    Formula(At),
    /// The restriction of a variable, with its name.
    Global(Globals, Identifier),
    /// The restriction of a parameter.
    Parameter(Parameter),
    /// The body of a predicate or a macro.
    Predicate(Signature),
    /// A default restriction of an order, with its parameter.
    Default(At, Order, Name),
    /// A goal: the places of `goal` and of its title, and the title.
    Goal(At, At, Text),
}

impl Drop for Context {
    fn drop(self) {
        match self {
            Context::Formula(_) => {}
            Context::Global(globals, variable) => {
                drop(globals);
                drop(variable)
            }
            Context::Parameter(parameter) => drop(parameter),
            Context::Predicate(signature) => drop(signature),
            Context::Default(_, _, name) => drop(name),
            Context::Goal(_, _, title) => drop(title),
        }
    }
}

impl Context {
    /// `;` behind the expression of a declaration.
    fn semicolon(self, alloc: Global, parser: &mut Parser, expr: Expr, i: u32) -> Step
        ensures { (file : ℕ) (lexed : Lexed) →
            StepsAs file lexed (semicolon_at (context_of (document_of parser.old.source) self) (expression_of expr) [] (behind file lexed (i - 1)) (behind file lexed i)) parser.new result }
    {
        match self {
            Context::Formula(at) => parser.declared(at, Decl::Formula(expr), i),
            Context::Global(globals, variable) => {
                let domain = boxed(alloc, expr)?;
                parser.last_global(globals, variable, Some(domain), i)
            }
            Context::Parameter(_) => Err(Stop::Refused(i.saturating_sub(1))),
            Context::Predicate(signature) => {
                let decl = Decl::Pred(
                    signature.is_pred,
                    signature.at_name,
                    signature.name,
                    signature.parameters,
                    expr,
                );
                parser.declared(signature.at, decl, i)
            }
            Context::Default(at, order, name) => {
                parser.declared(at, Decl::Default(order, name, expr), i)
            }
            Context::Goal(at, at_title, title) => {
                parser.declared(at, Decl::Goal(at_title, title, expr), i)
            }
        }
    }

    /// `,` behind the expression of a declaration.
    fn comma(self, alloc: Global, expr: Expr, i: u32) -> Step
        ensures { (file : ℕ) (lexed : Lexed) (parser : Parser) →
            StepsAs file lexed (comma_at greatest_depth (context_of (document_of parser.source) self) (expression_of expr) [] (behind file lexed (i - 1)) (behind file lexed i)) parser result }
    {
        let domain = boxed(alloc, expr)?;
        match self {
            Context::Global(globals, variable) => {
                another_global(globals, variable, Some(domain), i)
            }
            Context::Parameter(parameter) => another_parameter(parameter, Some(domain), i),
            _ => Err(Stop::Refused(i.saturating_sub(1))),
        }
    }

    /// `)` behind the expression of a declaration.
    fn close_round(self, input: Input<'_>, parser: &mut Parser, expr: Expr, i: u32) -> Step
        ensures { StepsAs input.entry.file input.entry.tokens.now (close_round_at greatest_depth (context_of (document_of parser.old.source) self) (expression_of expr) [] (behind input.entry.file input.entry.tokens.now (i - 1)) (behind input.entry.file input.entry.tokens.now i)) parser.new result }
    {
        match self {
            Context::Parameter(parameter) => {
                let domain = boxed(input.alloc, expr)?;
                input.last_parameter(parser, parameter, Some(domain), i)
            }
            _ => Err(Stop::Refused(i.saturating_sub(1))),
        }
    }

    /// What ends the expression of a declaration.
    pub fn end_expression(self, input: Input<'_>, parser: &mut Parser, followed: Followed) -> Step
        ensures { (bytes : List ℕ) (inside : Bool) → IsEnd inside (symbol_with followed.terminal bytes) →
            StepsAs input.entry.file input.entry.tokens.now (settled input.entry.file input.entry.tokens.now (context_of (document_of parser.old.source) self) bytes inside followed []) parser.new result }
    {
        let expr = followed.operand.expr;
        let next = followed.next;
        match followed.terminal {
            Terminal::Semicolon => self.semicolon(input.alloc, parser, expr, next),
            Terminal::Comma => self.comma(input.alloc, expr, next),
            Terminal::CloseRound => self.close_round(input, parser, expr, next),
            _ => Err(Stop::Refused(next.saturating_sub(1))),
        }
    }
}

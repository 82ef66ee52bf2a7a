ghost use Rattle.std.specs.Prelude.{[], ℕ};
ghost use Rattle.ms_text.specs.TokenList.{Lexed};
ghost use Rattle.ms_parse_grammar.specs.View.{declaration_of, document_of};
ghost use Rattle.ms_parse_steps.specs.inner.Machine.{Move, declare, outside, wanted, took};
ghost use Rattle.ms_parse_steps.specs.inner.Outcomes.{ActsAs};
ghost use Rattle.ms_parse_steps.specs.inner.Terminals.{behind};
ghost use Rattle.ms_parse_steps.specs.inner.Configurations.{StepsAs, context_of};
ghost use Rattle.ms_parse_steps.specs.declared.parser.Parser.{Parser};

use crate::configuration::{Configuration, Step};
use crate::context::Context;
use crate::memory::push;
use crate::outcome::{Outcome, Taken};
use crate::parser::Parser;
use ms_list::At;
use ms_logic::{Decl, Item};

impl Parser {
    /// A declaration has ended.
    pub fn declared(&mut self, at: At, decl: Decl, i: u32) -> Step
        ensures { (file : ℕ) (lexed : Lexed) →
            StepsAs file lexed (took (outside (declare (document_of self.old.source) at (declaration_of decl))) (behind file lexed i)) self.new result }
    {
        push(&mut self.source.items, Item { at, decl })?;
        Ok((Configuration::Outside, i))
    }

    /// An expression of a declaration is wanted.
    pub fn begin_expression(&mut self, context: Context, i: u32) -> Step
        ensures { (file : ℕ) (lexed : Lexed) →
            StepsAs file lexed (took (wanted (context_of (document_of self.old.source) context) []) (behind file lexed i)) self.new result }
    {
        self.stack.clear();
        Ok((Configuration::Expression(context, Outcome::Wanted), i))
    }
}

/// A step in an expression of a declaration.
pub fn inside(context: Context, taken: Taken) -> Step
    ensures { (file : ℕ) (lexed : Lexed) (step : Move) (parser : Parser) →
        ActsAs (context_of (document_of parser.source) context) file lexed step parser.stack.items taken → StepsAs file lexed step parser result }
{
    let (outcome, next) = taken?;
    Ok((Configuration::Expression(context, outcome), next))
}

ghost use Rattle.std.specs.Prelude.{[], ℕ, Bool, List, ◌-◌};
ghost use Rattle.ms_text.specs.TokenList.{Lexed};
ghost use Rattle.ms_parse_grammar.specs.Tree.{and_variable, variables};
ghost use Rattle.ms_parse_grammar.specs.View.{document_of, domain_of, variables_of};
ghost use Rattle.ms_parse_steps.specs.inner.Ends.{IsEnd};
ghost use Rattle.ms_parse_steps.specs.inner.Followed.{settled};
ghost use Rattle.ms_parse_steps.specs.inner.Machine.{behind_global, declare, global_wanted, in_global, next_global, outside, took};
ghost use Rattle.ms_parse_steps.specs.inner.Terminals.{behind, symbol_with};
ghost use Rattle.ms_parse_steps.specs.inner.Configurations.{StepsAs};
ghost use Rattle.ms_parse_steps.specs.declared.parser.Parser.{Parser};

use crate::configuration::{Configuration, Step};
use crate::context::{Context, Globals};
use crate::followed::Followed;
use crate::input::Input;
use crate::lists::push_variable;
use crate::memory::boxed;
use crate::operand::Identifier;
use crate::parser::Parser;
use crate::stop::Stop;
use crate::terminal::Terminal;
use ms_list::Boxed;
use ms_logic::{Decl, Expr};
use std::alloc::Global;

/// A comma behind a variable that is declared.
pub fn another_global(
    mut globals: Globals,
    variable: Identifier,
    domain: Option<Boxed<Expr>>,
    i: u32,
) -> Step
    ensures { (file : ℕ) (lexed : Lexed) (parser : Parser) →
        StepsAs file lexed (took (global_wanted (document_of parser.source) globals.at globals.order (and_variable (variables_of globals.list) variable.at globals.order variable.name (domain_of domain))) (behind file lexed i)) parser result }
{
    push_variable(&mut globals.list, globals.order, variable, domain)?;
    Ok((Configuration::Global(globals), i))
}

impl Parser {
    /// The end behind the last variable of a declaration.
    pub fn last_global(
        &mut self,
        mut globals: Globals,
        variable: Identifier,
        domain: Option<Boxed<Expr>>,
        i: u32,
    ) -> Step
        ensures { (file : ℕ) (lexed : Lexed) →
            StepsAs file lexed (took (outside (declare (document_of self.old.source) globals.at (variables (and_variable (variables_of globals.list) variable.at globals.order variable.name (domain_of domain))))) (behind file lexed i)) self.new result }
    {
        push_variable(&mut globals.list, globals.order, variable, domain)?;
        self.declared(globals.at, Decl::Vars(globals.list), i)
    }

    /// What stands behind a variable that is declared.
    fn behind_global(
        &mut self,
        globals: Globals,
        variable: Identifier,
        terminal: Terminal,
        i: u32,
    ) -> Step
        ensures { (file : ℕ) (lexed : Lexed) (bytes : List ℕ) →
            StepsAs file lexed (behind_global (document_of self.old.source) globals.at globals.order (variables_of globals.list) variable.at variable.name (symbol_with terminal bytes) (behind file lexed (i - 1)) (behind file lexed i)) self.new result }
    {
        match terminal {
            Terminal::Where => self.begin_expression(Context::Global(globals, variable), i),
            Terminal::Comma => another_global(globals, variable, None, i),
            Terminal::Semicolon => self.last_global(globals, variable, None, i),
            _ => Err(Stop::Refused(i.saturating_sub(1))),
        }
    }
}

impl Input<'_> {
    /// A variable that is declared and what stands behind it, where a variable is wanted.
    pub fn next_global(self, parser: &mut Parser, globals: Globals, i: u32) -> Step
        ensures { StepsAs self.entry.file self.entry.tokens.now (next_global (document_of parser.old.source) globals.at globals.order (variables_of globals.list) (behind self.entry.file self.entry.tokens.now i)) parser.new result }
    {
        let Some((name, at_name)) = self.name_at(i)? else {
            return Err(Stop::Refused(i));
        };
        let Some((terminal, _)) = self.terminal_at(i + 1) else {
            return Err(Stop::Refused(i + 1));
        };
        let variable = Identifier { at: at_name, name };
        parser.behind_global(globals, variable, terminal, i + 2)
    }
}

ghost use Rattle.std.specs.Prelude.{◌≡◌, [], ℕ, Bool, List, Option, IfSome, IfNone, IfOk, IfErr, ◌-◌};
ghost use Rattle.ms_text.specs.TokenList.{Lexed};
ghost use Rattle.ms_parse_grammar.specs.Tree.{and_variable};
ghost use Rattle.ms_parse_grammar.specs.View.{document_of, domain_of, variables_of};
ghost use Rattle.ms_parse_steps.specs.inner.Ends.{IsEnd};
ghost use Rattle.ms_parse_steps.specs.inner.Followed.{settled};
ghost use Rattle.ms_parse_steps.specs.inner.Kinds.{last_order, IsKind, NoKind};
ghost use Rattle.ms_parse_steps.specs.inner.Machine.{behind_parameter, body_of, in_parameter, next_parameter, parameter_wanted, took};
ghost use Rattle.ms_parse_steps.specs.inner.Terminals.{behind, symbol_with};
ghost use Rattle.ms_parse_steps.specs.inner.Configurations.{head_of, StepsAs};
ghost use Rattle.ms_parse_steps.specs.declared.parser.Parser.{Parser};
ghost use Rattle.ms_parse_steps.specs.declared.stop.Stop.TheVariants.{Memory};

use crate::configuration::{Configuration, Step};
use crate::context::{Context, Parameter, Signature};
use crate::followed::Followed;
use crate::input::Input;
use crate::lists::push_variable;
use crate::memory::boxed;
use crate::operand::Identifier;
use crate::parser::Parser;
use crate::punctuation::Punctuation;
use crate::stop::Stop;
use crate::terminal::Terminal;
use ms_list::{Boxed, List};
use ms_logic::{Bound, Expr, Order};

impl Input<'_> {
    /// `=` behind the parameters of a predicate.
    pub fn body_of(self, parser: &mut Parser, signature: Signature, i: u32) -> Step
        ensures { StepsAs self.entry.file self.entry.tokens.now (body_of (document_of parser.old.source) (head_of signature) (variables_of signature.parameters) (behind self.entry.file self.entry.tokens.now i)) parser.new result }
    {
        let Some(next) = self.behind_mark(i, Punctuation::Equal) else {
            return Err(Stop::Refused(i));
        };
        parser.begin_expression(Context::Predicate(signature), next)
    }
}

/// The predicate with the parameter behind those before it.
fn with_parameter(parameter: Parameter, domain: Option<Boxed<Expr>>) -> Result<Signature, Stop>
    ensures head { IfOk result (λ made. head_of made ≡ head_of parameter.signature) }
    ensures list { IfOk result (λ made. variables_of made.parameters ≡ and_variable (variables_of parameter.signature.parameters) parameter.variable.at parameter.order parameter.variable.name (domain_of domain)) }
    ensures err { IfErr result (λ stop. stop ≡ Memory) }
{
    let Parameter {
        mut signature,
        order,
        variable,
    } = parameter;
    push_variable(&mut signature.parameters, order, variable, domain)?;
    Ok(signature)
}

/// A comma behind a parameter.
pub fn another_parameter(parameter: Parameter, domain: Option<Boxed<Expr>>, i: u32) -> Step
    ensures { (file : ℕ) (lexed : Lexed) (parser : Parser) →
        StepsAs file lexed (took (parameter_wanted (document_of parser.source) (head_of parameter.signature) (and_variable (variables_of parameter.signature.parameters) parameter.variable.at parameter.order parameter.variable.name (domain_of domain))) (behind file lexed i)) parser result }
{
    Ok((
        Configuration::Parameter(with_parameter(parameter, domain)?),
        i,
    ))
}

impl Input<'_> {
    /// The bracket behind the last parameter.
    pub fn last_parameter(
        self,
        parser: &mut Parser,
        parameter: Parameter,
        domain: Option<Boxed<Expr>>,
        i: u32,
    ) -> Step
        ensures { StepsAs self.entry.file self.entry.tokens.now (body_of (document_of parser.old.source) (head_of parameter.signature) (and_variable (variables_of parameter.signature.parameters) parameter.variable.at parameter.order parameter.variable.name (domain_of domain)) (behind self.entry.file self.entry.tokens.now i)) parser.new result }
    {
        self.body_of(parser, with_parameter(parameter, domain)?, i)
    }

    /// What stands behind a parameter.
    fn behind_parameter(
        self,
        parser: &mut Parser,
        parameter: Parameter,
        terminal: Terminal,
        i: u32,
    ) -> Step
        ensures { (bytes : List ℕ) →
            StepsAs self.entry.file self.entry.tokens.now (behind_parameter (document_of parser.old.source) (head_of parameter.signature) (variables_of parameter.signature.parameters) parameter.order parameter.variable.at parameter.variable.name (symbol_with terminal bytes) (behind self.entry.file self.entry.tokens.now (i - 1)) (behind self.entry.file self.entry.tokens.now i)) parser.new result }
    {
        match terminal {
            Terminal::Where => parser.begin_expression(Context::Parameter(parameter), i),
            Terminal::Comma => another_parameter(parameter, None, i),
            Terminal::CloseRound => self.last_parameter(parser, parameter, None, i),
            _ => Err(Stop::Refused(i.saturating_sub(1))),
        }
    }
}

/// The order of the last parameter.
fn last_order(parameters: &List<Bound>) -> Option<Order>
    ensures { result ≡ last_order (variables_of parameters.now) }
{
    if parameters.is_empty() {
        return None;
    }
    Some(parameters.get(parameters.len() - 1).order)
}

impl Input<'_> {
    /// The order of the parameter that begins at a token, and the number of its name's token.
    fn kind_at(self, parameters: &List<Bound>, i: u32) -> Option<(Order, u32)>
        ensures some { IfSome result (λ found. IsKind (variables_of parameters.now) found.0 (behind self.entry.file self.entry.tokens.now i) (behind self.entry.file self.entry.tokens.now found.1)) }
        ensures none { IfNone result (NoKind (variables_of parameters.now) (behind self.entry.file self.entry.tokens.now i)) }
    {
        if let Some((Terminal::Variables(order), _)) = self.terminal_at(i) {
            return Some((order, i + 1));
        }
        match last_order(parameters) {
            Some(order) => Some((order, i)),
            None => None,
        }
    }

    /// A parameter and what stands behind it, where a parameter is wanted.
    pub fn next_parameter(self, parser: &mut Parser, signature: Signature, i: u32) -> Step
        ensures { StepsAs self.entry.file self.entry.tokens.now (next_parameter (document_of parser.old.source) (head_of signature) (variables_of signature.parameters) (behind self.entry.file self.entry.tokens.now i)) parser.new result }
    {
        let Some((order, from)) = self.kind_at(&signature.parameters, i) else {
            return Err(Stop::Refused(i));
        };
        let Some((name, at_name)) = self.name_at(from)? else {
            return Err(Stop::Refused(from));
        };
        let Some((terminal, _)) = self.terminal_at(from + 1) else {
            return Err(Stop::Refused(from + 1));
        };
        let parameter = Parameter {
            signature,
            order,
            variable: Identifier { at: at_name, name },
        };
        self.behind_parameter(parser, parameter, terminal, from + 2)
    }
}

ghost use Rattle.std.specs.Prelude.{◌≡◌, true, false, None, Some, List, IfOk, IfErr, IsTrue};
ghost use Rattle.ms_parse_grammar.specs.Declarations.{ReadsAs};
ghost use Rattle.ms_parse_grammar.specs.Tree.{Document};
ghost use Rattle.ms_parse_grammar.specs.View.{document_of};
ghost use Rattle.ms_parse_steps.specs.inner.Machine as machine;
ghost use Rattle.ms_parse_steps.specs.inner.Machine.{finished};
ghost use Rattle.ms_parse_steps.specs.inner.Outcomes.{outcome_of};
ghost use Rattle.ms_parse_steps.specs.inner.Stops.{StopsAt};
ghost use Rattle.ms_parse_steps.specs.inner.Terminals.{behind};
ghost use Rattle.ms_parse_steps.specs.inner.Stack.{stack_of};
ghost use Rattle.ms_parse_steps.specs.inner.Configurations.{StepsAs, context_of, configuration_of};
ghost use Rattle.ms_parse_grammar.specs.Grammar.{greatest_depth};

use crate::configuration::{Configuration, Step};
use crate::context::Context;
use crate::declare::inside;
use crate::header::start;
use crate::input::Input;
use crate::outcome::Outcome;
use crate::parser::Parser;
use crate::stop::Stop;
use ms_list::let_go;
use ms_logic::Source;
use ms_text::Tokens;
use std::alloc::Global;

impl Input<'_> {
    /// A step in an expression of a declaration.
    fn step_expression(
        self,
        parser: &mut Parser,
        context: Context,
        outcome: Outcome,
        i: u32,
    ) -> Step
        ensures { StepsAs self.entry.file self.entry.tokens.now (machine.step greatest_depth (outcome_of (context_of (document_of parser.old.source) context) (stack_of parser.old.stack.items) outcome) (behind self.entry.file self.entry.tokens.now i)) parser.new result }
    {
        match outcome {
            Outcome::Wanted => inside(context, self.begin(&mut parser.stack, i)),
            Outcome::Holding(operand) => self.go_on(parser, context, operand, i),
            Outcome::Variable(binder) => {
                inside(context, self.next_variable(&mut parser.stack, binder, i))
            }
            Outcome::Part(locals) => {
                inside(context, self.next_part(&mut parser.stack, locals, i))
            }
            Outcome::Pair(at, text, pairs) => inside(context, self.next_pair(at, text, pairs, i)),
        }
    }

    /// A step.
    fn step(self, parser: &mut Parser, state: Configuration, i: u32) -> Step
        ensures { StepsAs self.entry.file self.entry.tokens.now (machine.step greatest_depth (configuration_of (document_of parser.old.source) (stack_of parser.old.stack.items) state) (behind self.entry.file self.entry.tokens.now i)) parser.new result }
    {
        match state {
            Configuration::Outside => self.begin_declaration(parser, i),
            Configuration::Expression(context, outcome) => {
                self.step_expression(parser, context, outcome, i)
            }
            Configuration::Global(globals) => self.next_global(parser, globals, i),
            Configuration::Parameter(signature) => self.next_parameter(parser, signature, i),
            Configuration::Summand(constant) => self.next_summand(parser, constant, i),
        }
    }

    /// Whether nothing is left behind the last declaration.
    fn is_finished(self, state: &Configuration, i: u32) -> bool
        ensures yes { (d : Document) (st : List machine.Frame) → IsTrue result → finished (configuration_of d st state.now) (behind self.entry.file self.entry.tokens.now i) ≡ Some d }
        ensures no { (d : Document) (st : List machine.Frame) → result ≡ false → finished (configuration_of d st state.now) (behind self.entry.file self.entry.tokens.now i) ≡ None }
    {
        match state {
            Configuration::Outside => self.terminal_at(i).is_none(),
            Configuration::Expression(..) => false,
            Configuration::Global(_) => false,
            Configuration::Parameter(_) => false,
            Configuration::Summand(_) => false,
        }
    }
}

/// Takes the automaton's steps to the end.
pub fn read(alloc: Global, tokens: &Tokens, file: u32) -> Result<Source, Stop>
    ensures ok { IfOk result (λ source. ReadsAs true file tokens.now source) }
    ensures err { IfErr result (StopsAt file tokens.now) }
{
    let input = Input {
        alloc,
        tokens,
        file,
    };
    let (source, mut i) = start(alloc, tokens, file);
    let stack = Vec::new(alloc);
    let mut parser = Parser { source, stack };
    let mut state = Configuration::Outside;
    'steps: while !input.is_finished(&state, i) {
        match input.step(&mut parser, state, i) {
            Ok((next, behind)) => {
                state = next;
                i = behind;
            }
            Err(stop) => return Err(stop),
        }
    }
    let_go(state);
    let Parser { source, .. } = parser;
    Ok(source)
}

ghost use Rattle.std.specs.Prelude.{◌≡◌, ◌⊎◌, true, IfOk, IfErr};
ghost use Rattle.ms_parse_grammar.specs.Declarations.{ReadsAs};
ghost use Rattle.ms_parse.specs.Refused.{IsGrammarFault};

use crate::refuse::refusal_of;
use ms_edge::Refusal;
use ms_logic::Source;
use ms_parse_steps::read;
use ms_text::Tokens;
use std::alloc::Global;

/// The tree that the tokens read as. `file` is the number of their file, which a refusal names.
pub fn parse(alloc: Global, tokens: &Tokens, file: u32) -> Result<Source, Refusal>
    ensures read { IfOk result (λ source. ReadsAs true file tokens.now source) }
    ensures refused { IfErr result (λ refusal. (refusal ≡ Refusal.Memory) ⊎ IsGrammarFault file tokens.now refusal) }
{
    match read(alloc, tokens, file) {
        Ok(source) => Ok(source),
        Err(stop) => Err(refusal_of(alloc, tokens, file, stop)),
    }
}

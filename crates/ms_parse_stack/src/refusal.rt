ghost use Rattle.std.specs.Prelude.{◌≡◌, ◌<◌, length, slice_get, IfSome};
ghost use Rattle.ms_parse_stack.specs.Refused.{refusal_of};

use crate::stop::Stop;
use ms_edge::Refusal;
use ms_list::At;
use ms_text::Tokens;

/// The refusal where the reading stops at the token with a number. `file` is the number of the tokens' file.
pub fn refusal_at(tokens: &Tokens, file: u32, i: u32, stop: Stop) -> Refusal
    requires { i < length tokens.now.tokens }
    ensures { IfSome (slice_get tokens.now.tokens i) (λ token. result ≡ refusal_of stop (record { file = file; place = token.place })) }
{
    let place = tokens.get(i).place;
    let at = At { file, place };
    match stop {
        Stop::Memory => Refusal::Memory,
        Stop::Misplaced => Refusal::Grammar { at },
        Stop::TooDeep => Refusal::Depth { at },
    }
}

/// The refusal where the text ends too early.
pub fn refusal_at_end(tokens: &Tokens, file: u32) -> Refusal
    ensures { result ≡ Refusal.Grammar (record { file = file; place = length tokens.now.bytes }) }
{
    let place = tokens.end();
    let at = At { file, place };
    Refusal::Grammar { at }
}

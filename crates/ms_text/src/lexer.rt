ghost use Rattle.std.specs.Prelude.{◌≡◌, ◌≤◌, ◌<◌, List, ℕ, [], length, drop, IfOk, IfErr, IfSome, IfNone, IsErr, IsOkUnless};
ghost use Rattle.ms_text.specs.Fault.{HasFault, HasFaultBehind, IsCause};
ghost use Rattle.ms_text.specs.Gap.{IsGap};
ghost use Rattle.ms_text.specs.TokenList.{BeginsWith, IsTokenList, place_behind};
ghost use Rattle.ms_text.specs.declared.token.Token.{Token};
ghost use Rattle.ms_text.specs.declared.fault.Cause.{Cause};

use crate::fault::{Cause, Fault};
use crate::gap::gap_length;
use crate::kept::keep;
use crate::scan::token_at;
use crate::token::Token;
use crate::token_list::{MAX_BYTES, Tokens};
use ms_edge::Refusal;
use ms_list::{At, Bytes, List};
use std::alloc::Global;

// The first token from a place on, if there is one.
fn next_token(bytes: &[u8], from: usize) -> Result<Option<Token>, Fault>
    requires { from ≤ length bytes.now }
    ensures token { IfOk result (λ found. IfSome found (λ token.
        BeginsWith from (drop from bytes.now) token (drop (place_behind token) bytes.now))) }
    ensures within { IfOk result (λ found. IfSome found (λ token.
        (from < place_behind token) × (place_behind token ≤ length bytes.now))) }
    ensures end { IfOk result (λ found. IfNone found (IsGap (drop from bytes.now) [])) }
    ensures fault { IfErr result (λ fault. HasFaultBehind [] from (drop from bytes.now) fault.place fault.cause) }
{
    let place = from + gap_length(&bytes[from..]);
    if place == bytes.len() {
        return Ok(None);
    }
    match token_at(&bytes[place..]) {
        Ok((kind, length)) => Ok(Some(Token {
            kind,
            place: place as u64,
            length: length as u64,
        })),
        Err(cause) => Err(Fault { cause, place }),
    }
}

fn refusal_of(file: u32, fault: Fault) -> Refusal
    ensures { (bytes : List ℕ) → HasFault bytes fault.place fault.cause → IsCause file bytes result }
{
    let at = At {
        file,
        place: fault.place as u64,
    };
    match fault.cause {
        Cause::Word(byte) => Refusal::Word { at, byte },
        Cause::NumberTooLarge => Refusal::NumberTooLarge { at },
        Cause::Unclosed => Refusal::Unclosed { at },
    }
}

/// The tokens of a source. `file` is the number of its file, which a refusal names.
pub fn tokens(alloc: Global, bytes: Bytes, file: u32) -> Result<Tokens, Refusal>
    requires { length bytes ≤ MAX_BYTES }
    ensures bytes { IfOk result (λ lexed. lexed.bytes ≡ bytes) }
    ensures tokens { IfOk result (λ lexed. IsTokenList 0 bytes lexed.tokens) }
    ensures refused { IfErr result (IsCause file bytes) }

    // A text that has tokens is refused for want of memory alone, and one that has a fault is always refused.
    ensures accepted { (all : List Token) → IsTokenList 0 bytes all → IsOkUnless result Refusal.Memory }
    ensures faulty { (at : ℕ) (cause : Cause) → HasFault bytes at cause → IsErr result }
{
    let mut all = List::new(alloc);
    let mut from = 0;
    loop {
        match next_token(bytes.slice(), from) {
            Ok(Some(token)) => {
                from = (token.place + token.length) as usize;
                if all.push(keep(token)).is_err() {
                    return Err(Refusal::Memory);
                }
            }
            Ok(None) => return Ok(Tokens { bytes, kept: all }),
            Err(fault) => return Err(refusal_of(file, fault)),
        }
    }
}

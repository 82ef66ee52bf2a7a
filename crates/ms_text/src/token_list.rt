ghost use Rattle.std.specs.Prelude.{◌≡◌, ◌+◌, ◌<◌, ◌≤◌, length, slice_get, IfSome};
ghost use Rattle.ms_text.specs.Spelling.{Spells};
ghost use Rattle.ms_text.specs.TokenList.{IsTokenList, slice_of, place_behind};

use crate::kept::{Kept, kind_with};
use crate::token::Token;
use ms_list::{Bytes, List};
use std::marker::Model;

/// The most bytes that a source may have.
pub const MAX_BYTES: usize = 67_108_864;

/// A source's bytes and its tokens.
#[derive(Drop)]
pub struct Tokens {
    pub(crate) bytes: Bytes,
    pub(crate) kept: List<Kept>,
}

impl Model for Tokens {
    ghost use Rattle.std.specs.Prelude.{◌≤◌, length};
    ghost use Rattle.ms_text.specs.TokenList.{Lexed, IsTokenList};
    ghost use Rattle.ms_text.specs.inner.Kept.{tokens_in};
    ghost use Rattle.ms_text.specs.declared.token_list.TheConstants.{MAX_BYTES};

    ghost Value = { Lexed };

    ghost view = { λ t. record { bytes = t.bytes; tokens = tokens_in t.bytes t.kept } };

    ghost invariant = { λ t. IsTokenList 0 t.bytes (tokens_in t.bytes t.kept) × (length t.bytes ≤ MAX_BYTES) };
}

impl Tokens {
    /// How many tokens there are.
    pub fn len(&self) -> u32
        ensures len { result ≡ length self.now.tokens }
        ensures bound { result ≤ MAX_BYTES }
        ensures tokens { IsTokenList 0 self.now.bytes self.now.tokens }
    {
        self.kept.len() as u32
    }

    /// How many bytes the source has.
    pub fn end(&self) -> u64
        ensures end { result ≡ length self.now.bytes }
        ensures bound { result ≤ MAX_BYTES }
    {
        self.bytes.len() as u64
    }

    /// The token at a place in the list, from 0.
    pub fn get(&self, i: u32) -> Token
        requires { i < length self.now.tokens }
        ensures token { slice_get self.now.tokens i ≡ Some result }
        ensures within { place_behind result ≤ length self.now.bytes }
    {
        let kept = *self.kept.get(i as usize);
        Token {
            kind: kind_with(kept.kind, self.slice(i)),
            place: u64::from(kept.place),
            length: u64::from(kept.length),
        }
    }

    /// The bytes of the token at a place in the list.
    pub fn slice(&self, i: u32) -> &[u8]
        requires { i < length self.now.tokens }
        ensures slice { IfSome (slice_get self.now.tokens i) (λ token. result.now ≡ slice_of self.now token) }
        ensures spelled { IfSome (slice_get self.now.tokens i) (λ token. Spells token.kind result.now) }
    {
        let kept = self.kept.get(i as usize);
        let from = kept.place as usize;
        &self.bytes.slice()[from..from + kept.length as usize]
    }
}

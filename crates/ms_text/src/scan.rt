ghost use Rattle.std.specs.Prelude.{◌≡◌, ◌≢◌, ◌≤◌, ◌<◌, ◌^◌, ◌↔◌, false, length, slice_index, IsTrue, IfSome, IfNone, IfOk, IfErr};
ghost use Rattle.std.specs.Char.{is_ascii_digit};
ghost use Rattle.std.specs.List.{prefix_len, list_all};
ghost use Rattle.std.specs.Str.{byte};
ghost use Rattle.std.specs.Str.Parse.{digits_value};
ghost use Rattle.ms_text.specs.Fault.{IsFault};
ghost use Rattle.ms_text.specs.Gap.{BeginsNoPiece};
ghost use Rattle.ms_text.specs.Spelling.{is_name_start, is_name_byte, is_text_byte, is_identifier, Spells, IsAccepted, BeginsWithToken};

use crate::fault::Cause;
use crate::keyword::{is_left_out, word_of};
use crate::mark::mark_at;
use crate::token::Kind;

fn is_name_start(byte: u8) -> bool
    ensures { result ≡ is_name_start byte }
{
    byte.is_ascii_alphabetic() || byte == b'_'
}

fn is_name_byte(byte: u8) -> bool
    ensures { result ≡ is_name_byte byte }
{
    is_name_start(byte) || byte.is_ascii_digit() || byte == b'\''
}

/// How many bytes at the beginning may stand in a name.
pub fn name_length(rest: &[u8]) -> usize
    ensures run { result ≡ prefix_len is_name_byte rest.now }
    ensures within { result ≤ length rest.now }
{
    rest.iter().take_while(|byte| is_name_byte(**byte)).count()
}

fn digits_length(rest: &[u8]) -> usize
    ensures run { result ≡ prefix_len is_ascii_digit rest.now }
    ensures within { result ≤ length rest.now }
{
    rest.iter().take_while(|byte| byte.is_ascii_digit()).count()
}

// How many bytes stand before the next quote or line feed, or the end.
fn content_length(rest: &[u8]) -> usize
    ensures run { result ≡ prefix_len is_text_byte rest.now }
    ensures within { result ≤ length rest.now }
{
    rest.iter()
        .take_while(|byte| **byte != b'"' && **byte != b'\n')
        .count()
}

fn are_name_bytes(bytes: &[u8]) -> bool
    ensures { result ≡ list_all is_name_byte bytes.now }
{
    bytes.iter().all(|byte| is_name_byte(*byte))
}

// Whether these bytes are a letter or `_`, and then letters, digits, `_` and `'`.
fn is_identifier(bytes: &[u8]) -> bool
    ensures { result ≡ is_identifier bytes.now }
{
    match bytes {
        [first, more @ ..] => is_name_start(*first) && are_name_bytes(more),
        [] => false,
    }
}

/// Whether these bytes are a name: an identifier that is no word of the language and no word that is left out.
pub fn is_name(bytes: &[u8]) -> bool
    ensures { IsTrue result ↔ Spells Kind.Name bytes.now }
{
    is_identifier(bytes) && word_of(bytes).is_none() && !is_left_out(bytes)
}

// What a name or a word is.
fn identifier_kind(slice: &[u8]) -> Kind
    requires { IsTrue (is_identifier slice.now) }
    ensures spelled { Spells result slice.now }
    ensures accepted { IsAccepted result slice.now }
{
    if let Some(word) = word_of(slice) {
        return Kind::Word(word);
    }
    if is_left_out(slice) {
        return Kind::LeftOut;
    }
    Kind::Name
}

// The value of digits, if it is below 2^64.
pub(crate) fn number_of(digits: &[u8]) -> Option<u64>
    requires nonempty { 0 < length digits.now }
    requires digits { IsTrue (list_all is_ascii_digit digits.now) }
    ensures value { IfSome result (λ value. value ≡ digits_value 10 digits.now) }
    ensures small { IfSome result (λ value. value < 2 ^ 64) }
    ensures large { IfNone result (2 ^ 64 ≤ digits_value 10 digits.now) }
{
    match str::from_utf8(digits) {
        Ok(text) => text.parse::<u64>().ok(),
        Err(_) => None,
    }
}

// What the name or the word at the front is, and its length.
fn name_at(rest: &[u8]) -> (Kind, usize)
    requires nonempty { 0 < length rest.now }
    requires start { IsTrue (is_name_start (slice_index rest.now 0)) }
    ensures token { BeginsWithToken rest.now result.0 result.1 }
    ensures within { result.1 ≤ length rest.now }
{
    let length = name_length(rest);
    (identifier_kind(&rest[..length]), length)
}

// The number at the front, and its length.
fn number_at(rest: &[u8]) -> Result<(Kind, usize), Cause>
    requires nonempty { 0 < length rest.now }
    requires digit { IsTrue (is_ascii_digit (slice_index rest.now 0)) }
    ensures token { IfOk result (λ found. BeginsWithToken rest.now found.0 found.1) }
    ensures within { IfOk result (λ found. found.1 ≤ length rest.now) }
    ensures fault { IfErr result (λ cause. IsFault cause rest.now) }
{
    let length = digits_length(rest);
    match number_of(&rest[..length]) {
        Some(value) => Ok((Kind::Number(value), length)),
        None => Err(Cause::NumberTooLarge),
    }
}

// The text at the front, and its length.
fn text_at(rest: &[u8]) -> Result<(Kind, usize), Cause>
    requires nonempty { 0 < length rest.now }
    requires quote { slice_index rest.now 0 ≡ byte "\"" }
    ensures token { IfOk result (λ found. BeginsWithToken rest.now found.0 found.1) }
    ensures within { IfOk result (λ found. found.1 ≤ length rest.now) }
    ensures fault { IfErr result (λ cause. IsFault cause rest.now) }
{
    let behind = &rest[1..];
    let length = content_length(behind);
    if length == behind.len() || behind[length] != b'"' {
        return Err(Cause::Unclosed);
    }
    match str::from_utf8(&behind[..length]) {
        Ok(_) => Ok((Kind::Text, length + 2)),
        Err(_) => Err(Cause::Word(b'"')),
    }
}

// The mark at the front, and its length, where nothing else begins.
fn sign_at(rest: &[u8]) -> Result<(Kind, usize), Cause>
    requires nonempty { 0 < length rest.now }
    requires no_gap { BeginsNoPiece rest.now }
    requires no_name { is_name_start (slice_index rest.now 0) ≡ false }
    requires no_digit { is_ascii_digit (slice_index rest.now 0) ≡ false }
    requires no_quote { slice_index rest.now 0 ≢ byte "\"" }
    ensures token { IfOk result (λ found. BeginsWithToken rest.now found.0 found.1) }
    ensures within { IfOk result (λ found. found.1 ≤ length rest.now) }
    ensures fault { IfErr result (λ cause. IsFault cause rest.now) }
{
    if rest.starts_with(b"/*") {
        return Err(Cause::Unclosed);
    }
    match mark_at(rest) {
        Some(mark) => Ok((Kind::Mark(mark), mark.spelling().len())),
        None => Err(Cause::Word(rest[0])),
    }
}

/// What the token at the front is, and its length.
pub fn token_at(rest: &[u8]) -> Result<(Kind, usize), Cause>
    requires nonempty { 0 < length rest.now }
    requires no_gap { BeginsNoPiece rest.now }
    ensures token { IfOk result (λ found. BeginsWithToken rest.now found.0 found.1) }
    ensures within { IfOk result (λ found. found.1 ≤ length rest.now) }
    ensures fault { IfErr result (λ cause. IsFault cause rest.now) }
{
    let first = rest[0];
    if is_name_start(first) {
        Ok(name_at(rest))
    } else if first.is_ascii_digit() {
        number_at(rest)
    } else if first == b'"' {
        text_at(rest)
    } else {
        sign_at(rest)
    }
}

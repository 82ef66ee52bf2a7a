ghost use Rattle.std.specs.Prelude.{◌≡◌, ◌≢◌, ◌≤◌, ◌∷◌, ◌++◌, ◌↔◌, false, length, IfSome, IfNone, IsTrue, List, OnOk, ℕ, string_bytes};
ghost use Rattle.std.specs.Fmt.{decimal};
ghost use Rattle.std.specs.List.{prefix_len};
ghost use Rattle.ms_dfafile.specs.inner.Reading.{BeginsNumber, Decodes, IsField, IsSmall, IsSmallRef, Reads, ended, is_field_byte};
ghost use Rattle.ms_dfafile.specs.Spelling.{ref_text};

use ms_arena::Ref;
use std::alloc::AllocError;

/// How many bytes at the front may stand in a field.
fn field_length(bytes: &[u8]) -> usize
    ensures run { result ≡ prefix_len is_field_byte bytes.now }
    ensures within { result ≤ length bytes.now }
{
    bytes.iter().take_while(|byte| **byte > b' ').count()
}

/// The field at the front, where this byte ends it, and what stands behind that.
pub(crate) fn field(bytes: &[u8], end: u8) -> Option<(&[u8], &[u8])>
    requires { is_field_byte end ≡ false }
    ensures found { IfSome result (λ parts. bytes.now ≡ ended end parts.0.now ++ parts.1.now) }
    ensures inside { IfSome result (λ parts. IsField parts.0.now) }
    ensures none { IfNone result ((text rest : List ℕ) → IsField text → bytes.now ≢ ended end text ++ rest) }
{
    let length = field_length(bytes);
    if length < bytes.len() && bytes[length] == end {
        Some((&bytes[..length], &bytes[length + 1..]))
    } else {
        None
    }
}

/// What stands behind a word at the front.
pub fn behind<'a>(bytes: &'a [u8], word: &[u8]) -> Option<&'a [u8]>
    ensures found { IfSome result (λ rest. bytes.now ≡ word.now ++ rest.now) }
    ensures none { IfNone result ((rest : List ℕ) → bytes.now ≢ word.now ++ rest) }
{
    bytes.strip_prefix(word)
}

/// Whether a number may begin so: it has no sign, and no zero before other digits.
fn begins_number(text: &[u8]) -> bool
    ensures { IsTrue result ↔ BeginsNumber text.now }
{
    match text {
        [] => false,
        [first] => *first >= b'0',
        [first, ..] => *first > b'0',
    }
}

/// The number that a whole text spells.
fn number_of(text: &[u8]) -> Option<u32>
    ensures { Decodes decimal IsSmall text.now result }
{
    if !begins_number(text) {
        return None;
    }
    match str::from_utf8(text) {
        Ok(text) => text.parse::<u32>().ok(),
        Err(_) => None,
    }
}

/// The state or the node that a whole text spells.
fn reference_of(text: &[u8]) -> Option<Ref>
    ensures { Decodes ref_text IsSmallRef text.now result }
{
    match text {
        [b's', digits @ ..] => Some(Ref::Leaf(number_of(digits)?)),
        [b'n', digits @ ..] => Some(Ref::Inner(number_of(digits)?)),
        _ => None,
    }
}

/// The number in the field at the front.
pub fn number(bytes: &[u8], end: u8) -> Option<(u32, &[u8])>
    requires { is_field_byte end ≡ false }
    ensures { Reads (λ n. ended end (decimal n)) IsSmall bytes.now result }
{
    let (text, rest) = field(bytes, end)?;
    Some((number_of(text)?, rest))
}

/// The state or the node in the field at the front.
pub(crate) fn reference(bytes: &[u8], end: u8) -> Option<(Ref, &[u8])>
    requires { is_field_byte end ≡ false }
    ensures { Reads (λ r. ended end (ref_text r)) IsSmallRef bytes.now result }
{
    let (text, rest) = field(bytes, end)?;
    Some((reference_of(text)?, rest))
}

/// Appends a reference.
pub(crate) fn append_ref(out: &mut String, reference: Ref) -> Result<(), AllocError>
    ensures { OnOk result (string_bytes out.new ≡ string_bytes out.old ++ ref_text reference) }
{
    match reference {
        Ref::Leaf(state) => write!(out, "s{state}"),
        Ref::Inner(node) => write!(out, "n{node}"),
    }
}

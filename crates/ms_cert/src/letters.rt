ghost use Rattle.std.specs.Prelude.{◌≡◌, ◌∷◌, ◌++◌, [], MatchOption, IfOk, OnOk, List as Sequence, Bool, string_bytes};
ghost use Rattle.ms_dfafile.specs.Spelling.{line};
ghost use Rattle.ms_dfafile.specs.inner.Reading.{Finds, Reads};
ghost use Rattle.ms_cert.specs.Text.{bit_text, bits_text, letter_text, letters_text};
ghost use Rattle.ms_cert.specs.inner.Reading.{AreBits, AreLettersAt, IsLetter, IsNoLetter};

use ms_dfafile::{FileFault, behind};
use ms_list::{List, NoMemory, push};
use std::alloc::{AllocError, Global};

/// The bit at the front, and what stands behind it.
fn bit(bytes: &[u8]) -> Option<(bool, &[u8])>
    ensures { Reads bit_text (λ _. Unit {0}) bytes.now result }
{
    if let Some(rest) = behind(bytes, b"0") {
        return Some((false, rest));
    }
    let rest = behind(bytes, b"1")?;
    Some((true, rest))
}

/// All bits at the front, and what stands behind them.
pub(crate) fn bits(alloc: Global, bytes: &[u8]) -> Result<(List<bool>, &[u8]), NoMemory>
    ensures { IfOk result (λ found. AreBits bytes.now found.0 found.1.now) }
{
    let mut bits = List::new(alloc);
    let mut rest = bytes;
    'reading: while let Some((value, after)) = bit(rest) {
        push(&mut bits, value)?;
        rest = after;
    }
    Ok((bits, rest))
}

/// One letter more, where there is one, and what stands behind it.
fn push_letter<'a>(
    alloc: Global,
    letters: &mut List<List<bool>>,
    bytes: &'a [u8],
) -> Result<Option<&'a [u8]>, NoMemory>
    ensures letter { IfOk result (λ found. MatchOption found (IsNoLetter bytes.now) (λ rest. (letter : Sequence Bool) × (letters.new ≡ letters.old ++ letter ∷ []) × IsLetter bytes.now letter rest.now)) }
    ensures same { IfOk result (λ found. MatchOption found (letters.new ≡ letters.old) (λ _. Unit {0})) }
{
    let Some(rest) = behind(bytes, b" l") else {
        return Ok(None);
    };
    let (letter, rest) = bits(alloc, rest)?;
    push(letters, letter)?;
    Ok(Some(rest))
}

/// The letters at the front, and what stands behind them.
fn letters(alloc: Global, bytes: &[u8]) -> Result<(List<List<bool>>, &[u8]), NoMemory>
    ensures { IfOk result (λ found. AreLettersAt bytes.now found.0 found.1.now) }
{
    let mut letters = List::new(alloc);
    let mut rest = bytes;
    'reading: while let Some(after) = push_letter(alloc, &mut letters, rest)? {
        rest = after;
    }
    Ok((letters, rest))
}

/// The letters up to the end of the line, and what stands behind that.
pub(crate) fn last_letters(
    alloc: Global,
    bytes: &[u8],
) -> Result<(List<List<bool>>, &[u8]), FileFault>
    ensures { Finds (λ letters. line (letters_text letters)) (λ _. Unit {0}) bytes.now result }
{
    let Ok((letters, rest)) = letters(alloc, bytes) else {
        return Err(FileFault::Memory);
    };
    match behind(rest, b"\n") {
        Some(rest) => Ok((letters, rest)),
        None => Err(FileFault::Text),
    }
}

fn bit_digit(bit: bool) -> &'static str
    ensures { result.now ≡ bit_text bit }
{
    if bit { "1" } else { "0" }
}

/// Appends bits.
pub(crate) fn append_bits(out: &mut String, bits: &[bool]) -> Result<(), AllocError>
    ensures { OnOk result (string_bytes out.new ≡ string_bytes out.old ++ bits_text bits.now) }
{
    for bit in bits {
        out.push_str(bit_digit(*bit))?;
    }
    Ok(())
}

/// Appends a letter.
fn append_letter(out: &mut String, letter: &[bool]) -> Result<(), AllocError>
    ensures { OnOk result (string_bytes out.new ≡ string_bytes out.old ++ letter_text letter.now) }
{
    out.push_str(" l")?;
    append_bits(out, letter)
}

/// Appends letters, and the end of the line.
pub(crate) fn append_letters(out: &mut String, letters: &[List<bool>]) -> Result<(), AllocError>
    ensures { OnOk result (string_bytes out.new ≡ string_bytes out.old ++ line (letters_text letters.now)) }
{
    for letter in letters {
        append_letter(out, letter.slice())?;
    }
    out.push_str("\n")
}

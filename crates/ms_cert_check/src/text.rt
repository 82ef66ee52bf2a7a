//! What a check prints.

ghost use Rattle.std.specs.Prelude.{◌≡◌, ◌++◌, IfOk, OnOk, codes, string_bytes};
ghost use Rattle.ms_cert_check.specs.Check.{check_text, length_line, proven_text};

use ms_cert::Proven;
use ms_list::{Bytes, List, NoMemory};
use std::alloc::{AllocError, Global};

/// Appends the line of the length of a shortest word.
fn push_length(text: &mut String, word: &str, length: Option<u64>) -> Result<(), AllocError>
    ensures { OnOk result (string_bytes text.new ≡ string_bytes text.old ++ length_line word.now length) }
{
    match length {
        None => {
            text.push_str("no ")?;
            text.push_str(word)?;
            text.push_str("\n")
        }
        Some(count) => {
            text.push_str(word)?;
            text.push_str(" length ")?;
            write!(text, "{count}")?;
            text.push_str("\n")
        }
    }
}

fn proven(alloc: Global, proven: Proven) -> Result<String, AllocError>
    ensures { IfOk result (λ text. string_bytes text ≡ proven_text proven) }
{
    let mut text = String::from_str(alloc, "yes\nstates ")?;
    write!(text, "{}", proven.states)?;
    text.push_str("\n")?;
    push_length(&mut text, "example", proven.plus)?;
    push_length(&mut text, "counterexample", proven.minus)?;
    Ok(text)
}

fn text(alloc: Global, found: Option<Proven>) -> Result<String, AllocError>
    ensures { IfOk result (λ text. string_bytes text ≡ check_text found) }
{
    match found {
        None => String::from_str(alloc, "no\n"),
        Some(found) => proven(alloc, found),
    }
}

/// The text of what a check found.
pub(crate) fn check_text(alloc: Global, found: Option<Proven>) -> Result<Bytes, NoMemory>
    ensures { IfOk result (λ made. made ≡ check_text found) }
{
    match text(alloc, found) {
        Ok(text) => Ok(List::from(text.into_bytes())),
        Err(_) => Err(NoMemory),
    }
}

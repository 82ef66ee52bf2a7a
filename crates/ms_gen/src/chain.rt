ghost use Rattle.std.specs.Prelude.{◌≡◌, ◌<◌, ◌⊎◌, ◌++◌, ◌+◌, codes, None, IfErr, IfOk, OnOk, string_bytes};
ghost use Rattle.ms_gen.specs.Generated.{IsNumber, chain_line, free_line, generated, links_text, name_of, names_text, sets_line, source_text};

use ms_edge::Refusal;
use ms_list::{Bytes, List};
use std::alloc::{AllocError, Global};

/// The greatest number of a source.
const GREATEST: u64 = 2000;

/// The source with this number: from 1 to 2,000 sets, each of which is within the next. It has at most 1 MiB.
pub fn generate(alloc: Global, number: u64) -> Result<Bytes, Refusal>
    ensures is_number { IfOk result (λ made. IsNumber number) }
    ensures text { IfOk result (λ made. made ≡ generated number) }
    ensures refused { IfErr result (λ refusal. (refusal ≡ Refusal.Memory) ⊎ ((refusal ≡ Refusal.ConstRange None) × ¬ IsNumber number)) }
{
    if !(1..=GREATEST).contains(&number) {
        return Err(Refusal::ConstRange { at: None });
    }
    match text(alloc, number - 1) {
        Ok(text) => Ok(List::from(text.into_bytes())),
        Err(_) => Err(Refusal::Memory),
    }
}

/// The source in which the set with this number is the last.
fn text(alloc: Global, last: u64) -> Result<String, AllocError>
    ensures { IfOk result (λ text. string_bytes text ≡ source_text last) }
{
    let mut text = String::from_str(alloc, "ws1s;\n")?;
    push_sets(&mut text, last)?;
    push_chain(&mut text, last)?;
    push_free(&mut text, last)?;
    Ok(text)
}

/// Appends the declaration of the sets.
fn push_sets(text: &mut String, last: u64) -> Result<(), AllocError>
    ensures { OnOk result (string_bytes text.new ≡ string_bytes text.old ++ sets_line last) }
{
    text.push_str("var2 ")?;
    push_names(text, last)?;
    text.push_str(";\n")
}

/// Appends that the first set is within the last where each is within the next.
fn push_chain(text: &mut String, last: u64) -> Result<(), AllocError>
    ensures { OnOk result (string_bytes text.new ≡ string_bytes text.old ++ chain_line last) }
{
    text.push_str("true")?;
    push_links(text, last)?;
    text.push_str(" => P0 sub ")?;
    push_name(text, last)?;
    text.push_str(";\n")
}

/// Appends that the last set leaves numbers free.
fn push_free(text: &mut String, last: u64) -> Result<(), AllocError>
    ensures { OnOk result (string_bytes text.new ≡ string_bytes text.old ++ free_line last) }
{
    text.push_str("all1 x: ex1 y: x < y & y notin ")?;
    push_name(text, last)?;
    text.push_str(";\n")?;
    Ok(())
}

/// Appends the name of a set.
fn push_name(text: &mut String, place: u64) -> Result<(), AllocError>
    ensures { OnOk result (string_bytes text.new ≡ string_bytes text.old ++ name_of place) }
{
    write!(text, "P{place}")
}

/// Appends the names up to that of the last set, with commas between them.
fn push_names(text: &mut String, last: u64) -> Result<(), AllocError>
    ensures { OnOk result (string_bytes text.new ≡ string_bytes text.old ++ names_text last) }
{
    push_name(text, 0)?;
    for place in 0..last {
        text.push_str(", ")?;
        push_name(text, place + 1)?;
    }
    Ok(())
}

/// Appends an inclusion for each set before the last.
fn push_links(text: &mut String, last: u64) -> Result<(), AllocError>
    ensures { OnOk result (string_bytes text.new ≡ string_bytes text.old ++ links_text last) }
{
    for place in 0..last {
        push_link(text, place)?;
    }
    Ok(())
}

/// Appends that a set is within the next.
fn push_link(text: &mut String, place: u64) -> Result<(), AllocError>
    requires { place < 18446744073709551615 }
    ensures { OnOk result (string_bytes text.new ≡ string_bytes text.old ++ (codes " & " ++ name_of place ++ codes " sub " ++ name_of (place + 1))) }
{
    text.push_str(" & ")?;
    push_name(text, place)?;
    text.push_str(" sub ")?;
    push_name(text, place + 1)
}

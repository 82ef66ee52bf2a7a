//! Tokens.
use crate::rows::{Question, run_rows};
use crate::told::{shown, told_of};
use anyhow::{Result, bail};
use ms_edge::Refusal;
use ms_list::{Bytes, List};
use ms_text::{Kind, MAX_BYTES, Token, Tokens, is_name, name_length, tokens};
use std::alloc::Global;

/// The number of the file that a source is said to be.
pub const FILE: u32 = 7;

pub fn tell(rt: &HostRuntime) -> Result<()> {
    println!(rt; "Tokens")?;
    run_rows(rt, "tokens.toml", Question::Tokens)?;
    slices(rt)?;
    names(rt)
}

/// The tokens of a source, or its refusal.
pub fn tokens_of(alloc: Global, bytes: Bytes) -> Result<Result<Tokens, Refusal>> {
    if bytes.len() > MAX_BYTES {
        bail!("the source is too long");
    }
    Ok(tokens(alloc, bytes, FILE))
}

/// Each token of a source with its place and its length, or how many they are where they are many, or the refusal.
pub fn answer(alloc: Global, bytes: Bytes) -> Result<String> {
    let read = tokens_of(alloc, bytes)?;
    told_of(alloc, read, |all| listed(alloc, all))
}

fn listed(alloc: Global, all: &Tokens) -> Result<String> {
    let mut text = String::new(alloc);
    if all.len() > 99 {
        write!(text, "{} tokens", all.len())?;
    } else {
        push_tokens(&mut text, all)?;
    }
    Ok(text)
}

fn push_tokens(text: &mut String, all: &Tokens) -> Result<()> {
    for i in 0..all.len() {
        if i > 0 {
            text.push_str(", ")?;
        }
        push_token(text, all.get(i))?;
    }
    Ok(())
}

fn push_token(text: &mut String, token: Token) -> Result<()> {
    match token.kind {
        Kind::Name => write!(text, "name")?,
        Kind::Word(word) => write!(text, "word {}", word.spelling())?,
        Kind::LeftOut => write!(text, "left out")?,
        Kind::Number(number) => write!(text, "number {number}")?,
        Kind::Text => write!(text, "text")?,
        Kind::Mark(mark) => write!(text, "mark {}", mark.spelling())?,
    }
    write!(text, " {}+{}", token.place, token.length)?;
    Ok(())
}

/// Prints the bytes of each token of a source, and how many bytes it has.
fn slices(rt: &HostRuntime) -> Result<()> {
    let alloc = rt.alloc();
    let bytes = List::from(Vec::from_slice(alloc, b"ex1 x': # all\n x'<=>{007}")?);
    let read = tokens_of(alloc, bytes)?;
    let told = told_of(alloc, read, |all| sliced(alloc, all))?;
    println!(rt; "{told}")?;
    Ok(())
}

fn sliced(alloc: Global, all: &Tokens) -> Result<String> {
    let mut text = String::new(alloc);
    for i in 0..all.len() {
        write!(text, "token {i} is {}\n", shown(all.slice(i)))?;
    }
    write!(text, "of {} bytes", all.end())?;
    Ok(text)
}

fn names(rt: &HostRuntime) -> Result<()> {
    for text in [
        "x", "x'1_", "_", "", "1x", "'x", "union", "tree", "unions", "a b", "\u{e9}",
    ] {
        let bytes = text.as_bytes();
        println!(rt;
            "\"{text}\" is a name: {}; bytes of names in front: {}",
            is_name(bytes),
            name_length(bytes)
        )?;
    }
    Ok(())
}

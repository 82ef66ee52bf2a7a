//! Answers in words.
use anyhow::Result;
use ms_edge::Refusal;
use ms_list::let_go;
use ms_logic::Mode;
use std::alloc::Global;

/// Bytes as text.
pub fn shown(bytes: &[u8]) -> &str {
    std::str::from_utf8(bytes).unwrap_or("bytes that are no text")
}

/// The number of a refusal, with the number of its file and its place there, and its detail.
pub fn told(alloc: Global, refusal: &Refusal) -> Result<String> {
    let mut text = String::new(alloc);
    push_told(&mut text, refusal)?;
    Ok(text)
}

fn push_told(text: &mut String, refusal: &Refusal) -> Result<()> {
    write!(text, "{}", number(refusal))?;
    if let Some(at) = refusal.place() {
        write!(text, " at {}:{}", at.file, at.place)?;
    }
    push_detail(text, refusal)
}

/// What is told of an answer, or its refusal.
pub fn told_of<T: Drop, F: FnOnce(&T) -> Result<String>>(
    alloc: Global,
    answer: Result<T, Refusal>,
    tell: F,
) -> Result<String>
    requires { F.IsAlwaysCallable tell }
{
    let text = match &answer {
        Ok(value) => tell(value),
        Err(refusal) => told(alloc, refusal),
    };
    let_go(answer);
    text
}

/// The number of a refusal that a source can have, and 99 of any other.
fn number(refusal: &Refusal) -> u32 {
    match refusal {
        Refusal::Word { .. } => 10,
        Refusal::NumberTooLarge { .. } => 11,
        Refusal::Grammar { .. } => 12,
        Refusal::Unclosed { .. } => 13,
        Refusal::NotHere { .. } => 25,
        Refusal::LeftOut { .. } => 26,
        Refusal::FileMissing { .. } => 30,
        Refusal::IncludeCycle { .. } => 31,
        Refusal::Depth { .. } => 52,
        Refusal::Memory => 70,
        _ => 99,
    }
}

fn push_detail(text: &mut String, refusal: &Refusal) -> Result<()> {
    match refusal {
        Refusal::Word { byte, .. } => write!(text, ": {byte:02x}")?,
        Refusal::LeftOut { word, .. } => write!(text, ": {}", word.text())?,
        Refusal::FileMissing { name, .. } => write!(text, ": {}", name.text())?,
        Refusal::IncludeCycle { name, chain, .. } => {
            write!(text, ": {} {:?}", name.text(), chain.slice())?;
        }
        _ => {}
    }
    Ok(())
}

pub fn mode_word(mode: Mode) -> &'static str {
    match mode {
        Mode::Ws1s => "WS1S",
        Mode::M2lStr => "M2L-Str",
    }
}

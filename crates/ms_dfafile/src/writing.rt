ghost use Rattle.std.specs.Prelude.{◌≡◌, ◌++◌, IfOk, OnOk, string_bytes};
ghost use Rattle.ms_dfafile.specs.File.{IsFile, IsSpelled};
ghost use Rattle.ms_dfafile.specs.inner.Parts.{content_text, version_line};
ghost use Rattle.ms_dfafile.specs.inner.Reading.{section_text};
ghost use Rattle.ms_dfafile.specs.Spelling.{line, mode_text};

use crate::field::append_ref;
use crate::line::Line;
use crate::lines::append_lines;
use ms_dfa::{FileVersion, Plain};
use ms_list::{Bytes, List, NoMemory};
use ms_logic::Mode;
use std::alloc::{AllocError, Global};

fn version_text(version: FileVersion) -> &'static str
    ensures { result.now ≡ version_line version }
{
    match version {
        FileVersion::One => "monastr-dfa 1\n",
        FileVersion::Two => "monastr-dfa 2\n",
    }
}

fn mode_line(mode: Mode) -> &'static str
    ensures { result.now ≡ line (mode_text mode) }
{
    match mode {
        Mode::Ws1s => "ws1s\n",
        Mode::M2lStr => "m2l-str\n",
    }
}

/// Appends lines with a word and their number before them.
fn append_section<T: Line>(out: &mut String, word: &str, lines: &[T]) -> Result<(), AllocError>
    ensures { OnOk result (string_bytes out.new ≡ string_bytes out.old ++ section_text word.now T.text lines.now) }
{
    let count = lines.len();
    out.push_str(word)?;
    write!(out, "{count}\n")?;
    append_lines(out, lines)
}

fn text(alloc: Global, plain: &Plain) -> Result<String, AllocError>
    ensures { IfOk result (λ text. string_bytes text ≡ content_text plain.now) }
{
    let mut out = String::from_str(alloc, version_text(plain.version))?;
    out.push_str("mode ")?;
    out.push_str(mode_line(plain.mode))?;
    append_section(&mut out, "variables ", plain.variables.slice())?;
    out.push_str("start ")?;
    append_ref(&mut out, plain.start)?;
    out.push_str("\n")?;
    append_section(&mut out, "states ", plain.states.slice())?;
    append_section(&mut out, "nodes ", plain.nodes.slice())?;
    out.push_str("end\n")?;
    Ok(out)
}

/// The automaton file of a content.
pub fn write(alloc: Global, plain: &Plain) -> Result<Bytes, NoMemory>
    requires { IsFile plain.now }
    ensures { IfOk result (λ bytes. IsSpelled bytes plain.now) }
{
    match text(alloc, plain) {
        Ok(text) => Ok(List::from(text.into_bytes())),
        Err(_) => Err(NoMemory),
    }
}

ghost use Rattle.std.specs.Prelude.{◌≡◌, ◌++◌, ◌∷◌, [], ◌<◌, ◌/◌, ◌%◌, IfOk, OnOk, Some, string_bytes};
ghost use Rattle.ms_edge.specs.Refusal.{IsPlaced, place_of};
ghost use Rattle.ms_report.specs.Line.{words_of, detail_of, hex_digit, place_text, detail_text, line_of, HasLine};

use crate::number::push_number;
use ms_edge::Refusal;
use ms_list::{At, Bytes, List, NoMemory, Text};
use std::alloc::{AllocError, Global};

/// The line of a refusal, with a line feed at its end.
pub fn refusal_line(alloc: Global, refusal: &Refusal, files: &List<Text>) -> Result<Bytes, NoMemory>
    requires has_line { HasLine refusal.now }
    requires is_placed { IsPlaced (place_of refusal.now) files.now }
    ensures { IfOk result (λ line. line ≡ line_of refusal.now files.now) }
{
    match line(alloc, refusal, files) {
        Ok(line) => Ok(List::from(line.into_bytes())),
        Err(_) => Err(NoMemory),
    }
}

fn line(alloc: Global, refusal: &Refusal, files: &List<Text>) -> Result<String, AllocError>
    requires { IsPlaced (place_of refusal.now) files.now }
    ensures { IfOk result (λ line. string_bytes line ≡ line_of refusal.now files.now) }
{
    let mut line = String::from_str(alloc, words(refusal))?;
    push_place(&mut line, refusal.place(), files)?;
    push_detail(&mut line, refusal)?;
    line.push_str("\n")?;
    Ok(line)
}

/// The number and the words.
fn words(refusal: &Refusal) -> &'static str
    ensures { result.now ≡ words_of refusal.now }
{
    match refusal {
        Refusal::Word { .. } => "10 unexpected byte",
        Refusal::NumberTooLarge { .. } => "11 number too large",
        Refusal::Grammar { .. } => "12 grammar",
        Refusal::Unclosed { .. } => "13 unclosed",
        Refusal::UnknownName { .. } => "20 unknown name",
        Refusal::Twice { .. } => "21 named twice",
        Refusal::WrongOrder { .. } => "22 wrong order",
        Refusal::Arity { .. } => "23 wrong number of arguments",
        Refusal::ConstRange { .. } => "24 out of range",
        Refusal::NotHere { .. } => "25 not allowed here",
        Refusal::LeftOut { .. } => "26 left out",
        Refusal::VarsDiffer => "28 variables differ",
        Refusal::FileMissing { .. } => "30 no such file",
        Refusal::IncludeCycle { .. } => "31 include cycle",
        Refusal::ImportMissing { .. } => "40 no such import",
        Refusal::ImportText { .. } => "41 not an automaton file",
        Refusal::ImportMode { .. } => "42 import of another mode",
        Refusal::ImportVars { .. } => "43 import variables differ",
        Refusal::ImportOpen { .. } => "44 import does not settle",
        Refusal::AutomatonText { .. } => "45 not an automaton file",
        Refusal::CertText { .. } => "46 not a certificate",
        Refusal::FileSize { .. } => "50 file too long",
        Refusal::Includes { .. } => "51 too many includes",
        Refusal::Depth { .. } => "52 too deep",
        Refusal::CoreSize => "53 source too large",
        Refusal::Nodes { .. } => "54 node limit",
        Refusal::ReadFault { .. } => "60 read fault",
        Refusal::WriteFault { .. } => "61 write fault",
        Refusal::SinkFault { .. } => "",
        Refusal::Memory => "70 out of memory",
    }
}

fn push_place(line: &mut String, place: Option<At>, files: &List<Text>) -> Result<(), AllocError>
    requires { IsPlaced place files.now }
    ensures { OnOk result (string_bytes line.new ≡ string_bytes line.old ++ place_text files.now place) }
{
    let Some(at) = place else {
        return Ok(());
    };
    let file = files.get(at.file as usize);
    line.push_str(" at ")?;
    line.push_str(file.text())?;
    line.push_str(":")?;
    push_number(line, at.place)
}

fn push_detail(line: &mut String, refusal: &Refusal) -> Result<(), AllocError>
    ensures { OnOk result (string_bytes line.new ≡ string_bytes line.old ++ detail_text (detail_of refusal.now)) }
{
    match refusal {
        Refusal::Word { byte, .. } => push_hexadecimal(line, *byte),
        Refusal::UnknownName { name, .. }
        | Refusal::Arity { name, .. }
        | Refusal::LeftOut { word: name, .. } => push_text(line, name.text()),
        Refusal::Twice { name, .. }
        | Refusal::FileMissing { name, .. }
        | Refusal::IncludeCycle { name, .. }
        | Refusal::ImportMissing { name, .. }
        | Refusal::ImportText { name, .. }
        | Refusal::ImportMode { name, .. }
        | Refusal::ImportVars { name, .. }
        | Refusal::AutomatonText { name }
        | Refusal::CertText { name }
        | Refusal::FileSize { name, .. }
        | Refusal::ReadFault { name }
        | Refusal::WriteFault { name } => push_text(line, name.text()),
        Refusal::ImportOpen { length, .. } => {
            line.push_str(": length ")?;
            push_number(line, *length)
        }
        Refusal::Includes { limit, .. } => {
            line.push_str(": ")?;
            push_number(line, u64::from(*limit))
        }
        Refusal::Nodes { limit, .. } => {
            line.push_str(": ")?;
            push_number(line, *limit)
        }
        Refusal::NumberTooLarge { .. }
        | Refusal::Grammar { .. }
        | Refusal::Unclosed { .. }
        | Refusal::WrongOrder { .. }
        | Refusal::ConstRange { .. }
        | Refusal::NotHere { .. }
        | Refusal::VarsDiffer
        | Refusal::Depth { .. }
        | Refusal::CoreSize
        | Refusal::SinkFault { .. }
        | Refusal::Memory => Ok(()),
    }
}

/// Appends a colon and the text.
fn push_text(line: &mut String, text: &str) -> Result<(), AllocError>
    ensures { OnOk result (string_bytes line.new ≡ string_bytes line.old ++ detail_text (Some text.now)) }
{
    line.push_str(": ")?;
    line.push_str(text)
}

/// Appends a colon and the two hexadecimal digits of the byte.
fn push_hexadecimal(line: &mut String, byte: u8) -> Result<(), AllocError>
    ensures { OnOk result (string_bytes line.new ≡ string_bytes line.old ++ detail_text (Some (hex_digit (byte / 16) ∷ hex_digit (byte % 16) ∷ []))) }
{
    line.push_str(": ")?;
    line.push(hexadecimal(byte / 16))?;
    line.push(hexadecimal(byte % 16))
}

fn hexadecimal(value: u8) -> char
    requires { value < 16 }
    ensures digit { result ≡ hex_digit value }
    ensures ascii { result < 128 }
{
    char::from(if value < 10 {
        b'0' + value
    } else {
        b'a' + (value - 10)
    })
}

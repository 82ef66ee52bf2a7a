ghost use Rattle.std.specs.Prelude.{◌≡◌, ◌↔◌, codes, IsTrue};
ghost use Rattle.ms_dfafile.specs.inner.Parts.{IsSmallBody, IsSmallPlain, body_text, content_text, ending_text, head_text, mode_line, start_text, version_line};
ghost use Rattle.ms_dfafile.specs.inner.Reading.{Gives, IsSection, IsSmallNode, IsSmallRef, Reads};
ghost use Rattle.ms_dfafile.specs.Spelling.{line};

use crate::fault::FileFault;
use crate::field::{behind, reference};
use crate::lines::lines;
use ms_arena::{Node, Ref};
use ms_dfa::{FileState, FileVersion, Plain};
use ms_list::List;
use ms_logic::Mode;
use std::alloc::Global;

/// The first two lines of a file.
#[derive(Clone, Copy)]
pub(crate) struct Head {
    pub version: FileVersion,
    pub mode: Mode,
}

/// What stands behind the variables of a file.
#[derive(Drop)]
pub(crate) struct Body {
    pub start: Ref,
    pub states: List<FileState>,
    pub nodes: List<Node>,
}

/// The version in the first line.
fn version(bytes: &[u8]) -> Option<(FileVersion, &[u8])>
    ensures { Reads version_line (λ _. Unit {0}) bytes.now result }
{
    let rest = behind(bytes, b"monastr-dfa ")?;
    if let Some(rest) = behind(rest, b"1\n") {
        return Some((FileVersion::One, rest));
    }
    let rest = behind(rest, b"2\n")?;
    Some((FileVersion::Two, rest))
}

/// The mode in the second line.
fn mode(bytes: &[u8]) -> Option<(Mode, &[u8])>
    ensures { Reads mode_line (λ _. Unit {0}) bytes.now result }
{
    let rest = behind(bytes, b"mode ")?;
    if let Some(rest) = behind(rest, b"ws1s\n") {
        return Some((Mode::Ws1s, rest));
    }
    let rest = behind(rest, b"m2l-str\n")?;
    Some((Mode::M2lStr, rest))
}

/// The first two lines.
fn first_lines(bytes: &[u8]) -> Option<(Head, &[u8])>
    ensures { Reads head_text (λ _. Unit {0}) bytes.now result }
{
    let (version, rest) = version(bytes)?;
    let (mode, rest) = mode(rest)?;
    Some((Head { version, mode }, rest))
}

/// The line of the start.
fn start(bytes: &[u8]) -> Option<(Ref, &[u8])>
    ensures { Reads start_text IsSmallRef bytes.now result }
{
    let rest = behind(bytes, b"start ")?;
    reference(rest, b'\n')
}

/// Whether the bytes are the last line.
fn is_end(bytes: &[u8]) -> bool
    ensures { IsTrue result ↔ (bytes.now ≡ line (codes "end")) }
{
    bytes == b"end\n".as_slice()
}

/// The nodes, and the last line.
fn ending(alloc: Global, bytes: &[u8]) -> Result<List<Node>, FileFault>
    ensures { Gives ending_text (IsSection IsSmallNode) bytes.now result }
{
    let (nodes, rest) = match lines(alloc, b"nodes ", bytes) {
        Ok(found) => found,
        Err(fault) => return Err(fault),
    };
    if !is_end(rest) {
        return Err(FileFault::Text);
    }
    Ok(nodes)
}

/// What stands behind the variables.
fn behind_variables(alloc: Global, bytes: &[u8]) -> Result<Body, FileFault>
    ensures { Gives body_text IsSmallBody bytes.now result }
{
    let Some((start, rest)) = start(bytes) else {
        return Err(FileFault::Text);
    };
    let (states, rest) = match lines(alloc, b"states ", rest) {
        Ok(found) => found,
        Err(fault) => return Err(fault),
    };
    match ending(alloc, rest) {
        Ok(nodes) => Ok(Body {
            start,
            states,
            nodes,
        }),
        Err(fault) => Err(fault),
    }
}

/// The content that bytes spell, whether it meets the rules of contents or not.
pub(crate) fn content(alloc: Global, bytes: &[u8]) -> Result<Plain, FileFault>
    ensures { Gives content_text IsSmallPlain bytes.now result }
{
    let Some((head, rest)) = first_lines(bytes) else {
        return Err(FileFault::Text);
    };
    let (variables, rest) = match lines(alloc, b"variables ", rest) {
        Ok(found) => found,
        Err(fault) => return Err(fault),
    };
    match behind_variables(alloc, rest) {
        Ok(
            Body {
                start,
                states,
                nodes,
            },
        ) => Ok(Plain {
            version: head.version,
            mode: head.mode,
            variables,
            start,
            states,
            nodes,
        }),
        Err(fault) => Err(fault),
    }
}

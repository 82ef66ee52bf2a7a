ghost use Rattle.std.specs.Prelude.{◌≡◌, ◌++◌, OnOk, codes, string_bytes};
ghost use Rattle.ms_dfafile.specs.inner.Reading.{Finds, IsSmallState, Reads};
ghost use Rattle.ms_dfafile.specs.Spelling.{field, sign_text, state_line};

use crate::fault::FileFault;
use crate::field::{append_ref, behind, reference};
use crate::line::Line;
use ms_dfa::{FileSign, FileState};
use std::alloc::{AllocError, Global};

/// The sign in the field at the front.
pub fn sign(bytes: &[u8]) -> Option<(FileSign, &[u8])>
    ensures { Reads (λ sign. field (sign_text sign)) (λ _. Unit {0}) bytes.now result }
{
    if let Some(rest) = behind(bytes, b"+ ") {
        return Some((FileSign::Plus, rest));
    }
    if let Some(rest) = behind(bytes, b"- ") {
        return Some((FileSign::Minus, rest));
    }
    if let Some(rest) = behind(bytes, b"0 ") {
        return Some((FileSign::Zero, rest));
    }
    let rest = behind(bytes, b"x ")?;
    Some((FileSign::Outside, rest))
}

/// A state: its sign and its reference.
fn state(bytes: &[u8]) -> Option<(FileState, &[u8])>
    ensures { Reads state_line IsSmallState bytes.now result }
{
    let (sign, rest) = sign(bytes)?;
    let (next, rest) = reference(rest, b'\n')?;
    Some((FileState { sign, next }, rest))
}

/// A sign and the blank behind it.
pub fn sign_field(sign: FileSign) -> &'static str
    ensures { result.now ≡ field (sign_text sign) }
{
    match sign {
        FileSign::Plus => "+ ",
        FileSign::Minus => "- ",
        FileSign::Zero => "0 ",
        FileSign::Outside => "x ",
    }
}

impl Line for FileState {
    ghost text = { state_line };

    ghost Fits = { IsSmallState };

    fn read(_alloc: Global, bytes: &[u8]) -> Result<(FileState, &[u8]), FileFault> {
        match state(bytes) {
            Some(found) => Ok(found),
            None => Err(FileFault::Text),
        }
    }

    fn append_to(&self, out: &mut String) -> Result<(), AllocError> {
        out.push_str(sign_field(self.sign))?;
        append_ref(out, self.next)?;
        out.push_str("\n")
    }
}

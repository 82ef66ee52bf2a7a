ghost use Rattle.std.specs.Prelude.{◌≡◌, ◌++◌, OnOk, codes, string_bytes};
ghost use Rattle.ms_dfafile.specs.Spelling.{field};
ghost use Rattle.ms_dfafile.specs.inner.Reading.{Finds};
ghost use Rattle.ms_cert.specs.Text.{IsSmallLine, tree_line};

use crate::cert::TreeLine;
use crate::letters::{append_letters, last_letters};
use crate::line::Line;
use ms_dfafile::{FileFault, behind, number, sign, sign_field};
use std::alloc::{AllocError, Global};

/// The state of a leaf, behind its first word.
fn leaf(bytes: &[u8]) -> Result<(TreeLine, &[u8]), FileFault>
    ensures { Finds tree_line IsSmallLine (field (codes "at") ++ bytes.now) result }
{
    match number(bytes, b'\n') {
        Some((state, rest)) => Ok((TreeLine::At(state), rest)),
        None => Err(FileFault::Text),
    }
}

/// The sign and the letters of a branch, behind its first word.
fn branch(alloc: Global, bytes: &[u8]) -> Result<(TreeLine, &[u8]), FileFault>
    ensures { Finds tree_line IsSmallLine (field (codes "by") ++ bytes.now) result }
{
    let Some((sign, rest)) = sign(bytes) else {
        return Err(FileFault::Text);
    };
    let Some(rest) = behind(rest, b"w") else {
        return Err(FileFault::Text);
    };
    match last_letters(alloc, rest) {
        Ok((letters, rest)) => Ok((TreeLine::By(sign, letters), rest)),
        Err(fault) => Err(fault),
    }
}

impl Line for TreeLine {
    ghost text = { tree_line };

    ghost Fits = { IsSmallLine };

    fn read(alloc: Global, bytes: &[u8]) -> Result<(TreeLine, &[u8]), FileFault> {
        if let Some(rest) = behind(bytes, b"at ") {
            return leaf(rest);
        }
        match behind(bytes, b"by ") {
            Some(rest) => branch(alloc, rest),
            None => Err(FileFault::Text),
        }
    }

    fn append_to(&self, out: &mut String) -> Result<(), AllocError> {
        match self {
            TreeLine::At(state) => {
                let state = *state;
                write!(out, "at {state}\n")
            }
            TreeLine::By(sign, letters) => {
                out.push_str("by ")?;
                out.push_str(sign_field(*sign))?;
                out.push_str("w")?;
                append_letters(out, letters.slice())
            }
        }
    }
}

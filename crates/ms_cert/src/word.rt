ghost use Rattle.std.specs.Prelude.{◌≡◌, ◌++◌, OnOk, string_bytes};
ghost use Rattle.ms_dfafile.specs.inner.Reading.{Finds};
ghost use Rattle.ms_cert.specs.Text.{word_line};

use crate::letters::{append_bits, append_letters, bits, last_letters};
use crate::line::Line;
use ms_dfafile::{FileFault, behind};
use ms_list::Word;
use std::alloc::{AllocError, Global};

/// A word: its truth values and its letters.
fn word(alloc: Global, bytes: &[u8]) -> Result<(Word, &[u8]), FileFault>
    ensures { Finds word_line (λ _. Unit {0}) bytes.now result }
{
    let Some(rest) = behind(bytes, b"t") else {
        return Err(FileFault::Text);
    };
    let Ok((truth, rest)) = bits(alloc, rest) else {
        return Err(FileFault::Memory);
    };
    match last_letters(alloc, rest) {
        Ok((letters, rest)) => Ok((Word { truth, letters }, rest)),
        Err(fault) => Err(fault),
    }
}

impl Line for Word {
    ghost text = { word_line };

    ghost Fits = { λ _. Unit {0} };

    fn read(alloc: Global, bytes: &[u8]) -> Result<(Word, &[u8]), FileFault> {
        word(alloc, bytes)
    }

    fn append_to(&self, out: &mut String) -> Result<(), AllocError> {
        out.push_str("t")?;
        append_bits(out, self.truth.slice())?;
        append_letters(out, self.letters.slice())
    }
}

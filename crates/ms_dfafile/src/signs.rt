ghost use Rattle.std.specs.Prelude.{◌≡◌, ◌≢◌, ◌<◌, ◌^◌, ◌↔◌, ℕ, IfOk, IsTrue, Some, length, slice_get};
ghost use Rattle.ms_dfa.specs.Files.{HasSignsOf, content_of_file};
ghost use Rattle.ms_dfa.specs.declared.plain.FileState.{FileState as StateInFile};
ghost use Rattle.ms_logic_words.specs.Content.{IsContent};

use ms_dfa::{FileSign, FileState, FileVersion, Plain};
use ms_dfafile_outside::marks_outside;
use ms_list::NoMemory;
use std::alloc::Global;

/// Whether the sign is `x`.
fn is_outside(sign: FileSign) -> bool
    ensures { IsTrue result ↔ (sign ≡ FileSign.Outside) }
{
    match sign {
        FileSign::Plus | FileSign::Minus | FileSign::Zero => false,
        FileSign::Outside => true,
    }
}

/// Whether no state has the sign `x`.
fn has_no_outside(states: &[FileState]) -> bool
    ensures { IsTrue result ↔ ((i : ℕ) (state : StateInFile) → slice_get states.now i ≡ Some state → state.sign ≢ FileSign.Outside) }
{
    for state in states {
        if is_outside(state.sign) {
            return false;
        }
    }
    true
}

/// Whether the signs are as the version has them.
pub(crate) fn has_signs(alloc: Global, plain: &Plain) -> Result<bool, NoMemory>
    requires content { IsContent (content_of_file plain.now) }
    requires few { length plain.now.states < 2 ^ 32 }
    ensures { IfOk result (λ has. IsTrue has ↔ HasSignsOf plain.now.version (content_of_file plain.now)) }
{
    match plain.version {
        FileVersion::One => Ok(has_no_outside(plain.states.slice())),
        FileVersion::Two => marks_outside(alloc, plain),
    }
}

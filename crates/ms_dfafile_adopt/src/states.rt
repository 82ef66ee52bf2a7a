ghost use Rattle.std.specs.Prelude.{◌≡◌, ℕ, length, map, slice_get, IfOk, Some};
ghost use Rattle.ms_arena.specs.Diagram.{IsBefore};
ghost use Rattle.ms_dfa.specs.Files.{file_states_of};
ghost use Rattle.ms_dfa.specs.Automaton.{states_of};
ghost use Rattle.ms_dfa.specs.declared.plain.FileState.{FileState as StateInFile};
ghost use Rattle.ms_rename.specs.inner.Image.{image_of};
ghost use Rattle.ms_dfafile_adopt.specs.Readings.{own_sign};
ghost use Rattle.ms_dfafile_adopt.specs.inner.Images.{own_state};

use ms_arena::Ref;
use ms_dfa::{FileSign, FileState, Sign, State};
use ms_list::{List, NoMemory, push};
use std::alloc::Global;

/// What a reference has become, by what the nodes have become.
pub(crate) fn image(images: &[Ref], reference: Ref) -> Ref
    requires { IsBefore (length images.now) reference }
    ensures { result ≡ image_of images.now reference }
{
    match reference {
        Ref::Leaf(value) => Ref::Leaf(value),
        Ref::Inner(place) => images[place as usize],
    }
}

/// The sign of an automaton for a sign of a file. A word with the sign `x` encodes no assignment; the product with the
/// numbers makes it Outside, whatever it has here.
fn own_sign(sign: FileSign) -> Sign
    ensures { result ≡ own_sign sign }
{
    match sign {
        FileSign::Plus => Sign::Yes,
        FileSign::Minus => Sign::No,
        FileSign::Zero => Sign::Undefined,
        FileSign::Outside => Sign::Undefined,
    }
}

/// The states of a file, with what their references have become.
pub(crate) fn own_states(
    alloc: Global,
    states: &[FileState],
    images: &[Ref],
) -> Result<List<State>, NoMemory>
    requires { (i : ℕ) (state : StateInFile) → slice_get states.now i ≡ Some state → IsBefore (length images.now) state.next }
    ensures { IfOk result (λ made. states_of made ≡ map (own_state images.now) (file_states_of states.now)) }
{
    let mut made = List::new(alloc);
    for state in states {
        let sign = own_sign(state.sign);
        let next = image(images, state.next);
        push(&mut made, State { sign, next })?;
    }
    Ok(made)
}

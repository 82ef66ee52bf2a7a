ghost use Rattle.std.specs.Prelude.{◌≡◌, ◌∷◌, ◌++◌, [], IfOk, IsErrOf, OnOk, string_bytes};
ghost use Rattle.std.specs.List.{flat_map};
ghost use Rattle.ms_dfafile.specs.inner.Reading.{AreLines, BeginsWith, BeginsWithNone, Finds, IsOneForm};

use crate::line::Line;
use ms_dfafile::FileFault;
use ms_list::{List, push};
use std::alloc::{AllocError, Global};

/// One line more; what stands behind it.
fn push_line<'a, T: Line>(
    alloc: Global,
    list: &mut List<T>,
    bytes: &'a [u8],
) -> Result<&'a [u8], FileFault>
    ensures added { IfOk result (λ rest. (x : T) × (list.new ≡ list.old ++ x ∷ []) × BeginsWith T.text T.Fits bytes.now x rest.now) }
    ensures none { IsErrOf result FileFault.Text → BeginsWithNone T.text T.Fits bytes.now }
{
    let (line, rest) = match T::read(alloc, bytes) {
        Ok(found) => found,
        Err(fault) => return Err(fault),
    };
    match push(list, line) {
        Ok(()) => Ok(rest),
        Err(_) => Err(FileFault::Memory),
    }
}

/// So many lines, and what stands behind them.
pub(crate) fn counted_lines<T: Line>(
    alloc: Global,
    count: u64,
    bytes: &[u8],
) -> Result<(List<T>, &[u8]), FileFault>
    requires { IsOneForm T.text T.Fits }
    ensures { Finds (flat_map T.text) (AreLines T.Fits count) bytes.now result }
{
    let mut list = List::new(alloc);
    let mut rest = bytes;
    for _ in 0..count {
        match push_line(alloc, &mut list, rest) {
            Ok(after) => rest = after,
            Err(fault) => return Err(fault),
        }
    }
    Ok((list, rest))
}

/// Appends lines.
pub(crate) fn append_lines<T: Line>(out: &mut String, lines: &[T]) -> Result<(), AllocError>
    ensures { OnOk result (string_bytes out.new ≡ string_bytes out.old ++ flat_map T.text lines.now) }
{
    for line in lines {
        line.append_to(out)?;
    }
    Ok(())
}

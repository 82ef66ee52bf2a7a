ghost use Rattle.std.specs.Prelude.{◌≡◌, ◌++◌, OnOk, string_bytes};
ghost use Rattle.ms_dfafile.specs.inner.Reading.{Finds, IsSmallNode, Reads};
ghost use Rattle.ms_dfafile.specs.Spelling.{node_line};

use crate::fault::FileFault;
use crate::field::{append_ref, number, reference};
use crate::line::Line;
use ms_arena::Node;
use std::alloc::{AllocError, Global};

/// A node: its variable and its ends.
fn node(bytes: &[u8]) -> Option<(Node, &[u8])>
    ensures { Reads node_line IsSmallNode bytes.now result }
{
    let (var, rest) = number(bytes, b' ')?;
    let (low, rest) = reference(rest, b' ')?;
    let (high, rest) = reference(rest, b'\n')?;
    Some((Node { var, low, high }, rest))
}

impl Line for Node {
    ghost text = { node_line };

    ghost Fits = { IsSmallNode };

    fn read(_alloc: Global, bytes: &[u8]) -> Result<(Node, &[u8]), FileFault> {
        match node(bytes) {
            Some(found) => Ok(found),
            None => Err(FileFault::Text),
        }
    }

    fn append_to(&self, out: &mut String) -> Result<(), AllocError> {
        write!(out, "{} ", self.var)?;
        append_ref(out, self.low)?;
        out.push_str(" ")?;
        append_ref(out, self.high)?;
        out.push_str("\n")
    }
}

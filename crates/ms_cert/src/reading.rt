ghost use Rattle.std.specs.Prelude.{◌≡◌, ◌↔◌, ◌<◌, ◌-◌, ◌*◌, codes, IfOk, IsErrOf, IsTrue};
ghost use Rattle.ms_dfafile.specs.Spelling.{line};
ghost use Rattle.ms_dfafile.specs.inner.Reading.{AreLines, Gives, IsSmall, Reads};
ghost use Rattle.ms_cert.specs.Text.{IsCertText, IsSmallLine};
ghost use Rattle.ms_cert.specs.declared.cert.Cert.{Cert as ACert};
ghost use Rattle.ms_cert.specs.inner.Parts.{AreTables, IsCounted, ending_text, front_text, parts_text, tables_text};

use crate::cert::{Cert, TreeLine};
use crate::lines::counted_lines;
use crate::tree::is_one_tree;
use ms_dfafile::{FileFault, behind, number};
use ms_list::List;
use std::alloc::Global;

/// The number of states in the first two lines, and what stands behind them.
fn front(bytes: &[u8]) -> Option<(u32, &[u8])>
    ensures { Reads front_text IsSmall bytes.now result }
{
    let rest = behind(bytes, b"monastr-cert 1\nstates ")?;
    number(rest, b'\n')
}

/// Whether the bytes are the last line.
fn is_end(bytes: &[u8]) -> bool
    ensures { IsTrue result ↔ (bytes.now ≡ line (codes "end")) }
{
    bytes == b"end\n".as_slice()
}

/// So many lines of a tree, and the last line.
fn ending(alloc: Global, count: u64, bytes: &[u8]) -> Result<List<TreeLine>, FileFault>
    ensures { Gives ending_text (AreLines IsSmallLine count) bytes.now result }
{
    let (tree, rest) = match counted_lines(alloc, count, bytes) {
        Ok(found) => found,
        Err(fault) => return Err(fault),
    };
    if !is_end(rest) {
        return Err(FileFault::Text);
    }
    Ok(tree)
}

/// The words of so many states, the tree of as many leaves, and the last line.
fn tables(alloc: Global, count: u32, bytes: &[u8]) -> Result<Cert, FileFault>
    requires { 0 < count }
    ensures { Gives tables_text (AreTables count) bytes.now result }
{
    let (words, rest) = match counted_lines(alloc, count as u64, bytes) {
        Ok(found) => found,
        Err(fault) => return Err(fault),
    };
    match ending(alloc, 2 * (count as u64) - 1, rest) {
        Ok(tree) => Ok(Cert { words, tree }),
        Err(fault) => Err(fault),
    }
}

/// The certificate that the bytes spell, whether its lines spell one tree or not.
fn parts(alloc: Global, bytes: &[u8]) -> Result<Cert, FileFault>
    ensures { Gives parts_text IsCounted bytes.now result }
{
    let Some((count, rest)) = front(bytes) else {
        return Err(FileFault::Text);
    };
    if count == 0 {
        return Err(FileFault::Text);
    }
    tables(alloc, count, rest)
}

/// The certificate whose text the bytes are.
pub fn read_cert(alloc: Global, bytes: &[u8]) -> Result<Cert, FileFault>
    ensures cert { IfOk result (IsCertText bytes.now) }
    ensures none { IsErrOf result FileFault.Text → (cert : ACert) → ¬ IsCertText bytes.now cert }
{
    let cert = match parts(alloc, bytes) {
        Ok(cert) => cert,
        Err(fault) => return Err(fault),
    };
    if !is_one_tree(cert.tree.slice()) {
        return Err(FileFault::Text);
    }
    Ok(cert)
}

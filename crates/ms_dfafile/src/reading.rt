ghost use Rattle.std.specs.Prelude.{◌<◌, ◌^◌, ◌↔◌, IfOk, IsErrOf, IsTrue, length};
ghost use Rattle.ms_dfa.specs.declared.plain.Plain.{Plain};
ghost use Rattle.ms_dfafile.specs.File.{IsSpelled};
ghost use Rattle.ms_dfafile.specs.inner.Rules.{MeetsRules};

use crate::fault::FileFault;
use crate::names::names_differ;
use crate::parts::content;
use crate::rules::is_content;
use crate::signs::has_signs;
use ms_dfa::Plain;
use ms_list::NoMemory;
use std::alloc::Global;

/// Whether the names differ, references, nodes and variables are as in each content, and signs as in the version.
fn meets_rules(alloc: Global, plain: &Plain) -> Result<bool, NoMemory>
    requires { length plain.now.states < 2 ^ 32 }
    ensures { IfOk result (λ meets. IsTrue meets ↔ MeetsRules plain.now) }
{
    if !names_differ(alloc, plain.variables.slice())? {
        return Ok(false);
    }
    if !is_content(alloc, plain)? {
        return Ok(false);
    }
    has_signs(alloc, plain)
}

/// The content whose automaton file the bytes are.
pub fn read(alloc: Global, bytes: &[u8]) -> Result<Plain, FileFault>
    ensures file { IfOk result (IsSpelled bytes.now) }
    ensures none { IsErrOf result FileFault.Text → (plain : Plain) → ¬ IsSpelled bytes.now plain }
{
    let plain = match content(alloc, bytes) {
        Ok(plain) => plain,
        Err(fault) => return Err(fault),
    };
    match meets_rules(alloc, &plain) {
        Ok(true) => Ok(plain),
        Ok(false) => Err(FileFault::Text),
        Err(_) => Err(FileFault::Memory),
    }
}

ghost use Rattle.std.specs.Prelude.{◌≢◌, ◌↔◌, AllPairs, IfOk, IsTrue, map};

use ms_dfa::FileVar;
use ms_list::NoMemory;
use std::alloc::Global;
use std::collections::HashSet;

/// Whether the names of the variables are all different.
pub(crate) fn names_differ(alloc: Global, variables: &[FileVar]) -> Result<bool, NoMemory>
    ensures { IfOk result (λ differ. IsTrue differ ↔ AllPairs (λ one other. one ≢ other) (map (λ v. v.name) variables.now)) }
{
    let Ok(mut seen) = HashSet::with_capacity(alloc, variables.len()) else {
        return Err(NoMemory);
    };
    for variable in variables {
        match seen.insert(variable.name.bytes()) {
            Ok(true) => {}
            Ok(false) => return Ok(false),
            Err(_) => return Err(NoMemory),
        }
    }
    Ok(true)
}

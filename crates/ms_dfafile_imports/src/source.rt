ghost use Rattle.std.specs.Prelude.{◌≡◌, ◌≤◌, ◌⊎◌, ℕ, List as Sequence, map, IfErr, IfOk};
ghost use Rattle.ms_names_checked.specs.Names.{AreDifferent};
ghost use Rattle.ms_dfa.specs.declared.plain.Plain.{Plain};
ghost use Rattle.ms_edge.specs.Files.{OnlyRead, between};
ghost use Rattle.ms_dfafile_imports.specs.Adopted.{AreAdopted};
ghost use Rattle.ms_dfafile_imports.specs.Imports.{AreImported, IsUnimported};
ghost use Rattle.ms_logic.specs.Lists.{Each};

use crate::taking::Taking;
use indexmap::IndexMap;
use ms_dfa::Automaton;
use ms_edge::{Files, Refusal};
use ms_list::List;
use ms_logic::Checked;
use std::alloc::Global;

/// The automata of the imports of a source, in their order, or the refusal of the first that fails. Each file is read once,
/// where it is imported first.
pub fn imports<F: Files>(
    alloc: Global,
    checked: &Checked,
    limit: u64,
    files: &mut F,
) -> Result<List<Automaton>, Refusal>
    requires names { Each (λ used. AreDifferent (map (λ pair. pair.name) used.pairs)) checked.now.imports }
    requires some { 1 ≤ limit }
    requires small { limit ≤ 4000000000 }
    ensures imported { IfOk result (λ automata. (plains : Sequence Plain)
        × AreImported (F.told files.old).held checked.now.mode checked.now.imports plains
        × AreAdopted limit checked.now.mode checked.now.imports plains automata) }
    ensures refused { IfErr result (λ refusal. (refusal ≡ Refusal.Memory)
        ⊎ IsUnimported (between (F.told files.old) (F.told files.new)) checked.now.mode limit checked.now.imports refusal) }

    ensures only_read { OnlyRead (F.told files.old) (F.told files.new) }
{
    let mut taking = Taking {
        alloc,
        mode: checked.mode,
        limit,
        contents: IndexMap::new(alloc),
        automata: List::new(alloc),
    };
    for used in checked.imports.slice() {
        if let Err(refusal) = taking.take(files, used) {
            return Err(refusal);
        }
    }
    Ok(taking.automata)
}

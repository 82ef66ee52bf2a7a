ghost use Rattle.ms_names_checked.specs.Checked.{MeetsRules};
ghost use Rattle.ms_names_rules.specs.Checking.{IsFirstFault};
ghost use Rattle.ms_names_rules.specs.Declarations.{first_fault_of};
ghost use Rattle.ms_names_rules.specs.Numbers.{IsWellNumbered};
ghost use Rattle.ms_names_rules.specs.TypedSource.{IsTyped};
ghost use Rattle.ms_parse_grammar.specs.View.{declared_of};
ghost use Rattle.ms_names.specs.inner.Progress.{IsEnd, checked_with};
ghost use Rattle.std.specs.Prelude.{◌≡◌, ◌⊎◌, None, map, IfErr, IfOk};

use crate::progress::Progress;
use ms_edge::Refusal;
use ms_list::{List, NoMemory, Text, let_go, push};
use ms_logic::{Checked, Loaded, Mode};
use std::alloc::Global;

// Equal texts.
fn copy_texts(alloc: Global, texts: &[Text]) -> Result<List<Text>, NoMemory>
    ensures { IfOk result (λ made. made ≡ texts.now) }
{
    let mut made = List::new(alloc);
    for text in texts {
        push(&mut made, Text::new(alloc, text.text())?)?;
    }
    Ok(made)
}

// After all declarations of a source, or its first fault.
fn passed(alloc: Global, loaded: &Loaded) -> Result<Progress, Refusal>
    ensures end { IfOk result (IsEnd loaded.now) }
    ensures refused { IfErr result (λ refusal. (refusal ≡ Refusal.Memory) ⊎ IsFirstFault loaded.now refusal) }
{
    let Ok(mut progress) = Progress::begin(alloc, loaded.mode, loaded.items.slice()) else {
        return Err(Refusal::Memory);
    };
    match progress.declare_all(loaded.items.slice()) {
        Ok(()) => Ok(progress),
        Err(refusal) => {
            let_go(progress);
            Err(refusal)
        }
    }
}

// What all declarations gave, and the names of the files.
fn checked(progress: Progress, mode: Mode, files: List<Text>) -> Checked
    ensures { result ≡ checked_with mode files progress }
{
    let Progress {
        checker,
        globals,
        predicates,
        formulas,
        ..
    } = progress;
    let (imports, exports) = checker.into_uses();
    Checked {
        mode,
        globals,
        predicates,
        imports,
        exports,
        formulas,
        files,
    }
}

/// The typed tree of a source whose names and orders are right, or its first fault. The check calls itself once for each
/// level of an expression, of which a source that is read has 300 at most; a deeper one that is made by hand takes stack
/// for each level.
pub fn check(alloc: Global, loaded: &Loaded) -> Result<Checked, Refusal>
    ensures accepted { IfOk result (λ checked. first_fault_of loaded.now.mode (map declared_of loaded.now.items) ≡ None) }
    ensures typed { IfOk result (IsTyped loaded.now) }
    ensures numbered { IfOk result IsWellNumbered }
    ensures meets_rules { IfOk result MeetsRules }
    ensures refused { IfErr result (λ refusal. (refusal ≡ Refusal.Memory) ⊎ IsFirstFault loaded.now refusal) }
{
    let progress = passed(alloc, loaded)?;
    let Ok(files) = copy_texts(alloc, loaded.files.slice()) else {
        let_go(progress);
        return Err(Refusal::Memory);
    };
    Ok(checked(progress, loaded.mode, files))
}

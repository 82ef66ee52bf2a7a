ghost use Rattle.std.specs.Prelude.{◌≡◌, ◌∷◌, ℕ, [], IfErr, IfOk};
ghost use Rattle.ms_edge.specs.Files.{OnlyRead, between};
ghost use Rattle.ms_ltlf.specs.View.{IsWellFormed, temporal_of};
ghost use Rattle.ms_ltlf_decide.specs.Formula.{IsFormulaOf, IsRefusedFormula};

use ms_app_solved::read_tokens;
use ms_edge::{Files, Refusal};
use ms_list::{List, Text};
use ms_ltlf::Trace;
use ms_ltlf_parse::read_trace;
use std::alloc::Global;

/// The formula of the file with this name, which is the file 0. Its name is noted where it could be read.
pub fn read_formula<F: Files>(
    alloc: Global,
    name: &Text,
    files: &mut F,
    names: &mut List<Text>,
) -> Result<Trace, Refusal>
    requires { names.old ≡ [] }
    ensures formula { IfOk result (λ trace. IsFormulaOf (F.told files.old).held name.now trace.names (temporal_of trace.formula)) }
    ensures well_formed { IfOk result IsWellFormed }
    ensures noted { IfOk result (λ trace. names.new ≡ name.now ∷ []) }
    ensures refused { IfErr result (λ refusal. (limit : ℕ) →
        IsRefusedFormula (between (F.told files.old) (F.told files.new)) name.now limit refusal names.new) }
    ensures only_read { OnlyRead (F.told files.old) (F.told files.new) }
{
    let tokens = match read_tokens(alloc, name, files, names) {
        Ok(tokens) => tokens,
        Err(refusal) => return Err(refusal),
    };
    read_trace(alloc, &tokens, 0)
}

//! Laws of the spread. The functions have empty bodies, and their contracts state the laws.

ghost use Rattle.ms_logic_spread.specs.RootLaws.{ExportsStandOnce, FreeVariablesAreSeen, NumberedFormulasKeepValue, QuestionsKeepValues, RootsKeepValues};
ghost use Rattle.ms_logic_spread.specs.inner.SameRootLaws.{SameFormulasHaveOneValue, SameMainRootKeepsValue, SameRootsHaveOneValue, SameRootsKeepValues};
ghost use Rattle.ms_logic_spread.specs.SpreadLaws.{SpreadKeepsEachValue, SpreadKeepsValueUnderNames};

/// A formula is Yes exactly where its spread is, and No likewise.
pub fn laws_of_spread()
    ensures under_names { SpreadKeepsValueUnderNames }
    ensures keeps_value { SpreadKeepsEachValue }
{}

/// In a source whose numbers are in order: the free variables of a formula are seen where it stands, so it has the value of its spread;
/// a number exports one formula; the main root of each question is Yes exactly where the question is, and No likewise; and each root of
/// the whole source is Yes exactly where the main value is, or the formula that it exports, and No likewise.
pub fn laws_of_roots()
    ensures free_variables { FreeVariablesAreSeen }
    ensures formulas { NumberedFormulasKeepValue }
    ensures exports { ExportsStandOnce }
    ensures questions { QuestionsKeepValues }
    ensures values { RootsKeepValues }
{}

/// Formulas and roots that are the same up to the numbers of bound variables have one value, so what is the main root of a question, or a
/// root of a source, up to these numbers has the value that this root stands for.
pub fn laws_of_same_roots()
    ensures formulas { SameFormulasHaveOneValue }
    ensures one_value { SameRootsHaveOneValue }
    ensures main { SameMainRootKeepsValue }
    ensures values { SameRootsKeepValues }
{}

//! The definitions at a small source, worked out by hand. The function has an empty body, and its contract is the table of its examples.

ghost use Rattle.ms_build_source.specs.inner.Examples.{sets_with_goal};
ghost use Rattle.ms_logic.specs.declared.formula.Formula.TheVariants.{False};
ghost use Rattle.ms_logic_core.specs.CoreForm.{falsity, truth};
ghost use Rattle.ms_logic_measures.specs.Steps.{connective, constant};
ghost use Rattle.ms_source_steps.specs.Laws.{IsStepOfSource};
ghost use Rattle.std.specs.Prelude.{[]};

/// Steps of the source `var2 P, Q; true; goal "always" false;`, whose declaration and goal are asked apart.
pub fn worked_source_steps()
    ensures declaration { IsStepOfSource (sets_with_goal False) [] (constant truth) }
    ensures goal { IsStepOfSource (sets_with_goal False) [] (constant falsity) }
    ensures together { ¬ IsStepOfSource (sets_with_goal False) [] (connective truth falsity) }
{}

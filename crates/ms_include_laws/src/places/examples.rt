//! Worked examples of the definitions. The functions have empty bodies, and their contracts state the examples.

ghost use Rattle.ms_edge.specs.declared.refusal.Refusal.TheVariants.{Grammar, Memory, SinkFault};
ghost use Rattle.ms_include_laws.specs.inner.places.Examples.{IsInside, at, call_at, constant_at, default_at, export_at, global_at, goal_at, holds_at, implied_at, import_at, include_at, joined_at, let_at, pconst_at, predicate_at, quantified_at, shift_at, source, truth_at};
ghost use Rattle.ms_include_laws.specs.inner.places.Places.{HasPlacesInFiles, IsToldOver, KeepsPlacesInFiles};
ghost use Rattle.std.specs.Prelude.{[], ◌∷◌, codes};

/// Sources of one file, which has the number 0, or 1 where another was read before.
#[tactic(auto, using(crate::proofs::of_places::Worked::worked))]
pub fn worked_sources()
    // true;
    ensures inside { HasPlacesInFiles 0 (source (truth_at (at 0) (at 0) ∷ [])) }
    ensures declaration_outside { ¬ HasPlacesInFiles 0 (source (truth_at (at 1) (at 0) ∷ [])) }
    ensures formula_outside { ¬ HasPlacesInFiles 0 (source (truth_at (at 0) (at 1) ∷ [])) }
    ensures second_outside { ¬ HasPlacesInFiles 0 (source (truth_at (at 0) (at 0) ∷ truth_at (at 0) (at 1) ∷ [])) }
    ensures behind { HasPlacesInFiles 1 (source (truth_at (at 1) (at 1) ∷ [])) }
    ensures before { ¬ HasPlacesInFiles 1 (source (truth_at (at 1) (at 0) ∷ [])) }

    // const n = 1; and include "b";
    ensures constant { HasPlacesInFiles 0 (source (constant_at (at 0) (at 0) (at 0) ∷ include_at (at 0) (at 0) ∷ [])) }
    ensures name_outside { ¬ HasPlacesInFiles 0 (source (constant_at (at 0) (at 1) (at 0) ∷ [])) }
    ensures number_outside { ¬ HasPlacesInFiles 0 (source (constant_at (at 0) (at 0) (at 1) ∷ [])) }
    ensures include_outside { ¬ HasPlacesInFiles 0 (source (include_at (at 0) (at 1) ∷ [])) }

    // var1 x;
    ensures global { HasPlacesInFiles 0 (source (global_at (at 0) (at 0) ∷ [])) }
    ensures global_outside { ¬ HasPlacesInFiles 0 (source (global_at (at 0) (at 1) ∷ [])) }

    // pred p = true; and defaultwhere1(x) = true;
    ensures predicate { HasPlacesInFiles 0 (source (predicate_at (at 0) (at 0) (at 0) ∷ default_at (at 0) (at 0) ∷ [])) }
    ensures predicate_outside { ¬ HasPlacesInFiles 0 (source (predicate_at (at 0) (at 1) (at 0) ∷ [])) }
    ensures predicate_body_outside { ¬ HasPlacesInFiles 0 (source (predicate_at (at 0) (at 0) (at 1) ∷ [])) }
    ensures default_outside { ¬ HasPlacesInFiles 0 (source (default_at (at 0) (at 1) ∷ [])) }

    // goal "a" true;
    ensures goal { HasPlacesInFiles 0 (source (goal_at (at 0) (at 0) (at 0) ∷ [])) }
    ensures title_outside { ¬ HasPlacesInFiles 0 (source (goal_at (at 0) (at 1) (at 0) ∷ [])) }
    ensures goal_outside { ¬ HasPlacesInFiles 0 (source (goal_at (at 0) (at 0) (at 1) ∷ [])) }
{}

/// Expressions of the file with the number 0.
pub fn worked_expressions()
    // p & ~q
    ensures joined { IsInside (joined_at (at 0) (at 0) (at 0)) }
    ensures operator_outside { ¬ IsInside (joined_at (at 0) (at 1) (at 0)) }
    ensures operand_outside { ¬ IsInside (joined_at (at 0) (at 0) (at 1)) }

    // p => q
    ensures implied { IsInside (implied_at (at 0) (at 0) (at 0)) }
    ensures left_side_outside { ¬ IsInside (implied_at (at 0) (at 1) (at 0)) }
    ensures right_side_outside { ¬ IsInside (implied_at (at 0) (at 0) (at 1)) }

    // t + 1 and pconst(1)
    ensures shift { IsInside (shift_at (at 0) (at 0)) }
    ensures offset_outside { ¬ IsInside (shift_at (at 0) (at 1)) }
    ensures pconst { IsInside (pconst_at (at 0) (at 0)) }
    ensures bits_outside { ¬ IsInside (pconst_at (at 0) (at 1)) }

    // f(t)
    ensures call { IsInside (call_at (at 0) (at 0)) }
    ensures argument_outside { ¬ IsInside (call_at (at 0) (at 1)) }

    // ex1 x where p: q
    ensures quantified { IsInside (quantified_at (at 0) (at 0) (at 0) (at 0)) }
    ensures variable_outside { ¬ IsInside (quantified_at (at 0) (at 1) (at 0) (at 0)) }
    ensures restriction_outside { ¬ IsInside (quantified_at (at 0) (at 0) (at 1) (at 0)) }
    ensures body_outside { ¬ IsInside (quantified_at (at 0) (at 0) (at 0) (at 1)) }

    // let2 X = Y in q
    ensures let_in { IsInside (let_at (at 0) (at 0) (at 0) (at 0)) }
    ensures let_name_outside { ¬ IsInside (let_at (at 0) (at 1) (at 0) (at 0)) }
    ensures side_outside { ¬ IsInside (let_at (at 0) (at 0) (at 1) (at 0)) }

    // import("a", X -> Y)
    ensures import { IsInside (import_at (at 0) (at 0) (at 0)) }
    ensures left_outside { ¬ IsInside (import_at (at 0) (at 1) (at 0)) }
    ensures right_outside { ¬ IsInside (import_at (at 0) (at 0) (at 1)) }

    // export("a", q)
    ensures export { IsInside (export_at (at 0) (at 0) (at 0)) }
    ensures export_text_outside { ¬ IsInside (export_at (at 0) (at 1) (at 0)) }
    ensures exported_outside { ¬ IsInside (export_at (at 0) (at 0) (at 1)) }
{}

/// A checked source, and refusals.
pub fn worked_refusals()
    // true;
    ensures kept { KeepsPlacesInFiles 0 (holds_at (at 0)) }
    ensures not_kept { ¬ KeepsPlacesInFiles 0 (holds_at (at 1)) }

    // the file with the number 0 was read, and no other
    ensures read { IsToldOver (codes "a" ∷ []) (Grammar (at 0)) }
    ensures not_read { ¬ IsToldOver (codes "a" ∷ []) (Grammar (at 1)) }

    // want of memory has no place, and a fault of the sink no line
    ensures no_place { IsToldOver [] Memory }
    ensures no_line { ¬ IsToldOver (codes "a" ∷ []) (SinkFault 0) }
{}

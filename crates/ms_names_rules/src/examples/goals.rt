ghost use Rattle.ms_logic.specs.Tree.{truth};
ghost use Rattle.ms_logic.specs.declared.mode.Mode.TheVariants.{Ws1s};
ghost use Rattle.ms_names_rules.specs.inner.Examples.{byte, export_to, fault_in, goal_is, holds, named, num, yes};
ghost use Rattle.ms_names_rules.specs.TypedSource.{formulas_of_source};
ghost use Rattle.std.specs.Prelude.{◌≡◌, [], ◌∷◌, None, Some, codes};

use crate::fault::Fault;

/// Titles of goals, and what a goal becomes.
pub fn worked_goals()
    // goal "a" true; goal "a" x;
    ensures title_twice { fault_in
        (goal_is 0 5 (codes "a") (yes 9) ∷ goal_is 15 20 (codes "a") (named 24 (codes "x")) ∷ [])
        ≡ Some (Fault.NamedTwice (byte 20) (codes "a")) }

    // goal "a" true; goal "b" true;
    ensures two_titles { fault_in
        (goal_is 0 5 (codes "a") (yes 9) ∷ goal_is 15 20 (codes "b") (yes 24) ∷ [])
        ≡ None }

    // export("a", true); goal "a" true;
    ensures file_and_title { fault_in
        (holds 0 (export_to 0 7 (codes "a") (yes 12)) ∷ goal_is 19 24 (codes "a") (yes 28) ∷ [])
        ≡ None }

    // goal "a" export("f", true); goal "b" export("f", true);
    ensures file_twice_in_two_goals { fault_in
        (goal_is 0 5 (codes "a") (export_to 9 16 (codes "f") (yes 21)) ∷ goal_is 28 33 (codes "b") (export_to 37 44 (codes "f") (yes 49)) ∷ [])
        ≡ Some (Fault.NamedTwice (byte 44) (codes "f")) }

    // goal "a" x; and goal "a" 0;
    ensures unknown_name { fault_in (goal_is 0 5 (codes "a") (named 9 (codes "x")) ∷ []) ≡ Some (Fault.UnknownName (byte 9) (codes "x")) }
    ensures no_formula { fault_in (goal_is 0 5 (codes "a") (num 9 0) ∷ []) ≡ Some (Fault.WrongOrder (byte 9)) }

    // goal "a" true;
    ensures typed { formulas_of_source Ws1s (goal_is 0 5 (codes "a") (yes 9) ∷ [])
        ≡ Some (record { at = byte 0; item = 0; title = Some (codes "a"); formula = truth }) ∷ [] }
{}

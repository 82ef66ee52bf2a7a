//! The definitions at small core formulas, worked out by hand. Each function has an empty body, and its contract
//! is the table of its examples.

ghost use Rattle.ms_logic_core.specs.inner.CallExamples.{below_itself, between, exists, number_import, x_and_y};
ghost use Rattle.ms_logic_core.specs.Calls.{filled};
ghost use Rattle.ms_logic_core.specs.Orders.{order_at};
ghost use Rattle.ms_logic_core.specs.Stands.{Stands};
ghost use Rattle.ms_logic_core.specs.CoreForm.{basic, conjunction, core_forms, imported, restricted, truth, unrestricted};
ghost use Rattle.ms_logic_core.specs.Operands.{variable};
ghost use Rattle.ms_logic_core.specs.declared.core_formula.Basic.TheVariants.{Less, Member};
ghost use Rattle.ms_logic.specs.declared.mode.Order.TheVariants.{One, Two, Zero};
ghost use Rattle.std.specs.Prelude.{[], ◌∷◌, ◌≡◌};

/// Where variables stand. The numbers x, y and z are the variables 0, 1 and 2.
pub fn worked_scopes()
    // x < y, over both and over x alone; and x in y, where y is a number
    ensures relation { Stands [] x_and_y (basic (Less 0 1)) }
    ensures out_of_scope { ¬ Stands [] (variable 0 One ∷ []) (basic (Less 0 1)) }
    ensures other_order { ¬ Stands [] x_and_y (basic (Member 0 1)) }

    // ex1 z: x < z & z < y
    ensures bound { Stands [] x_and_y (exists 2 unrestricted (between 0 2 1)) }
    // where z has the number of y, or a number below that of y
    ensures not_new { ¬ Stands [] x_and_y (exists 1 unrestricted (between 0 1 1)) }
    ensures not_greater { ¬ Stands [] (variable 1 One ∷ []) (exists 0 unrestricted truth) }
    // in its restriction a bound variable is in scope, and behind its body it is not
    ensures restriction { Stands [] x_and_y (exists 2 (restricted (basic (Less 2 0))) truth) }
    ensures behind { ¬ Stands [] x_and_y (conjunction (core_forms (exists 2 unrestricted truth ∷ basic (Less 0 2) ∷ []))) }

    // an import over one number, at y, at x and y, at z, and over a set as y; and an import that is not there
    ensures import { Stands number_import x_and_y (imported 0 (1 ∷ [])) }
    ensures too_many { ¬ Stands number_import x_and_y (imported 0 (0 ∷ 1 ∷ [])) }
    ensures import_out_of_scope { ¬ Stands number_import x_and_y (imported 0 (2 ∷ [])) }
    ensures import_of_other_order { ¬ Stands number_import (variable 1 Two ∷ []) (imported 0 (1 ∷ [])) }
    ensures no_import { ¬ Stands number_import x_and_y (imported 1 (0 ∷ [])) }
{}

/// The orders of numbers, behind a truth value and a set as globals.
pub fn worked_orders()
    ensures globals { order_at (Zero ∷ Two ∷ []) 1 ≡ Two }
    ensures first { order_at (Zero ∷ Two ∷ []) 2 ≡ Zero }
    ensures second { order_at (Zero ∷ Two ∷ []) 3 ≡ One }
    ensures third { order_at (Zero ∷ Two ∷ []) 4 ≡ Two }
    ensures next { order_at (Zero ∷ Two ∷ []) 5 ≡ Zero }
{}

/// What stands for imports. The import 0 is one of the source, and 1 stands for a relation of its variable.
pub fn worked_calls()
    ensures import { filled below_itself (imported 0 (4 ∷ [])) ≡ imported 0 (4 ∷ []) }
    ensures call { filled below_itself (imported 1 (4 ∷ [])) ≡ basic (Less 4 4) }
    // ex1 z where 1(z): z < 3 & z < y
    ensures below { filled below_itself (exists 2 (restricted (imported 1 (2 ∷ []))) (between 2 3 1)) ≡ exists 2 (restricted (basic (Less 2 2))) (between 2 3 1) }
    ensures other_variable { ¬ filled below_itself (imported 1 (4 ∷ [])) ≡ basic (Less 3 3) }
{}

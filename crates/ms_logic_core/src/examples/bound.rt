ghost use Rattle.ms_logic_core.specs.CoreForm.{CoreForm, truth, basic, negation, imported};
ghost use Rattle.ms_logic.specs.inner.Examples.{variable, import_given};
ghost use Rattle.ms_logic_core.specs.SameUpToBound.{SameUpToBound, SameRoot};
ghost use Rattle.ms_logic_core.specs.inner.SpreadExamples.{ex0, ex1, ex1_where, ex2_where, all1, and};
ghost use Rattle.ms_logic_core.specs.declared.core_formula.Basic.TheVariants.{Truth, Number, Plus, Less, Member};
ghost use Rattle.ms_logic.specs.declared.mode.Order.TheVariants.{One};
ghost use Rattle.std.specs.Prelude.{[], ◌∷◌};

/// Formulas and roots that are the same up to the numbers of bound variables, and some that are not.
pub fn worked_bound_numbers()
    // ex1 x where x = 3: x < y, with the number 5 or 7 for x; y is free
    ensures renamed { SameUpToBound []
        (ex1_where 5 (basic (Number 5 3)) (basic (Less 5 0)))
        (ex1_where 7 (basic (Number 7 3)) (basic (Less 7 0))) }
    ensures free_differs { ¬ SameUpToBound [] (ex1 5 (basic (Less 5 0))) (ex1 5 (basic (Less 5 1))) }
    ensures offset_differs { ¬ SameUpToBound [] (ex1 5 (basic (Plus 5 0 1))) (ex1 5 (basic (Plus 5 0 2))) }
    ensures form_differs { ¬ SameUpToBound [] (ex1 5 truth) (all1 5 truth) }

    // ex1 x: ex1 y: x < y is not ex1 x: ex1 y: y < x
    ensures inner_and_outer { SameUpToBound [] (ex1 1 (ex1 2 (basic (Less 1 2)))) (ex1 8 (ex1 3 (basic (Less 8 3)))) }
    ensures turned { ¬ SameUpToBound [] (ex1 1 (ex1 2 (basic (Less 1 2)))) (ex1 1 (ex1 2 (basic (Less 2 1)))) }

    // a bound variable is no free one
    ensures captured { ¬ SameUpToBound [] (ex1 5 (basic (Less 5 0))) (ex1 0 (basic (Less 0 0))) }

    // a truth value and a number may have one number in the one formula and two in the other
    ensures orders_apart { SameUpToBound [] (ex0 1 (ex1 1 (and (basic (Truth 1)) (basic (Number 1 0)))))
        (ex0 1 (ex1 2 (and (basic (Truth 1)) (basic (Number 2 0))))) }

    // an import at a bound variable
    ensures import { SameUpToBound import_given.imports (ex1 1 (imported 0 (1 ∷ []))) (ex1 2 (imported 0 (2 ∷ []))) }

    // two roots over a global and another variable, where the source has one global
    ensures root { SameRoot [] 1
        (record { variables = variable 0 One ∷ variable 1 One ∷ []; formula = basic (Less 1 0) })
        (record { variables = variable 0 One ∷ variable 4 One ∷ []; formula = basic (Less 4 0) }) }
    ensures global_differs { ¬ SameRoot [] 2
        (record { variables = variable 0 One ∷ variable 1 One ∷ []; formula = basic (Less 1 0) })
        (record { variables = variable 0 One ∷ variable 4 One ∷ []; formula = basic (Less 4 0) }) }
{}

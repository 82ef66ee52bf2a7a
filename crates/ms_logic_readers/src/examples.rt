//! Worked examples of core formulas over variables. The function has an empty body, and its contract states the examples.

ghost use Rattle.std.specs.Prelude.{◌≡◌, ◌∷◌, []};
ghost use Rattle.ms_logic.specs.declared.mode.Order.TheVariants.{One, Two};
ghost use Rattle.ms_logic.specs.declared.mode.Quant.TheVariants.{Ex};
ghost use Rattle.ms_logic_core.specs.CoreForm.{basic, negation, quantified, unrestricted};
ghost use Rattle.ms_logic_core.specs.Operands.{variable};
ghost use Rattle.ms_logic_core.specs.declared.core_formula.Basic.TheVariants.{Sub};
ghost use Rattle.ms_logic_readers.specs.Scoped.{AreDistinct, IsOver, with_bound};

/// The inclusion of set 0 in set 1, over sets and numbers with these numbers.
pub fn worked_scopes()
    ensures distinct { AreDistinct (variable 0 Two ∷ variable 1 Two ∷ []) }
    ensures twice { ¬ AreDistinct (variable 0 One ∷ variable 0 Two ∷ []) }
    ensures over { IsOver [] (variable 0 Two ∷ variable 1 Two ∷ []) (basic (Sub 0 1)) }
    ensures turned { IsOver [] (variable 1 Two ∷ variable 0 Two ∷ []) (negation (basic (Sub 0 1))) }
    ensures lacking { ¬ IsOver [] (variable 0 Two ∷ []) (basic (Sub 0 1)) }
    ensures other_order { ¬ IsOver [] (variable 0 One ∷ variable 1 Two ∷ []) (basic (Sub 0 1)) }
    ensures bound { IsOver [] (variable 0 Two ∷ []) (quantified Ex Two 1 unrestricted (basic (Sub 0 1))) }
    ensures behind { with_bound (variable 0 Two ∷ []) (variable 1 Two) ≡ variable 0 Two ∷ variable 1 Two ∷ [] }
    ensures hidden { with_bound (variable 0 One ∷ variable 1 Two ∷ []) (variable 0 Two) ≡ variable 1 Two ∷ variable 0 Two ∷ [] }
{}

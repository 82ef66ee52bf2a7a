//! The laws at small formulas, worked out by hand. Each function has an empty body, and its contract is the table of its examples.

ghost use Rattle.ms_build_source.specs.inner.CallExamples.{above_x, exists_above, exists_in, filled_at, import_at, names_for, one_predicate, spread_at, spread_with, turned, x_less_y};
ghost use Rattle.ms_lower.specs.Calling.{calls_of};
ghost use Rattle.ms_logic_core.specs.CoreForm.{basic, imported};
ghost use Rattle.ms_logic_core.specs.Spread.{own_names};
ghost use Rattle.ms_logic_core.specs.declared.core_formula.Basic.TheVariants.{Less};
ghost use Rattle.ms_lower.specs.Numbering.{renumbered};
ghost use Rattle.std.specs.Prelude.{[], ◌∷◌, ◌≡◌};

/// Spreads with their own names, with other names, and with the numbers of the first changed. The numbers x and y are the variables 0 and
/// 1, and other numbers are free from 2 on, or from 5 on.
pub fn worked_spreads()
    // x < y, where x and y become 4 and 3
    ensures own { spread_with own_names 2 x_less_y ≡ basic (Less 0 1) }
    ensures other { spread_with (names_for 4 3) 5 x_less_y ≡ basic (Less 4 3) }
    ensures changed { renumbered turned (basic (Less 0 1)) ≡ basic (Less 4 3) }

    // ex1 z: x < z, where z is 2, or 5
    ensures bound_own { spread_with own_names 2 above_x ≡ exists_above 0 2 }
    ensures bound_other { spread_with (names_for 4 3) 5 above_x ≡ exists_above 4 5 }
    ensures bound_changed { renumbered turned (exists_above 0 2) ≡ exists_above 4 5 }

    // where y, which is not read, has another name
    ensures not_read { spread_with (names_for 4 9) 5 above_x ≡ renumbered turned (spread_with own_names 2 above_x) }
    // where x has another name, or other numbers are free
    ensures read { ¬ spread_with (names_for 9 3) 5 above_x ≡ renumbered turned (spread_with own_names 2 above_x) }
    ensures not_carried { ¬ spread_with (names_for 4 3) 6 above_x ≡ renumbered turned (spread_with own_names 2 above_x) }
{}

/// A call at the set with the number 3, in a source with one global. In the answer the set has the number 9, and the first free number,
/// 4 or 7, is named as 10 or 19. The new variable z has that free number, and in the answer 11 or 20.
pub fn worked_calls()
    // the call as an import, what it stands for, and the full spread
    ensures named { import_at 1 4 ≡ imported 0 (9 ∷ 10 ∷ []) }
    ensures stands_for { calls_of 1 one_predicate 0 (9 ∷ 10 ∷ []) ≡ exists_in 11 9 0 }
    ensures spreads { spread_at 1 4 ≡ exists_in 11 9 0 }

    // where numbers are free from 7 on
    ensures named_later { import_at 1 7 ≡ imported 0 (9 ∷ 19 ∷ []) }
    ensures filled_later { filled_at 1 7 ≡ exists_in 20 9 0 }
    ensures spreads_later { spread_at 1 7 ≡ exists_in 20 9 0 }

    // at another set, or another free number
    ensures other_set { ¬ calls_of 1 one_predicate 0 (12 ∷ 10 ∷ []) ≡ exists_in 11 9 0 }
    ensures other_free { ¬ calls_of 1 one_predicate 0 (9 ∷ 13 ∷ []) ≡ exists_in 11 9 0 }

    // where the global is not kept: the call becomes the same with the global's own number
    ensures not_kept { filled_at 0 4 ≡ exists_in 14 12 0 }
    ensures spread_not_kept { spread_at 0 4 ≡ exists_in 14 12 3 }
{}

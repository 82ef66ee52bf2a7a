ghost use Rattle.ms_logic.specs.Assignment.{assign};
ghost use Rattle.ms_logic.specs.inner.Examples.{naturals, string, x_at, x_on, a_at, P_at, set_P, set_Q, subset, nothing_given, just_x, just_a, set_P_and_Q, of_each_order};
ghost use Rattle.ms_logic.specs.First.{length_of, IsBefore, IsFirst};
ghost use Rattle.ms_logic.specs.Truth.{Yes};
ghost use Rattle.ms_logic.specs.Letters.{truth_values_of, letters_below};
ghost use Rattle.ms_logic.specs.declared.assignment.Value.TheVariants.{Number, Set};
ghost use Rattle.ms_logic.specs.declared.mode.Mode.TheVariants.{Ws1s};
ghost use Rattle.std.specs.Prelude.{◌≡◌, [], ◌∷◌, true, false};

/// Lengths, words, and which assignment comes first.
pub fn worked_orders()
    // the length of x = 3; of P = {} and Q = {0, 1, 2, 4}; of A = true; and on a string of 7 positions
    ensures length_of_number { length_of just_x (x_at 3) ≡ 4 }
    ensures length_of_sets { length_of set_P_and_Q (assign 1 (Set (0 ∷ 1 ∷ 2 ∷ 4 ∷ [])) naturals)
        ≡ 5 }
    ensures length_of_truth { length_of just_a (a_at true) ≡ 0 }
    ensures length_of_string { length_of just_x (string 7) ≡ 7 }

    // A = true, x = 1 and P = {0, 2} on three letters
    ensures truth_values { truth_values_of of_each_order (a_at true) ≡ true ∷ [] }
    ensures letters { letters_below 3 of_each_order (assign 1 (Number 1) (assign 2 (Set (0 ∷ 2 ∷ [])) naturals))
        ≡ (false ∷ true ∷ []) ∷ (true ∷ false ∷ []) ∷ (false ∷ true ∷ []) ∷ [] }

    // the shorter first: x = 0 before x = 1; false before true; on two positions x = 1 before x = 0
    ensures shorter { IsBefore just_x naturals (x_at 1) }
    ensures false_before_true { IsBefore just_a naturals (a_at true) }
    ensures bits_of_first_position { IsBefore just_x (x_on 1 2) (x_on 0 2) }
    ensures not_before { ¬ IsBefore just_x (x_on 0 2) (x_on 1 2) }

    // Q = {0} before P = {0}, since P comes first in the list
    ensures earlier_variable { IsBefore
        set_P_and_Q (assign 1 (Set (0 ∷ [])) naturals) (P_at (0 ∷ [])) }

    // P = {} and Q = {} is the first assignment with P sub Q
    ensures first { IsFirst Ws1s set_P_and_Q (Yes nothing_given (subset set_P set_Q)) naturals }
{}

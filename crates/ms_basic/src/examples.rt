ghost use Rattle.std.specs.Prelude.{◌≡◌, ◌≤◌, true, false, [], ◌∷◌};
ghost use Rattle.ms_logic_core.specs.declared.core_formula.Basic.TheVariants.{Bits, Down, Less, Max, Member, Min, Number, Plus, Sub, Truth, Union, Up};
ghost use Rattle.ms_logic.specs.declared.mode.Mode.TheVariants.{M2lStr, Ws1s};
ghost use Rattle.ms_logic_words.specs.declared.sign.Sign.TheVariants.{No, Outside, Undefined, Yes};
ghost use Rattle.ms_basic.specs.declared.sets.SetRelation.TheVariants as relations;
ghost use Rattle.ms_basic.specs.Bits.{bits_table, digits_of};
ghost use Rattle.ms_basic.specs.inner.Examples.{on_four_letters};
ghost use Rattle.ms_basic.specs.inner.Greatest.{greatest_table};
ghost use Rattle.ms_basic.specs.inner.Least.{least_table};
ghost use Rattle.ms_basic.specs.inner.Less.{less_table};
ghost use Rattle.ms_basic.specs.inner.Member.{member_table};
ghost use Rattle.ms_basic.specs.inner.Number.{number_table};
ghost use Rattle.ms_basic.specs.Operands.{HaveOneOrder, number, set, truth_value};
ghost use Rattle.ms_logic_core.specs.Operands.{variables_of_basic};
ghost use Rattle.ms_basic.specs.inner.Plus.{plus_table};
ghost use Rattle.ms_basic.specs.inner.Reading.{operand_bits, operand_truths, state_behind, track_at};
ghost use Rattle.ms_basic.specs.inner.Relation.{IsRight};
ghost use Rattle.ms_basic.specs.inner.Repeated.{one_number_table};
ghost use Rattle.ms_basic.specs.Sets.{agrees, tested_step};
ghost use Rattle.ms_basic.specs.States.{states_of};
ghost use Rattle.ms_basic.specs.inner.Tally.{OnNumbers};
ghost use Rattle.ms_basic.specs.inner.Truth.{truth_table};
ghost use Rattle.ms_basic.specs.Verdict.{sign_by_contradiction, sign_by_verdict};
ghost use Rattle.ms_basic.specs.inner.Windows.{down_table, shifted, up_table};

/// The operands of relations, and which orders they have.
pub fn worked_operands()
    ensures truth { variables_of_basic (Truth 4) ≡ truth_value 4 ∷ [] }
    ensures sum { variables_of_basic (Plus 1 2 7) ≡ number 1 ∷ number 2 ∷ [] }
    ensures union { variables_of_basic (Union 5 3 3) ≡ set 5 ∷ set 3 ∷ set 3 ∷ [] }
    ensures one_order { HaveOneOrder (variables_of_basic (Sub 3 3)) }
    ensures two_orders { ¬ HaveOneOrder (variables_of_basic (Member 3 3)) }
{}

/// What a machine reads of an assignment.
pub fn worked_readings()
    ensures behind_another { track_at (number 9 ∷ set 4 ∷ []) (set 4 ∷ number 9 ∷ []) 0 ≡ 1 }
    ensures no_operand { track_at (number 9 ∷ set 4 ∷ []) (set 4 ∷ number 9 ∷ []) 2 ≡ 3 }
    ensures neither { operand_bits (number 9 ∷ set 4 ∷ []) on_four_letters 1 ≡ record { first = false; second = false; third = false } }
    ensures both { operand_bits (number 9 ∷ set 4 ∷ []) on_four_letters 2 ≡ record { first = true; second = true; third = false } }
{}

/// The states of machines behind the four positions of an assignment, and their signs.
pub fn worked_machines()
    ensures below { state_behind less_table (number 9 ∷ number 1 ∷ []) on_four_letters 4 ≡ 1 }
    ensures above { state_behind less_table (number 1 ∷ number 9 ∷ []) on_four_letters 4 ≡ 2 }
    ensures waiting { state_behind less_table (number 9 ∷ number 1 ∷ []) on_four_letters 3 ≡ 4 }
    ensures lost { less_table.step 1 (record { first = true; second = false; third = false }) ≡ 0 }
    ensures sum { state_behind (plus_table 1) (number 1 ∷ number 9 ∷ []) on_four_letters 4 ≡ 1 }
    ensures other_sum { state_behind (plus_table 2) (number 1 ∷ number 9 ∷ []) on_four_letters 4 ≡ 2 }
    ensures two { state_behind (number_table 2) (number 9 ∷ []) on_four_letters 4 ≡ 1 }
    ensures member { state_behind member_table (number 9 ∷ set 4 ∷ []) on_four_letters 4 ≡ 1 }
    ensures not_least { state_behind least_table (number 9 ∷ set 4 ∷ []) on_four_letters 4 ≡ 2 }
    ensures greatest { state_behind greatest_table (number 9 ∷ set 4 ∷ []) on_four_letters 4 ≡ 1 }
    ensures itself { state_behind (one_number_table false) (number 9 ∷ []) on_four_letters 4 ≡ 1 }
    ensures true_value { truth_table.start (operand_truths (truth_value 6 ∷ []) on_four_letters) ≡ 1 }
    ensures one_and_four { digits_of 5 ≡ 3 }
    ensures five { state_behind (bits_table M2lStr 5 3) (set 4 ∷ []) on_four_letters 4 ≡ 4 }
    ensures not_four { state_behind (bits_table M2lStr 4 3) (set 4 ∷ []) on_four_letters 4 ≡ 0 }
    ensures lost_sign { sign_by_verdict 0 ≡ Outside }
    ensures waiting_sign { sign_by_verdict 4 ≡ Outside }
{}

/// Where the bits of a position agree with relations between sets.
pub fn worked_agreements()
    ensures member_of_both { agrees relations.Sub (record { first = true; second = true; third = false }) ≡ true }
    ensures member_of_first { agrees relations.Sub (record { first = true; second = false; third = false }) ≡ false }
    ensures member_of_one { agrees relations.Union (record { first = true; second = false; third = true }) ≡ true }
    ensures not_of_both { agrees relations.Inter (record { first = true; second = false; third = true }) ≡ false }
    ensures taken_away { agrees relations.Diff (record { first = false; second = true; third = true }) ≡ true }
    ensures later { tested_step true 0 ≡ 0 }
    ensures agreed_sign { sign_by_contradiction 1 ≡ Yes }
    ensures contradicted_sign { sign_by_contradiction 0 ≡ No }
{}

/// What is said of the numbers among operands.
pub fn worked_numbers()
    ensures first_alone { OnNumbers (λ operand. operand ≡ 0) (variables_of_basic (Member 1 2)) }
    ensures no_number { OnNumbers (λ operand. ⊥) (variables_of_basic (Sub 1 2)) }
    ensures second_too { ¬ (OnNumbers (λ operand. operand ≡ 0) (variables_of_basic (Less 1 2))) }
{}

/// Windows of two bits.
pub fn worked_windows()
    ensures one_more { shifted 2 true ≡ 5 }
    ensures moved_up { (up_table M2lStr 4).step 3 (record { first = true; second = false; third = false }) ≡ 1 }
    ensures not_moved_up { (up_table M2lStr 4).step 3 (record { first = false; second = false; third = false }) ≡ 0 }
    ensures left_over { (up_table Ws1s 4).sign 3 ≡ No }
    ensures past_the_end { (up_table M2lStr 4).sign 3 ≡ Yes }
    ensures shorter { (down_table 4).step 3 (record { first = false; second = true; third = false }) ≡ 6 }
    ensures full { (down_table 4).step 6 (record { first = false; second = true; third = false }) ≡ 4 }
    ensures not_moved_down { (down_table 4).step 6 (record { first = false; second = false; third = false }) ≡ 0 }
{}

/// How many states the machines of relations have.
pub fn worked_states()
    ensures number { states_of (Number 1 3) ≡ 8 }
    ensures less { states_of (Less 1 2) ≡ 6 }
    ensures less_itself { states_of (Less 1 1) ≡ 3 }
    ensures up { states_of (Up 1 2 3) ≡ 9 }
    ensures down { states_of (Down 1 2 3) ≡ 16 }
    ensures up_itself { states_of (Up 1 1 3) ≡ 2 }
    ensures bits { states_of (Bits 1 5) ≡ 5 }
    ensures least { states_of (Min 1 2) ≡ 7 }
    ensures greatest { states_of (Max 1 2) ≡ 5 }
{}

/// Which sign is right of a fact.
pub fn worked_signs()
    ensures yes { IsRight (1 ≤ 2) Yes }
    ensures no { IsRight (2 ≤ 1) No }
    ensures not_yes { ¬ (IsRight (2 ≤ 1) Yes) }
    ensures never_undefined { ¬ (IsRight (1 ≤ 2) Undefined) }
    ensures never_outside { ¬ (IsRight (2 ≤ 1) Outside) }
{}

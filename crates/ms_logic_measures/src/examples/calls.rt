ghost use Rattle.ms_logic_measures.specs.inner.BudgetExamples.{measured_subset, is_truth};
ghost use Rattle.ms_logic_words.specs.inner.ContentExamples.{full_subset_content, encodings_content, subset_content};
ghost use Rattle.ms_logic_measures.specs.Budgets.{answer_by_places, IsContentOfImport, IsMeasure, budget};
ghost use Rattle.ms_logic_measures.specs.CallMeasures.{IsRenameMeasure, IsAdoptMeasure, IsProjectMeasure, LeadToPairs, LeadsToReferences};
ghost use Rattle.ms_logic_core.specs.CoreForm.{restricted};
ghost use Rattle.ms_logic.specs.inner.Examples.{variable};
ghost use Rattle.ms_logic_measures.specs.Steps.{binding};
ghost use Rattle.ms_logic.specs.Truth.{answer_yes, answer_no};
ghost use Rattle.ms_logic.specs.declared.assignment.Value.TheVariants.{Set};
ghost use Rattle.ms_logic.specs.declared.mode.Mode.TheVariants.{Ws1s, M2lStr};
ghost use Rattle.ms_logic.specs.declared.mode.Order.TheVariants.{Zero};
ghost use Rattle.ms_logic_measures.specs.inner.MeasuredContents.{turned_subset, turned_import, restricted_truth_content, implies_content, truth_content};
ghost use Rattle.ms_logic_measures.specs.inner.MeasureExamples.{implies_truth, truth_B_and_A, truth_A};
ghost use Rattle.std.specs.Prelude.{◌≡◌, ℕ, [], ◌∷◌, None};

/// Files of imports. `turned_subset` is the content of the file of P sub Q for an import that names Q before P.
#[tactic(auto, unfolding(ms_arena::specs::Diagram::leaf_of))]
pub fn worked_files()
    // the value at the place j goes to the variable with the number j, which stands elsewhere in the file
    ensures straight_yes { answer_by_places subset_content None (Set [] ∷ Set (0 ∷ []) ∷ []) ≡ answer_yes }
    ensures straight_no { answer_by_places subset_content None (Set (0 ∷ []) ∷ Set [] ∷ []) ≡ answer_no }
    ensures turned_yes { answer_by_places turned_subset None (Set (0 ∷ []) ∷ Set [] ∷ []) ≡ answer_yes }
    ensures turned_no { answer_by_places turned_subset None (Set [] ∷ Set (0 ∷ []) ∷ []) ≡ answer_no }

    // an import that turns its values round has this file, not the one whose variables stand by rising numbers
    ensures file { IsContentOfImport Ws1s turned_import turned_subset }
    ensures other_order { ¬ IsContentOfImport Ws1s turned_import subset_content }
    ensures other_mode { ¬ IsContentOfImport M2lStr turned_import turned_subset }
{}

/// Measures of renaming and of adopting.
pub fn worked_renamings()
    // P sub Q with Q before P: after the bit 1 for Q only the first state is left, and after 0 a new reference
    ensures turned { IsRenameMeasure full_subset_content (6 ∷ 2 ∷ []) 4 4 }
    ensures turned_alone { (m r : ℕ) → IsRenameMeasure full_subset_content (6 ∷ 2 ∷ []) m r
        → (m ≡ 4) × (r ≡ 4) }

    // both variables get one number: they keep their order, and each has a bit of its own
    ensures together { IsRenameMeasure full_subset_content (3 ∷ 3 ∷ []) 4 4 }

    // restrict(B) & A: after the bit 0 for B nothing of A is left, but after either bit for A something of B is
    ensures kept { IsRenameMeasure restricted_truth_content (2 ∷ 6 ∷ []) 5 5 }
    ensures kept_turned { IsRenameMeasure restricted_truth_content (6 ∷ 2 ∷ []) 6 5 }

    // adopting the file of P sub Q, and the one with its pairs turned round: four pairs with `true`, which has one
    // state; four states and nodes and one are read
    ensures adopt { IsAdoptMeasure subset_content encodings_content 4 5 }
    ensures adopt_turned { IsAdoptMeasure turned_subset encodings_content 4 5 }
{}

/// The measure of ex0 A where A: B => A.
pub fn worked_restricted_quantifier()
    // B => A has its start, what the bits 0 and 1 for B leave of it, and the state No; A has its start and two states
    ensures body_parts { LeadsToReferences implies_content truth_B_and_A 4 }
    ensures restriction_parts { LeadsToReferences truth_content truth_A 3 }

    // no bit, the bit 0 and the bit 1 for B, and the words 00, 10 and one for 01 and 11
    ensures pairs { LeadToPairs implies_content truth_content truth_B_and_A 6 }

    // a start over B has no bit, the bit 0 or the bit 1, and leads to one pair or to two; six pairs and seven states
    // and nodes are read
    ensures project { IsProjectMeasure implies_content truth_content (variable 1 Zero) 3 13 }
    ensures step { IsMeasure measured_subset (binding (variable 1 Zero) (restricted (is_truth 1)) implies_truth) 3 13 }
    ensures step_budget { budget 3 13 ≡ 82944 }
{}

ghost use Rattle.ms_logic_measures.specs.inner.BudgetExamples.{measured_subset, subset_form};
ghost use Rattle.ms_logic_words.specs.inner.ContentExamples.{full_subset_content, encodings_content, word};
ghost use Rattle.ms_logic_measures.specs.Budgets.{IsMeasure, budget};
ghost use Rattle.ms_logic_measures.specs.CallMeasures.{call_measure, place_variables, in_order_of, HasReachedParts, no_restriction, IsMinimiseMeasure, IsCombineMeasure, IsProjectMeasure, IsRenameMeasure};
ghost use Rattle.ms_logic.specs.inner.Examples.{set_P_and_Q, variable};
ghost use Rattle.ms_logic_measures.specs.FullContent.{IsFullContent};
ghost use Rattle.ms_logic_core.specs.Roots.{main_root};
ghost use Rattle.ms_logic_core.specs.inner.SpreadExamples.{subset_source};
ghost use Rattle.ms_logic_measures.specs.Starts.{IsStartOver, some_truth_values, whole_word, part_of_letter, left_by};
ghost use Rattle.ms_logic_measures.specs.Steps.{relation, connective, root};
ghost use Rattle.ms_logic_core.specs.declared.core_formula.Basic.TheVariants.{Plus, Member, Sub, Union};
ghost use Rattle.ms_logic.specs.declared.mode.Mode.TheVariants.{Ws1s};
ghost use Rattle.ms_logic.specs.declared.mode.Order.TheVariants.{Zero, One, Two};
ghost use Rattle.std.specs.Prelude.{◌≡◌, [], ◌∷◌, true, false};

/// Starts over P and Q, or over A, P and Q, and what they leave of `full_subset_content`, the full content of P sub Q.
#[tactic(auto, unfolding(ms_arena::specs::Diagram::leaf_of))]
pub fn worked_starts()
    ensures no_truth_values { ¬ IsStartOver set_P_and_Q (some_truth_values []) }
    ensures first_truth_values { IsStartOver (variable 4 Zero ∷ set_P_and_Q) (some_truth_values []) }
    ensures no_bit { IsStartOver set_P_and_Q (part_of_letter (word [] []) []) }
    ensures one_bit { IsStartOver set_P_and_Q (part_of_letter (word [] []) (true ∷ [])) }
    ensures both_bits { ¬ IsStartOver set_P_and_Q (part_of_letter (word [] []) (true ∷ true ∷ [])) }

    // P = {0} and Q = {}; the same beside a truth value, which is passed over
    ensures word_outside { left_by full_subset_content set_P_and_Q (whole_word (word [] ((true ∷ false ∷ []) ∷ []))) (λ place. false)
        ≡ 1 }
    ensures passed_over { left_by full_subset_content
        (variable 4 Zero ∷ set_P_and_Q) (whole_word (word (true ∷ []) ((true ∷ false ∷ []) ∷ []))) (λ place. false)
        ≡ 1 }

    // the bit 1 for P, and then 0 or 1 for Q
    ensures then_zero { left_by full_subset_content set_P_and_Q (part_of_letter (word [] []) (true ∷ [])) (λ place. false)
        ≡ 1 }
    ensures then_one { left_by full_subset_content set_P_and_Q (part_of_letter (word [] []) (true ∷ [])) (λ place. true)
        ≡ 0 }

    // Q before P: the bit 1 for Q, and then any bit for P
    ensures other_order { left_by full_subset_content
        (variable 1 Two ∷ variable 0 Two ∷ []) (part_of_letter (word [] []) (true ∷ [])) (λ place. true)
        ≡ 0 }
{}

/// Measures of calls.
pub fn worked_call_measures()
    // S sub T where T comes before S; S = T union S; x = y + 2
    ensures places_turned { place_variables (Sub 5 3) ≡ variable 1 Two ∷ variable 0 Two ∷ [] }
    ensures places_together { place_variables (Union 7 3 7) ≡ variable 1 Two ∷ variable 0 Two ∷ variable 2 Two ∷ [] }
    ensures places_kept { place_variables (Plus 3 5 2) ≡ variable 0 One ∷ variable 1 One ∷ [] }

    // an order by numbers keeps variables with one number as they stand
    ensures by_numbers { in_order_of (9 ∷ 4 ∷ 9 ∷ []) (variable 0 Two ∷ variable 1 Two ∷ variable 2 Two ∷ [])
        ≡ variable 1 Two ∷ variable 0 Two ∷ variable 2 Two ∷ [] }

    // P sub Q has two states and two nodes; a missing restriction counts as one state
    ensures four_parts { HasReachedParts full_subset_content 4 }
    ensures one_part { HasReachedParts (no_restriction Ws1s) 1 }

    // calls on it
    ensures minimise { IsMinimiseMeasure full_subset_content 4 0 }
    ensures combine { IsCombineMeasure full_subset_content full_subset_content 4 8 }
    ensures rename { IsRenameMeasure full_subset_content (2 ∷ 6 ∷ []) 4 4 }
    ensures measure { call_measure 4 8 ≡ 784 }

    // ex2 Q: the sets {0} and {0, 1} of states, where P is empty and where it is not, and two sets in the midst of a letter;
    // four pairs, four parts and one for the missing restriction are read
    ensures project { IsProjectMeasure full_subset_content (no_restriction Ws1s) (variable 1 Two) 4 9 }
{}

/// The budgets of the source var2 P, Q; P sub Q.
pub fn worked_budgets()
    // two states and two nodes, over one variable for each place
    ensures full { IsFullContent [] Ws1s set_P_and_Q subset_form full_subset_content }
    ensures relation_measure { IsMeasure measured_subset (relation (Sub 0 1)) 4 0 }
    ensures relation_budget { budget 4 0 ≡ 9216 }

    // four pairs of references of P sub Q and of `true`, which has one state
    ensures root_measure { IsMeasure measured_subset (root (main_root subset_source)) 4 5 }
    ensures root_budget { budget 4 5 ≡ 30976 }

    // P sub Q & P sub Q would be four pairs of four and four
    ensures connective_measure { IsMeasure measured_subset (connective subset_form subset_form) 4 8 }
    ensures connective_budget { budget 4 8 ≡ 50176 }
{}

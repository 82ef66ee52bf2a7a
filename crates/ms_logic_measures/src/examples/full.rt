ghost use Rattle.ms_logic_words.specs.inner.ContentExamples.{full_subset_content, encodings_content};
ghost use Rattle.ms_logic_measures.specs.inner.BudgetExamples.{subset_form, is_truth};
ghost use Rattle.ms_logic_words.specs.Content.{Content};
ghost use Rattle.ms_logic_core.specs.CoreForm.{restrict, truth};
ghost use Rattle.ms_logic.specs.inner.Examples.{just_x, set_P_and_Q};
ghost use Rattle.ms_logic_measures.specs.FullContent.{IsFullContent, HasPartCount};
ghost use Rattle.ms_logic.specs.declared.mode.Mode.TheVariants.{Ws1s, M2lStr};
ghost use Rattle.ms_logic_words.specs.declared.sign.Sign.{Sign};
ghost use Rattle.ms_logic_words.specs.declared.sign.Sign.TheVariants as sign;
ghost use Rattle.ms_logic_measures.specs.inner.MeasuredContents.{zero_content, position_content, number_content, implies_content, truth_content};
ghost use Rattle.ms_logic_measures.specs.inner.MeasureExamples.{is_zero, some_number, implies_truth, truth_B_and_A, truth_A};
ghost use Rattle.std.specs.Prelude.{◌≡◌, []};

/// Full contents of formulas.
pub fn worked_full_contents()
    // x = 0 over x: five states, of which three are Outside, and four nodes
    ensures number { IsFullContent [] Ws1s just_x is_zero (zero_content Ws1s sign.No) }
    ensures number_parts { HasPartCount [] Ws1s just_x is_zero 9 }

    // restrict(x = 0) is Undefined where x = 0 is No
    ensures restricted_number { IsFullContent [] Ws1s just_x (restrict is_zero) (zero_content Ws1s sign.Undefined) }

    // x = 0 on strings: a position has one 1 there too
    ensures position { IsFullContent [] M2lStr just_x is_zero (zero_content M2lStr sign.No) }

    // ex1 x: true is No on the empty string alone, and Yes in WS1S
    ensures some_position { IsFullContent [] M2lStr [] some_number position_content }
    ensures some_number { IsFullContent [] Ws1s [] some_number number_content }

    // B => A and A, whose truth values the start reads
    ensures implication { IsFullContent [] Ws1s truth_B_and_A implies_truth implies_content }
    ensures truth_value { IsFullContent [] Ws1s truth_A (is_truth 1) truth_content }
{}

/// Over P and Q there is one full content of P sub Q, and one of `true`.
pub fn worked_only_contents()
    ensures subset { (content : Content Sign) → IsFullContent [] Ws1s set_P_and_Q subset_form content
        → content ≡ full_subset_content }
    ensures encodings { (content : Content Sign) → IsFullContent [] Ws1s set_P_and_Q truth content
        → content ≡ encodings_content }
{}

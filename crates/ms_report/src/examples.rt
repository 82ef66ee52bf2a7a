//! Worked examples of numbers in binary. The functions have empty bodies, and their contracts state the examples.

ghost use Rattle.std.specs.Prelude.{◌≡◌, ◌++◌, ◌^◌, ◌∷◌, ℕ, [], None, Some, codes, replicate};
ghost use Rattle.ms_logic.specs.declared.assignment.Value.TheVariants.{Set};
ghost use Rattle.ms_report.specs.Numbers.{number_answer_of, number_line_of, number_of_set, number_report_of};
ghost use Rattle.ms_report.specs.declared.found.Verdict.TheVariants.{Contingent, Unsatisfiable};

/// Numbers of sets, and lines of numbers.
pub fn worked_number_lines()
    ensures empty_set { number_of_set [] ≡ 0 }
    ensures places { number_of_set (1 ∷ 2 ∷ []) ≡ 6 }
    ensures zero { number_line_of (codes "x") 0 ≡ codes "x = 0b0 = 0" }
    ensures one { number_line_of (codes "x") 1 ≡ codes "x = 0b1 = 1" }
    ensures six { number_line_of (codes "two words") 6 ≡ codes "two words = 0b110 = 6" }
    ensures ten { number_line_of (codes "x") 10 ≡ codes "x = 0b1010 = 10" }
    // the greatest power of 2 that is spelled in decimal, and the next
    ensures decimal { (n : ℕ) → n ≡ 2 ^ 127 →
        number_line_of (codes "x") n ≡ codes "x = 0b1" ++ replicate 127 48 ++ codes " = 170141183460469231731687303715884105728" }
    ensures binary_alone { (n : ℕ) → n ≡ 2 ^ 128 → number_line_of (codes "x") n ≡ codes "x = 0b1" ++ replicate 128 48 }
{}

/// Reports on formulas of linear arithmetic.
pub fn worked_number_reports()
    // x + y = 3 & x < y
    ensures contingent { number_report_of (codes "x" ∷ codes "y" ∷ []) (record {
      verdict = Contingent;
      example = Some (record { digits = 2; numbers = 0 ∷ 3 ∷ [] });
      counterexample = Some (record { digits = 0; numbers = 0 ∷ 0 ∷ [] });
    }) ≡ codes "contingent\nexample digits 2\nx = 0b0 = 0\ny = 0b11 = 3\ncounterexample digits 0\nx = 0b0 = 0\ny = 0b0 = 0\n" }
    // x < 0
    ensures unsatisfiable { number_report_of (codes "x" ∷ []) (record {
      verdict = Unsatisfiable;
      example = None;
      counterexample = Some (record { digits = 0; numbers = 0 ∷ [] });
    }) ≡ codes "unsatisfiable\nno example\ncounterexample digits 0\nx = 0b0 = 0\n" }
    ensures of_sets { number_answer_of (record {
      verdict = Contingent;
      example = Some (record { length = 2; values = Set [] ∷ Set (0 ∷ 1 ∷ []) ∷ [] });
      counterexample = Some (record { length = 0; values = Set [] ∷ Set [] ∷ [] });
    }) ≡ record {
      verdict = Contingent;
      example = Some (record { digits = 2; numbers = 0 ∷ 3 ∷ [] });
      counterexample = Some (record { digits = 0; numbers = 0 ∷ 0 ∷ [] });
    } }
{}

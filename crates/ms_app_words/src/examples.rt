//! Worked examples of words. The functions have empty bodies, and their contracts state the examples.
#![tactic(auto, unfolding(clap::proofs::OnLiterals::clap_on_literals))]

ghost use Rattle.std.specs.Prelude.{◌≡◌, [], codes, false, true, None, Some};
ghost use Rattle.clap.specs.Words.{fault_of, first_of, matches_of};
ghost use Rattle.ms_app_words.specs.Command.{HasFormat, HasLimit, HasNumber, certify_app, check_app, decide_app, first_verb, gen_app, is_given, ltl_app, presburger_app, same_app};
ghost use Rattle.ms_dfa.specs.declared.plain.FileVersion.{FileVersion};
ghost use Rattle.ms_dfa.specs.declared.plain.FileVersion.TheVariants.{One, Two};
ghost use Rattle.ms_app_words.specs.inner.Examples.{certify_alone, certify_one, certify_with_limit, certify_with_out, check_with_limit, for_help, formula_with_limit, formula_with_out, gen_and_decide, gen_by_number, no_file, one_certificate, one_file, one_formula, one_problem, only_left, two_files, two_to_compare, with_counts, with_format, with_limit, with_out};
ghost use Rattle.ms_app_words.specs.declared.command.Verb.TheVariants.{Certify, Check, Decide, Gen, Ltl, Presburger, Same};

/// The first word says which command it is.
pub fn worked_verbs()
    ensures decide { first_verb one_file ≡ Some Decide }
    ensures compare { first_verb two_to_compare ≡ Some Same }
    ensures generate { first_verb gen_by_number ≡ Some Gen }
    ensures traces { first_verb one_formula ≡ Some Ltl }
    ensures numbers { first_verb one_problem ≡ Some Presburger }
    ensures certificate { first_verb one_certificate ≡ Some Check }
    ensures certify { first_verb certify_one ≡ Some Certify }
    ensures none { first_verb [] ≡ None }
{}

/// What is taken after `decide`, and what the matches are.
pub fn worked_words()
    ensures one_file { fault_of decide_app one_file ≡ [] }
    ensures the_file { first_of (codes "FILE") (matches_of decide_app one_file) ≡ Some (codes "t.mona") }
    ensures no_limit { first_of (codes "max-nodes") (matches_of decide_app one_file) ≡ None }
    ensures no_counts { is_given (codes "stats") (matches_of decide_app one_file) ≡ false }
    ensures no_file { ¬ (fault_of decide_app no_file ≡ []) }
    ensures two_files { ¬ (fault_of decide_app two_files ≡ []) }
    ensures with_limit { fault_of decide_app with_limit ≡ [] }
    ensures the_limit { first_of (codes "max-nodes") (matches_of decide_app with_limit) ≡ Some (codes "5") }
    ensures same_file { first_of (codes "FILE") (matches_of decide_app with_limit) ≡ Some (codes "t.mona") }
    ensures no_out { first_of (codes "out") (matches_of decide_app one_file) ≡ None }
    ensures with_out { fault_of decide_app with_out ≡ [] }
    ensures the_out { first_of (codes "out") (matches_of decide_app with_out) ≡ Some (codes "t.dfa") }
    ensures with_counts { fault_of decide_app with_counts ≡ [] }
    ensures counts { is_given (codes "stats") (matches_of decide_app with_counts) ≡ true }
    ensures no_format { first_of (codes "format") (matches_of decide_app one_file) ≡ None }
    ensures with_format { fault_of decide_app with_format ≡ [] }
    ensures the_format { first_of (codes "format") (matches_of decide_app with_format) ≡ Some (codes "1") }
    ensures for_help { ¬ (fault_of decide_app for_help ≡ []) }
{}

/// What is taken after `same`.
pub fn worked_comparisons()
    ensures two { fault_of same_app two_to_compare ≡ [] }
    ensures left { first_of (codes "LEFT") (matches_of same_app two_to_compare) ≡ Some (codes "a.mona") }
    ensures right { first_of (codes "RIGHT") (matches_of same_app two_to_compare) ≡ Some (codes "b.mona") }
    ensures one { ¬ (fault_of same_app only_left ≡ []) }
{}

/// What is taken after `gen`.
pub fn worked_generations()
    ensures number { fault_of gen_app gen_by_number ≡ [] }
    ensures the_number { first_of (codes "K") (matches_of gen_app gen_by_number) ≡ Some (codes "3") }
    ensures not_decided { is_given (codes "decide") (matches_of gen_app gen_by_number) ≡ false }
    ensures and_decide { fault_of gen_app gen_and_decide ≡ [] }
    ensures decided { is_given (codes "decide") (matches_of gen_app gen_and_decide) ≡ true }
{}

/// What is taken after `ltl`.
pub fn worked_formulas()
    ensures one_formula { fault_of ltl_app one_formula ≡ [] }
    ensures the_file { first_of (codes "FILE") (matches_of ltl_app one_formula) ≡ Some (codes "f.ltl") }
    ensures no_limit { first_of (codes "max-nodes") (matches_of ltl_app one_formula) ≡ None }
    ensures with_limit { fault_of ltl_app formula_with_limit ≡ [] }
    ensures the_limit { first_of (codes "max-nodes") (matches_of ltl_app formula_with_limit) ≡ Some (codes "5") }
    ensures no_out { ¬ (fault_of ltl_app formula_with_out ≡ []) }
{}

/// What is taken after `presburger` and `check`.
pub fn worked_checks()
    ensures one_problem { fault_of presburger_app one_problem ≡ [] }
    ensures the_problem { first_of (codes "FILE") (matches_of presburger_app one_problem) ≡ Some (codes "f.pa") }
    ensures one_certificate { fault_of check_app one_certificate ≡ [] }
    ensures the_name { first_of (codes "NAME") (matches_of check_app one_certificate) ≡ Some (codes "t.dfa") }
    ensures no_limit { ¬ (fault_of check_app check_with_limit ≡ []) }
{}

/// What is taken after `certify`.
pub fn worked_certifications()
    ensures one { fault_of certify_app certify_one ≡ [] }
    ensures the_file { first_of (codes "FILE") (matches_of certify_app certify_one) ≡ Some (codes "t.mona") }
    ensures the_name { first_of (codes "NAME") (matches_of certify_app certify_one) ≡ Some (codes "t.dfa") }
    ensures no_limit { first_of (codes "max-nodes") (matches_of certify_app certify_one) ≡ None }
    ensures with_limit { fault_of certify_app certify_with_limit ≡ [] }
    ensures the_limit { first_of (codes "max-nodes") (matches_of certify_app certify_with_limit) ≡ Some (codes "5") }
    ensures no_name { ¬ (fault_of certify_app certify_alone ≡ []) }
    ensures no_out { ¬ (fault_of certify_app certify_with_out ≡ []) }
{}

/// Versions of files.
pub fn worked_formats()
    ensures none_named { HasFormat None Two }
    ensures one { HasFormat (Some (codes "1")) One }
    ensures two { HasFormat (Some (codes "2")) Two }
    ensures three { (version : FileVersion) → ¬ HasFormat (Some (codes "3")) version }
{}

/// Limits and numbers.
pub fn worked_limits()
    ensures none_named { HasLimit None 16777216 }
    ensures zero { ¬ HasLimit (Some (codes "0")) 0 }
    ensures too_great { ¬ HasLimit (Some (codes "4000000001")) 4000000001 }
    ensures no_number { ¬ HasNumber (Some (codes "three")) 3 }
{}

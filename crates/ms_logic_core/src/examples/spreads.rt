ghost use Rattle.ms_logic_core.specs.CoreForm.{core_forms, basic, equivalence, implication};
ghost use Rattle.ms_logic_core.specs.CoreForm as core;
ghost use Rattle.ms_logic.specs.inner.Examples.{var_x, var_y, var_z, set_P, set_Q, truth_a, truth_b, less, at_most, greater, at_least, equal, differs, is_in, not_in, subset, set_equal, listed, ex1_where, both, two_arguments, let_b, call_number, nothing_given, restricted_given, defaults_given, variable, problem, import_given};
ghost use Rattle.ms_logic_core.specs.Roots.{main_root, IsRoot};
ghost use Rattle.ms_logic_core.specs.Spread.{spread, own_names};
ghost use Rattle.ms_logic_core.specs.inner.SpreadCount.{spread_count};
ghost use Rattle.ms_logic_core.specs.inner.SpreadExamples.{spread_over, ex0, ex1, all1, ex2_where, and, or, only_member, set_R, before_given, number_and_set, subset_source, export_source};
ghost use Rattle.ms_logic_core.specs.inner.SpreadExamples.{ex1_where as core_ex1_where};
ghost use Rattle.ms_logic.specs.Tree.{number_variable, numeral, plus, minus, minimum, maximum, set_variable, empty_set, whole, literal, pconst, union, intersection, difference, shift_up, shift_down, no_terms, more_terms, truth, truth_variable, negation, conjunction, disjunction, emptiness, where_let, call, imported, default_at, truth_argument, number_argument};
ghost use Rattle.ms_logic.specs.Tree.{no_forms as no_formulas};
ghost use Rattle.ms_logic_core.specs.declared.core_formula.Basic.TheVariants.{Truth, Number, Plus, Less, Member, Sub, Union, Inter, Diff, Up, Down, Min, Max, Bits};
ghost use Rattle.ms_logic.specs.declared.mode.Mode.TheVariants.{Ws1s};
ghost use Rattle.ms_logic.specs.declared.mode.Order.TheVariants.{One, Two};
ghost use Rattle.std.specs.Prelude.{◌≡◌, [], ◌∷◌};

/// Atoms over variables, and over terms of order 1. The variables x and y have the numbers 0 and 1, or the set P has
/// the number 0; the next numbers are free.
pub fn worked_number_spreads()
    // x = y, x ~= y, x < y, x >= y, x > y and x <= y
    ensures equal { spread_over 2 (equal var_x var_y) ≡ basic (Plus 0 1 0) }
    ensures differs { spread_over 2 (differs var_x var_y) ≡ core.negation (basic (Plus 0 1 0)) }
    ensures less { spread_over 2 (less var_x var_y) ≡ basic (Less 0 1) }
    ensures at_least { spread_over 2 (at_least var_x var_y) ≡ core.negation (basic (Less 0 1)) }
    ensures greater { spread_over 2 (greater var_x var_y) ≡ basic (Less 1 0) }
    ensures at_most { spread_over 2 (at_most var_x var_y) ≡ core.negation (basic (Less 1 0)) }

    // x + 1 = y: ex1 v where v = x + 1: v = y
    ensures plus { spread_over 2 (equal (plus var_x 1) var_y)
        ≡ core_ex1_where 2 (basic (Plus 2 0 1)) (basic (Plus 2 1 0)) }

    // y = x + 1 + 2: ex1 v where (ex1 w where w = x + 1: v = w + 2): y = v
    ensures plus_plus { spread_over 2 (equal var_y (plus (plus var_x 1) 2))
        ≡ core_ex1_where 2 (core_ex1_where 3 (basic (Plus 3 0 1)) (basic (Plus 2 3 2))) (basic (Plus 1 2 0)) }

    // x - 3 = y: ex1 v where (x = v + 3 | (v = 0 & ~ex1 w: x = w + 3)): v = y
    ensures minus { spread_over 2 (equal (minus var_x 3) var_y)
        ≡ core_ex1_where 2
        (or (basic (Plus 0 2 3)) (and (basic (Number 2 0)) (core.negation (ex1 3 (basic (Plus 0 3 3))))))
        (basic (Plus 2 1 0)) }

    // min P < 3: ex1 v where v = min P: ex1 w where w = 3: v < w
    ensures minimum { spread_over 1 (less (minimum set_P) (numeral 3))
        ≡ core_ex1_where 1 (basic (Min 1 0)) (core_ex1_where 2 (basic (Number 2 3)) (basic (Less 1 2))) }

    // max (P inter P) = 0: ex1 v where (ex2 S where S = P inter P: v = max S): ex1 w where w = 0: v = w
    ensures maximum { spread_over 1 (equal (maximum (intersection set_P set_P)) (numeral 0))
        ≡ core_ex1_where 1
        (ex2_where 2 (basic (Inter 2 0 0)) (basic (Max 1 2)))
        (core_ex1_where 2 (basic (Number 2 0)) (basic (Plus 1 2 0))) }
{}

/// Atoms over terms of order 2. P, Q and R have the numbers 0, 1 and 2, or x has the number 0 or 1.
pub fn worked_set_spreads()
    // P = Q, P ~= Q, P sub Q, empty(P), x in Q and x notin Q
    ensures equal { spread_over 2 (set_equal set_P set_Q) ≡ basic (Union 0 1 1) }
    ensures subset { spread_over 2 (subset set_P set_Q) ≡ basic (Sub 0 1) }
    ensures empty { spread_over 2 (emptiness set_P) ≡ basic (Bits 0 0) }
    ensures member { spread_over 2 (is_in var_x set_Q) ≡ basic (Member 0 1) }
    ensures not_member { spread_over 2 (not_in var_x set_Q) ≡ core.negation (basic (Member 0 1)) }

    // P = {} with either spelling, P = pconst(6) and P = $
    ensures empty_set { spread_over 1 (set_equal set_P empty_set) ≡ ex2_where 1 (basic (Bits 1 0)) (basic (Union 0 1 1)) }
    ensures empty_literal { spread_over 1 (set_equal set_P (listed []))
        ≡ ex2_where 1 (basic (Bits 1 0)) (basic (Union 0 1 1)) }
    ensures bits { spread_over 1 (set_equal set_P (pconst 6)) ≡ ex2_where 1 (basic (Bits 1 6)) (basic (Union 0 1 1)) }
    ensures whole { spread_over 1 (set_equal set_P whole)
        ≡ ex2_where 1 (all1 2 (basic (Member 2 1))) (basic (Union 0 1 1)) }

    // {x} sub Q: ex2 S where (x in S & all1 z: z in S => z = x): S sub Q
    ensures singleton { spread_over 2 (subset (literal (more_terms var_x no_terms)) set_Q)
        ≡ ex2_where 2 (only_member 0 2 3) (basic (Sub 2 1)) }

    // P = {0, 4, x}, which is {0, 4} and {x}, and {0, 4} is {0} and {4}
    ensures three { spread_over 2 (set_equal set_P
        (literal (more_terms (numeral 0) (more_terms (numeral 4) (more_terms var_y no_terms)))))
        ≡ ex2_where 2
        (ex2_where 3
        (ex2_where 4
        (core_ex1_where 5 (basic (Number 5 0)) (only_member 5 4 6))
        (ex2_where 5
        (core_ex1_where 6 (basic (Number 6 4)) (only_member 6 5 7))
        (basic (Union 3 4 5))))
        (ex2_where 4 (only_member 1 4 5) (basic (Union 2 3 4))))
        (basic (Union 0 2 2)) }

    // P union Q sub R, R = P inter Q and R = P \ Q
    ensures union { spread_over 3 (subset (union set_P set_Q) set_R)
        ≡ ex2_where 3 (basic (Union 3 0 1)) (basic (Sub 3 2)) }
    ensures intersection { spread_over 3 (set_equal set_R (intersection set_P set_Q))
        ≡ ex2_where 3 (basic (Inter 3 0 1)) (basic (Union 2 3 3)) }
    ensures difference { spread_over 3 (set_equal set_R (difference set_P set_Q))
        ≡ ex2_where 3 (basic (Diff 3 0 1)) (basic (Union 2 3 3)) }

    // P + 2 = Q - 1
    ensures shifts { spread_over 2 (set_equal (shift_up set_P 2) (shift_down set_Q 1))
        ≡ ex2_where 2 (basic (Up 2 0 2)) (ex2_where 3 (basic (Down 3 1 1)) (basic (Union 2 3 3))) }
{}

/// Connectives, quantifiers, `let`, calls, defaults and imports. The variables x or a have the number 0, y or b the number 1.
pub fn worked_formula_spreads()
    // a | ~b, and a & b
    ensures connectives { spread_over 2 (disjunction (both truth_a (negation truth_b)))
        ≡ or (basic (Truth 0)) (core.negation (basic (Truth 1))) }
    ensures both { spread_over 2 (conjunction (both truth_a truth_b)) ≡ and (basic (Truth 0)) (basic (Truth 1)) }

    // the bound variable x hides the x in scope, and has the next number: ex1 x where x = y: x < y
    ensures hidden { spread_over 2 (ex1_where (equal var_x var_y) (less var_x var_y))
        ≡ core_ex1_where 2 (basic (Plus 2 1 0)) (basic (Less 2 1)) }

    // let1 y = 2, z = x + 1 in y < z
    ensures two_parts { spread_over 1
        (where_let (1 ∷ 2 ∷ []) (two_arguments (number_argument (numeral 2)) (number_argument (plus var_x 1))) (less var_y var_z))
        ≡ core_ex1_where 1 (basic (Number 1 2)) (core_ex1_where 2 (basic (Plus 2 0 1)) (basic (Less 1 2))) }

    // let1 x = y, y = x in x < y
    ensures bound_at_once { spread_over 2
        (where_let (0 ∷ 1 ∷ []) (two_arguments (number_argument var_y) (number_argument var_x)) (less var_x var_y))
        ≡ basic (Less 1 0) }

    // let0 b = ~a in b & a, and let0 b = a in b & a
    ensures truth_part { spread_over 1 (let_b (negation truth_a) (conjunction (both truth_b truth_a)))
        ≡ ex0 1
        (and (core.restrict (equivalence (basic (Truth 1)) (core.negation (basic (Truth 0)))))
        (and (basic (Truth 1)) (basic (Truth 0)))) }
    ensures variable_part { spread_over 1 (let_b truth_a (conjunction (both truth_b truth_a)))
        ≡ and (basic (Truth 0)) (basic (Truth 0)) }

    // pred small(var1 x where x < 3) = x = 0; small(x): restrict(ex1 v where v = 3: x < v) & ex1 v where v = 0: x = v
    ensures restricted_parameter { spread restricted_given (call_number 0 var_x) own_names 1
        ≡ and
        (core.restrict (core_ex1_where 1 (basic (Number 1 3)) (basic (Less 0 1))))
        (core_ex1_where 1 (basic (Number 1 0)) (basic (Plus 0 1 0))) }

    // pred before(var0 a, var1 x) = a => 0 < x; before(~a, y + 1), where the number is bound first
    ensures arguments { spread before_given
        (call 0 (two_arguments (truth_argument (negation truth_a)) (number_argument (plus var_y 1)))) own_names 2
        ≡ core_ex1_where 2 (basic (Plus 2 1 1))
        (ex0 3
        (and (core.restrict (equivalence (basic (Truth 3)) (core.negation (basic (Truth 0)))))
        (implication (basic (Truth 3)) (core_ex1_where 4 (basic (Number 4 0)) (basic (Less 4 2)))))) }

    // defaultwhere1(p) = p < 3; ex1 x: true
    ensures default { spread defaults_given (ex1_where (default_at 0 0) truth) own_names 0
        ≡ core_ex1_where 0 (core_ex1_where 1 (basic (Number 1 3)) (basic (Less 0 1))) core.truth }

    // an import at x, below another x
    ensures import { spread import_given (ex1_where truth (imported 0)) own_names 4
        ≡ core_ex1_where 4 core.truth (core.imported 0 (4 ∷ [])) }
{}

/// Roots of sources.
pub fn worked_roots()
    // var1 x where x = 0; var2 P; x in P; empty(P)
    ensures two_formulas { (main_root number_and_set).formula
        ≡ core.conjunction (core_forms
        (core.restrict (core_ex1_where 2 (basic (Number 2 0)) (basic (Plus 0 2 0)))
        ∷ basic (Member 0 1)
        ∷ basic (Bits 1 0)
        ∷ [])) }
    ensures globals { (main_root number_and_set).variables ≡ variable 0 One ∷ variable 1 Two ∷ [] }

    // var2 P, Q; P sub Q, and the empty source
    ensures one_formula { (main_root subset_source).formula ≡ basic (Sub 0 1) }
    ensures empty_source { (main_root (problem Ws1s [] no_formulas)).formula ≡ core.truth }

    // 7 subformulas, 1 root, 2 globals and 1 quantified variable; true; 3 subformulas, 2 roots, 1 global and 1 variable
    ensures count { spread_count number_and_set ≡ 11 }
    ensures empty_count { spread_count (problem Ws1s [] no_formulas) ≡ 2 }
    ensures export_count { spread_count export_source ≡ 7 }

    // var1 x; ex1 y: export(.., y < x)
    ensures main { IsRoot export_source 0 (record {
      variables = variable 0 One ∷ [];
      formula = ex1 1 (basic (Less 1 0));
    }) }
    ensures export { IsRoot export_source 1 (record {
      variables = variable 0 One ∷ variable 1 One ∷ [];
      formula = basic (Less 1 0);
    }) }
{}

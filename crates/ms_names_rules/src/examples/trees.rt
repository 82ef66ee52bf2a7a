ghost use Rattle.ms_logic.specs.Tree.{number_variable, set_variable, numeral, plus, minus, empty_set, literal, pconst, shift_up, shift_down, no_terms, more_terms, truth, conjunction, where_let, call, imported, exported, default_at, unrestricted, restricted, no_arguments};
ghost use Rattle.ms_logic.specs.declared.mode.Order.TheVariants.{Zero, One, Two};
ghost use Rattle.ms_logic.specs.declared.mode.Rel.TheVariants.{Equal, Less, Member};
ghost use Rattle.ms_names_rules.specs.inner.Examples.{vars, const_is, pred_is, no_vars, default_is, holds, var, var_where, part, int, int_named, rename, yes, no, nothing, named, num, bits, paren, set_of, called, all_of, related, moved, exists, let_in, import_of, export_to, formulas_in, restrictions_in, predicates_in, imports_in, exports_in, export_of, pair, import_with, parameter, predicate_with, less, equal, same_sets, ex, one_number, two_numbers, two_formulas};
ghost use Rattle.std.specs.Prelude.{◌≡◌, [], ◌∷◌, true, false, codes};

/// What names become.
pub fn worked_typed_names()
    // var1 x; x = 3;
    ensures global { formulas_in
        (vars 0 (var 5 One (codes "x") ∷ []) ∷ holds 8 (related Equal (named 8 (codes "x")) (num 12 3)) ∷ [])
        ≡ Some (equal (number_variable 0) (numeral 3)) ∷ [] }

    // ex1 x: x < 3; var2 P;
    ensures bound_after_the_globals { formulas_in
        (holds 0 (exists 0 (var 4 One (codes "x") ∷ []) (related Less (named 7 (codes "x")) (num 11 3))) ∷ vars 14 (var 19 Two (codes "P") ∷ []) ∷ [])
        ≡ Some (ex One 1 unrestricted (less (number_variable 1) (numeral 3))) ∷ [] }

    // ex1 x, y where x < y: y < 3;
    ensures a_list_is_nested { formulas_in
        (holds 0 (exists 0 (var 4 One (codes "x") ∷ var_where 7 One (codes "y") (related Less (named 15 (codes "x")) (named 19 (codes "y"))) ∷ []) (related Less (named 22 (codes "y")) (num 26 3))) ∷ [])
        ≡ Some (ex One 0 unrestricted (ex One 1 (restricted (less (number_variable 0) (number_variable 1))) (less (number_variable 1) (numeral 3)))) ∷ [] }

    // (ex1 x: x = 1) & ex2 x: x = empty;
    ensures numbers_are_used_once { formulas_in
        (holds 0 (all_of (paren 0 (exists 1 (var 5 One (codes "x") ∷ []) (related Equal (named 8 (codes "x")) (num 12 1)))) ((exists 17 (var 21 Two (codes "x") ∷ []) (related Equal (named 24 (codes "x")) (nothing 28))) ∷ [])) ∷ [])
        ≡ Some (conjunction (two_formulas (ex One 0 unrestricted (equal (number_variable 0) (numeral 1))) (ex Two 1 unrestricted (same_sets (set_variable 1) empty_set)))) ∷ [] }

    // const n = 2 + 5 - 3; n = 1 + n - n;
    ensures constant { formulas_in
        (const_is 0 6 (codes "n") (int 10 2 false ∷ int 14 5 false ∷ int 18 3 true ∷ []) ∷ holds 21 (related Equal (named 21 (codes "n")) (moved (moved (num 25 1) (int_named 29 (codes "n") false)) (int_named 33 (codes "n") true))) ∷ [])
        ≡ Some (equal (numeral 4) (minus (plus (numeral 1) 4) 4)) ∷ [] }

    // const n = 2; {1} + 3 = pconst(9) - n;
    ensures moved_sets { formulas_in
        (const_is 0 6 (codes "n") (int 10 2 false ∷ []) ∷ holds 13 (related Equal (moved (set_of 13 ((num 14 1) ∷ [])) (int 19 3 false)) (moved (bits 23 (int 30 9 false)) (int_named 35 (codes "n") true))) ∷ [])
        ≡ Some (same_sets (shift_up (literal (more_terms (numeral 1) no_terms)) 3) (shift_down (pconst 9) 2)) ∷ [] }

    // let1 x = 2 in let1 x = x + 1, y = x in x < y;
    ensures outer_name_in_a_let { formulas_in
        (holds 0 (let_in 0 One (part 5 (codes "x") (num 9 2) ∷ []) (let_in 14 One (part 19 (codes "x") (moved (named 23 (codes "x")) (int 27 1 false)) ∷ part 30 (codes "y") (named 34 (codes "x")) ∷ []) (related Less (named 39 (codes "x")) (named 43 (codes "y"))))) ∷ [])
        ≡ Some (where_let (0 ∷ []) (one_number (numeral 2)) (where_let (1 ∷ 2 ∷ []) (two_numbers (plus (number_variable 0) 1) (number_variable 0)) (less (number_variable 1) (number_variable 2)))) ∷ [] }

    // pred p() = true; macro m = false; p & m();
    ensures calls_without_arguments { formulas_in
        (pred_is 0 5 (codes "p") no_vars (yes 11) ∷ pred_is 17 23 (codes "m") no_vars (no 27) ∷ holds 34 (all_of (named 34 (codes "p")) ((called 38 (codes "m") ([])) ∷ [])) ∷ [])
        ≡ Some (conjunction (two_formulas (call 0 no_arguments) (call 1 no_arguments))) ∷ [] }

    // var1 x; pred p(var1 y, z) = y < z; p(x, 3);
    ensures call { formulas_in
        (vars 0 (var 5 One (codes "x") ∷ []) ∷ pred_is 8 13 (codes "p") (var 20 One (codes "y") ∷ var 23 One (codes "z") ∷ []) (related Less (named 28 (codes "y")) (named 32 (codes "z"))) ∷ holds 35 (called 35 (codes "p") ((named 37 (codes "x")) ∷ (num 40 3) ∷ [])) ∷ [])
        ≡ Some (call 0 (two_numbers (number_variable 0) (numeral 3))) ∷ [] }

    // q; true;
    ensures unknown_formula { formulas_in
        (holds 0 (named 0 (codes "q")) ∷ holds 3 (yes 3) ∷ [])
        ≡ None ∷ Some truth ∷ [] }
{}

/// What declarations become.
pub fn worked_typed_declarations()
    // var1 x; pred p(var1 y where y < x) = x = y; ex2 x: p(1);
    ensures body_of_a_predicate { predicates_in
        (vars 0 (var 5 One (codes "x") ∷ []) ∷ pred_is 8 13 (codes "p") (var_where 20 One (codes "y") (related Less (named 28 (codes "y")) (named 32 (codes "x"))) ∷ []) (related Equal (named 37 (codes "x")) (named 41 (codes "y"))) ∷ holds 44 (exists 44 (var 48 Two (codes "x") ∷ []) (called 51 (codes "p") ((num 53 1) ∷ []))) ∷ [])
        ≡ Some (predicate_with (parameter 1 One (restricted (less (number_variable 1) (number_variable 0))) ∷ []) (equal (number_variable 0) (number_variable 1))) ∷ [] }

    // var1 x, y where y < x, z;
    ensures restrictions_of_globals { restrictions_in
        (vars 0 (var 5 One (codes "x") ∷ var_where 8 One (codes "y") (related Less (named 16 (codes "y")) (named 20 (codes "x"))) ∷ var 23 One (codes "z") ∷ []) ∷ [])
        ≡ Some unrestricted ∷ Some (restricted (less (number_variable 1) (number_variable 0))) ∷ Some unrestricted ∷ [] }

    // var1 x; defaultwhere1(n) = n < 5; var1 y, z where true; var2 P; var0 a;
    ensures default_of_later_globals { restrictions_in
        (vars 0 (var 5 One (codes "x") ∷ []) ∷ default_is 8 One (codes "n") (related Less (named 27 (codes "n")) (num 31 5)) ∷ vars 34 (var 39 One (codes "y") ∷ var_where 42 One (codes "z") (yes 50) ∷ []) ∷ vars 56 (var 61 Two (codes "P") ∷ []) ∷ vars 64 (var 69 Zero (codes "a") ∷ []) ∷ [])
        ≡ Some unrestricted ∷ Some (restricted (default_at 0 1)) ∷ Some (restricted truth) ∷ Some unrestricted ∷ Some unrestricted ∷ [] }

    // var1 x; defaultwhere1(n) = n < x;
    ensures default_is_a_predicate { predicates_in
        (vars 0 (var 5 One (codes "x") ∷ []) ∷ default_is 8 One (codes "n") (related Less (named 27 (codes "n")) (named 31 (codes "x"))) ∷ [])
        ≡ Some (predicate_with (parameter 1 One unrestricted ∷ []) (less (number_variable 1) (number_variable 0))) ∷ [] }

    // defaultwhere1(n) = true; defaultwhere1(n) = ex1 m: true; ex1 x: true;
    ensures later_default { formulas_in
        (default_is 0 One (codes "n") (yes 19) ∷ default_is 25 One (codes "n") (exists 44 (var 48 One (codes "m") ∷ []) (yes 51)) ∷ holds 57 (exists 57 (var 61 One (codes "x") ∷ []) (yes 64)) ∷ [])
        ≡ Some (ex One 3 (restricted (default_at 1 3)) truth) ∷ [] }

    // defaultwhere1(n) = true; defaultwhere1(n) = ex1 m: true; ex1 x: true;
    ensures earlier_default_in_a_default { predicates_in
        (default_is 0 One (codes "n") (yes 19) ∷ default_is 25 One (codes "n") (exists 44 (var 48 One (codes "m") ∷ []) (yes 51)) ∷ holds 57 (exists 57 (var 61 One (codes "x") ∷ []) (yes 64)) ∷ [])
        ≡ Some (predicate_with (parameter 0 One unrestricted ∷ []) truth) ∷ Some (predicate_with (parameter 1 One unrestricted ∷ []) (ex One 2 (restricted (default_at 0 2)) truth)) ∷ [] }

    // defaultwhere2(S) = true; defaultwhere1(n) = ex2 S: true;
    ensures default_of_the_other_order { predicates_in
        (default_is 0 Two (codes "S") (yes 19) ∷ default_is 25 One (codes "n") (exists 44 (var 48 Two (codes "S") ∷ []) (yes 51)) ∷ [])
        ≡ Some (predicate_with (parameter 0 Two unrestricted ∷ []) truth) ∷ Some (predicate_with (parameter 1 One unrestricted ∷ []) (ex Two 2 (restricted (default_at 0 2)) truth)) ∷ [] }

    // defaultwhere1(n) = true; pred p(var1 x) = let1 y = x in true;
    ensures parameters_and_lets_take_no_default { predicates_in
        (default_is 0 One (codes "n") (yes 19) ∷ pred_is 25 30 (codes "p") (var 37 One (codes "x") ∷ []) (let_in 42 One (part 47 (codes "y") (named 51 (codes "x")) ∷ []) (yes 56)) ∷ [])
        ≡ Some (predicate_with (parameter 0 One unrestricted ∷ []) truth) ∷ Some (predicate_with (parameter 1 One unrestricted ∷ []) (where_let (2 ∷ []) (one_number (number_variable 1)) truth)) ∷ [] }

    // pred p() = ex1 x: true; defaultwhere1(n) = true; p;
    ensures default_where_a_predicate_stands { predicates_in
        (pred_is 0 5 (codes "p") no_vars (exists 11 (var 15 One (codes "x") ∷ []) (yes 18)) ∷ default_is 24 One (codes "n") (yes 43) ∷ holds 49 (named 49 (codes "p")) ∷ [])
        ≡ Some (predicate_with [] (ex One 0 unrestricted truth)) ∷ Some (predicate_with (parameter 1 One unrestricted ∷ []) truth) ∷ [] }

    // pred p() = true; macro m(var0 a) = p;
    ensures macro_calls_earlier_predicate { predicates_in
        (pred_is 0 5 (codes "p") no_vars (yes 11) ∷ pred_is 17 23 (codes "m") (var 30 Zero (codes "a") ∷ []) (named 35 (codes "p")) ∷ [])
        ≡ Some (predicate_with [] truth) ∷ Some (predicate_with (parameter 0 Zero unrestricted ∷ []) (call 0 no_arguments)) ∷ [] }
{}

/// What imports and exports become.
pub fn worked_uses()
    // var2 P; var1 x; import("a", b -> P, c -> x);
    ensures import { imports_in
        (vars 0 (var 5 Two (codes "P") ∷ []) ∷ vars 8 (var 13 One (codes "x") ∷ []) ∷ holds 16 (import_of 16 (codes "a") (rename 28 (codes "b") 33 (codes "P") ∷ rename 36 (codes "c") 41 (codes "x") ∷ [])) ∷ [])
        ≡ import_with 16 (pair (codes "b") 0 Two ∷ pair (codes "c") 1 One ∷ []) ∷ [] }

    // var2 P; ex2 P: import("a", b -> P);
    ensures import_at_an_inner_variable { imports_in
        (vars 0 (var 5 Two (codes "P") ∷ []) ∷ holds 8 (exists 8 (var 12 Two (codes "P") ∷ []) (import_of 15 (codes "a") (rename 27 (codes "b") 32 (codes "P") ∷ []))) ∷ [])
        ≡ import_with 15 (pair (codes "b") 1 Two ∷ []) ∷ [] }

    // import("a") & export("a", import("a"));
    ensures numbers_of_uses { formulas_in
        (holds 0 (all_of (import_of 0 (codes "a") ([])) ((export_to 14 21 (codes "a") (import_of 26 (codes "a") ([]))) ∷ [])) ∷ [])
        ≡ Some (conjunction (two_formulas (imported 0) (exported 0 (imported 1)))) ∷ [] }

    // var2 P, Q; ex1 x: export("a", x in Q & x < 3);
    ensures free_in_order { exports_in
        (vars 0 (var 5 Two (codes "P") ∷ var 8 Two (codes "Q") ∷ []) ∷ holds 11 (exists 11 (var 15 One (codes "x") ∷ []) (export_to 18 25 (codes "a") (all_of (related Member (named 30 (codes "x")) (named 35 (codes "Q"))) ((related Less (named 39 (codes "x")) (num 43 3)) ∷ [])))) ∷ [])
        ≡ export_of 25 (1 ∷ 2 ∷ []) (codes "Q" ∷ codes "x" ∷ []) ∷ [] }

    // var1 x; ex1 y: ex1 z: export("a", z < y & y < x);
    ensures globals_then_binders { exports_in
        (vars 0 (var 5 One (codes "x") ∷ []) ∷ holds 8 (exists 8 (var 12 One (codes "y") ∷ []) (exists 15 (var 19 One (codes "z") ∷ []) (export_to 22 29 (codes "a") (all_of (related Less (named 34 (codes "z")) (named 38 (codes "y"))) ((related Less (named 42 (codes "y")) (named 46 (codes "x"))) ∷ []))))) ∷ [])
        ≡ export_of 29 (0 ∷ 1 ∷ 2 ∷ []) (codes "x" ∷ codes "y" ∷ codes "z" ∷ []) ∷ [] }

    // var1 x; export("a", ex1 y: y < x);
    ensures bound_inside { exports_in
        (vars 0 (var 5 One (codes "x") ∷ []) ∷ holds 8 (export_to 8 15 (codes "a") (exists 20 (var 24 One (codes "y") ∷ []) (related Less (named 27 (codes "y")) (named 31 (codes "x"))))) ∷ [])
        ≡ export_of 15 (0 ∷ []) (codes "x" ∷ []) ∷ [] }

    // var1 x, y; pred p(var1 z where z < y) = z = x; export("a", p(1));
    ensures through_a_predicate { exports_in
        (vars 0 (var 5 One (codes "x") ∷ var 8 One (codes "y") ∷ []) ∷ pred_is 11 16 (codes "p") (var_where 23 One (codes "z") (related Less (named 31 (codes "z")) (named 35 (codes "y"))) ∷ []) (related Equal (named 40 (codes "z")) (named 44 (codes "x"))) ∷ holds 47 (export_to 47 54 (codes "a") (called 59 (codes "p") ((num 61 1) ∷ []))) ∷ [])
        ≡ export_of 54 (0 ∷ 1 ∷ []) (codes "x" ∷ codes "y" ∷ []) ∷ [] }

    // var1 x; pred p() = x = 0; pred q(var2 S) = p; export("a", q(empty));
    ensures through_a_predicate_of_a_predicate { exports_in
        (vars 0 (var 5 One (codes "x") ∷ []) ∷ pred_is 8 13 (codes "p") no_vars (related Equal (named 19 (codes "x")) (num 23 0)) ∷ pred_is 26 31 (codes "q") (var 38 Two (codes "S") ∷ []) (named 43 (codes "p")) ∷ holds 46 (export_to 46 53 (codes "a") (called 58 (codes "q") ((nothing 60) ∷ []))) ∷ [])
        ≡ export_of 53 (0 ∷ []) (codes "x" ∷ []) ∷ [] }

    // var1 x, y; defaultwhere1(n) = n < x; export("a", ex1 z: true);
    ensures through_a_default { exports_in
        (vars 0 (var 5 One (codes "x") ∷ var 8 One (codes "y") ∷ []) ∷ default_is 11 One (codes "n") (related Less (named 30 (codes "n")) (named 34 (codes "x"))) ∷ holds 37 (export_to 37 44 (codes "a") (exists 49 (var 53 One (codes "z") ∷ []) (yes 56))) ∷ [])
        ≡ export_of 44 (0 ∷ []) (codes "x" ∷ []) ∷ [] }

    // var1 x; defaultwhere1(n) = n < x; var1 y; export("a", y = y);
    ensures default_of_a_free_variable { exports_in
        (vars 0 (var 5 One (codes "x") ∷ []) ∷ default_is 8 One (codes "n") (related Less (named 27 (codes "n")) (named 31 (codes "x"))) ∷ vars 34 (var 39 One (codes "y") ∷ []) ∷ holds 42 (export_to 42 49 (codes "a") (related Equal (named 54 (codes "y")) (named 58 (codes "y")))) ∷ [])
        ≡ export_of 49 (1 ∷ []) (codes "y" ∷ []) ∷ [] }

    // var1 x; export("a", ex1 y where y < x: true);
    ensures restriction_of_a_bound_variable { exports_in
        (vars 0 (var 5 One (codes "x") ∷ []) ∷ holds 8 (export_to 8 15 (codes "a") (exists 20 (var_where 24 One (codes "y") (related Less (named 32 (codes "y")) (named 36 (codes "x"))) ∷ []) (yes 39))) ∷ [])
        ≡ export_of 15 (0 ∷ []) (codes "x" ∷ []) ∷ [] }

    // var2 P; export("a", import("b", b -> P));
    ensures through_an_import { exports_in
        (vars 0 (var 5 Two (codes "P") ∷ []) ∷ holds 8 (export_to 8 15 (codes "a") (import_of 20 (codes "b") (rename 32 (codes "b") 37 (codes "P") ∷ []))) ∷ [])
        ≡ export_of 15 (0 ∷ []) (codes "P" ∷ []) ∷ [] }

    // var1 x, y; export("a", x = 0 & export("a", y = 0));
    ensures outer_before_inner { exports_in
        (vars 0 (var 5 One (codes "x") ∷ var 8 One (codes "y") ∷ []) ∷ holds 11 (export_to 11 18 (codes "a") (all_of (related Equal (named 23 (codes "x")) (num 27 0)) ((export_to 31 38 (codes "a") (related Equal (named 43 (codes "y")) (num 47 0))) ∷ []))) ∷ [])
        ≡ export_of 18 (0 ∷ 1 ∷ []) (codes "x" ∷ codes "y" ∷ []) ∷ export_of 38 (1 ∷ []) (codes "y" ∷ []) ∷ [] }
{}

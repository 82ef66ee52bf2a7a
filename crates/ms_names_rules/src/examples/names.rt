ghost use Rattle.ms_logic.specs.declared.mode.Order.TheVariants.{Zero, One, Two};
ghost use Rattle.ms_logic.specs.declared.mode.Rel.TheVariants.{Equal, Less, Member, Sub};
ghost use Rattle.ms_names_rules.specs.inner.Examples.{byte, fault_in, vars, const_is, pred_is, no_vars, default_is, holds, var, var_where, part, int, int_named, rename, yes, nothing, named, num, bits, paren, set_of, called, all_of, related, is_empty, moved, exists, let_in, import_of};
ghost use Rattle.std.specs.Prelude.{◌≡◌, [], ◌∷◌, false, codes};

use crate::fault::Fault;

/// Names that are not declared where they stand.
pub fn worked_unknown_names()
    // q;
    ensures bare { fault_in
        (holds 0 (named 0 (codes "q")) ∷ [])
        ≡ Some (Fault.UnknownName (byte 0) (codes "q")) }

    // var2 P; P sub q;
    ensures operand { fault_in
        (vars 0 (var 5 Two (codes "P") ∷ []) ∷ holds 8 (related Sub (named 8 (codes "P")) (named 14 (codes "q"))) ∷ [])
        ≡ Some (Fault.UnknownName (byte 14) (codes "q")) }

    // p(1);
    ensures called { fault_in
        (holds 0 (called 0 (codes "p") ((num 2 1) ∷ [])) ∷ [])
        ≡ Some (Fault.UnknownName (byte 0) (codes "p")) }

    // (q(1)) sub empty;
    ensures called_in_brackets { fault_in
        (holds 0 (related Sub (paren 0 (called 1 (codes "q") ((num 3 1) ∷ []))) (nothing 11)) ∷ [])
        ≡ Some (Fault.UnknownName (byte 1) (codes "q")) }

    // var1 x; x = x + k;
    ensures offset { fault_in
        (vars 0 (var 5 One (codes "x") ∷ []) ∷ holds 8 (related Equal (named 8 (codes "x")) (moved (named 12 (codes "x")) (int_named 16 (codes "k") false))) ∷ [])
        ≡ Some (Fault.UnknownName (byte 16) (codes "k")) }

    // var2 P; P = pconst(k);
    ensures pconst { fault_in
        (vars 0 (var 5 Two (codes "P") ∷ []) ∷ holds 8 (related Equal (named 8 (codes "P")) (bits 12 (int_named 19 (codes "k") false))) ∷ [])
        ≡ Some (Fault.UnknownName (byte 19) (codes "k")) }

    // const n = n;
    ensures own_constant { fault_in
        (const_is 0 6 (codes "n") (int_named 10 (codes "n") false ∷ []) ∷ [])
        ≡ Some (Fault.UnknownName (byte 10) (codes "n")) }

    // import("a", x -> y);
    ensures right_of_import { fault_in
        (holds 0 (import_of 0 (codes "a") (rename 12 (codes "x") 17 (codes "y") ∷ [])) ∷ [])
        ≡ Some (Fault.UnknownName (byte 17) (codes "y")) }

    // p(); pred p() = true;
    ensures predicate_before_its_declaration { fault_in
        (holds 0 (called 0 (codes "p") ([])) ∷ pred_is 5 10 (codes "p") no_vars (yes 16) ∷ [])
        ≡ Some (Fault.UnknownName (byte 0) (codes "p")) }

    // pred p() = p();
    ensures predicate_in_its_own_body { fault_in
        (pred_is 0 5 (codes "p") no_vars (called 11 (codes "p") ([])) ∷ [])
        ≡ Some (Fault.UnknownName (byte 11) (codes "p")) }

    // macro p(var1 x) = x = 0 & p(x);
    ensures macro_in_its_own_body { fault_in
        (pred_is 0 6 (codes "p") (var 13 One (codes "x") ∷ []) (all_of (related Equal (named 18 (codes "x")) (num 22 0)) ((called 26 (codes "p") ((named 28 (codes "x")) ∷ [])) ∷ [])) ∷ [])
        ≡ Some (Fault.UnknownName (byte 26) (codes "p")) }

    // var1 x where x < y, y;
    ensures later_global_of_the_list { fault_in
        (vars 0 (var_where 5 One (codes "x") (related Less (named 13 (codes "x")) (named 17 (codes "y"))) ∷ var 20 One (codes "y") ∷ []) ∷ [])
        ≡ Some (Fault.UnknownName (byte 17) (codes "y")) }

    // ex1 x where x < y, y: true;
    ensures later_variable_of_the_list { fault_in
        (holds 0 (exists 0 (var_where 4 One (codes "x") (related Less (named 12 (codes "x")) (named 16 (codes "y"))) ∷ var 19 One (codes "y") ∷ []) (yes 22)) ∷ [])
        ≡ Some (Fault.UnknownName (byte 16) (codes "y")) }

    // pred p(var1 x where x < y, y) = true;
    ensures later_parameter_of_the_list { fault_in
        (pred_is 0 5 (codes "p") (var_where 12 One (codes "x") (related Less (named 20 (codes "x")) (named 24 (codes "y"))) ∷ var 27 One (codes "y") ∷ []) (yes 32) ∷ [])
        ≡ Some (Fault.UnknownName (byte 24) (codes "y")) }

    // let1 x = x in x = 0;
    ensures right_side_of_its_own_let { fault_in
        (holds 0 (let_in 0 One (part 5 (codes "x") (named 9 (codes "x")) ∷ []) (related Equal (named 14 (codes "x")) (num 18 0))) ∷ [])
        ≡ Some (Fault.UnknownName (byte 9) (codes "x")) }

    // let1 x = 0, y = x in x = y;
    ensures earlier_name_of_the_same_let { fault_in
        (holds 0 (let_in 0 One (part 5 (codes "x") (num 9 0) ∷ part 12 (codes "y") (named 16 (codes "x")) ∷ []) (related Equal (named 21 (codes "x")) (named 25 (codes "y")))) ∷ [])
        ≡ Some (Fault.UnknownName (byte 16) (codes "x")) }

    // (ex1 x: x = 0) & x = 0;
    ensures bound_variable_outside { fault_in
        (holds 0 (all_of (paren 0 (exists 1 (var 5 One (codes "x") ∷ []) (related Equal (named 8 (codes "x")) (num 12 0)))) ((related Equal (named 17 (codes "x")) (num 21 0)) ∷ [])) ∷ [])
        ≡ Some (Fault.UnknownName (byte 17) (codes "x")) }

    // pred p(var1 x) = x = 0; x = 0;
    ensures parameter_outside { fault_in
        (pred_is 0 5 (codes "p") (var 12 One (codes "x") ∷ []) (related Equal (named 17 (codes "x")) (num 21 0)) ∷ holds 24 (related Equal (named 24 (codes "x")) (num 28 0)) ∷ [])
        ≡ Some (Fault.UnknownName (byte 24) (codes "x")) }

    // defaultwhere1(x) = x < 3; x = 0;
    ensures parameter_of_default_outside { fault_in
        (default_is 0 One (codes "x") (related Less (named 19 (codes "x")) (num 23 3)) ∷ holds 26 (related Equal (named 26 (codes "x")) (num 30 0)) ∷ [])
        ≡ Some (Fault.UnknownName (byte 26) (codes "x")) }
{}

/// A name means what it means where its declaration stands.
pub fn worked_lexical_scopes()
    // pred p() = empty(P); var2 P; p();
    ensures global_after_a_predicate { fault_in
        (pred_is 0 5 (codes "p") no_vars (is_empty 11 (named 17 (codes "P"))) ∷ vars 21 (var 26 Two (codes "P") ∷ []) ∷ holds 29 (called 29 (codes "p") ([])) ∷ [])
        ≡ Some (Fault.UnknownName (byte 17) (codes "P")) }

    // pred p() = x = 0; ex1 x: p();
    ensures variable_round_a_call { fault_in
        (pred_is 0 5 (codes "p") no_vars (related Equal (named 11 (codes "x")) (num 15 0)) ∷ holds 18 (exists 18 (var 22 One (codes "x") ∷ []) (called 25 (codes "p") ([]))) ∷ [])
        ≡ Some (Fault.UnknownName (byte 11) (codes "x")) }

    // defaultwhere1(x) = x < y; var1 y; ex1 z: true;
    ensures global_after_a_default { fault_in
        (default_is 0 One (codes "x") (related Less (named 19 (codes "x")) (named 23 (codes "y"))) ∷ vars 26 (var 31 One (codes "y") ∷ []) ∷ holds 34 (exists 34 (var 38 One (codes "z") ∷ []) (yes 41)) ∷ [])
        ≡ Some (Fault.UnknownName (byte 23) (codes "y")) }

    // var1 x; pred p() = x = 0; ex2 x: p();
    ensures global_hidden_at_a_call { fault_in
        (vars 0 (var 5 One (codes "x") ∷ []) ∷ pred_is 8 13 (codes "p") no_vars (related Equal (named 19 (codes "x")) (num 23 0)) ∷ holds 26 (exists 26 (var 30 Two (codes "x") ∷ []) (called 33 (codes "p") ([]))) ∷ [])
        ≡ None }

    // var2 x; ex1 x: x < 3;
    ensures binder_hides_global { fault_in
        (vars 0 (var 5 Two (codes "x") ∷ []) ∷ holds 8 (exists 8 (var 12 One (codes "x") ∷ []) (related Less (named 15 (codes "x")) (num 19 3))) ∷ [])
        ≡ None }

    // var2 x; let1 x = 0 in x < 3;
    ensures let_hides_global { fault_in
        (vars 0 (var 5 Two (codes "x") ∷ []) ∷ holds 8 (let_in 8 One (part 13 (codes "x") (num 17 0) ∷ []) (related Less (named 22 (codes "x")) (num 26 3))) ∷ [])
        ≡ None }

    // var2 x; pred p(var1 x) = x < 3; p(1);
    ensures parameter_hides_global { fault_in
        (vars 0 (var 5 Two (codes "x") ∷ []) ∷ pred_is 8 13 (codes "p") (var 20 One (codes "x") ∷ []) (related Less (named 25 (codes "x")) (num 29 3)) ∷ holds 32 (called 32 (codes "p") ((num 34 1) ∷ [])) ∷ [])
        ≡ None }

    // ex2 x: ex1 x: x < 3;
    ensures binder_hides_binder { fault_in
        (holds 0 (exists 0 (var 4 Two (codes "x") ∷ []) (exists 7 (var 11 One (codes "x") ∷ []) (related Less (named 14 (codes "x")) (num 18 3)))) ∷ [])
        ≡ None }

    // var2 x; defaultwhere1(x) = x < 3;
    ensures default_parameter_hides_global { fault_in
        (vars 0 (var 5 Two (codes "x") ∷ []) ∷ default_is 8 One (codes "x") (related Less (named 27 (codes "x")) (num 31 3)) ∷ [])
        ≡ None }

    // var2 x; (ex1 x: x < 3) & empty(x);
    ensures global_behind_a_binder { fault_in
        (vars 0 (var 5 Two (codes "x") ∷ []) ∷ holds 8 (all_of (paren 8 (exists 9 (var 13 One (codes "x") ∷ []) (related Less (named 16 (codes "x")) (num 20 3)))) ((is_empty 25 (named 31 (codes "x"))) ∷ [])) ∷ [])
        ≡ None }

    // let1 x = 0 in let2 x = {x} in 1 in x;
    ensures let_reads_outside { fault_in
        (holds 0 (let_in 0 One (part 5 (codes "x") (num 9 0) ∷ []) (let_in 14 Two (part 19 (codes "x") (set_of 23 ((named 24 (codes "x")) ∷ [])) ∷ []) (related Member (num 30 1) (named 35 (codes "x"))))) ∷ [])
        ≡ None }

    // const n = 3; ex1 n: n = 0 + n;
    ensures binder_hides_constant { fault_in
        (const_is 0 6 (codes "n") (int 10 3 false ∷ []) ∷ holds 13 (exists 13 (var 17 One (codes "n") ∷ []) (related Equal (named 20 (codes "n")) (moved (num 24 0) (int_named 28 (codes "n") false)))) ∷ [])
        ≡ Some (Fault.WrongOrder (byte 28)) }

    // pred p(var1 x) = true; ex1 p: p(0);
    ensures binder_hides_predicate { fault_in
        (pred_is 0 5 (codes "p") (var 12 One (codes "x") ∷ []) (yes 17) ∷ holds 23 (exists 23 (var 27 One (codes "p") ∷ []) (called 30 (codes "p") ((num 32 0) ∷ []))) ∷ [])
        ≡ Some (Fault.WrongOrder (byte 30)) }

    // pred p(var1 p) = p = 0; p(1);
    ensures predicate_named_as_its_parameter { fault_in
        (pred_is 0 5 (codes "p") (var 12 One (codes "p") ∷ []) (related Equal (named 17 (codes "p")) (num 21 0)) ∷ holds 24 (called 24 (codes "p") ((num 26 1) ∷ [])) ∷ [])
        ≡ None }

    // var1 x where x < 3, y where x < y; true;
    ensures own_and_earlier_names_in_restrictions { fault_in
        (vars 0 (var_where 5 One (codes "x") (related Less (named 13 (codes "x")) (num 17 3)) ∷ var_where 20 One (codes "y") (related Less (named 28 (codes "x")) (named 32 (codes "y"))) ∷ []) ∷ holds 35 (yes 35) ∷ [])
        ≡ None }
{}

/// Names that stand twice.
pub fn worked_repeats()
    // var1 x; var2 x;
    ensures global_and_global { fault_in
        (vars 0 (var 5 One (codes "x") ∷ []) ∷ vars 8 (var 13 Two (codes "x") ∷ []) ∷ [])
        ≡ Some (Fault.NamedTwice (byte 13) (codes "x")) }

    // var1 x, x;
    ensures globals_of_one_list { fault_in
        (vars 0 (var 5 One (codes "x") ∷ var 8 One (codes "x") ∷ []) ∷ [])
        ≡ Some (Fault.NamedTwice (byte 8) (codes "x")) }

    // var1 x; const x = 0;
    ensures constant_and_global { fault_in
        (vars 0 (var 5 One (codes "x") ∷ []) ∷ const_is 8 14 (codes "x") (int 18 0 false ∷ []) ∷ [])
        ≡ Some (Fault.NamedTwice (byte 14) (codes "x")) }

    // const n = 0; pred n() = true;
    ensures predicate_and_constant { fault_in
        (const_is 0 6 (codes "n") (int 10 0 false ∷ []) ∷ pred_is 13 18 (codes "n") no_vars (yes 24) ∷ [])
        ≡ Some (Fault.NamedTwice (byte 18) (codes "n")) }

    // pred p() = true; macro p() = true;
    ensures macro_and_predicate { fault_in
        (pred_is 0 5 (codes "p") no_vars (yes 11) ∷ pred_is 17 23 (codes "p") no_vars (yes 29) ∷ [])
        ≡ Some (Fault.NamedTwice (byte 23) (codes "p")) }

    // pred p() = true; var0 p;
    ensures global_and_predicate { fault_in
        (pred_is 0 5 (codes "p") no_vars (yes 11) ∷ vars 17 (var 22 Zero (codes "p") ∷ []) ∷ [])
        ≡ Some (Fault.NamedTwice (byte 22) (codes "p")) }

    // ex1 x, x: true;
    ensures variables_of_one_list { fault_in
        (holds 0 (exists 0 (var 4 One (codes "x") ∷ var 7 One (codes "x") ∷ []) (yes 10)) ∷ [])
        ≡ Some (Fault.NamedTwice (byte 7) (codes "x")) }

    // pred p(var1 x, var2 x) = true;
    ensures parameters_of_one_list { fault_in
        (pred_is 0 5 (codes "p") (var 12 One (codes "x") ∷ var 20 Two (codes "x") ∷ []) (yes 25) ∷ [])
        ≡ Some (Fault.NamedTwice (byte 20) (codes "x")) }

    // let1 x = 0, x = 1 in true;
    ensures names_of_one_let { fault_in
        (holds 0 (let_in 0 One (part 5 (codes "x") (num 9 0) ∷ part 12 (codes "x") (num 16 1) ∷ []) (yes 21)) ∷ [])
        ≡ Some (Fault.NamedTwice (byte 12) (codes "x")) }

    // var2 P, Q; import("a", b -> P, b -> Q);
    ensures left_names_of_one_import { fault_in
        (vars 0 (var 5 Two (codes "P") ∷ var 8 Two (codes "Q") ∷ []) ∷ holds 11 (import_of 11 (codes "a") (rename 23 (codes "b") 28 (codes "P") ∷ rename 31 (codes "b") 36 (codes "Q") ∷ [])) ∷ [])
        ≡ Some (Fault.NamedTwice (byte 31) (codes "b")) }

    // var2 P; import("a", b -> P, c -> P);
    ensures right_names_of_one_import { fault_in
        (vars 0 (var 5 Two (codes "P") ∷ []) ∷ holds 8 (import_of 8 (codes "a") (rename 20 (codes "b") 25 (codes "P") ∷ rename 28 (codes "c") 33 (codes "P") ∷ [])) ∷ [])
        ≡ Some (Fault.NamedTwice (byte 33) (codes "P")) }

    // var2 P, Q; import("a", P -> Q, Q -> P);
    ensures left_and_right_of_an_import { fault_in
        (vars 0 (var 5 Two (codes "P") ∷ var 8 Two (codes "Q") ∷ []) ∷ holds 11 (import_of 11 (codes "a") (rename 23 (codes "P") 28 (codes "Q") ∷ rename 31 (codes "Q") 36 (codes "P") ∷ [])) ∷ [])
        ≡ None }

    // var2 P; import("a", b -> P) & import("a", b -> P);
    ensures two_imports { fault_in
        (vars 0 (var 5 Two (codes "P") ∷ []) ∷ holds 8 (all_of (import_of 8 (codes "a") (rename 20 (codes "b") 25 (codes "P") ∷ [])) ((import_of 30 (codes "a") (rename 42 (codes "b") 47 (codes "P") ∷ [])) ∷ [])) ∷ [])
        ≡ None }

    // pred p() = true; pred p(var1 x) = q;
    ensures before_its_body { fault_in
        (pred_is 0 5 (codes "p") no_vars (yes 11) ∷ pred_is 17 22 (codes "p") (var 29 One (codes "x") ∷ []) (named 34 (codes "q")) ∷ [])
        ≡ Some (Fault.NamedTwice (byte 22) (codes "p")) }
{}

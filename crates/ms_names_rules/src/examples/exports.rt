ghost use Rattle.ms_logic.specs.declared.mode.Order.TheVariants.{One, Two};
ghost use Rattle.ms_logic.specs.declared.mode.Rel.TheVariants.{Equal, Less, Member};
ghost use Rattle.ms_names_rules.specs.inner.Examples.{byte, fault_in, vars, pred_is, no_vars, default_is, holds, var, var_where, int_named, yes, named, num, called, all_of, related, is_empty, moved, exists, export_to};
ghost use Rattle.std.specs.Prelude.{◌≡◌, [], ◌∷◌, false, codes};

use crate::fault::Fault;

/// Names of files and of variables of exports.
pub fn worked_exports()
    // export("a", true) & export("a", true);
    ensures file_twice { fault_in
        (holds 0 (all_of (export_to 0 7 (codes "a") (yes 12)) ((export_to 20 27 (codes "a") (yes 32)) ∷ [])) ∷ [])
        ≡ Some (Fault.NamedTwice (byte 27) (codes "a")) }

    // export("a", true); export("a", true);
    ensures file_twice_in_two_declarations { fault_in
        (holds 0 (export_to 0 7 (codes "a") (yes 12)) ∷ holds 19 (export_to 19 26 (codes "a") (yes 31)) ∷ [])
        ≡ Some (Fault.NamedTwice (byte 26) (codes "a")) }

    // export("a", export("a", true));
    ensures file_twice_inside { fault_in
        (holds 0 (export_to 0 7 (codes "a") (export_to 12 19 (codes "a") (yes 24))) ∷ [])
        ≡ Some (Fault.NamedTwice (byte 19) (codes "a")) }

    // export("a", true) & export("b", true);
    ensures two_files { fault_in
        (holds 0 (all_of (export_to 0 7 (codes "a") (yes 12)) ((export_to 20 27 (codes "b") (yes 32)) ∷ [])) ∷ [])
        ≡ None }

    // var2 X; pred p() = empty(X); ex2 X: export("a", empty(X) & p());
    ensures variables_of_one_name { fault_in
        (vars 0 (var 5 Two (codes "X") ∷ []) ∷ pred_is 8 13 (codes "p") no_vars (is_empty 19 (named 25 (codes "X"))) ∷ holds 29 (exists 29 (var 33 Two (codes "X") ∷ []) (export_to 36 43 (codes "a") (all_of (is_empty 48 (named 54 (codes "X"))) ((called 59 (codes "p") ([])) ∷ [])))) ∷ [])
        ≡ Some (Fault.NamedTwice (byte 43) (codes "X")) }

    // var2 X; pred p() = empty(X); ex2 X: export("a", p());
    ensures hidden_variable_alone { fault_in
        (vars 0 (var 5 Two (codes "X") ∷ []) ∷ pred_is 8 13 (codes "p") no_vars (is_empty 19 (named 25 (codes "X"))) ∷ holds 29 (exists 29 (var 33 Two (codes "X") ∷ []) (export_to 36 43 (codes "a") (called 48 (codes "p") ([])))) ∷ [])
        ≡ None }

    // var2 X; pred p() = empty(X); ex2 X: export("a", empty(X));
    ensures inner_variable_alone { fault_in
        (vars 0 (var 5 Two (codes "X") ∷ []) ∷ pred_is 8 13 (codes "p") no_vars (is_empty 19 (named 25 (codes "X"))) ∷ holds 29 (exists 29 (var 33 Two (codes "X") ∷ []) (export_to 36 43 (codes "a") (is_empty 48 (named 54 (codes "X"))))) ∷ [])
        ≡ None }

    // var2 X; pred p() = empty(X); export("a", p() & ex2 X: empty(X));
    ensures variable_bound_inside { fault_in
        (vars 0 (var 5 Two (codes "X") ∷ []) ∷ pred_is 8 13 (codes "p") no_vars (is_empty 19 (named 25 (codes "X"))) ∷ holds 29 (export_to 29 36 (codes "a") (all_of (called 41 (codes "p") ([])) ((exists 47 (var 51 Two (codes "X") ∷ []) (is_empty 54 (named 60 (codes "X")))) ∷ []))) ∷ [])
        ≡ None }

    // var2 X; defaultwhere1(n) = n in X; ex2 X: export("a", empty(X) & ex1 y: y = y);
    ensures through_a_default { fault_in
        (vars 0 (var 5 Two (codes "X") ∷ []) ∷ default_is 8 One (codes "n") (related Member (named 27 (codes "n")) (named 32 (codes "X"))) ∷ holds 35 (exists 35 (var 39 Two (codes "X") ∷ []) (export_to 42 49 (codes "a") (all_of (is_empty 54 (named 60 (codes "X"))) ((exists 65 (var 69 One (codes "y") ∷ []) (related Equal (named 72 (codes "y")) (named 76 (codes "y")))) ∷ [])))) ∷ [])
        ≡ Some (Fault.NamedTwice (byte 49) (codes "X")) }

    // var2 X; defaultwhere1(n) = n in X; ex2 X: export("a", empty(X) & ex1 y where y = 0: y = y);
    ensures own_restriction_takes_no_default { fault_in
        (vars 0 (var 5 Two (codes "X") ∷ []) ∷ default_is 8 One (codes "n") (related Member (named 27 (codes "n")) (named 32 (codes "X"))) ∷ holds 35 (exists 35 (var 39 Two (codes "X") ∷ []) (export_to 42 49 (codes "a") (all_of (is_empty 54 (named 60 (codes "X"))) ((exists 65 (var_where 69 One (codes "y") (related Equal (named 77 (codes "y")) (num 81 0)) ∷ []) (related Equal (named 84 (codes "y")) (named 88 (codes "y")))) ∷ [])))) ∷ [])
        ≡ None }

    // var2 X; defaultwhere2(S) = S = X; ex2 X: export("a", empty(X));
    ensures default_of_a_free_variable_is_not_read { fault_in
        (vars 0 (var 5 Two (codes "X") ∷ []) ∷ default_is 8 Two (codes "S") (related Equal (named 27 (codes "S")) (named 31 (codes "X"))) ∷ holds 34 (exists 34 (var 38 Two (codes "X") ∷ []) (export_to 41 48 (codes "a") (is_empty 53 (named 59 (codes "X"))))) ∷ [])
        ≡ None }

    // var2 X; pred p() = empty(X); export("a", true); ex2 X: export("a", empty(X) & p());
    ensures file_before_variables { fault_in
        (vars 0 (var 5 Two (codes "X") ∷ []) ∷ pred_is 8 13 (codes "p") no_vars (is_empty 19 (named 25 (codes "X"))) ∷ holds 29 (export_to 29 36 (codes "a") (yes 41)) ∷ holds 48 (exists 48 (var 52 Two (codes "X") ∷ []) (export_to 55 62 (codes "a") (all_of (is_empty 67 (named 73 (codes "X"))) ((called 78 (codes "p") ([])) ∷ [])))) ∷ [])
        ≡ Some (Fault.NamedTwice (byte 62) (codes "a")) }

    // var2 X; pred p() = empty(X); ex2 X: export("a", empty(X) & p() & q);
    ensures before_a_fault_of_its_formula { fault_in
        (vars 0 (var 5 Two (codes "X") ∷ []) ∷ pred_is 8 13 (codes "p") no_vars (is_empty 19 (named 25 (codes "X"))) ∷ holds 29 (exists 29 (var 33 Two (codes "X") ∷ []) (export_to 36 43 (codes "a") (all_of (is_empty 48 (named 54 (codes "X"))) ((called 59 (codes "p") ([])) ∷ (named 65 (codes "q")) ∷ [])))) ∷ [])
        ≡ Some (Fault.NamedTwice (byte 43) (codes "X")) }

    // var2 X; pred p() = empty(X); ex2 X: export("a", p() & 0 = 0 + X);
    ensures misused_as_a_number_is_not_free { fault_in
        (vars 0 (var 5 Two (codes "X") ∷ []) ∷ pred_is 8 13 (codes "p") no_vars (is_empty 19 (named 25 (codes "X"))) ∷ holds 29 (exists 29 (var 33 Two (codes "X") ∷ []) (export_to 36 43 (codes "a") (all_of (called 48 (codes "p") ([])) ((related Equal (num 54 0) (moved (num 58 0) (int_named 62 (codes "X") false))) ∷ [])))) ∷ [])
        ≡ Some (Fault.WrongOrder (byte 62)) }

    // var2 X; pred p() = empty(X); ex2 X: export("a", p() & X(0));
    ensures misused_as_a_call_is_not_free { fault_in
        (vars 0 (var 5 Two (codes "X") ∷ []) ∷ pred_is 8 13 (codes "p") no_vars (is_empty 19 (named 25 (codes "X"))) ∷ holds 29 (exists 29 (var 33 Two (codes "X") ∷ []) (export_to 36 43 (codes "a") (all_of (called 48 (codes "p") ([])) ((called 54 (codes "X") ((num 56 0) ∷ [])) ∷ [])))) ∷ [])
        ≡ Some (Fault.WrongOrder (byte 54)) }

    // var2 X; pred p() = empty(X); ex2 X: export("a", p() & X < 0);
    ensures misused_by_order_is_free { fault_in
        (vars 0 (var 5 Two (codes "X") ∷ []) ∷ pred_is 8 13 (codes "p") no_vars (is_empty 19 (named 25 (codes "X"))) ∷ holds 29 (exists 29 (var 33 Two (codes "X") ∷ []) (export_to 36 43 (codes "a") (all_of (called 48 (codes "p") ([])) ((related Less (named 54 (codes "X")) (num 58 0)) ∷ [])))) ∷ [])
        ≡ Some (Fault.NamedTwice (byte 43) (codes "X")) }
{}

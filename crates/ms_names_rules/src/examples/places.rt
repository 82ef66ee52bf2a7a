ghost use Rattle.ms_logic.specs.declared.mode.Order.TheVariants.{Zero, One, Two};
ghost use Rattle.ms_logic.specs.declared.mode.Rel.TheVariants.{Equal, Less, Sub};
ghost use Rattle.ms_names_rules.specs.inner.Examples.{byte, fault_in, vars, const_is, pred_is, no_vars, default_is, holds, var, var_where, part, int, rename, yes, everything, named, num, set_of, called, negated, all_of, related, is_empty, united, exists, let_in, restricted_to, import_of, export_to};
ghost use Rattle.std.specs.Prelude.{◌≡◌, [], ◌∷◌, true, false, codes};

use crate::fault::Fault;

/// Forms that their places do not allow.
pub fn worked_places()
    // var2 P; P = $;
    ensures all_positions_of_the_numbers { fault_in
        (vars 0 (var 5 Two (codes "P") ∷ []) ∷ holds 8 (related Equal (named 8 (codes "P")) (everything 12)) ∷ [])
        ≡ Some (Fault.NotHere (byte 12)) }

    // pred p() = empty($); true;
    ensures in_an_uncalled_predicate { fault_in
        (pred_is 0 5 (codes "p") no_vars (is_empty 11 (everything 17)) ∷ holds 21 (yes 21) ∷ [])
        ≡ Some (Fault.NotHere (byte 17)) }

    // pred p() = export("a", true);
    ensures in_a_predicate { fault_in
        (pred_is 0 5 (codes "p") no_vars (export_to 11 18 (codes "a") (yes 23)) ∷ [])
        ≡ Some (Fault.NotHere (byte 11)) }

    // macro m(var0 a) = a & export("a", a);
    ensures in_a_macro { fault_in
        (pred_is 0 6 (codes "m") (var 13 Zero (codes "a") ∷ []) (all_of (named 18 (codes "a")) ((export_to 22 29 (codes "a") (named 34 (codes "a"))) ∷ [])) ∷ [])
        ≡ Some (Fault.NotHere (byte 22)) }

    // var1 x where export("a", x = 0);
    ensures in_the_restriction_of_a_global { fault_in
        (vars 0 (var_where 5 One (codes "x") (export_to 13 20 (codes "a") (related Equal (named 25 (codes "x")) (num 29 0))) ∷ []) ∷ [])
        ≡ Some (Fault.NotHere (byte 13)) }

    // ex1 x where export("a", x = 0): true;
    ensures in_the_restriction_of_a_variable { fault_in
        (holds 0 (exists 0 (var_where 4 One (codes "x") (export_to 12 19 (codes "a") (related Equal (named 24 (codes "x")) (num 28 0))) ∷ []) (yes 32)) ∷ [])
        ≡ Some (Fault.NotHere (byte 12)) }

    // pred p(var1 x where export("a", x = 0)) = true;
    ensures in_the_restriction_of_a_parameter { fault_in
        (pred_is 0 5 (codes "p") (var_where 12 One (codes "x") (export_to 20 27 (codes "a") (related Equal (named 32 (codes "x")) (num 36 0))) ∷ []) (yes 42) ∷ [])
        ≡ Some (Fault.NotHere (byte 20)) }

    // defaultwhere1(x) = export("a", x = 0);
    ensures in_a_default_restriction { fault_in
        (default_is 0 One (codes "x") (export_to 19 26 (codes "a") (related Equal (named 31 (codes "x")) (num 35 0))) ∷ [])
        ≡ Some (Fault.NotHere (byte 19)) }

    // pred p(var0 a) = a; p(~export("a", true));
    ensures in_an_argument { fault_in
        (pred_is 0 5 (codes "p") (var 12 Zero (codes "a") ∷ []) (named 17 (codes "a")) ∷ holds 20 (called 20 (codes "p") ((negated 22 (export_to 23 30 (codes "a") (yes 35))) ∷ [])) ∷ [])
        ≡ Some (Fault.NotHere (byte 23)) }

    // let0 a = export("a", true) in a;
    ensures in_a_right_side { fault_in
        (holds 0 (let_in 0 Zero (part 5 (codes "a") (export_to 9 16 (codes "a") (yes 21)) ∷ []) (named 30 (codes "a"))) ∷ [])
        ≡ Some (Fault.NotHere (byte 9)) }

    // let1 x = 0 in ex1 y: export("a", true);
    ensures in_the_body_of_a_let { fault_in
        (holds 0 (let_in 0 One (part 5 (codes "x") (num 9 0) ∷ []) (exists 14 (var 18 One (codes "y") ∷ []) (export_to 21 28 (codes "a") (yes 33)))) ∷ [])
        ≡ Some (Fault.NotHere (byte 21)) }

    // ex2 X: ~restrict(export("a", true & export("b", empty(X))));
    ensures elsewhere { fault_in
        (holds 0 (exists 0 (var 4 Two (codes "X") ∷ []) (negated 7 (restricted_to 8 (export_to 17 24 (codes "a") (all_of (yes 29) ((export_to 36 43 (codes "b") (is_empty 48 (named 54 (codes "X")))) ∷ [])))))) ∷ [])
        ≡ None }
{}

/// The first of several faults.
pub fn worked_firsts()
    // q & 1;
    ensures lesser_place { fault_in
        (holds 0 (all_of (named 0 (codes "q")) ((num 4 1) ∷ [])) ∷ [])
        ≡ Some (Fault.UnknownName (byte 0) (codes "q")) }

    // 1 & q;
    ensures lesser_place_of_a_greater_number { fault_in
        (holds 0 (all_of (num 0 1) ((named 4 (codes "q")) ∷ [])) ∷ [])
        ≡ Some (Fault.WrongOrder (byte 0)) }

    // 1; q;
    ensures earlier_declaration { fault_in
        (holds 0 (num 0 1) ∷ holds 3 (named 3 (codes "q")) ∷ [])
        ≡ Some (Fault.WrongOrder (byte 0)) }

    // var2 P; {q union P} sub P;
    ensures name_before_order { fault_in
        (vars 0 (var 5 Two (codes "P") ∷ []) ∷ holds 8 (related Sub (set_of 8 ((united (named 9 (codes "q")) (named 17 (codes "P"))) ∷ [])) (named 24 (codes "P"))) ∷ [])
        ≡ Some (Fault.UnknownName (byte 9) (codes "q")) }

    // var2 P; {P union q} sub P;
    ensures order_before_name { fault_in
        (vars 0 (var 5 Two (codes "P") ∷ []) ∷ holds 8 (related Sub (set_of 8 ((united (named 9 (codes "P")) (named 17 (codes "q"))) ∷ [])) (named 24 (codes "P"))) ∷ [])
        ≡ Some (Fault.WrongOrder (byte 9)) }

    // pred p(var1 x) = true; 1 < p();
    ensures order_before_count { fault_in
        (pred_is 0 5 (codes "p") (var 12 One (codes "x") ∷ []) (yes 17) ∷ holds 23 (related Less (num 23 1) (called 27 (codes "p") ([]))) ∷ [])
        ≡ Some (Fault.WrongOrder (byte 27)) }

    // 65536;
    ensures order_before_range { fault_in
        (holds 0 (num 0 65536) ∷ [])
        ≡ Some (Fault.WrongOrder (byte 0)) }

    // 1 < $;
    ensures order_before_place { fault_in
        (holds 0 (related Less (num 0 1) (everything 4)) ∷ [])
        ≡ Some (Fault.WrongOrder (byte 4)) }

    // let1 x = export("a", true) in true;
    ensures order_before_forbidden_export { fault_in
        (holds 0 (let_in 0 One (part 5 (codes "x") (export_to 9 16 (codes "a") (yes 21)) ∷ []) (yes 30)) ∷ [])
        ≡ Some (Fault.WrongOrder (byte 9)) }

    // const n = 0; const n = 0 - 1;
    ensures repeat_before_range { fault_in
        (const_is 0 6 (codes "n") (int 10 0 false ∷ []) ∷ const_is 13 19 (codes "n") (int 23 0 false ∷ int 27 1 true ∷ []) ∷ [])
        ≡ Some (Fault.NamedTwice (byte 19) (codes "n")) }

    // var1 x, x where q;
    ensures repeat_before_its_restriction { fault_in
        (vars 0 (var 5 One (codes "x") ∷ var_where 8 One (codes "x") (named 16 (codes "q")) ∷ []) ∷ [])
        ≡ Some (Fault.NamedTwice (byte 8) (codes "x")) }

    // var1 x where q, x;
    ensures restriction_before_a_repeat { fault_in
        (vars 0 (var_where 5 One (codes "x") (named 13 (codes "q")) ∷ var 16 One (codes "x") ∷ []) ∷ [])
        ≡ Some (Fault.UnknownName (byte 13) (codes "q")) }

    // var2 P; import("a", b -> P, b -> q);
    ensures left_name_before_right { fault_in
        (vars 0 (var 5 Two (codes "P") ∷ []) ∷ holds 8 (import_of 8 (codes "a") (rename 20 (codes "b") 25 (codes "P") ∷ rename 28 (codes "b") 33 (codes "q") ∷ [])) ∷ [])
        ≡ Some (Fault.NamedTwice (byte 28) (codes "b")) }

    // q(1, r);
    ensures call_before_its_arguments { fault_in
        (holds 0 (called 0 (codes "q") ((num 2 1) ∷ (named 5 (codes "r")) ∷ [])) ∷ [])
        ≡ Some (Fault.UnknownName (byte 0) (codes "q")) }

    // pred p() = true; export("a", true); let0 b = export("a", true) in b;
    ensures forbidden_export_before_its_text { fault_in
        (pred_is 0 5 (codes "p") no_vars (yes 11) ∷ holds 17 (export_to 17 24 (codes "a") (yes 29)) ∷ holds 36 (let_in 36 Zero (part 41 (codes "b") (export_to 45 52 (codes "a") (yes 57)) ∷ []) (named 66 (codes "b"))) ∷ [])
        ≡ Some (Fault.NotHere (byte 45)) }
{}

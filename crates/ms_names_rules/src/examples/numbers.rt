ghost use Rattle.ms_logic.specs.declared.mode.Order.TheVariants.{One, Two};
ghost use Rattle.ms_logic.specs.declared.mode.Rel.TheVariants.{Equal};
ghost use Rattle.ms_names_rules.specs.inner.Examples.{byte, fault_in, vars, const_is, pred_is, no_vars, holds, var, int, int_named, yes, nothing, named, num, bits, set_of, called, all_of, related, united, moved, greatest};
ghost use Rattle.std.specs.Prelude.{◌≡◌, [], ◌∷◌, true, false, codes};

use crate::fault::Fault;

/// Calls with more or fewer arguments than parameters.
pub fn worked_counts_of_arguments()
    // pred p(var1 x) = true; p();
    ensures none_for_one { fault_in
        (pred_is 0 5 (codes "p") (var 12 One (codes "x") ∷ []) (yes 17) ∷ holds 23 (called 23 (codes "p") ([])) ∷ [])
        ≡ Some (Fault.WrongCount (byte 23) (codes "p") 0 1) }

    // pred p(var1 x) = true; p;
    ensures bare_for_one { fault_in
        (pred_is 0 5 (codes "p") (var 12 One (codes "x") ∷ []) (yes 17) ∷ holds 23 (named 23 (codes "p")) ∷ [])
        ≡ Some (Fault.WrongCount (byte 23) (codes "p") 0 1) }

    // pred p() = true; p(1);
    ensures one_for_none { fault_in
        (pred_is 0 5 (codes "p") no_vars (yes 11) ∷ holds 17 (called 17 (codes "p") ((num 19 1) ∷ [])) ∷ [])
        ≡ Some (Fault.WrongCount (byte 17) (codes "p") 1 0) }

    // macro m(var1 x, y) = true; m(1, 2, 3);
    ensures three_for_two { fault_in
        (pred_is 0 6 (codes "m") (var 13 One (codes "x") ∷ var 16 One (codes "y") ∷ []) (yes 21) ∷ holds 27 (called 27 (codes "m") ((num 29 1) ∷ (num 32 2) ∷ (num 35 3) ∷ [])) ∷ [])
        ≡ Some (Fault.WrongCount (byte 27) (codes "m") 3 2) }

    // pred p(var1 x) = true; p(1, q);
    ensures before_its_arguments { fault_in
        (pred_is 0 5 (codes "p") (var 12 One (codes "x") ∷ []) (yes 17) ∷ holds 23 (called 23 (codes "p") ((num 25 1) ∷ (named 28 (codes "q")) ∷ [])) ∷ [])
        ≡ Some (Fault.WrongCount (byte 23) (codes "p") 2 1) }

    // pred p() = true; macro m = true; p & p() & m & m();
    ensures with_and_without_brackets { fault_in
        (pred_is 0 5 (codes "p") no_vars (yes 11) ∷ pred_is 17 23 (codes "m") no_vars (yes 27) ∷ holds 33 (all_of (named 33 (codes "p")) ((called 37 (codes "p") ([])) ∷ (named 43 (codes "m")) ∷ (called 47 (codes "m") ([])) ∷ [])) ∷ [])
        ≡ None }
{}

/// Numbers and constants that are too large or below 0.
pub fn worked_ranges()
    // 65536 = 0;
    ensures term { fault_in
        (holds 0 (related Equal (num 0 65536) (num 8 0)) ∷ [])
        ≡ Some (Fault.OutOfRange (byte 0)) }

    // 65535 = 0;
    ensures greatest_term { fault_in
        (holds 0 (related Equal (num 0 65535) (num 8 0)) ∷ [])
        ≡ None }

    // var1 x; x = x + 65536;
    ensures after_plus { fault_in
        (vars 0 (var 5 One (codes "x") ∷ []) ∷ holds 8 (related Equal (named 8 (codes "x")) (moved (named 12 (codes "x")) (int 16 65536 false))) ∷ [])
        ≡ Some (Fault.OutOfRange (byte 16)) }

    // var1 x; x = x - 65536;
    ensures after_minus { fault_in
        (vars 0 (var 5 One (codes "x") ∷ []) ∷ holds 8 (related Equal (named 8 (codes "x")) (moved (named 12 (codes "x")) (int 16 65536 true))) ∷ [])
        ≡ Some (Fault.OutOfRange (byte 16)) }

    // var1 x; x + 65535 = x - 65535;
    ensures greatest_after_plus_and_minus { fault_in
        (vars 0 (var 5 One (codes "x") ∷ []) ∷ holds 8 (related Equal (moved (named 8 (codes "x")) (int 12 65535 false)) (moved (named 20 (codes "x")) (int 24 65535 true))) ∷ [])
        ≡ None }

    // var2 P; P = P + 65536;
    ensures moved_set { fault_in
        (vars 0 (var 5 Two (codes "P") ∷ []) ∷ holds 8 (related Equal (named 8 (codes "P")) (moved (named 12 (codes "P")) (int 16 65536 false))) ∷ [])
        ≡ Some (Fault.OutOfRange (byte 16)) }

    // const n = 65536; n = 0;
    ensures constant_as_a_term { fault_in
        (const_is 0 6 (codes "n") (int 10 65536 false ∷ []) ∷ holds 17 (related Equal (named 17 (codes "n")) (num 21 0)) ∷ [])
        ≡ Some (Fault.OutOfRange (byte 17)) }

    // const n = 65536; var1 x; x = x + n;
    ensures constant_after_plus { fault_in
        (const_is 0 6 (codes "n") (int 10 65536 false ∷ []) ∷ vars 17 (var 22 One (codes "x") ∷ []) ∷ holds 25 (related Equal (named 25 (codes "x")) (moved (named 29 (codes "x")) (int_named 33 (codes "n") false))) ∷ [])
        ≡ Some (Fault.OutOfRange (byte 33)) }

    // const n = 65536; var1 x; x = x - n;
    ensures constant_after_minus { fault_in
        (const_is 0 6 (codes "n") (int 10 65536 false ∷ []) ∷ vars 17 (var 22 One (codes "x") ∷ []) ∷ holds 25 (related Equal (named 25 (codes "x")) (moved (named 29 (codes "x")) (int_named 33 (codes "n") true))) ∷ [])
        ≡ Some (Fault.OutOfRange (byte 33)) }

    // const n = 65535; n + n = n - n;
    ensures greatest_constant_in_terms { fault_in
        (const_is 0 6 (codes "n") (int 10 65535 false ∷ []) ∷ holds 17 (related Equal (moved (named 17 (codes "n")) (int_named 21 (codes "n") false)) (moved (named 25 (codes "n")) (int_named 29 (codes "n") true))) ∷ [])
        ≡ None }

    // const n = 65536; empty = pconst(n) union pconst(18446744073709551615);
    ensures pconst_takes_any { fault_in
        (const_is 0 6 (codes "n") (int 10 65536 false ∷ []) ∷ holds 17 (related Equal (nothing 17) (united (bits 25 (int_named 32 (codes "n") false)) (bits 41 (int 48 18446744073709551615 false)))) ∷ [])
        ≡ None }

    // {1, 65536} = empty;
    ensures element { fault_in
        (holds 0 (related Equal (set_of 0 ((num 1 1) ∷ (num 4 65536) ∷ [])) (nothing 13)) ∷ [])
        ≡ Some (Fault.OutOfRange (byte 4)) }

    // pred p(var1 x) = true; p(65536);
    ensures argument { fault_in
        (pred_is 0 5 (codes "p") (var 12 One (codes "x") ∷ []) (yes 17) ∷ holds 23 (called 23 (codes "p") ((num 25 65536) ∷ [])) ∷ [])
        ≡ Some (Fault.OutOfRange (byte 25)) }

    // const n = 0 - 1;
    ensures below_zero { fault_in
        (const_is 0 6 (codes "n") (int 10 0 false ∷ int 14 1 true ∷ []) ∷ [])
        ≡ Some (Fault.OutOfRange (byte 6)) }

    // const n = 1 - 2 + 5;
    ensures below_zero_and_back { fault_in
        (const_is 0 6 (codes "n") (int 10 1 false ∷ int 14 2 true ∷ int 18 5 false ∷ []) ∷ [])
        ≡ Some (Fault.OutOfRange (byte 6)) }

    // const n = 18446744073709551615 + 1 - 1;
    ensures past_the_greatest_and_back { fault_in
        (const_is 0 6 (codes "n") (int 10 18446744073709551615 false ∷ int 33 1 false ∷ int 37 1 true ∷ []) ∷ [])
        ≡ Some (Fault.OutOfRange (byte 6)) }

    // const n = 18446744073709551614 + 1;
    ensures greatest { fault_in
        (const_is 0 6 (codes "n") (int 10 18446744073709551614 false ∷ int 33 1 false ∷ []) ∷ [])
        ≡ None }

    // const n = 1 + 5 - 6;
    ensures back_to_zero { fault_in
        (const_is 0 6 (codes "n") (int 10 1 false ∷ int 14 5 false ∷ int 18 6 true ∷ []) ∷ [])
        ≡ None }

    // const a = 3; const b = 2 - a;
    ensures by_a_constant { fault_in
        (const_is 0 6 (codes "a") (int 10 3 false ∷ []) ∷ const_is 13 19 (codes "b") (int 23 2 false ∷ int_named 27 (codes "a") true ∷ []) ∷ [])
        ≡ Some (Fault.OutOfRange (byte 19)) }

    // const n = 0 - 1 + k;
    ensures before_an_unknown_name { fault_in
        (const_is 0 6 (codes "n") (int 10 0 false ∷ int 14 1 true ∷ int_named 18 (codes "k") false ∷ []) ∷ [])
        ≡ Some (Fault.OutOfRange (byte 6)) }

    // const n = 1 + k - 5;
    ensures behind_an_unknown_name { fault_in
        (const_is 0 6 (codes "n") (int 10 1 false ∷ int_named 14 (codes "k") false ∷ int 18 5 true ∷ []) ∷ [])
        ≡ Some (Fault.UnknownName (byte 14) (codes "k")) }
{}

ghost use Rattle.ms_logic.specs.declared.mode.Order.TheVariants.{Zero, One, Two};
ghost use Rattle.ms_logic.specs.declared.mode.Rel.TheVariants.{Equal, Differs, Less, AtMost, Greater, AtLeast, Member, NotMember, Sub};
ghost use Rattle.ms_names_rules.specs.inner.Examples.{byte, fault_in, vars, const_is, pred_is, no_vars, default_is, holds, var, var_where, part, int, int_named, rename, yes, nothing, named, num, bits, paren, set_of, called, negated, all_of, any_of, implies, iff, related, is_empty, united, met, without, moved, least, greatest, exists, let_in, restricted_to, import_of, export_to};
ghost use Rattle.std.specs.Prelude.{◌≡◌, [], ◌∷◌, true, false, codes};

use crate::fault::Fault;

/// Places that want a formula.
pub fn worked_formulas_wanted()
    // 1;
    ensures declaration { fault_in
        (holds 0 (num 0 1) ∷ [])
        ≡ Some (Fault.WrongOrder (byte 0)) }

    // var1 x where x;
    ensures restriction_of_a_global { fault_in
        (vars 0 (var_where 5 One (codes "x") (named 13 (codes "x")) ∷ []) ∷ [])
        ≡ Some (Fault.WrongOrder (byte 13)) }

    // ex2 P where P: true;
    ensures restriction_of_a_variable { fault_in
        (holds 0 (exists 0 (var_where 4 Two (codes "P") (named 12 (codes "P")) ∷ []) (yes 15)) ∷ [])
        ≡ Some (Fault.WrongOrder (byte 12)) }

    // pred p(var1 x where x) = true;
    ensures restriction_of_a_parameter { fault_in
        (pred_is 0 5 (codes "p") (var_where 12 One (codes "x") (named 20 (codes "x")) ∷ []) (yes 25) ∷ [])
        ≡ Some (Fault.WrongOrder (byte 20)) }

    // defaultwhere1(x) = x;
    ensures default_restriction { fault_in
        (default_is 0 One (codes "x") (named 19 (codes "x")) ∷ [])
        ≡ Some (Fault.WrongOrder (byte 19)) }

    // pred p() = 1;
    ensures body_of_a_predicate { fault_in
        (pred_is 0 5 (codes "p") no_vars (num 11 1) ∷ [])
        ≡ Some (Fault.WrongOrder (byte 11)) }

    // ~1;
    ensures negation { fault_in
        (holds 0 (negated 0 (num 1 1)) ∷ [])
        ≡ Some (Fault.WrongOrder (byte 1)) }

    // true & 1;
    ensures conjunction { fault_in
        (holds 0 (all_of (yes 0) ((num 7 1) ∷ [])) ∷ [])
        ≡ Some (Fault.WrongOrder (byte 7)) }

    // empty | true;
    ensures disjunction { fault_in
        (holds 0 (any_of (nothing 0) ((yes 8) ∷ [])) ∷ [])
        ≡ Some (Fault.WrongOrder (byte 0)) }

    // true => 1;
    ensures implication { fault_in
        (holds 0 (implies (yes 0) (num 8 1)) ∷ [])
        ≡ Some (Fault.WrongOrder (byte 8)) }

    // 1 <=> true;
    ensures equivalence { fault_in
        (holds 0 (iff (num 0 1) (yes 6)) ∷ [])
        ≡ Some (Fault.WrongOrder (byte 0)) }

    // ex1 x: x;
    ensures body_of_a_quantifier { fault_in
        (holds 0 (exists 0 (var 4 One (codes "x") ∷ []) (named 7 (codes "x"))) ∷ [])
        ≡ Some (Fault.WrongOrder (byte 7)) }

    // restrict(1);
    ensures restrict { fault_in
        (holds 0 (restricted_to 0 (num 9 1)) ∷ [])
        ≡ Some (Fault.WrongOrder (byte 9)) }

    // export("a", 1);
    ensures export { fault_in
        (holds 0 (export_to 0 7 (codes "a") (num 12 1)) ∷ [])
        ≡ Some (Fault.WrongOrder (byte 12)) }

    // let0 a = 1 in a;
    ensures let0 { fault_in
        (holds 0 (let_in 0 Zero (part 5 (codes "a") (num 9 1) ∷ []) (named 14 (codes "a"))) ∷ [])
        ≡ Some (Fault.WrongOrder (byte 9)) }

    // let1 x = 1 in x;
    ensures body_of_a_let { fault_in
        (holds 0 (let_in 0 One (part 5 (codes "x") (num 9 1) ∷ []) (named 14 (codes "x"))) ∷ [])
        ≡ Some (Fault.WrongOrder (byte 14)) }

    // pred p(var0 a) = a; p(1);
    ensures argument { fault_in
        (pred_is 0 5 (codes "p") (var 12 Zero (codes "a") ∷ []) (named 17 (codes "a")) ∷ holds 20 (called 20 (codes "p") ((num 22 1) ∷ [])) ∷ [])
        ≡ Some (Fault.WrongOrder (byte 22)) }

    // const n = 0; n;
    ensures constant_as_a_formula { fault_in
        (const_is 0 6 (codes "n") (int 10 0 false ∷ []) ∷ holds 13 (named 13 (codes "n")) ∷ [])
        ≡ Some (Fault.WrongOrder (byte 13)) }
{}

/// Places that want a number.
pub fn worked_numbers_wanted()
    // var2 P; P < 1;
    ensures left_of_less { fault_in
        (vars 0 (var 5 Two (codes "P") ∷ []) ∷ holds 8 (related Less (named 8 (codes "P")) (num 12 1)) ∷ [])
        ≡ Some (Fault.WrongOrder (byte 8)) }

    // var2 P; 1 < P;
    ensures right_of_less { fault_in
        (vars 0 (var 5 Two (codes "P") ∷ []) ∷ holds 8 (related Less (num 8 1) (named 12 (codes "P"))) ∷ [])
        ≡ Some (Fault.WrongOrder (byte 12)) }

    // 1 <= empty;
    ensures at_most { fault_in
        (holds 0 (related AtMost (num 0 1) (nothing 5)) ∷ [])
        ≡ Some (Fault.WrongOrder (byte 5)) }

    // true > 1;
    ensures greater { fault_in
        (holds 0 (related Greater (yes 0) (num 7 1)) ∷ [])
        ≡ Some (Fault.WrongOrder (byte 0)) }

    // 1 >= {1};
    ensures at_least { fault_in
        (holds 0 (related AtLeast (num 0 1) (set_of 5 ((num 6 1) ∷ []))) ∷ [])
        ≡ Some (Fault.WrongOrder (byte 5)) }

    // var2 P; P in P;
    ensures left_of_in { fault_in
        (vars 0 (var 5 Two (codes "P") ∷ []) ∷ holds 8 (related Member (named 8 (codes "P")) (named 13 (codes "P"))) ∷ [])
        ≡ Some (Fault.WrongOrder (byte 8)) }

    // var2 P; pconst(1) notin P;
    ensures left_of_notin { fault_in
        (vars 0 (var 5 Two (codes "P") ∷ []) ∷ holds 8 (related NotMember (bits 8 (int 15 1 false)) (named 24 (codes "P"))) ∷ [])
        ≡ Some (Fault.WrongOrder (byte 8)) }

    // var2 P; {1, P} sub P;
    ensures element { fault_in
        (vars 0 (var 5 Two (codes "P") ∷ []) ∷ holds 8 (related Sub (set_of 8 ((num 9 1) ∷ (named 12 (codes "P")) ∷ [])) (named 19 (codes "P"))) ∷ [])
        ≡ Some (Fault.WrongOrder (byte 12)) }

    // let1 x = empty in true;
    ensures let1 { fault_in
        (holds 0 (let_in 0 One (part 5 (codes "x") (nothing 9) ∷ []) (yes 18)) ∷ [])
        ≡ Some (Fault.WrongOrder (byte 9)) }

    // pred p(var1 x) = true; p(empty);
    ensures argument { fault_in
        (pred_is 0 5 (codes "p") (var 12 One (codes "x") ∷ []) (yes 17) ∷ holds 23 (called 23 (codes "p") ((nothing 25) ∷ [])) ∷ [])
        ≡ Some (Fault.WrongOrder (byte 25)) }

    // 1 < (empty);
    ensures in_brackets { fault_in
        (holds 0 (related Less (num 0 1) (paren 4 (nothing 5))) ∷ [])
        ≡ Some (Fault.WrongOrder (byte 4)) }

    // pred p() = true; 1 < p;
    ensures predicate_as_a_number { fault_in
        (pred_is 0 5 (codes "p") no_vars (yes 11) ∷ holds 17 (related Less (num 17 1) (named 21 (codes "p"))) ∷ [])
        ≡ Some (Fault.WrongOrder (byte 21)) }

    // 1 < (1 < 2);
    ensures formula_as_a_number { fault_in
        (holds 0 (related Less (num 0 1) (paren 4 (related Less (num 5 1) (num 9 2)))) ∷ [])
        ≡ Some (Fault.WrongOrder (byte 4)) }
{}

/// Places that want a set.
pub fn worked_sets_wanted()
    // 1 in 1;
    ensures right_of_in { fault_in
        (holds 0 (related Member (num 0 1) (num 5 1)) ∷ [])
        ≡ Some (Fault.WrongOrder (byte 5)) }

    // 1 notin (1 + 1);
    ensures right_of_notin { fault_in
        (holds 0 (related NotMember (num 0 1) (paren 8 (moved (num 9 1) (int 13 1 false)))) ∷ [])
        ≡ Some (Fault.WrongOrder (byte 8)) }

    // 1 sub empty;
    ensures left_of_sub { fault_in
        (holds 0 (related Sub (num 0 1) (nothing 6)) ∷ [])
        ≡ Some (Fault.WrongOrder (byte 0)) }

    // empty sub min empty;
    ensures right_of_sub { fault_in
        (holds 0 (related Sub (nothing 0) (least 10 (nothing 14))) ∷ [])
        ≡ Some (Fault.WrongOrder (byte 10)) }

    // empty = empty union 1;
    ensures union { fault_in
        (holds 0 (related Equal (nothing 0) (united (nothing 8) (num 20 1))) ∷ [])
        ≡ Some (Fault.WrongOrder (byte 20)) }

    // empty = empty inter max empty;
    ensures inter { fault_in
        (holds 0 (related Equal (nothing 0) (met (nothing 8) (greatest 20 (nothing 24)))) ∷ [])
        ≡ Some (Fault.WrongOrder (byte 20)) }

    // var1 x; empty = {x} \ x;
    ensures difference { fault_in
        (vars 0 (var 5 One (codes "x") ∷ []) ∷ holds 8 (related Equal (nothing 8) (without (set_of 16 ((named 17 (codes "x")) ∷ [])) (named 22 (codes "x")))) ∷ [])
        ≡ Some (Fault.WrongOrder (byte 22)) }

    // empty(1);
    ensures empty { fault_in
        (holds 0 (is_empty 0 (num 6 1)) ∷ [])
        ≡ Some (Fault.WrongOrder (byte 6)) }

    // 1 = min 1;
    ensures min { fault_in
        (holds 0 (related Equal (num 0 1) (least 4 (num 8 1))) ∷ [])
        ≡ Some (Fault.WrongOrder (byte 8)) }

    // 1 = max (true);
    ensures max { fault_in
        (holds 0 (related Equal (num 0 1) (greatest 4 (paren 8 (yes 9)))) ∷ [])
        ≡ Some (Fault.WrongOrder (byte 8)) }

    // let2 S = 1 in true;
    ensures let2 { fault_in
        (holds 0 (let_in 0 Two (part 5 (codes "S") (num 9 1) ∷ []) (yes 14)) ∷ [])
        ≡ Some (Fault.WrongOrder (byte 9)) }

    // pred p(var2 S) = true; p(1);
    ensures argument { fault_in
        (pred_is 0 5 (codes "p") (var 12 Two (codes "S") ∷ []) (yes 17) ∷ holds 23 (called 23 (codes "p") ((num 25 1) ∷ [])) ∷ [])
        ≡ Some (Fault.WrongOrder (byte 25)) }

    // var2 X, P; (X(1)) sub P;
    ensures call_of_a_variable { fault_in
        (vars 0 (var 5 Two (codes "X") ∷ var 8 Two (codes "P") ∷ []) ∷ holds 11 (related Sub (paren 11 (called 12 (codes "X") ((num 14 1) ∷ []))) (named 22 (codes "P"))) ∷ [])
        ≡ Some (Fault.WrongOrder (byte 11)) }
{}

/// Places that want a number or a set, or the order of the other side.
pub fn worked_either_wanted()
    // true = true;
    ensures left_of_equal { fault_in
        (holds 0 (related Equal (yes 0) (yes 7)) ∷ [])
        ≡ Some (Fault.WrongOrder (byte 0)) }

    // (true) ~= 1;
    ensures left_of_differs { fault_in
        (holds 0 (related Differs (paren 0 (yes 1)) (num 10 1)) ∷ [])
        ≡ Some (Fault.WrongOrder (byte 0)) }

    // 1 = empty;
    ensures number_beside_set { fault_in
        (holds 0 (related Equal (num 0 1) (nothing 4)) ∷ [])
        ≡ Some (Fault.WrongOrder (byte 4)) }

    // empty ~= 1;
    ensures set_beside_number { fault_in
        (holds 0 (related Differs (nothing 0) (num 9 1)) ∷ [])
        ≡ Some (Fault.WrongOrder (byte 9)) }

    // true + 1 = 1;
    ensures plus { fault_in
        (holds 0 (related Equal (moved (yes 0) (int 7 1 false)) (num 11 1)) ∷ [])
        ≡ Some (Fault.WrongOrder (byte 0)) }

    // var0 a; a - 1 = 1;
    ensures minus { fault_in
        (vars 0 (var 5 Zero (codes "a") ∷ []) ∷ holds 8 (related Equal (moved (named 8 (codes "a")) (int 12 1 true)) (num 16 1)) ∷ [])
        ≡ Some (Fault.WrongOrder (byte 8)) }

    // var2 P; 1 = P + 1;
    ensures moved_set_beside_number { fault_in
        (vars 0 (var 5 Two (codes "P") ∷ []) ∷ holds 8 (related Equal (num 8 1) (moved (named 12 (codes "P")) (int 16 1 false))) ∷ [])
        ≡ Some (Fault.WrongOrder (byte 12)) }

    // var1 x; x(1);
    ensures called_variable { fault_in
        (vars 0 (var 5 One (codes "x") ∷ []) ∷ holds 8 (called 8 (codes "x") ((num 10 1) ∷ [])) ∷ [])
        ≡ Some (Fault.WrongOrder (byte 8)) }

    // const n = 0; n();
    ensures called_constant { fault_in
        (const_is 0 6 (codes "n") (int 10 0 false ∷ []) ∷ holds 13 (called 13 (codes "n") ([])) ∷ [])
        ≡ Some (Fault.WrongOrder (byte 13)) }

    // var1 x; x = x + x;
    ensures offset_is_a_variable { fault_in
        (vars 0 (var 5 One (codes "x") ∷ []) ∷ holds 8 (related Equal (named 8 (codes "x")) (moved (named 12 (codes "x")) (int_named 16 (codes "x") false))) ∷ [])
        ≡ Some (Fault.WrongOrder (byte 16)) }

    // var2 P; P = pconst(P);
    ensures pconst_of_a_variable { fault_in
        (vars 0 (var 5 Two (codes "P") ∷ []) ∷ holds 8 (related Equal (named 8 (codes "P")) (bits 12 (int_named 19 (codes "P") false))) ∷ [])
        ≡ Some (Fault.WrongOrder (byte 19)) }

    // var1 x; const n = 1 + x;
    ensures constant_of_a_variable { fault_in
        (vars 0 (var 5 One (codes "x") ∷ []) ∷ const_is 8 14 (codes "n") (int 18 1 false ∷ int_named 22 (codes "x") false ∷ []) ∷ [])
        ≡ Some (Fault.WrongOrder (byte 22)) }

    // pred p() = true; const n = p;
    ensures constant_of_a_predicate { fault_in
        (pred_is 0 5 (codes "p") no_vars (yes 11) ∷ const_is 17 23 (codes "n") (int_named 27 (codes "p") false ∷ []) ∷ [])
        ≡ Some (Fault.WrongOrder (byte 27)) }

    // const n = 0; import("a", x -> n);
    ensures right_of_import_is_a_constant { fault_in
        (const_is 0 6 (codes "n") (int 10 0 false ∷ []) ∷ holds 13 (import_of 13 (codes "a") (rename 25 (codes "x") 30 (codes "n") ∷ [])) ∷ [])
        ≡ Some (Fault.WrongOrder (byte 30)) }

    // pred p() = true; import("a", x -> p);
    ensures right_of_import_is_a_predicate { fault_in
        (pred_is 0 5 (codes "p") no_vars (yes 11) ∷ holds 17 (import_of 17 (codes "a") (rename 29 (codes "x") 34 (codes "p") ∷ [])) ∷ [])
        ≡ Some (Fault.WrongOrder (byte 34)) }

    // 1 = 2 & 1 ~= min empty + 3;
    ensures numbers { fault_in
        (holds 0 (all_of (related Equal (num 0 1) (num 4 2)) ((related Differs (num 8 1) (moved (least 13 (nothing 17)) (int 25 3 false))) ∷ [])) ∷ [])
        ≡ None }

    // var2 P; P = {1} + 3 & P ~= pconst(7) \ empty;
    ensures sets { fault_in
        (vars 0 (var 5 Two (codes "P") ∷ []) ∷ holds 8 (all_of (related Equal (named 8 (codes "P")) (moved (set_of 12 ((num 13 1) ∷ [])) (int 18 3 false))) ((related Differs (named 22 (codes "P")) (without (bits 27 (int 34 7 false)) (nothing 39))) ∷ [])) ∷ [])
        ≡ None }
{}

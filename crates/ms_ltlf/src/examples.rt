//! The definitions at small cases, worked out by hand. Each function has an empty body, and its contract is the table of its
//! examples.

ghost use Rattle.ms_logic.specs.Tree.{more_forms, no_forms};
ghost use Rattle.ms_ltlf.specs.Meaning.{IsOverTraces, TellsTruth, TellsVerdict, trace_of};
ghost use Rattle.ms_ltlf.specs.Trace.{HoldsAt, IsTrace};
ghost use Rattle.ms_ltlf.specs.Tree.{IsOver, always, brackets, depth, eventually, falsity, implication, negation, next, release, size, truth, until, weak_next};
ghost use Rattle.ms_ltlf.specs.View.{IsWellFormed};
ghost use Rattle.ms_ltlf.specs.inner.Examples.{both, formula_over, not_empty, p, q, sets_on, source_with, starts_in_p, trace};
ghost use Rattle.std.specs.Prelude.{◌≡◌, [], ◌∷◌};

use crate::trace::Ltl;

/// The operators at the ends of traces, and formulas that tell traces of length 1 from longer ones.
pub fn worked_truth()
    // X true: a position follows
    ensures next_at_the_end { ¬ HoldsAt (trace 2 [] []) (next truth) 1 }
    ensures next_before { HoldsAt (trace 2 [] []) (next truth) 0 }
    ensures next_holds_there { HoldsAt (trace 3 (2 ∷ []) []) (next p) 1 }
    ensures next_fails_there { ¬ HoldsAt (trace 3 (1 ∷ []) []) (next p) 1 }

    // WX false: no position follows
    ensures weak_next_at_the_end { HoldsAt (trace 2 [] []) (weak_next falsity) 1 }
    ensures weak_next_before { ¬ HoldsAt (trace 2 [] []) (weak_next falsity) 0 }

    // F p: at the last position where p is there, and not where it was only before
    ensures eventually_at_the_end { HoldsAt (trace 2 (1 ∷ []) []) (eventually p) 1 }
    ensures eventually_too_late { ¬ HoldsAt (trace 2 (0 ∷ []) []) (eventually p) 1 }

    // G p: the same, at the last position
    ensures always_at_the_end { HoldsAt (trace 2 (1 ∷ []) []) (always p) 1 }
    ensures always_no_longer { ¬ HoldsAt (trace 2 (0 ∷ []) []) (always p) 1 }
    ensures always_not_yet { ¬ HoldsAt (trace 2 (0 ∷ []) []) (always p) 0 }

    // p U q: q has to come, and p need not hold where it does
    ensures until_at_the_end { HoldsAt (trace 2 [] (1 ∷ [])) (until p q) 1 }
    ensures until_without_end { ¬ HoldsAt (trace 2 (0 ∷ 1 ∷ []) []) (until p q) 1 }
    ensures until_broken { ¬ HoldsAt (trace 3 (0 ∷ []) (2 ∷ [])) (until p q) 0 }
    ensures until_kept { HoldsAt (trace 3 (0 ∷ 1 ∷ []) (2 ∷ [])) (until p q) 0 }

    // p R q: q holds up to the end, or up to and with a position where p holds
    ensures release_at_the_end { HoldsAt (trace 2 [] (1 ∷ [])) (release p q) 1 }
    ensures release_without { ¬ HoldsAt (trace 2 (1 ∷ []) []) (release p q) 1 }
    ensures release_freed { HoldsAt (trace 3 (1 ∷ []) (0 ∷ 1 ∷ [])) (release p q) 0 }
    ensures release_too_early { ¬ HoldsAt (trace 3 (1 ∷ []) (0 ∷ [])) (release p q) 0 }

    // F ~X true: each trace has a last position
    ensures ends_at_once { HoldsAt (trace 1 [] []) (eventually (negation (next truth))) 0 }
    ensures ends_later { HoldsAt (trace 2 [] []) (eventually (negation (next truth))) 0 }

    // G (p => F q)
    ensures nothing_asked { HoldsAt (trace 1 [] []) (always (implication p (eventually q))) 0 }
    ensures never_answered { ¬ HoldsAt (trace 1 (0 ∷ []) []) (always (implication p (eventually q))) 0 }

    // p U q & G ~q holds on no trace
    ensures never_and_once { ¬ HoldsAt (trace 1 (0 ∷ []) []) (both (until p q) (always (negation q))) 0 }
    ensures once_and_never { ¬ HoldsAt (trace 2 (0 ∷ []) (1 ∷ [])) (both (until p q) (always (negation q))) 0 }

    // WX p & X q
    ensures both_next { HoldsAt (trace 2 (1 ∷ []) (1 ∷ [])) (both (weak_next p) (next q)) 0 }
    ensures none_next { ¬ HoldsAt (trace 1 [] []) (both (weak_next p) (next q)) 0 }
{}

/// Traces, and what assignments of sets are.
pub fn worked_traces()
    ensures one_position { IsTrace 2 (trace 1 (0 ∷ []) []) }
    ensures no_position { ¬ IsTrace 2 (trace 0 [] []) }
    ensures not_within { ¬ IsTrace 2 (trace 1 (1 ∷ []) []) }
    ensures not_in_order { ¬ IsTrace 2 (trace 2 (1 ∷ 0 ∷ []) []) }
    ensures of_an_assignment { trace_of (sets_on 2 (1 ∷ []) []) ≡ trace 2 (1 ∷ []) [] }
{}

/// How deep formulas are, which propositions they have, and which formulas with names are well formed.
pub fn worked_formulas()
    ensures atom { depth p ≡ 1 }
    ensures brackets_count { depth (brackets (brackets p)) ≡ 3 }
    ensures deeper_part { depth (until p (next q)) ≡ 3 }
    ensures operands { depth (both p (always q)) ≡ 3 }
    ensures parts { size (until p (next q)) ≡ 4 }
    ensures parts_of_operands { size (both p (brackets q)) ≡ 4 }
    ensures over { IsOver 2 (until p q) }
    ensures not_over { ¬ IsOver 1 (until p q) }
    ensures well_formed { IsWellFormed (formula_over (112 ∷ 113 ∷ []) (Ltl.Prop 1)) }
    ensures no_name { ¬ IsWellFormed (formula_over (112 ∷ 113 ∷ []) (Ltl.Prop 2)) }
    ensures name_twice { ¬ IsWellFormed (formula_over (112 ∷ 112 ∷ []) (Ltl.Prop 1)) }
{}

/// Sources that tell what p says, and sources that do not.
pub fn worked_sources()
    // restrict(ex1 x: x = x); 0 in p
    ensures tells { TellsTruth p (source_with (more_forms not_empty (more_forms starts_in_p no_forms))) }
    // 0 in p, which is No on the empty string
    ensures empty_string { ¬ TellsTruth p (source_with (more_forms starts_in_p no_forms)) }
    // restrict(ex1 x: x = x); true
    ensures too_weak { ¬ TellsTruth p (source_with (more_forms not_empty no_forms)) }
    ensures no_counterexample { ¬ TellsVerdict 1 p (source_with (more_forms not_empty no_forms)) }
    // one set, where two propositions would be two
    ensures one_set { ¬ IsOverTraces 2 (source_with (more_forms not_empty no_forms)) }
{}

//! The definitions at small cases, worked out by hand. The function has an empty body, and its contract is the table of its examples.

ghost use Rattle.std.specs.Prelude.{◌-◌, ◌∷◌, []};
ghost use Rattle.ms_calls.specs.Products.{AreAutomata, StandsAmong};
ghost use Rattle.ms_calls.specs.Projections.{IsBody, IsRange};
ghost use Rattle.ms_calls.specs.Relations.{IsAutomatonOfRelation};
ghost use Rattle.ms_logic.specs.declared.mode.Mode.TheVariants.{Ws1s};
ghost use Rattle.ms_logic.specs.declared.mode.Order.TheVariants.{Two};
ghost use Rattle.ms_logic.specs.inner.Examples.{set_P_and_Q, variable};
ghost use Rattle.ms_logic_core.specs.declared.core_formula.Basic.TheVariants.{Sub};
ghost use Rattle.ms_logic_words.specs.declared.sign.Sign.TheVariants.{Yes};
ghost use Rattle.ms_logic_words.specs.inner.ContentExamples.{encodings_content, full_subset_content};
ghost use Rattle.ms_minim.specs.Needed.{NeedsAtLeast};
ghost use Rattle.ms_product.specs.Pairing.{IsReachedPair, operands_of};
ghost use Rattle.ms_project.specs.Always.{always};
ghost use Rattle.ms_project.specs.inner.Examples.{everywhere};
ghost use Rattle.ms_rename.specs.Renamed.{beside_itself};

/// The full contents of P sub Q and of `true`.
pub fn worked_calls()
    // bits lead P sub Q and itself to state 0, and, where the letter has P alone, to state 1; but never to different states
    ensures first { IsReachedPair (operands_of full_subset_content full_subset_content) (0, 0) }
    ensures second { IsReachedPair (operands_of full_subset_content full_subset_content) (1, 1) }
    ensures apart { ¬ IsReachedPair (operands_of full_subset_content full_subset_content) (0, 1) }

    // beside itself, each read at the place of the other, it is in state 1 where the letter has Q alone
    ensures turned { IsReachedPair (beside_itself full_subset_content (1 ∷ 0 ∷ [])) (1, 1) }

    // P and Q stand where they are, and not each in the place of the other
    ensures stands { StandsAmong full_subset_content (λ place. place) set_P_and_Q }
    ensures swapped { ¬ StandsAmong full_subset_content (λ place. 1 - place) set_P_and_Q }

    // `true` needs its one state; P sub Q has two states and two nodes, and needs no more
    ensures one { NeedsAtLeast 1 encodings_content }
    ensures no_five { ¬ NeedsAtLeast 5 full_subset_content }

    // two automata, of whose variables those with one number have one order
    ensures automata { AreAutomata full_subset_content full_subset_content }

    // truth restricts any body, since it has no variables; a set that the body lacks is in no range of it, and is not bound there
    ensures range { IsRange (everywhere Yes) (always Ws1s) }
    ensures no_range { ¬ IsRange (always Ws1s) (everywhere Yes) }
    ensures no_body { ¬ IsBody (always Ws1s) (variable 7 Two) }

    // the content of P sub Q is an automaton of this relation, but not of Q sub P
    ensures relation { IsAutomatonOfRelation Ws1s (Sub 0 1) full_subset_content }
    ensures no_relation { ¬ IsAutomatonOfRelation Ws1s (Sub 1 0) full_subset_content }
{}

//! The definitions at small cases, worked out by hand. Each function has an empty body, and its contract is the table of its
//! examples.

ghost use Rattle.std.specs.Prelude.{◌≡◌, [], ◌∷◌, codes, Some, None};
ghost use Rattle.ms_text.specs.TokenList.{token_at};
ghost use Rattle.ms_ltlf.specs.Tree.{Temporal, truth, falsity, brackets, negation, conjunction, disjunction, implication, equivalence, next, weak_next, eventually, always, until, release, no_temporals, more_temporals};
ghost use Rattle.ms_ltlf_parse.specs.Grammar.{AreOperands, HasTwo, IsGrammatical, Names, left_level, level, right_level, spelled};
ghost use Rattle.ms_ltlf_parse.specs.Reading.{CanFollow, CanFollowAtAnyDepth, Reads, ReadsAsTrace, first_sights, place, with_name, with_sight, with_sights};
ghost use Rattle.ms_ltlf_parse.specs.Refused.{IsTraceFault};
ghost use Rattle.ms_ltlf_parse.specs.Symbol.{name, word_true, word_false, open_bracket, close_bracket, semicolon, other, symbol_of, symbols};
ghost use Rattle.ms_parse_stack.specs.inner.Examples.{repeated, text};
ghost use Rattle.ms_ltlf_parse.specs.inner.Examples.{a, b, c, negated, X, WX, F, G, U, R, implies, iff, and, or, only_a, a_b, a_b_c, first, second, third, two, three, bracketed, in_brackets, open_brackets};
ghost use Rattle.ms_ltlf_parse.specs.inner.Machine.{binary, completed, holding, joined, leaf, opened, operand, prefixed, shortest, wanted};
ghost use Rattle.ms_ltlf_parse.specs.inner.Reached.{StopsAt, reached};
ghost use Rattle.ms_ltlf_parse.specs.inner.Sights.{IsTable, place_among};
ghost use Rattle.ms_ltlf_parse.specs.inner.Terminals.{symbol_with};
ghost use Rattle.ms_parse_stack.specs.inner.Frames as frames;
ghost use Rattle.ms_parse_stack.specs.inner.Machine.{done, stopped};

use crate::operator::{Binary, Junction, Prefix};
use crate::terminal::Terminal;
use ms_edge::Refusal;
use ms_ltlf::Ltl;
use ms_parse_stack::Stop;
use ms_text::{Keyword, Kind, Mark};

/// Rows of symbols and their formulas: how operators group.
pub fn worked_operators()
    // a => b => c
    ensures implication_to_the_right { Reads (a ∷ implies ∷ b ∷ implies ∷ c ∷ semicolon ∷ []) a_b_c (implication first (implication second third)) }
    // a <=> b <=> c
    ensures equivalence_to_the_left { Reads (a ∷ iff ∷ b ∷ iff ∷ c ∷ semicolon ∷ []) a_b_c (equivalence (equivalence first second) third) }
    // a U b R c
    ensures until_to_the_right { Reads (a ∷ U ∷ b ∷ R ∷ c ∷ semicolon ∷ []) a_b_c (until first (release second third)) }
    // a & b & c
    ensures one_list { Reads (a ∷ and ∷ b ∷ and ∷ c ∷ semicolon ∷ []) a_b_c (conjunction (three first second third)) }
    // a | b | c
    ensures one_disjunction { Reads (a ∷ or ∷ b ∷ or ∷ c ∷ semicolon ∷ []) a_b_c (disjunction (three first second third)) }
    // a | b & c
    ensures and_before_or { Reads (a ∷ or ∷ b ∷ and ∷ c ∷ semicolon ∷ []) a_b_c (disjunction (two first (conjunction (two second third)))) }
    // a & b | c
    ensures and_before_or_behind { Reads (a ∷ and ∷ b ∷ or ∷ c ∷ semicolon ∷ []) a_b_c (disjunction (two (conjunction (two first second)) third)) }
    // a => b | c
    ensures or_before_implication { Reads (a ∷ implies ∷ b ∷ or ∷ c ∷ semicolon ∷ []) a_b_c (implication first (disjunction (two second third))) }
    // a <=> b => c
    ensures implication_before_equivalence { Reads (a ∷ iff ∷ b ∷ implies ∷ c ∷ semicolon ∷ []) a_b_c (equivalence first (implication second third)) }
    // a & b U c
    ensures until_before_and { Reads (a ∷ and ∷ b ∷ U ∷ c ∷ semicolon ∷ []) a_b_c (conjunction (two first (until second third))) }
    // ~a U b
    ensures negated_left { Reads (negated ∷ a ∷ U ∷ b ∷ semicolon ∷ []) a_b (until (negation first) second) }
    // X a & b
    ensures next_operand { Reads (X ∷ a ∷ and ∷ b ∷ semicolon ∷ []) a_b (conjunction (two (next first) second)) }
    // G ~F WX a
    ensures one_behind_the_other { Reads (G ∷ negated ∷ F ∷ WX ∷ a ∷ semicolon ∷ []) only_a (always (negation (eventually (weak_next first)))) }
    // (a & b) & c
    ensures brackets_are_a_node { Reads (open_bracket ∷ a ∷ and ∷ b ∷ close_bracket ∷ and ∷ c ∷ semicolon ∷ []) a_b_c (conjunction (two (brackets (conjunction (two first second))) third)) }
    // true => false
    ensures words { Reads (word_true ∷ implies ∷ word_false ∷ semicolon ∷ []) [] (implication truth falsity) }
{}

/// The symbols of tokens, and the numbers of propositions.
pub fn worked_names()
    ensures next { symbol_of Kind.Name (codes "X") ≡ X }
    ensures weak_next { symbol_of Kind.Name (codes "WX") ≡ WX }
    ensures eventually { symbol_of Kind.Name (codes "F") ≡ F }
    ensures always { symbol_of Kind.Name (codes "G") ≡ G }
    ensures until { symbol_of Kind.Name (codes "U") ≡ U }
    ensures release { symbol_of Kind.Name (codes "R") ≡ R }
    ensures longer { symbol_of Kind.Name (codes "XX") ≡ name (codes "XX") }
    ensures small { symbol_of Kind.Name (codes "u") ≡ name (codes "u") }
    ensures left_out { symbol_of Kind.LeftOut (codes "tree") ≡ other }
    ensures word { symbol_of (Kind.Word Keyword.Ex1) (codes "ex1") ≡ other }
    // b & a & b
    ensures first_sight { first_sights (b ∷ and ∷ a ∷ and ∷ b ∷ semicolon ∷ []) ≡ codes "b" ∷ codes "a" ∷ [] }
    ensures numbered { Reads (b ∷ and ∷ a ∷ and ∷ b ∷ semicolon ∷ []) (codes "b" ∷ codes "a" ∷ []) (conjunction (three first second first)) }
    ensures only_so { (f : Temporal) → ¬ (Reads (b ∷ and ∷ a ∷ and ∷ b ∷ semicolon ∷ []) a_b f) }
    ensures of_a_text { symbols (text (codes "a U b;") (token_at Kind.Name 0 1 ∷ token_at Kind.Name 2 1 ∷ token_at Kind.Name 4 1 ∷ token_at (Kind.Mark Mark.Semicolon) 5 1 ∷ [])) ≡ a ∷ U ∷ b ∷ semicolon ∷ [] }
{}

/// The places of names, and what is held for each.
pub fn worked_places()
    ensures place { place a_b (codes "b") ≡ 1 }
    ensures not_among { place a_b (codes "c") ≡ 2 }
    ensures seen { with_name a_b (codes "a") ≡ a_b }
    ensures new { with_name a_b (codes "c") ≡ a_b_c }
    ensures name { with_sight a_b c ≡ a_b_c }
    ensures no_name { with_sight a_b U ≡ a_b }
    ensures all { with_sights only_a (b ∷ and ∷ a ∷ and ∷ c ∷ []) ≡ a_b_c }
    ensures held { place_among a_b (codes "b") ≡ Some 1 }
    ensures not_held { place_among a_b (codes "c") ≡ None }
    ensures table { IsTable (place_among a_b) a_b }
    ensures nothing_held { ¬ (IsTable (λ n. None) a_b) }
{}

/// Levels of formulas, and which formulas are grammatical.
pub fn worked_levels()
    ensures implication { level (implication first second) ≡ 1 }
    ensures disjunction { level (disjunction (two first second)) ≡ 2 }
    ensures until { level (until first second) ≡ 4 }
    ensures negation { level (negation first) ≡ 5 }
    ensures brackets { level (brackets (implication first second)) ≡ 6 }
    ensures left_of_implication { left_level Binary.Implication ≡ 2 }
    ensures right_of_implication { right_level Binary.Implication ≡ 1 }
    ensures left_of_equivalence { left_level Binary.Equivalence ≡ 0 }
    ensures right_of_equivalence { right_level Binary.Equivalence ≡ 1 }

    // a => b => c, and with a bracket or none around a => b
    ensures to_the_right { IsGrammatical (implication first (implication second third)) }
    ensures not_to_the_left { ¬ IsGrammatical (implication (implication first second) third) }
    ensures brackets_on_the_left { IsGrammatical (implication (brackets (implication first second)) third) }
    // a & b & c is one list
    ensures list { IsGrammatical (conjunction (three first second third)) }
    ensures list_in_a_list { ¬ IsGrammatical (conjunction (two (conjunction (two first second)) third)) }
    ensures one_operand { ¬ IsGrammatical (conjunction (more_temporals first no_temporals)) }
    ensures two_operands { HasTwo (two first second) }
    ensures no_second { ¬ HasTwo (more_temporals first no_temporals) }
    ensures tight_operands { AreOperands 4 (two first (until second third)) }
    ensures loose_operand { ¬ AreOperands 4 (two first (disjunction (two second third))) }
    // ~a U b
    ensures negated_left { IsGrammatical (until (negation first) second) }
    ensures negated_until { ¬ IsGrammatical (negation (until first second)) }
    ensures spelled { spelled a_b (until (negation first) second) ≡ negated ∷ a ∷ U ∷ b ∷ [] }
    ensures spelled_list { spelled a_b_c (disjunction (three first second third)) ≡ a ∷ or ∷ b ∷ or ∷ c ∷ [] }
{}

/// What the machine does with single symbols, and the states behind rows of them.
pub fn worked_steps()
    ensures operator_before { prefixed Prefix.Next first ≡ next first }
    ensures operator_between { binary Binary.Release first second ≡ release first second }
    ensures operator_of_a_list { joined Junction.Disjunction (first ∷ second ∷ []) ≡ disjunction (two first second) }
    ensures leaf { leaf first wanted ≡ Some (holding first) }
    ensures no_leaf { leaf first (holding second) ≡ None }
    ensures opened { opened frames.in_brackets wanted ≡ Some frames.in_brackets }
    ensures not_opened { opened frames.in_brackets (holding first) ≡ None }
    ensures operand { operand (holding first) ≡ Some first }
    ensures no_operand { operand wanted ≡ None }
    ensures completed { completed wanted ≡ truth }
    ensures itself { completed (holding first) ≡ first }
    // a U b
    ensures whole { reached (a ∷ U ∷ b ∷ semicolon ∷ []) ≡ done (until first second) }
    ensures begun { shortest (reached (a ∷ U ∷ [])) ≡ until first truth }
    ensures stops { reached (a ∷ b ∷ []) ≡ stopped }
    ensures symbol { symbol_with Terminal.Name (codes "a") ≡ a }
    ensures no_name { symbol_with Terminal.Open (codes "a") ≡ open_bracket }
    // `a b;`
    ensures stops_at { StopsAt (text (codes "a b;") (token_at Kind.Name 0 1 ∷ token_at Kind.Name 2 1 ∷ token_at (Kind.Mark Mark.Semicolon) 3 1 ∷ [])) 1 Stop.Misplaced }
    ensures stops_later { ¬ (StopsAt (text (codes "a b;") (token_at Kind.Name 0 1 ∷ token_at Kind.Name 2 1 ∷ token_at (Kind.Mark Mark.Semicolon) 3 1 ∷ [])) 0 Stop.Misplaced) }
{}

/// Brackets up to the greatest depth, and beyond.
pub fn worked_depths()
    ensures deepest { Reads (bracketed 299) only_a (in_brackets 299) }
    ensures too_deep { (names : Names) (f : Temporal) → ¬ (Reads (bracketed 300) names f) }
{}

/// Rows of symbols that read as no formula.
pub fn worked_rows()
    ensures nothing { (names : Names) (f : Temporal) → ¬ (Reads [] names f) }
    ensures no_semicolon { (names : Names) (f : Temporal) → ¬ (Reads (a ∷ []) names f) }
    ensures only_semicolon { (names : Names) (f : Temporal) → ¬ (Reads (semicolon ∷ []) names f) }
    ensures behind_the_semicolon { (names : Names) (f : Temporal) → ¬ (Reads (a ∷ semicolon ∷ b ∷ semicolon ∷ []) names f) }
    ensures two_semicolons { (names : Names) (f : Temporal) → ¬ (Reads (a ∷ semicolon ∷ semicolon ∷ []) names f) }
    ensures two_operands { (names : Names) (f : Temporal) → ¬ (Reads (a ∷ b ∷ semicolon ∷ []) names f) }
    ensures no_right_operand { (names : Names) (f : Temporal) → ¬ (Reads (a ∷ U ∷ semicolon ∷ []) names f) }
    ensures no_left_operand { (names : Names) (f : Temporal) → ¬ (Reads (and ∷ a ∷ semicolon ∷ []) names f) }
    ensures open_bracket_left { (names : Names) (f : Temporal) → ¬ (Reads (open_bracket ∷ a ∷ semicolon ∷ []) names f) }
    ensures bracket_too_many { (names : Names) (f : Temporal) → ¬ (Reads (a ∷ close_bracket ∷ semicolon ∷ []) names f) }
    ensures empty_brackets { (names : Names) (f : Temporal) → ¬ (Reads (open_bracket ∷ close_bracket ∷ semicolon ∷ []) names f) }
    ensures no_symbol { (names : Names) (f : Temporal) → ¬ (Reads (other ∷ semicolon ∷ []) names f) }
{}

/// What can follow rows of symbols, and what cannot.
pub fn worked_continuations()
    ensures at_the_beginning { CanFollow [] }
    ensures behind_an_operator { CanFollow (a ∷ U ∷ []) }
    ensures operator_behind_an_operator { ¬ (CanFollowAtAnyDepth (a ∷ U ∷ R ∷ [])) }
    ensures until_behind_until { CanFollow (a ∷ U ∷ b ∷ R ∷ []) }
    ensures without_semicolon { CanFollow (word_true ∷ []) }
    ensures at_the_end { CanFollow (a ∷ semicolon ∷ []) }
    ensures behind_the_end { ¬ (CanFollowAtAnyDepth (a ∷ semicolon ∷ a ∷ [])) }
    ensures in_brackets { CanFollow (open_bracket ∷ a ∷ and ∷ []) }
    ensures end_in_brackets { ¬ (CanFollowAtAnyDepth (open_bracket ∷ a ∷ semicolon ∷ [])) }
    ensures no_symbol { ¬ (CanFollowAtAnyDepth (other ∷ [])) }
    ensures deepest_bracket { CanFollow (repeated 299 open_bracket []) }
    ensures bracket_too_deep { ¬ (CanFollow (repeated 300 open_bracket [])) }
    ensures bracket_at_any_depth { CanFollowAtAnyDepth (repeated 300 open_bracket []) }
    ensures operand_at_the_depth { CanFollow (repeated 299 open_bracket (a ∷ [])) }
    ensures operator_too_deep { ¬ (CanFollow (repeated 299 open_bracket (a ∷ U ∷ []))) }
    ensures operator_at_any_depth { CanFollowAtAnyDepth (repeated 299 open_bracket (a ∷ U ∷ [])) }
    ensures deep_on_the_left { CanFollow (a ∷ U ∷ repeated 298 open_bracket []) }
    ensures deeper_on_the_left { ¬ (CanFollow (a ∷ U ∷ repeated 299 open_bracket [])) }
{}

/// Texts that are refused, and the places that the refusals name.
pub fn worked_refusals()
    // `a b;`
    ensures second_operand { IsTraceFault 7 (text (codes "a b;") (token_at Kind.Name 0 1 ∷ token_at Kind.Name 2 1 ∷ token_at (Kind.Mark Mark.Semicolon) 3 1 ∷ []))
        (Refusal.Grammar (record { file = 7; place = 2 })) }
    // `a;b`
    ensures behind_the_semicolon { IsTraceFault 0 (text (codes "a;b") (token_at Kind.Name 0 1 ∷ token_at (Kind.Mark Mark.Semicolon) 1 1 ∷ token_at Kind.Name 2 1 ∷ []))
        (Refusal.Grammar (record { file = 0; place = 2 })) }
    // `tree;`
    ensures word_left_out { IsTraceFault 0 (text (codes "tree;") (token_at Kind.LeftOut 0 4 ∷ token_at (Kind.Mark Mark.Semicolon) 4 1 ∷ []))
        (Refusal.Grammar (record { file = 0; place = 0 })) }
    // `a U `
    ensures ends_early { IsTraceFault 0 (text (codes "a U ") (token_at Kind.Name 0 1 ∷ token_at Kind.Name 2 1 ∷ []))
        (Refusal.Grammar (record { file = 0; place = 4 })) }
    // 300 times `(`
    ensures too_deep { IsTraceFault 0 (open_brackets 300) (Refusal.Depth (record { file = 0; place = 299 })) }
    // `a;`
    ensures reads { ReadsAsTrace (text (codes "a;") (token_at Kind.Name 0 1 ∷ token_at (Kind.Mark Mark.Semicolon) 1 1 ∷ [])) (record { names = only_a; formula = Ltl.Prop 0 }) }
    ensures other_name { ¬ (ReadsAsTrace (text (codes "a;") (token_at Kind.Name 0 1 ∷ token_at (Kind.Mark Mark.Semicolon) 1 1 ∷ [])) (record { names = codes "b" ∷ []; formula = Ltl.Prop 0 })) }
    ensures no_fault { ¬ (IsTraceFault 0 (text (codes "a;") (token_at Kind.Name 0 1 ∷ token_at (Kind.Mark Mark.Semicolon) 1 1 ∷ [])) (Refusal.Grammar (record { file = 0; place = 0 }))) }
    // nothing
    ensures other_place { ¬ (IsTraceFault 0 (text [] []) (Refusal.Grammar (record { file = 0; place = 1 }))) }
    ensures empty { IsTraceFault 0 (text [] []) (Refusal.Grammar (record { file = 0; place = 0 })) }
{}

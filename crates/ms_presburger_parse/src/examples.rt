//! The definitions at small cases, worked out by hand. Each function has an empty body, and its contract is the table of its
//! examples.

ghost use Rattle.std.specs.Prelude.{◌≡◌, [], ◌∷◌, ◌++◌, codes, false, true, Some, None, Ok, Err};
ghost use Rattle.ms_logic.specs.declared.mode.Quant.TheVariants.{Ex, All};
ghost use Rattle.ms_logic.specs.declared.mode.Rel.TheVariants as relations;
ghost use Rattle.ms_text.specs.TokenList.{token_at};
ghost use Rattle.ms_presburger.specs.declared.linear.Part.TheVariants.{Number, Var, Times};
ghost use Rattle.ms_presburger.specs.Tree.{Arithmetic, truth, falsity, comparison, brackets, negation, conjunction, disjunction, implication, equivalence, quantified, free_names, no_arithmetics, more_arithmetics};
ghost use Rattle.ms_presburger_parse.specs.Grammar.{AreOperands, HasOne, HasTwo, IsClosedBefore, IsGrammatical, compares, ends_open, last_ends_open, left_level, level, right_level, spelled, spelled_names, spelled_sum};
ghost use Rattle.ms_presburger_parse.specs.Reading.{CanFollow, CanFollowAtAnyDepth, Reads, ReadsAsProblem};
ghost use Rattle.ms_presburger_parse.specs.Refused.{IsProblemFault};
ghost use Rattle.ms_presburger_parse.specs.Symbol.{name, number, word_true, word_false, quantifier, negation_sign, relation, plus, comma, colon, open_bracket, close_bracket, semicolon, other, symbol_of, symbols};
ghost use Rattle.ms_parse_stack.specs.inner.Examples.{repeated, behind_brackets, text};
ghost use Rattle.ms_presburger_parse.specs.inner.Examples.{a, b, c, x, y, z, ex, all, implies, iff, and, or, equals, less, first, second, third, same, two, three, bracketed, in_brackets};
ghost use Rattle.ms_presburger_parse.specs.inner.Gathering.{count_of, free_among, is_among, or_unknown, with_names};
ghost use Rattle.ms_presburger_parse.specs.inner.Machine as machines;
ghost use Rattle.ms_presburger_parse.specs.inner.Machine.{added, adding, completed, named, naming, on_left, on_right, opening, operand, prefix_operand, shortest, with_comma, with_leaf, with_name, with_number, with_plus, with_quantifier, with_relation};
ghost use Rattle.ms_presburger_parse.specs.inner.Reached.{reached};
ghost use Rattle.ms_presburger_parse.specs.inner.States.{BecomesTwo, HasOperand, KeepsDepth, MovesTo, place_of, side_of};
ghost use Rattle.ms_presburger_parse.specs.inner.Terminals.{symbol_with};
ghost use Rattle.ms_parse_stack.specs.inner.Frames as frames;
ghost use Rattle.ms_parse_stack.specs.inner.Machine.{done, stopped};

use crate::operator::{Binary, Prefix};
use crate::place::{Place, Side};
use crate::terminal::Terminal;
use ms_edge::Refusal;
use ms_logic::Rel;
use ms_parse_stack::Stop;
use ms_presburger::{Linear, Part};
use ms_text::{Keyword, Kind, Mark};

/// Rows of symbols and their formulas: how operators group. `A`, `B` and `C` stand for `x = 1`, `y = 2` and `z = 3`.
pub fn worked_operators()
    // A => B => C
    ensures implication_to_the_right { Reads (a ++ implies ∷ b ++ implies ∷ c ++ semicolon ∷ []) (implication first (implication second third)) }
    // A <=> B <=> C
    ensures equivalence_to_the_left { Reads (a ++ iff ∷ b ++ iff ∷ c ++ semicolon ∷ []) (equivalence (equivalence first second) third) }
    // A & B & C
    ensures one_list { Reads (a ++ and ∷ b ++ and ∷ c ++ semicolon ∷ []) (conjunction (three first second third)) }
    // A | B | C
    ensures one_disjunction { Reads (a ++ or ∷ b ++ or ∷ c ++ semicolon ∷ []) (disjunction (three first second third)) }
    // A | B & C
    ensures and_before_or { Reads (a ++ or ∷ b ++ and ∷ c ++ semicolon ∷ []) (disjunction (two first (conjunction (two second third)))) }
    // A & B | C
    ensures and_before_or_behind { Reads (a ++ and ∷ b ++ or ∷ c ++ semicolon ∷ []) (disjunction (two (conjunction (two first second)) third)) }
    // A => B | C
    ensures or_before_implication { Reads (a ++ implies ∷ b ++ or ∷ c ++ semicolon ∷ []) (implication first (disjunction (two second third))) }
    // A <=> B => C
    ensures implication_before_equivalence { Reads (a ++ iff ∷ b ++ implies ∷ c ++ semicolon ∷ []) (equivalence first (implication second third)) }
    // ~A & B
    ensures negation_before_and { Reads (negation_sign ∷ a ++ and ∷ b ++ semicolon ∷ []) (conjunction (two (negation first) second)) }
    // (A & B) & C
    ensures brackets_are_a_node { Reads (open_bracket ∷ a ++ and ∷ b ++ close_bracket ∷ and ∷ c ++ semicolon ∷ []) (conjunction (two (brackets (conjunction (two first second))) third)) }
    // true => ~~false
    ensures words { Reads (word_true ∷ implies ∷ negation_sign ∷ negation_sign ∷ word_false ∷ semicolon ∷ []) (implication truth (negation (negation falsity))) }
    // 2 x + y < 7 + z
    ensures sums { Reads (number 2 ∷ name x ∷ plus ∷ name y ∷ less ∷ number 7 ∷ plus ∷ name z ∷ semicolon ∷ []) (comparison relations.Less (Times 2 x ∷ Var y ∷ []) (Number 7 ∷ Var z ∷ [])) }
    // x = 5 x
    ensures number_times_name { Reads (name x ∷ equals ∷ number 5 ∷ name x ∷ semicolon ∷ []) (comparison relations.Equal (Var x ∷ []) (Times 5 x ∷ [])) }
{}

/// How far the body of a quantifier reaches.
pub fn worked_quantifiers()
    // ex x: A | B
    ensures to_the_end { Reads (ex ∷ name x ∷ colon ∷ a ++ or ∷ b ++ semicolon ∷ []) (quantified Ex (x ∷ []) (disjunction (two first second))) }
    // all x, y: A <=> B
    ensures loosest { Reads (all ∷ name x ∷ comma ∷ name y ∷ colon ∷ a ++ iff ∷ b ++ semicolon ∷ []) (quantified All (x ∷ y ∷ []) (equivalence first second)) }
    // ~ex x: A & B
    ensures negated { Reads (negation_sign ∷ ex ∷ name x ∷ colon ∷ a ++ and ∷ b ++ semicolon ∷ []) (negation (quantified Ex (x ∷ []) (conjunction (two first second)))) }
    // A & ex x: B & C
    ensures right_operand { Reads (a ++ and ∷ ex ∷ name x ∷ colon ∷ b ++ and ∷ c ++ semicolon ∷ []) (conjunction (two first (quantified Ex (x ∷ []) (conjunction (two second third))))) }
    // A => all x: B <=> C
    ensures looser_in_the_body { Reads (a ++ implies ∷ all ∷ name x ∷ colon ∷ b ++ iff ∷ c ++ semicolon ∷ []) (implication first (quantified All (x ∷ []) (equivalence second third))) }
    // (ex x: A) & B
    ensures in_brackets { Reads (open_bracket ∷ ex ∷ name x ∷ colon ∷ a ++ close_bracket ∷ and ∷ b ++ semicolon ∷ []) (conjunction (two (brackets (quantified Ex (x ∷ []) first)) second)) }
    // ex x, x: A
    ensures twice { Reads (ex ∷ name x ∷ comma ∷ name x ∷ colon ∷ a ++ semicolon ∷ []) (quantified Ex (x ∷ x ∷ []) first) }
    // ex x: A & B, which is no conjunction
    ensures no_left_operand { ¬ (Reads (ex ∷ name x ∷ colon ∷ a ++ and ∷ b ++ semicolon ∷ []) (conjunction (two (quantified Ex (x ∷ []) first) second))) }
    // A & ex x: B | C, which is no disjunction
    ensures no_left_operand_behind { ¬ (Reads (a ++ and ∷ ex ∷ name x ∷ colon ∷ b ++ or ∷ c ++ semicolon ∷ []) (disjunction (two (conjunction (two first (quantified Ex (x ∷ []) second))) third))) }
{}

/// Free names: each once, by its first free place, and none that is bound there.
pub fn worked_scopes()
    // ex x: x = y & (all y: y = z)
    ensures inner_name_hides { free_names (quantified Ex (x ∷ []) (conjunction (two (same x y) (brackets (quantified All (y ∷ []) (same y z)))))) ≡ y ∷ z ∷ [] }
    // (ex x: x = y) & x = z
    ensures behind_the_body { free_names (conjunction (two (brackets (quantified Ex (x ∷ []) (same x y))) (same x z))) ≡ y ∷ x ∷ z ∷ [] }
    // y = x & x = y
    ensures first_places { free_names (conjunction (two (same y x) (same x y))) ≡ y ∷ x ∷ [] }
    // ex x, y: x = y
    ensures none { free_names (quantified Ex (x ∷ y ∷ []) (same x y)) ≡ [] }
    // 0 x = 1
    ensures times_nothing { free_names (comparison relations.Equal (Times 0 x ∷ []) (Number 1 ∷ [])) ≡ x ∷ [] }
    // `y = 5 x;`
    ensures of_a_text { ReadsAsProblem (text (codes "y = 5 x;") (token_at Kind.Name 0 1 ∷ token_at (Kind.Mark Mark.Equal) 2 1 ∷ token_at (Kind.Number 5) 4 1 ∷ token_at Kind.Name 6 1 ∷ token_at (Kind.Mark Mark.Semicolon) 7 1 ∷ []))
        (record { names = y ∷ x ∷ []; formula = Linear.Compare Rel.Equal (Part.Var y ∷ []) (Part.Times 5 x ∷ []) }) }
    ensures only_so { ¬ (ReadsAsProblem (text (codes "y = 5 x;") (token_at Kind.Name 0 1 ∷ token_at (Kind.Mark Mark.Equal) 2 1 ∷ token_at (Kind.Number 5) 4 1 ∷ token_at Kind.Name 6 1 ∷ token_at (Kind.Mark Mark.Semicolon) 7 1 ∷ []))
        (record { names = x ∷ y ∷ []; formula = Linear.Compare Rel.Equal (Part.Var y ∷ []) (Part.Times 5 x ∷ []) })) }
{}

/// The symbols of tokens.
pub fn worked_symbols()
    ensures some { symbol_of Kind.Name (codes "ex") ≡ ex }
    ensures every { symbol_of Kind.Name (codes "all") ≡ all }
    ensures longer { symbol_of Kind.Name (codes "exx") ≡ name (codes "exx") }
    ensures large { symbol_of Kind.Name (codes "Ex") ≡ name (codes "Ex") }
    ensures left_out { symbol_of Kind.LeftOut (codes "tree") ≡ other }
    ensures word { symbol_of (Kind.Word Keyword.Ex1) (codes "ex1") ≡ other }
    ensures value { symbol_of (Kind.Number 12) (codes "012") ≡ number 12 }
    ensures differs { symbol_of (Kind.Mark Mark.NotEqual) (codes "~=") ≡ relation relations.Differs }
    ensures at_most { symbol_of (Kind.Mark Mark.LessEqual) (codes "<=") ≡ relation relations.AtMost }
    ensures at_least { symbol_of (Kind.Mark Mark.GreaterEqual) (codes ">=") ≡ relation relations.AtLeast }
    ensures greater { symbol_of (Kind.Mark Mark.Greater) (codes ">") ≡ relation relations.Greater }
    ensures minus { symbol_of (Kind.Mark Mark.Minus) (codes "-") ≡ other }
    ensures of_a_text { symbols (text (codes "ex x: x<3;") (token_at Kind.Name 0 2 ∷ token_at Kind.Name 3 1 ∷ token_at (Kind.Mark Mark.Colon) 4 1 ∷ token_at Kind.Name 6 1 ∷ token_at (Kind.Mark Mark.Less) 7 1 ∷ token_at (Kind.Number 3) 8 1 ∷ token_at (Kind.Mark Mark.Semicolon) 9 1 ∷ []))
        ≡ ex ∷ name x ∷ colon ∷ name x ∷ less ∷ number 3 ∷ semicolon ∷ [] }
{}

/// Levels of formulas, which formulas end in an open body, and which are grammatical.
pub fn worked_levels()
    ensures equivalence { level (equivalence first second) ≡ 1 }
    ensures disjunction { level (disjunction (two first second)) ≡ 3 }
    ensures quantified { level (quantified Ex (x ∷ []) first) ≡ 5 }
    ensures comparison { level first ≡ 6 }
    ensures left_of_implication { left_level Binary.Implication ≡ 3 }
    ensures right_of_implication { right_level Binary.Implication ≡ 2 }
    ensures at_least { compares Rel.AtLeast ≡ true }
    ensures subset { compares Rel.Sub ≡ false }

    // ~ex x: A, (ex x: A), and A & ex x: B
    ensures open_body { ends_open (negation (quantified Ex (x ∷ []) first)) ≡ true }
    ensures body_in_brackets { ends_open (brackets (quantified Ex (x ∷ []) first)) ≡ false }
    ensures open_on_the_right { ends_open (conjunction (two first (quantified Ex (x ∷ []) second))) ≡ true }
    ensures open_on_the_left { last_ends_open (two (quantified Ex (x ∷ []) first) second) ≡ false }
    ensures closed_before_others { IsClosedBefore (more_arithmetics second no_arithmetics) first }
    ensures open_before_others { ¬ IsClosedBefore (more_arithmetics second no_arithmetics) (quantified Ex (x ∷ []) first) }
    ensures open_at_the_end { IsClosedBefore no_arithmetics (quantified Ex (x ∷ []) first) }

    ensures right_body { IsGrammatical (implication first (quantified Ex (x ∷ []) second)) }
    ensures left_body { ¬ IsGrammatical (implication (quantified Ex (x ∷ []) first) second) }
    ensures loose_body { IsGrammatical (quantified Ex (x ∷ []) (equivalence first second)) }
    ensures no_names { ¬ IsGrammatical (quantified Ex [] first) }
    ensures no_left_sum { ¬ IsGrammatical (comparison relations.Equal [] (Number 1 ∷ [])) }
    ensures relation_of_sets { ¬ IsGrammatical (comparison relations.Sub (Var x ∷ []) (Var y ∷ [])) }
    ensures some_item { HasOne (x ∷ []) }
    ensures two_operands { HasTwo (two first second) }
    ensures one_operand { ¬ HasTwo (more_arithmetics first no_arithmetics) }
    ensures tight_operands { AreOperands 4 (two first (conjunction (two second third))) }
    ensures loose_operand { ¬ AreOperands 4 (two first (disjunction (two second third))) }
    ensures open_operand { ¬ AreOperands 4 (two (quantified Ex (x ∷ []) first) second) }

    // 2 x + y, and x, y
    ensures sum { spelled_sum (Times 2 x ∷ Var y ∷ []) ≡ number 2 ∷ name x ∷ plus ∷ name y ∷ [] }
    ensures names { spelled_names (x ∷ y ∷ []) ≡ name x ∷ comma ∷ name y ∷ [] }
    ensures body { spelled (quantified All (x ∷ []) first) ≡ all ∷ name x ∷ colon ∷ a }
{}

/// What the machine does with single symbols, and the states behind rows of them.
pub fn worked_steps()
    ensures body_of_a_quantifier { prefix_operand (Prefix.Quantifier Ex (x ∷ [])) ≡ 0 }
    ensures operand_of_a_negation { prefix_operand Prefix.Negation ≡ 5 }
    ensures number { with_number 5 machines.wanted ≡ Some (added on_left [] (Number 5)) }
    ensures second_number { with_number 5 (added on_left [] (Number 5)) ≡ None }
    ensures number_times_name { with_name x (added on_left [] (Number 5)) ≡ Some (added on_left [] (Times 5 x)) }
    ensures name_times_name { with_name x (added on_left [] (Var y)) ≡ None }
    ensures bound_name { with_name x (naming Ex []) ≡ Some (named Ex (x ∷ [])) }
    ensures plus { with_plus (added on_left [] (Var x)) ≡ Some (adding on_left (Var x ∷ [])) }
    ensures two_signs { with_plus (adding on_left (Var x ∷ [])) ≡ None }
    ensures relation { with_relation relations.Less (added on_left [] (Var x)) ≡ Some (adding (on_right relations.Less (Var x ∷ [])) []) }
    ensures second_relation { with_relation relations.Less (added (on_right relations.Less (Var x ∷ [])) [] (Var y)) ≡ None }
    ensures relation_of_sets { with_relation relations.Sub (added on_left [] (Var x)) ≡ None }
    ensures quantifier { with_quantifier Ex machines.wanted ≡ Some (naming Ex []) }
    ensures no_quantifier { with_quantifier Ex (naming All []) ≡ None }
    ensures comma { with_comma (named Ex (x ∷ [])) ≡ Some (naming Ex (x ∷ [])) }
    ensures no_comma { with_comma (naming Ex (x ∷ [])) ≡ None }
    ensures leaf { with_leaf truth machines.wanted ≡ Some (machines.holding truth) }
    ensures no_leaf { with_leaf truth (machines.holding truth) ≡ None }
    ensures opening { opening frames.in_brackets machines.wanted ≡ Some frames.in_brackets }
    ensures not_opening { opening frames.in_brackets (machines.holding truth) ≡ None }
    ensures body { machines.body (named Ex (x ∷ [])) ≡ Some (frames.behind_prefix (Prefix.Quantifier Ex (x ∷ []))) }
    ensures no_body { machines.body (naming Ex (x ∷ [])) ≡ None }
    ensures operand { operand (added (on_right relations.Equal (Var x ∷ [])) [] (Number 1)) ≡ Some first }
    ensures no_operand { operand (added on_left [] (Var x)) ≡ None }

    // the shortest formulas that go on so
    ensures completed_name { completed (naming Ex []) ≡ quantified Ex (x ∷ []) truth }
    ensures completed_sum { completed (adding on_left (Var x ∷ [])) ≡ comparison relations.Equal (Var x ∷ Number 0 ∷ []) (Number 0 ∷ []) }
    ensures becomes_two { BecomesTwo (with_number 5) }
    ensures leaf_is_less { ¬ BecomesTwo (with_leaf truth) }
    ensures keeps_depth { KeepsDepth with_plus }
    ensures number_is_deeper { ¬ KeepsDepth (with_number 5) }

    // x = 1
    ensures whole { reached (a ++ semicolon ∷ []) ≡ done first }
    ensures begun { shortest (reached (name x ∷ equals ∷ [])) ≡ comparison relations.Equal (Var x ∷ []) (Number 0 ∷ []) }
    ensures stops { reached (name x ∷ name y ∷ []) ≡ stopped }
    ensures symbol { symbol_with Terminal.Name x ≡ name x }
    ensures no_name { symbol_with Terminal.Colon x ≡ colon }

    // what the code's places stand for
    ensures place { place_of (Place.Naming Ex (x ∷ [])) ≡ naming Ex (x ∷ []) }
    ensures side { side_of (Side.Right Rel.Less (Var x ∷ [])) ≡ on_right relations.Less (Var x ∷ []) }
    ensures moves { MovesTo (with_comma (named Ex (x ∷ []))) (Ok (Place.Naming Ex (x ∷ []))) }
    ensures moves_elsewhere { ¬ MovesTo (with_comma (named Ex (x ∷ []))) (Ok Place.Wanted) }
    ensures does_not_move { MovesTo (with_comma machines.wanted) (Err Stop.Misplaced) }
    ensures moves_after_all { ¬ MovesTo (with_comma (named Ex (x ∷ []))) (Err Stop.Misplaced) }
    ensures has_none { HasOperand (operand machines.wanted) (Err Stop.Misplaced) }
    ensures has_one { ¬ HasOperand (operand (machines.holding truth)) (Err Stop.Misplaced) }
{}

/// What is gathered of free names.
pub fn worked_names()
    ensures count { count_of (x ∷ y ∷ x ∷ []) x ≡ 2 }
    ensures no_count { count_of (x ∷ y ∷ x ∷ []) z ≡ 0 }
    ensures among { is_among (x ∷ y ∷ []) y ≡ true }
    ensures not_among { is_among (x ∷ y ∷ []) z ≡ false }
    ensures seen { with_names (x ∷ []) (y ∷ x ∷ y ∷ []) ≡ x ∷ y ∷ [] }
    ensures free { free_among (λ n. count_of (y ∷ []) n) (x ∷ y ∷ z ∷ []) ≡ x ∷ z ∷ [] }
    ensures unknown { or_unknown None ≡ record { bound = 0; noted = false } }
{}

/// Brackets up to the greatest depth, and beyond.
pub fn worked_depths()
    ensures deepest_comparison { Reads (bracketed 298 a) (in_brackets 298 first) }
    ensures comparison_too_deep { (f : Arithmetic) → ¬ (Reads (bracketed 299 a) f) }
    ensures deepest_word { Reads (bracketed 299 (word_true ∷ [])) (in_brackets 299 truth) }
    ensures word_too_deep { (f : Arithmetic) → ¬ (Reads (bracketed 300 (word_true ∷ [])) f) }
{}

/// Rows of symbols that read as no formula.
pub fn worked_rows()
    ensures nothing { (f : Arithmetic) → ¬ (Reads [] f) }
    ensures no_semicolon { (f : Arithmetic) → ¬ (Reads (word_true ∷ []) f) }
    ensures only_semicolon { (f : Arithmetic) → ¬ (Reads (semicolon ∷ []) f) }
    ensures behind_the_semicolon { (f : Arithmetic) → ¬ (Reads (word_true ∷ semicolon ∷ word_true ∷ semicolon ∷ []) f) }
    ensures two_semicolons { (f : Arithmetic) → ¬ (Reads (word_true ∷ semicolon ∷ semicolon ∷ []) f) }
    ensures only_a_sum { (f : Arithmetic) → ¬ (Reads (name x ∷ plus ∷ name y ∷ semicolon ∷ []) f) }
    ensures no_right_sum { (f : Arithmetic) → ¬ (Reads (name x ∷ equals ∷ semicolon ∷ []) f) }
    ensures no_left_sum { (f : Arithmetic) → ¬ (Reads (equals ∷ name x ∷ semicolon ∷ []) f) }
    ensures two_relations { (f : Arithmetic) → ¬ (Reads (name x ∷ equals ∷ name y ∷ equals ∷ name z ∷ semicolon ∷ []) f) }
    ensures sum_in_brackets { (f : Arithmetic) → ¬ (Reads (open_bracket ∷ name x ∷ close_bracket ∷ equals ∷ name y ∷ semicolon ∷ []) f) }
    ensures two_numbers { (f : Arithmetic) → ¬ (Reads (number 5 ∷ number 5 ∷ equals ∷ name x ∷ semicolon ∷ []) f) }
    ensures name_before_number { (f : Arithmetic) → ¬ (Reads (name x ∷ number 5 ∷ equals ∷ name y ∷ semicolon ∷ []) f) }
    ensures relation_of_sets { (f : Arithmetic) → ¬ (Reads (name x ∷ relation relations.Sub ∷ name y ∷ semicolon ∷ []) f) }
    ensures two_formulas { (f : Arithmetic) → ¬ (Reads (word_true ∷ word_true ∷ semicolon ∷ []) f) }
    ensures no_left_operand { (f : Arithmetic) → ¬ (Reads (and ∷ word_true ∷ semicolon ∷ []) f) }
    ensures open_bracket_left { (f : Arithmetic) → ¬ (Reads (open_bracket ∷ word_true ∷ semicolon ∷ []) f) }
    ensures bracket_too_many { (f : Arithmetic) → ¬ (Reads (word_true ∷ close_bracket ∷ semicolon ∷ []) f) }
    ensures empty_brackets { (f : Arithmetic) → ¬ (Reads (open_bracket ∷ close_bracket ∷ semicolon ∷ []) f) }
    ensures no_name { (f : Arithmetic) → ¬ (Reads (ex ∷ colon ∷ word_true ∷ semicolon ∷ []) f) }
    ensures no_comma { (f : Arithmetic) → ¬ (Reads (ex ∷ name x ∷ name y ∷ colon ∷ word_true ∷ semicolon ∷ []) f) }
    ensures comma_before_the_colon { (f : Arithmetic) → ¬ (Reads (ex ∷ name x ∷ comma ∷ colon ∷ word_true ∷ semicolon ∷ []) f) }
    ensures no_body { (f : Arithmetic) → ¬ (Reads (ex ∷ name x ∷ colon ∷ semicolon ∷ []) f) }
    ensures no_symbol { (f : Arithmetic) → ¬ (Reads (other ∷ semicolon ∷ []) f) }
{}

/// What can follow rows of symbols, and what cannot.
pub fn worked_continuations()
    ensures at_the_beginning { CanFollow [] }
    ensures behind_a_quantifier { CanFollow (ex ∷ []) }
    ensures quantifier_as_a_name { ¬ (CanFollowAtAnyDepth (ex ∷ all ∷ [])) }
    ensures behind_a_comma { CanFollow (ex ∷ name x ∷ comma ∷ []) }
    ensures behind_a_name { CanFollow (name x ∷ []) }
    ensures second_name { ¬ (CanFollowAtAnyDepth (name x ∷ name y ∷ [])) }
    ensures behind_a_number { CanFollow (number 5 ∷ []) }
    ensures second_number { ¬ (CanFollowAtAnyDepth (number 5 ∷ number 5 ∷ [])) }
    ensures name_behind_a_right_number { CanFollow (name x ∷ equals ∷ number 5 ∷ name y ∷ []) }
    ensures more_parts { CanFollow (name x ∷ equals ∷ number 5 ∷ plus ∷ []) }
    ensures end_behind_a_right_number { CanFollow (name x ∷ equals ∷ number 5 ∷ semicolon ∷ []) }
    ensures end_behind_a_left_number { ¬ (CanFollowAtAnyDepth (number 5 ∷ semicolon ∷ [])) }
    ensures behind_the_end { ¬ (CanFollowAtAnyDepth (word_true ∷ semicolon ∷ word_true ∷ [])) }
    ensures in_brackets { CanFollow (open_bracket ∷ word_true ∷ and ∷ []) }
    ensures end_in_brackets { ¬ (CanFollowAtAnyDepth (open_bracket ∷ word_true ∷ semicolon ∷ [])) }
    ensures deepest_bracket { CanFollow (repeated 299 open_bracket []) }
    ensures bracket_too_deep { ¬ (CanFollow (repeated 300 open_bracket [])) }
    ensures bracket_at_any_depth { CanFollowAtAnyDepth (repeated 300 open_bracket []) }
    ensures deepest_word { CanFollow (repeated 299 open_bracket (word_true ∷ [])) }
    ensures deepest_name { CanFollow (repeated 298 open_bracket (name x ∷ [])) }
    ensures name_too_deep { ¬ (CanFollow (repeated 299 open_bracket (name x ∷ []))) }
    ensures name_at_any_depth { CanFollowAtAnyDepth (repeated 299 open_bracket (name x ∷ [])) }
    ensures number_too_deep { ¬ (CanFollow (repeated 299 open_bracket (number 5 ∷ []))) }
    ensures number_at_any_depth { CanFollowAtAnyDepth (repeated 299 open_bracket (number 5 ∷ [])) }
    ensures deepest_comparison { CanFollow (repeated 298 open_bracket a) }
    ensures operator_too_deep { ¬ (CanFollow (repeated 298 open_bracket (a ++ and ∷ []))) }
    ensures operator_at_any_depth { CanFollowAtAnyDepth (repeated 298 open_bracket (a ++ and ∷ [])) }
    ensures deepest_quantifier { CanFollow (repeated 298 open_bracket (ex ∷ name x ∷ colon ∷ [])) }
    ensures quantifier_too_deep { ¬ (CanFollow (repeated 299 open_bracket (ex ∷ []))) }
    ensures quantifier_at_any_depth { CanFollowAtAnyDepth (repeated 299 open_bracket (ex ∷ [])) }
{}

/// Texts that are refused, and the places that the refusals name.
pub fn worked_refusals()
    // `x y=1;`
    ensures second_name { IsProblemFault 7 (text (codes "x y=1;") (token_at Kind.Name 0 1 ∷ token_at Kind.Name 2 1 ∷ token_at (Kind.Mark Mark.Equal) 3 1 ∷ token_at (Kind.Number 1) 4 1 ∷ token_at (Kind.Mark Mark.Semicolon) 5 1 ∷ []))
        (Refusal.Grammar (record { file = 7; place = 2 })) }
    // `ex ex: true;`
    ensures quantifier_as_a_name { IsProblemFault 0 (text (codes "ex ex: true;") (token_at Kind.Name 0 2 ∷ token_at Kind.Name 3 2 ∷ token_at (Kind.Mark Mark.Colon) 5 1 ∷ token_at (Kind.Word Keyword.True) 7 4 ∷ token_at (Kind.Mark Mark.Semicolon) 11 1 ∷ []))
        (Refusal.Grammar (record { file = 0; place = 3 })) }
    // `true;x`
    ensures behind_the_semicolon { IsProblemFault 0 (text (codes "true;x") (token_at (Kind.Word Keyword.True) 0 4 ∷ token_at (Kind.Mark Mark.Semicolon) 4 1 ∷ token_at Kind.Name 5 1 ∷ []))
        (Refusal.Grammar (record { file = 0; place = 5 })) }
    // `tree;`
    ensures word_left_out { IsProblemFault 0 (text (codes "tree;") (token_at Kind.LeftOut 0 4 ∷ token_at (Kind.Mark Mark.Semicolon) 4 1 ∷ []))
        (Refusal.Grammar (record { file = 0; place = 0 })) }
    // `x = `
    ensures ends_early { IsProblemFault 0 (text (codes "x = ") (token_at Kind.Name 0 1 ∷ token_at (Kind.Mark Mark.Equal) 2 1 ∷ []))
        (Refusal.Grammar (record { file = 0; place = 4 })) }
    // `true`
    ensures without_semicolon { IsProblemFault 0 (text (codes "true") (token_at (Kind.Word Keyword.True) 0 4 ∷ []))
        (Refusal.Grammar (record { file = 0; place = 4 })) }
    // 300 times `(`
    ensures too_deep { IsProblemFault 0 (behind_brackets 300 [] []) (Refusal.Depth (record { file = 0; place = 299 })) }
    // 299 times `(`, and `x=1`
    ensures sum_too_deep { IsProblemFault 0 (behind_brackets 299 (codes "x=1") (token_at Kind.Name 299 1 ∷ token_at (Kind.Mark Mark.Equal) 300 1 ∷ token_at (Kind.Number 1) 301 1 ∷ []))
        (Refusal.Depth (record { file = 0; place = 299 })) }
    // nothing
    ensures other_place { ¬ (IsProblemFault 0 (text [] []) (Refusal.Grammar (record { file = 0; place = 1 }))) }
    ensures empty { IsProblemFault 0 (text [] []) (Refusal.Grammar (record { file = 0; place = 0 })) }
{}

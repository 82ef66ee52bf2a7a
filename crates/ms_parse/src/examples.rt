ghost use Rattle.std.specs.Prelude.{[], ◌∷◌, true, false, codes, Some, None};
ghost use Rattle.ms_logic.specs.declared.mode.Mode.TheVariants.{Ws1s, M2lStr};
ghost use Rattle.ms_logic.specs.declared.mode.Order.TheVariants.{One, Two, Zero};
ghost use Rattle.ms_logic.specs.declared.mode.Quant.TheVariants.{Ex};
ghost use Rattle.ms_logic.specs.declared.mode.Rel.TheVariants.{Equal, Member};
ghost use Rattle.ms_logic.specs.declared.source.Int.TheVariants.{Number, Constant};
ghost use Rattle.ms_parse_grammar.specs.Continuation.{CanFollow, CanFollowAtAnyDepth};
ghost use Rattle.ms_parse_grammar.specs.Declarations.{Reads};
ghost use Rattle.ms_parse.specs.inner.Examples.{bracketed, brackets, at, row, a, b, c, x, y, P, p, goal_name, a_at, b_at, c_at, x_at, y_at, P_at, goal_at, one, two, three, ex1_x, only, says, repeated};
ghost use Rattle.ms_parse_grammar.specs.Symbol.{name, number, prefix_operator, infix_operator, joining, sign, quantifier, let_word, kind, predicate_word, word_true, word_where, word_empty, word_ws1s, left_out, open_round, close_round, open_curly, close_curly, comma, colon, semicolon, word_const, word_include, text, default_word, word_import, arrow, word_export, word_pconst, word_restrict, dollar};
ghost use Rattle.ms_parse_grammar.specs.declared.operator.Prefix.TheVariants.{Negation, Minimum};
ghost use Rattle.ms_parse_grammar.specs.declared.operator.Binary.TheVariants.{Implication, Equivalence, Relation, Union, Difference};
ghost use Rattle.ms_parse_grammar.specs.declared.operator.Junction.TheVariants.{Conjunction, Disjunction};
ghost use Rattle.ms_parse_grammar.specs.declared.operator.Bracket.TheVariants.{Parentheses, Emptiness, Export, Restriction};
ghost use Rattle.ms_parse_grammar.specs.declared.operator.Listing.TheVariants.{Literal, Call};
ghost use Rattle.ms_parse_grammar.specs.Tree.{truth, empty_set, named, prefixed, binary, joined, shifted, enclosed, listed, let_in, quantified, atom, no_expressions, no_variables, and_variable, unrestricted, restricted, no_parts, and_part, predicate, variables, formula, goal, constant, included, default_restriction, imported, pconst, whole, Document};

/// Rows of symbols and their trees: how operators group, and how far a body reaches.
pub fn example_operators()
    ensures to_the_right { Reads true (row (a ∷ infix_operator Implication ∷ b ∷ infix_operator Implication ∷ c ∷ semicolon ∷ []))
        (says (binary (at 0) Implication (a_at 0) (binary (at 2) Implication (b_at 2) (c_at 4)))) }
    ensures to_the_left { Reads true (row (a ∷ infix_operator Equivalence ∷ b ∷ infix_operator Equivalence ∷ c ∷ semicolon ∷ []))
        (says (binary (at 0) Equivalence (binary (at 0) Equivalence (a_at 0) (b_at 2)) (c_at 4))) }
    ensures one_list { Reads true (row (a ∷ joining Conjunction ∷ b ∷ joining Conjunction ∷ c ∷ semicolon ∷ []))
        (says (joined (at 0) Conjunction (three (a_at 0) (b_at 2) (c_at 4)))) }
    ensures and_before_or { Reads true (row (a ∷ joining Disjunction ∷ b ∷ joining Conjunction ∷ c ∷ semicolon ∷ []))
        (says (joined (at 0) Disjunction (two (a_at 0) (joined (at 2) Conjunction (two (b_at 2) (c_at 4)))))) }
    ensures negated_body { Reads true (row (prefix_operator Negation ∷ quantifier Ex One ∷ x ∷ colon ∷ a ∷ joining Conjunction ∷ b ∷ semicolon ∷ []))
        (says (prefixed (at 0) Negation (ex1_x 1 (joined (at 4) Conjunction (two (a_at 4) (b_at 6)))))) }
    ensures body_to_the_end { Reads true (row (a ∷ joining Conjunction ∷ quantifier Ex One ∷ x ∷ colon ∷ b ∷ joining Disjunction ∷ c ∷ semicolon ∷ []))
        (says (joined (at 0) Conjunction (two (a_at 0) (ex1_x 2 (joined (at 5) Disjunction (two (b_at 5) (c_at 7))))))) }
    ensures body_in_brackets { Reads true (row (open_round ∷ quantifier Ex One ∷ x ∷ colon ∷ a ∷ close_round ∷ joining Conjunction ∷ b ∷ semicolon ∷ []))
        (says (joined (at 0) Conjunction (two (enclosed (at 0) Parentheses (ex1_x 1 (a_at 4))) (b_at 7)))) }
    ensures difference_first { Reads true (row (a ∷ infix_operator Difference ∷ b ∷ infix_operator Union ∷ c ∷ semicolon ∷ []))
        (says (binary (at 0) Union (binary (at 0) Difference (a_at 0) (b_at 2)) (c_at 4))) }
    ensures shifts { Reads true (row (x ∷ sign false ∷ number 1 ∷ sign true ∷ number 2 ∷ semicolon ∷ []))
        (says (shifted (at 0) (shifted (at 0) (x_at 0) (record { at = at 2; value = Number 1; minus = false })) (record { at = at 4; value = Number 2; minus = true }))) }
{}

/// Rows of symbols and their trees: lists, brackets, binders and declarations.
pub fn example_documents()
    ensures nothing { Reads true (row []) (record { header = None; declarations = [] }) }
    ensures empty_literal { Reads true (row (open_curly ∷ close_curly ∷ semicolon ∷ [])) (says (listed (at 0) Literal no_expressions)) }
    ensures literal { Reads true (row (open_curly ∷ x ∷ comma ∷ y ∷ close_curly ∷ semicolon ∷ [])) (says (listed (at 0) Literal (two (x_at 1) (y_at 3)))) }
    ensures empty_set { Reads true (row (word_empty ∷ semicolon ∷ [])) (says (atom (at 0) empty_set)) }
    ensures is_empty { Reads true (row (word_empty ∷ open_round ∷ P ∷ close_round ∷ semicolon ∷ [])) (says (enclosed (at 0) Emptiness (P_at 2))) }
    ensures bare_name { Reads true (row (p ∷ semicolon ∷ [])) (says (atom (at 0) (named (codes "p")))) }
    ensures empty_call { Reads true (row (p ∷ open_round ∷ close_round ∷ semicolon ∷ [])) (says (listed (at 0) (Call (codes "p")) no_expressions)) }
    ensures call { Reads true (row (p ∷ open_round ∷ x ∷ comma ∷ P ∷ comma ∷ a ∷ close_round ∷ semicolon ∷ []))
        (says (listed (at 0) (Call (codes "p")) (three (x_at 2) (P_at 4) (a_at 6)))) }
    ensures in_in_brackets { Reads true (row (let_word One ∷ x ∷ infix_operator (Relation Equal) ∷ open_round ∷ y ∷ infix_operator (Relation Member) ∷ P ∷ close_round ∷ infix_operator (Relation Member) ∷ c ∷ semicolon ∷ []))
        (says (let_in (at 0) One (and_part no_parts (at 1) (codes "x") (enclosed (at 3) Parentheses (binary (at 4) (Relation Member) (y_at 4) (P_at 6)))) (c_at 9))) }
    ensures first_in { Reads true (row (let_word One ∷ x ∷ infix_operator (Relation Equal) ∷ y ∷ infix_operator (Relation Member) ∷ P ∷ infix_operator (Relation Member) ∷ c ∷ semicolon ∷ []))
        (says (let_in (at 0) One (and_part no_parts (at 1) (codes "x") (y_at 3)) (binary (at 5) (Relation Member) (P_at 5) (c_at 7)))) }
    ensures header { Reads true (row (name (codes "m2l") ∷ sign true ∷ name (codes "str") ∷ semicolon ∷ [])) (record { header = Some (at 0, M2lStr); declarations = [] }) }
    ensures second_header { Reads true (row (word_ws1s ∷ semicolon ∷ name (codes "m2l") ∷ sign true ∷ name (codes "str") ∷ semicolon ∷ []))
        (record { header = Some (at 0, Ws1s); declarations = record { at = at 2; declaration = formula (shifted (at 2) (atom (at 2) (named (codes "m2l"))) (record { at = at 4; value = Constant (codes "str"); minus = true })) } ∷ [] }) }
    ensures kinds { Reads true (row (predicate_word true ∷ p ∷ open_round ∷ kind One ∷ x ∷ comma ∷ y ∷ comma ∷ kind Two ∷ P ∷ close_round ∷ infix_operator (Relation Equal) ∷ word_true ∷ semicolon ∷ []))
        (only (predicate true (at 1) (codes "p") (and_variable (and_variable (and_variable no_variables (at 4) One (codes "x") unrestricted) (at 6) One (codes "y") unrestricted) (at 9) Two (codes "P") unrestricted)
        (atom (at 12) truth))) }
    ensures restricted_variable { Reads true (row (kind One ∷ x ∷ word_where ∷ a ∷ comma ∷ y ∷ semicolon ∷ []))
        (only (variables (and_variable (and_variable no_variables (at 1) One (codes "x") (restricted (a_at 3))) (at 5) One (codes "y") unrestricted))) }
{}

/// Rows of symbols and their trees: declarations, and forms with words.
pub fn example_declarations()
    ensures sum { Reads true (row (word_const ∷ c ∷ infix_operator (Relation Equal) ∷ number 3 ∷ sign false ∷ b ∷ sign true ∷ number 1 ∷ semicolon ∷ []))
        (only (constant (at 1) (codes "c") (record { at = at 3; value = Number 3; minus = false } ∷ record { at = at 5; value = Constant (codes "b"); minus = false } ∷ record { at = at 7; value = Number 1; minus = true } ∷ []))) }
    ensures include { Reads true (row (word_include ∷ text (codes "f") ∷ semicolon ∷ [])) (only (included (at 1) (codes "f"))) }
    ensures default { Reads true (row (default_word Two ∷ open_round ∷ P ∷ close_round ∷ infix_operator (Relation Equal) ∷ a ∷ semicolon ∷ []))
        (only (default_restriction Two (codes "P") (a_at 5))) }
    ensures bare_macro { Reads true (row (predicate_word false ∷ p ∷ infix_operator (Relation Equal) ∷ a ∷ semicolon ∷ [])) (only (predicate false (at 1) (codes "p") no_variables (a_at 3))) }
    ensures empty_brackets { Reads true (row (predicate_word false ∷ p ∷ open_round ∷ close_round ∷ infix_operator (Relation Equal) ∷ a ∷ semicolon ∷ []))
        (only (predicate false (at 1) (codes "p") no_variables (a_at 5))) }
    ensures renaming { Reads true (row (word_import ∷ open_round ∷ text (codes "f") ∷ comma ∷ a ∷ arrow ∷ b ∷ close_round ∷ semicolon ∷ []))
        (says (atom (at 0) (imported (codes "f") (record { at = at 4; left = codes "a"; at_right = at 6; right = codes "b" } ∷ [])))) }
    ensures export { Reads true (row (word_export ∷ open_round ∷ text (codes "f") ∷ comma ∷ a ∷ close_round ∷ semicolon ∷ []))
        (says (enclosed (at 0) (Export (at 2) (codes "f")) (a_at 4))) }
    ensures pconst { Reads true (row (word_pconst ∷ open_round ∷ number 5 ∷ close_round ∷ semicolon ∷ [])) (says (atom (at 0) (pconst (record { at = at 2; value = Number 5; minus = false })))) }
    ensures least { Reads true (row (prefix_operator Minimum ∷ P ∷ sign false ∷ number 1 ∷ semicolon ∷ []))
        (says (shifted (at 0) (prefixed (at 0) Minimum (P_at 1)) (record { at = at 3; value = Number 1; minus = false }))) }
    ensures restrict { Reads true (row (let_word Zero ∷ b ∷ infix_operator (Relation Equal) ∷ word_restrict ∷ open_round ∷ a ∷ close_round ∷ infix_operator (Relation Member) ∷ b ∷ joining Disjunction ∷ prefix_operator Negation ∷ b ∷ semicolon ∷ []))
        (says (let_in (at 0) Zero (and_part no_parts (at 1) (codes "b") (enclosed (at 3) Restriction (a_at 5))) (joined (at 8) Disjunction (two (b_at 8) (prefixed (at 10) Negation (b_at 11)))))) }
    ensures goal { Reads true (row (goal_name ∷ text (codes "t") ∷ a ∷ semicolon ∷ [])) (only (goal (at 1) (codes "t") (a_at 2))) }
    ensures goal_of_that_name { Reads true (row (goal_name ∷ text (codes "t") ∷ goal_name ∷ semicolon ∷ [])) (only (goal (at 1) (codes "t") (goal_at 2))) }
    ensures goal_as_formula { Reads true (row (goal_name ∷ semicolon ∷ [])) (says (goal_at 0)) }
    ensures goal_as_operand { Reads true (row (goal_name ∷ joining Conjunction ∷ a ∷ semicolon ∷ [])) (says (joined (at 0) Conjunction (two (goal_at 0) (a_at 2)))) }
    ensures goal_as_variable { Reads true (row (kind Two ∷ goal_name ∷ semicolon ∷ [])) (only (variables (and_variable no_variables (at 1) Two (codes "goal") unrestricted))) }
    ensures two_formulas { Reads true (row (a ∷ semicolon ∷ dollar ∷ semicolon ∷ []))
        (record { header = None; declarations = record { at = at 0; declaration = formula (a_at 0) } ∷ record { at = at 2; declaration = formula (atom (at 2) whole) } ∷ [] }) }
{}

/// Brackets up to the greatest depth, and beyond.
pub fn example_depths()
    ensures deepest { Reads true (row (bracketed 299)) (says (brackets 299 0)) }
    ensures too_deep { (d : Document) → ¬ (Reads true (row (bracketed 300)) d) }
{}

/// Rows of symbols that read as no document.
pub fn example_refusals()
    ensures open_lists { (d : Document) → ¬ (Reads true (row (open_curly ∷ x ∷ comma ∷ open_curly ∷ [])) d) }
    ensures comma_at_the_end { (d : Document) → ¬ (Reads true (row (open_curly ∷ x ∷ comma ∷ close_curly ∷ semicolon ∷ [])) d) }
    ensures two_relations { (d : Document) → ¬ (Reads true (row (a ∷ infix_operator (Relation Equal) ∷ b ∷ infix_operator (Relation Equal) ∷ c ∷ semicolon ∷ [])) d) }
    ensures bare_in { (d : Document) → ¬ (Reads true (row (let_word One ∷ x ∷ infix_operator (Relation Equal) ∷ quantifier Ex One ∷ x ∷ word_where ∷ y ∷ infix_operator (Relation Member) ∷ P ∷ colon ∷ a ∷ infix_operator (Relation Member) ∷ c ∷ semicolon ∷ [])) d) }
    ensures no_kind { (d : Document) → ¬ (Reads true (row (predicate_word true ∷ p ∷ open_round ∷ x ∷ close_round ∷ infix_operator (Relation Equal) ∷ word_true ∷ semicolon ∷ [])) d) }
    ensures no_semicolon { (d : Document) → ¬ (Reads true (row (a ∷ [])) d) }
    ensures negated_term { (d : Document) → ¬ (Reads true (row (x ∷ infix_operator (Relation Equal) ∷ prefix_operator Negation ∷ y ∷ semicolon ∷ [])) d) }
    ensures goal_without_formula { (d : Document) → ¬ (Reads true (row (goal_name ∷ text (codes "t") ∷ semicolon ∷ [])) d) }
    ensures two_titles { (d : Document) → ¬ (Reads true (row (goal_name ∷ text (codes "t") ∷ text (codes "u") ∷ a ∷ semicolon ∷ [])) d) }
    ensures word_alone { (d : Document) → ¬ (Reads true (row (left_out (codes "tree") ∷ semicolon ∷ [])) d) }
{}

/// What can follow rows of symbols, and what cannot.
pub fn example_continuations()
    ensures at_the_beginning { CanFollow (row []) }
    ensures behind_a_comma { CanFollow (row (open_curly ∷ x ∷ comma ∷ [])) }
    ensures bracket_behind_a_comma { ¬ (CanFollowAtAnyDepth (row (open_curly ∷ x ∷ comma ∷ close_curly ∷ []))) }
    ensures behind_a_relation { CanFollow (row (a ∷ infix_operator (Relation Equal) ∷ b ∷ [])) }
    ensures second_relation { ¬ (CanFollowAtAnyDepth (row (a ∷ infix_operator (Relation Equal) ∷ b ∷ infix_operator (Relation Equal) ∷ []))) }
    ensures without_semicolon { CanFollow (row (word_true ∷ [])) }
    ensures word_left_out { ¬ (CanFollowAtAnyDepth (row (left_out (codes "tree") ∷ []))) }
    ensures behind_goal { CanFollow (row (goal_name ∷ [])) }
    ensures behind_a_title { CanFollow (row (goal_name ∷ text (codes "t") ∷ [])) }
    ensures title_without_formula { ¬ (CanFollowAtAnyDepth (row (goal_name ∷ text (codes "t") ∷ semicolon ∷ []))) }
    ensures second_title { ¬ (CanFollowAtAnyDepth (row (goal_name ∷ text (codes "t") ∷ text (codes "u") ∷ []))) }
    ensures title_behind_another_name { ¬ (CanFollowAtAnyDepth (row (a ∷ text (codes "t") ∷ []))) }
    ensures title_in_a_formula { ¬ (CanFollowAtAnyDepth (row (prefix_operator Negation ∷ goal_name ∷ text (codes "t") ∷ []))) }
    ensures behind_the_mode { CanFollow (row (word_ws1s ∷ [])) }
    ensures mode_without_semicolon { ¬ (CanFollowAtAnyDepth (row (word_ws1s ∷ word_true ∷ []))) }
    ensures string_mode { CanFollow (row (name (codes "m2l") ∷ sign true ∷ name (codes "str") ∷ [])) }
    ensures deepest_bracket { CanFollow (row (repeated 299 open_round [])) }
    ensures bracket_too_deep { ¬ (CanFollow (row (repeated 300 open_round []))) }
    ensures bracket_at_any_depth { CanFollowAtAnyDepth (row (repeated 300 open_round [])) }
    ensures empty_call_at_the_depth { CanFollow (row (repeated 299 open_round (p ∷ open_round ∷ []))) }
    ensures argument_too_deep { ¬ (CanFollow (row (repeated 299 open_round (p ∷ open_round ∷ x ∷ [])))) }
    ensures argument_at_any_depth { CanFollowAtAnyDepth (row (repeated 299 open_round (p ∷ open_round ∷ x ∷ []))) }
    ensures no_argument_at_any_depth { ¬ (CanFollowAtAnyDepth (row (repeated 299 open_round (p ∷ open_round ∷ comma ∷ [])))) }
{}

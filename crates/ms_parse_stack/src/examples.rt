//! The definitions at small cases, worked out by hand. Each function has an empty body, and its contract is the table of its
//! examples.

ghost use Rattle.std.specs.Prelude.{◌≡◌, ℕ, [], ◌∷◌, codes, false, true, Some, None, Ok, Err};
ghost use Rattle.ms_parse_stack.specs.Refused.{EndsEarly, IsMisplaced, IsTooDeepAt, NamesFault, StandsBehind, refusal_of};
ghost use Rattle.ms_parse_stack.specs.Symbols.{front, symbols, symbols_of};
ghost use Rattle.ms_parse_stack.specs.inner.Examples.{behind_brackets};
ghost use Rattle.ms_parse_stack.specs.inner.Frames.{AreDeep, behind_infix, behind_joining, behind_prefix, depth_of_each, filled, frame_level, hole, hole_of, in_brackets, inside, link, yields};
ghost use Rattle.ms_parse_stack.specs.inner.Machine.{GoesOn, IsDepth, acts, begin, behind, closed, done, ended, entered, infixed, least_before, linked, moved, performed, plugged, put, run, settled, shortest, start, stay, stopped, stops, within};
ghost use Rattle.ms_parse_stack.specs.inner.Opened.{IsLink};
ghost use Rattle.ms_parse_stack.specs.inner.Sample as samples;
ghost use Rattle.ms_parse_stack.specs.inner.Sample.{AreFew, AreOpen, Binary, Prefix, a, and, arrow, begun_with, bracket_a, close_bracket, finished, formula, further, grammar, holding, implies, letter, negated, open_bracket, opening, opens, operators, or, other, read_letter, sample, semicolon, tilde, wanted, with_letter};
ghost use Rattle.ms_parse_stack.specs.inner.Settled.{rests};
ghost use Rattle.ms_parse_stack.specs.inner.States.{ComesTo, IsMeasured, IsMeasuredWith, held_of, stack_of, state_of, state_with};
ghost use Rattle.ms_parse_stack.specs.inner.Stopped.{Gives, StopsAt};
ghost use Rattle.ms_text.specs.TokenList.{token_at};

use crate::junction::Junction;
use crate::sign::Sign;
use crate::stop::Stop;
use ms_edge::Refusal;
use ms_text::{Kind, Mark};

/// Frames: formulas that have been begun, up to the operand that follows.
pub fn worked_frames()
    // the least levels of what follows: 0 for any formula, 4 for one with `~` or tighter
    ensures hole_in_brackets { hole operators in_brackets ≡ 0 }
    ensures hole_behind_negation { hole operators (behind_prefix tilde) ≡ 4 }
    ensures hole_behind_implication { hole operators (behind_infix arrow letter) ≡ 1 }
    ensures hole_behind_and { hole operators (behind_joining Junction.Conjunction (letter ∷ [])) ≡ 4 }
    ensures innermost_hole { hole_of operators (behind_infix arrow letter ∷ in_brackets ∷ []) ≡ 1 }
    ensures no_frames { hole_of operators [] ≡ 0 }
    ensures level_of_brackets { frame_level operators in_brackets ≡ 5 }
    ensures level_of_implication { frame_level operators (behind_infix arrow letter) ≡ 1 }

    // `a >` with `a` behind it, and `a & a &`
    ensures filled { filled operators (behind_infix arrow letter) letter ≡ formula (codes "[a>a]") 2 }
    ensures filled_list { filled operators (behind_joining Junction.Conjunction (letter ∷ letter ∷ [])) letter ≡ formula (codes "[a&a&a]") 2 }
    ensures not_turned_round { ¬ (filled operators (behind_infix arrow letter) (formula (codes "(a)") 2) ≡ formula (codes "[(a)>a]") 3) }

    // how deep the parts before the hole are
    ensures inside { inside {Prefix = Prefix} grammar.depth (behind_infix arrow (formula (codes "(a)") 2)) ≡ 2 }
    ensures nothing_inside { inside {Prefix = Prefix} {Binary = Binary} grammar.depth in_brackets ≡ 0 }
    ensures greatest_depth { depth_of_each grammar.depth (letter ∷ formula (codes "(a)") 2 ∷ []) ≡ 2 }
    ensures depth_of_none { depth_of_each grammar.depth [] ≡ 0 }
    ensures one_deeper { AreDeep operators grammar.depth }
    ensures all_as_deep { ¬ AreDeep operators (λ f. 1) }

    // `a & a` ends before `|`, which wants level 3 on its left; `a | a` does not end before `&`, nor `a > a` before `>`
    ensures ends_before_or { yields operators 3 (behind_joining Junction.Conjunction (letter ∷ [])) ≡ true }
    ensures goes_on_before_and { yields operators 4 (behind_joining Junction.Disjunction (letter ∷ [])) ≡ false }
    ensures goes_on_before_implication { yields operators 2 (behind_infix arrow letter) ≡ false }
    ensures brackets_stay { yields operators 0 in_brackets ≡ false }

    // one more operand of `&` behind the same operator, and behind another
    ensures further { link {Prefix = Prefix} {Binary = Binary} Junction.Conjunction letter (behind_joining Junction.Conjunction (letter ∷ []) ∷ []) ≡ behind_joining Junction.Conjunction (letter ∷ letter ∷ []) ∷ [] }
    ensures first { link {Prefix = Prefix} {Binary = Binary} Junction.Conjunction letter (behind_joining Junction.Disjunction (letter ∷ []) ∷ []) ≡ behind_joining Junction.Conjunction (letter ∷ []) ∷ behind_joining Junction.Disjunction (letter ∷ []) ∷ [] }
{}

/// Stacks of frames, which are filled from the top down.
pub fn worked_stacks()
    // `(~` and `a`
    ensures plugged { plugged sample (behind_prefix tilde ∷ in_brackets ∷ []) letter ≡ formula (codes "([~a])") 3 }
    ensures nothing_begun { plugged sample [] letter ≡ letter }

    // `a > ~` and `a`, before `>` and before the end
    ensures settled { settled sample 2 (behind_prefix tilde ∷ behind_infix arrow letter ∷ []) letter ≡ (behind_infix arrow letter ∷ [], formula (codes "[~a]") 2) }
    ensures all_settled { settled sample 0 (behind_prefix tilde ∷ behind_infix arrow letter ∷ []) letter ≡ ([], formula (codes "[a>[~a]]") 3) }
    ensures in_brackets { settled sample 0 (in_brackets ∷ []) letter ≡ (in_brackets ∷ [], letter) }
    ensures rests { rests (yields operators 2) (behind_infix arrow letter ∷ []) }
    ensures nothing_rests { rests (yields operators 2) [] }
    ensures yields { ¬ (rests (yields operators 1) (behind_infix arrow letter ∷ [])) }
{}

/// Rows of symbols, and the states behind them.
pub fn worked_rows()
    // a > a > a
    ensures to_the_right { samples.behind (a ∷ implies ∷ a ∷ implies ∷ a ∷ semicolon ∷ []) ≡ done (formula (codes "[a>[a>a]]") 3) }
    ensures not_to_the_left { ¬ (samples.behind (a ∷ implies ∷ a ∷ implies ∷ a ∷ semicolon ∷ []) ≡ done (formula (codes "[[a>a]>a]") 3)) }
    // a & a & a
    ensures one_list { samples.behind (a ∷ and ∷ a ∷ and ∷ a ∷ semicolon ∷ []) ≡ done (formula (codes "[a&a&a]") 2) }
    // a | a & a
    ensures and_before_or { samples.behind (a ∷ or ∷ a ∷ and ∷ a ∷ semicolon ∷ []) ≡ done (formula (codes "[a|[a&a]]") 3) }
    // a & a | a
    ensures and_before_or_behind { samples.behind (a ∷ and ∷ a ∷ or ∷ a ∷ semicolon ∷ []) ≡ done (formula (codes "[[a&a]|a]") 3) }
    // ~a & a
    ensures negation_before_and { samples.behind (negated ∷ a ∷ and ∷ a ∷ semicolon ∷ []) ≡ done (formula (codes "[[~a]&a]") 3) }
    // (a > a) & a
    ensures brackets { samples.behind (open_bracket ∷ a ∷ implies ∷ a ∷ close_bracket ∷ and ∷ a ∷ semicolon ∷ []) ≡ done (formula (codes "[([a>a])&a]") 4) }

    // rows that begin a formula, and rows that begin none
    ensures behind_an_operator { GoesOn (samples.behind (a ∷ implies ∷ [])) }
    ensures at_the_end { GoesOn (samples.behind (a ∷ semicolon ∷ [])) }
    ensures two_operands { ¬ GoesOn (samples.behind (a ∷ a ∷ [])) }
    ensures two_operators { ¬ GoesOn (samples.behind (a ∷ implies ∷ and ∷ [])) }
    ensures bracket_too_many { ¬ GoesOn (samples.behind (a ∷ close_bracket ∷ [])) }
    ensures end_in_brackets { ¬ GoesOn (samples.behind (open_bracket ∷ a ∷ semicolon ∷ [])) }
    ensures behind_the_end { ¬ GoesOn (samples.behind (a ∷ semicolon ∷ a ∷ [])) }
    ensures no_symbol { ¬ GoesOn (samples.behind (stops ∷ [])) }

    // the shortest formulas that begin so
    ensures shortest { shortest sample (samples.behind (open_bracket ∷ a ∷ implies ∷ [])) ≡ formula (codes "([a>a])") 3 }
    ensures shortest_of_all { shortest sample (samples.behind []) ≡ letter }
    ensures depths { IsDepth sample grammar.depth }
    ensures letters_too_deep { ¬ IsDepth sample (λ f. 2) }
{}

/// What single symbols do.
pub fn worked_steps()
    ensures moved { moved sample with_letter (within [] None) ≡ within [] (Some letter) }
    ensures not_moved { moved sample with_letter (within [] (Some letter)) ≡ stopped }
    ensures not_moved_behind_the_end { moved sample with_letter (done letter) ≡ stopped }
    ensures entered { entered sample (opening in_brackets) (within [] None) ≡ within (in_brackets ∷ []) None }
    ensures not_entered { entered sample (opening in_brackets) (within [] (Some letter)) ≡ stopped }
    ensures begun { begin sample [] (Some in_brackets) ≡ within (in_brackets ∷ []) None }
    ensures not_begun { begin sample [] None ≡ stopped }
    ensures stays { stay sample [] (Some (Some letter)) ≡ within [] (Some letter) }
    ensures no_place { stay sample [] None ≡ stopped }
    ensures infixed { infixed sample arrow ([], letter) ≡ within (behind_infix arrow letter ∷ []) None }
    ensures linked { linked sample Junction.Disjunction ([], letter) ≡ within (behind_joining Junction.Disjunction (letter ∷ []) ∷ []) None }
    ensures closed { closed sample (in_brackets ∷ [], letter) ≡ within [] (Some (formula (codes "(a)") 2)) }
    ensures not_closed { closed sample (behind_prefix tilde ∷ in_brackets ∷ [], letter) ≡ stopped }
    ensures ended { ended sample ([], letter) ≡ done letter }
    ensures not_ended { ended sample (in_brackets ∷ [], letter) ≡ stopped }

    ensures performed { performed sample a (start sample) ≡ within [] (Some letter) }
    ensures stops { performed sample stops (start sample) ≡ stopped }
    ensures run { run sample (λ action. action) (start sample) (open_bracket ∷ a ∷ []) ≡ within (in_brackets ∷ []) (Some letter) }

    // the least levels of the operands before signs, and what they do with operands
    ensures before_implication { least_before sample (Sign.Infix arrow) ≡ 2 }
    ensures before_and { least_before sample (Sign.Joining Junction.Conjunction) ≡ 4 }
    ensures before_a_bracket { least_before sample Sign.Close ≡ 0 }
    ensures put { put sample Sign.End ([], letter) ≡ done letter }
    ensures behind { behind sample 0 (ended sample) (within (behind_prefix tilde ∷ []) (Some letter)) ≡ done (formula (codes "[~a]") 2) }
    ensures not_behind_the_end { behind sample 0 (ended sample) (done letter) ≡ stopped }
    ensures acts { acts sample 0 (ended sample) [] (Some letter) ≡ done letter }
    ensures acts_on_nothing { acts sample 0 (ended sample) [] None ≡ stopped }
    ensures no_operand { behind sample 0 (ended sample) (within (behind_prefix tilde ∷ []) None) ≡ stopped }
{}

/// What the code holds where it has begun `a >`, and what it comes to.
pub fn worked_states()
    ensures stack { stack_of grammar (begun_with 2).frames ≡ behind_infix arrow letter ∷ [] }
    ensures wanted { state_of grammar (begun_with 2) wanted ≡ within (behind_infix arrow letter ∷ []) None }
    ensures holding { state_of grammar (begun_with 2) holding ≡ within (behind_infix arrow letter ∷ []) (Some letter) }
    ensures not_wanted { ¬ (state_of grammar (begun_with 2) holding ≡ within (behind_infix arrow letter ∷ []) None) }
    ensures finished { state_with grammar [] finished ≡ done letter }
    ensures held { held_of grammar (begun_with 2) read_letter ≡ (behind_infix arrow letter ∷ [], letter) }

    // the depth of the shortest formula that begins so
    ensures measured { IsMeasured grammar (begun_with 2) (formula (codes "[a>a]") 2) }
    ensures other_depth { ¬ IsMeasured grammar (begun_with 2) letter }
    ensures too_great { ¬ IsMeasured grammar (begun_with 301) (formula [] 301) }
    ensures measured_with { IsMeasuredWith grammar (begun_with 2) read_letter }
    ensures without_the_operand { ¬ IsMeasuredWith grammar (begun_with 1) read_letter }

    ensures comes { ComesTo grammar (within (behind_infix arrow letter ∷ []) None) (begun_with 2) (Ok wanted) }
    ensures other_state { ¬ ComesTo grammar (within [] None) (begun_with 2) (Ok wanted) }
    ensures comes_too_shallow { ¬ ComesTo grammar (within (behind_infix arrow letter ∷ []) None) (begun_with 1) (Ok wanted) }
    ensures misplaced { ComesTo grammar stopped (begun_with 2) (Err Stop.Misplaced) }
    ensures not_misplaced { ¬ ComesTo grammar (done letter) (begun_with 2) (Err Stop.Misplaced) }
    ensures too_deep { ComesTo grammar (done (formula [] 301)) (begun_with 2) (Err Stop.TooDeep) }
    ensures not_too_deep { ¬ ComesTo grammar (done (formula [] 300)) (begun_with 2) (Err Stop.TooDeep) }
    ensures no_memory { ComesTo grammar stopped (begun_with 2) (Err Stop.Memory) }

    // an operand of `&` goes on with a list of `&` alone
    ensures goes_on { IsLink grammar.tree_of Junction.Conjunction further (behind_joining Junction.Conjunction (letter ∷ [])) }
    ensures other_operator { ¬ IsLink grammar.tree_of Junction.Conjunction further (behind_joining Junction.Disjunction (letter ∷ [])) }
    ensures other_frame { IsLink grammar.tree_of Junction.Conjunction other in_brackets }
    ensures not_that_frame { ¬ IsLink grammar.tree_of Junction.Conjunction other (behind_prefix tilde) }
{}

/// Texts of brackets, which stand in one another up to a depth of two.
pub fn worked_refusals()
    // `(a`
    ensures symbols { symbols opens bracket_a ≡ true ∷ false ∷ [] }
    ensures symbols_of { symbols_of opens bracket_a (token_at Kind.Name 1 1 ∷ []) ≡ false ∷ [] }
    ensures front { front opens bracket_a 1 ≡ true ∷ [] }
    ensures stands { StandsBehind 7 bracket_a (token_at (Kind.Mark Mark.OpenParenthesis) 0 1 ∷ []) (token_at Kind.Name 1 1) (record { file = 7; place = 1 }) }
    ensures other_file { ¬ (StandsBehind 7 bracket_a (token_at (Kind.Mark Mark.OpenParenthesis) 0 1 ∷ []) (token_at Kind.Name 1 1) (record { file = 8; place = 1 })) }
    ensures misplaced { IsMisplaced opens AreFew AreOpen 7 bracket_a (record { file = 7; place = 1 }) }
    ensures misplaced_at_any_depth { ¬ (IsTooDeepAt opens AreFew AreOpen 7 bracket_a (record { file = 7; place = 1 })) }
    ensures names_misplaced { NamesFault opens AreFew AreOpen 7 bracket_a (Refusal.Grammar (record { file = 7; place = 1 })) }
    ensures stops { StopsAt opens AreFew AreOpen bracket_a 1 Stop.Misplaced }
    ensures stops_later { ¬ (StopsAt opens AreFew AreOpen bracket_a 0 Stop.Misplaced) }

    // `(((`
    ensures too_deep { IsTooDeepAt opens AreFew AreOpen 0 (behind_brackets 3 [] []) (record { file = 0; place = 2 }) }
    ensures names_too_deep { NamesFault opens AreFew AreOpen 0 (behind_brackets 3 [] []) (Refusal.Depth (record { file = 0; place = 2 })) }
    ensures stops_too_deep { StopsAt opens AreFew AreOpen (behind_brackets 3 [] []) 2 Stop.TooDeep }
    ensures not_too_deep { ¬ (StopsAt opens AreFew AreOpen (behind_brackets 3 [] []) 1 Stop.TooDeep) }
    ensures not_to_the_end { ¬ (EndsEarly opens AreFew AreOpen 0 (behind_brackets 3 [] []) (record { file = 0; place = 3 })) }

    // `((`
    ensures ends_early { EndsEarly opens AreFew AreOpen 0 (behind_brackets 2 [] []) (record { file = 0; place = 2 }) }
    ensures not_misplaced { ¬ (IsMisplaced opens AreFew AreOpen 0 (behind_brackets 2 [] []) (record { file = 0; place = 1 })) }
    ensures earlier { ¬ (EndsEarly opens AreFew AreOpen 0 (behind_brackets 2 [] []) (record { file = 0; place = 1 })) }
    ensures no_fault { ¬ (NamesFault opens AreFew AreOpen 0 (behind_brackets 2 [] []) Refusal.Memory) }

    ensures refusal_of_misplaced { refusal_of Stop.Misplaced (record { file = 0; place = 2 }) ≡ Refusal.Grammar (record { file = 0; place = 2 }) }
    ensures refusal_of_depth { refusal_of Stop.TooDeep (record { file = 0; place = 2 }) ≡ Refusal.Depth (record { file = 0; place = 2 }) }

    // what a call gives that makes 1, where no symbol is misplaced or too deep
    ensures gives { Gives (λ (n : ℕ). n ≡ 1) ⊥ ⊥ (Ok 1) }
    ensures gives_another { ¬ (Gives (λ (n : ℕ). n ≡ 1) ⊥ ⊥ (Ok 2)) }
    ensures gives_no_memory { Gives (λ (n : ℕ). n ≡ 1) ⊥ ⊥ (Err Stop.Memory) }
    ensures gives_misplaced { ¬ (Gives (λ (n : ℕ). n ≡ 1) ⊥ ⊥ (Err Stop.Misplaced)) }
{}

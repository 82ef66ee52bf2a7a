ghost use Rattle.std.specs.Prelude.{[], ◌∷◌, codes};
ghost use Rattle.ms_text.specs.Fault.{HasFault};
ghost use Rattle.ms_text.specs.TokenList.{IsTokenList, token_at};

use crate::fault::Cause;
use crate::keyword::Keyword;
use crate::mark::Mark;
use crate::token::Kind;

/// Texts and their tokens, as the definitions have them.
pub fn example_tokens()
    ensures header { IsTokenList 0 (codes "m2l-str;") (token_at Kind.Name 0 3 ∷ token_at (Kind.Mark Mark.Minus) 3 1
        ∷ token_at Kind.Name 4 3 ∷ token_at (Kind.Mark Mark.Semicolon) 7 1 ∷ []) }
    ensures primed { IsTokenList 0 (codes "x'") (token_at Kind.Name 0 2 ∷ []) }
    ensures word { IsTokenList 0 (codes "in") (token_at (Kind.Word Keyword.In) 0 2 ∷ []) }
    ensures left_out { IsTokenList 0 (codes "tree") (token_at Kind.LeftOut 0 4 ∷ []) }
    ensures zeros { IsTokenList 0 (codes "007") (token_at (Kind.Number 7) 0 3 ∷ []) }
    ensures digit_first { IsTokenList 0 (codes "1a") (token_at (Kind.Number 1) 0 1 ∷ token_at Kind.Name 1 1 ∷ []) }
    ensures longest { IsTokenList 0 (codes "<=>") (token_at (Kind.Mark Mark.Equivalence) 0 3 ∷ []) }
    ensures text { IsTokenList 0 (codes "\"#\"") (token_at Kind.Text 0 3 ∷ []) }
    ensures comments { IsTokenList 0 (codes "/**/ #") [] }
{}

/// Texts and their first faults, as the definitions have them.
pub fn example_faults()
    ensures opened { HasFault (codes "/*/") 0 Cause.Unclosed }
    ensures cut { HasFault (codes "a\"") 1 Cause.Unclosed }
    ensures slash { HasFault (codes "/") 0 (Cause.Word 47) }
    ensures form_feed { HasFault (12 ∷ []) 0 (Cause.Word 12) }
    ensures large { HasFault (codes "18446744073709551616") 0 Cause.NumberTooLarge }
    ensures no_utf8 { HasFault (34 ∷ 128 ∷ 34 ∷ []) 0 (Cause.Word 34) }
{}

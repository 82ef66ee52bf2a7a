ghost use Rattle.std.specs.Prelude.{◌≡◌, ◌<◌, ◌≤◌, ◌⊎◌, ℕ, List, [], ◌∷◌, ◌++◌, Some, length, slice_get, slice_range, IsTrue};
ghost use Rattle.ms_text.specs.Fault.{HasFault};
ghost use Rattle.ms_text.specs.Gap.{is_blank};
ghost use Rattle.ms_text.specs.Spelling.{Spells};
ghost use Rattle.ms_text.specs.TokenList.{IsTokenList, place_behind};
ghost use Rattle.ms_text.specs.declared.fault.Cause.{Cause};
ghost use Rattle.ms_text.specs.declared.token.Token.{Token};

/// A text has at most one list of tokens.
pub fn one_token_list()
    ensures { (bytes : List ℕ) (one two : List Token) →
        IsTokenList 0 bytes one → IsTokenList 0 bytes two → one ≡ two }
{}

/// A text has a list of tokens or a first fault, and not both.
pub fn tokens_or_fault()
    ensures told { (bytes : List ℕ) → ((tokens : List Token) × IsTokenList 0 bytes tokens)
        ⊎ ((at : ℕ) × (cause : Cause) × HasFault bytes at cause) }
    ensures apart { (bytes : List ℕ) (tokens : List Token) (at : ℕ) (cause : Cause) →
        IsTokenList 0 bytes tokens → ¬ (HasFault bytes at cause) }
{}

/// A text has at most one first fault.
pub fn one_first_fault()
    ensures place { (bytes : List ℕ) (one two : ℕ) (cause other : Cause) →
        HasFault bytes one cause → HasFault bytes two other → one ≡ two }
    ensures cause { (bytes : List ℕ) (one two : ℕ) (cause other : Cause) →
        HasFault bytes one cause → HasFault bytes two other → cause ≡ other }
{}

/// Tokens stand in the text, and their spans rise and do not meet.
pub fn spans()
    ensures within { (bytes : List ℕ) (tokens : List Token) (i : ℕ) (token : Token) →
        IsTokenList 0 bytes tokens → slice_get tokens i ≡ Some token → place_behind token ≤ length bytes }
    ensures nonempty { (bytes : List ℕ) (tokens : List Token) (i : ℕ) (token : Token) →
        IsTokenList 0 bytes tokens → slice_get tokens i ≡ Some token → 0 < token.length }
    ensures spelled { (bytes : List ℕ) (tokens : List Token) (i : ℕ) (token : Token) →
        IsTokenList 0 bytes tokens → slice_get tokens i ≡ Some token →
        Spells token.kind (slice_range bytes token.place (place_behind token)) }
    ensures rising { (bytes : List ℕ) (tokens : List Token) (i j : ℕ) (one two : Token) →
        IsTokenList 0 bytes tokens → i < j → slice_get tokens i ≡ Some one → slice_get tokens j ≡ Some two →
        place_behind one ≤ two.place }
    ensures count { (bytes : List ℕ) (tokens : List Token) →
        IsTokenList 0 bytes tokens → length tokens ≤ length bytes }
{}

/// A blank behind a text changes no token, wherever the text ends: behind a token it is a blank, and behind
/// a comment to the end of the line it belongs to that comment or ends its line.
pub fn blank_behind()
    ensures { (bytes : List ℕ) (tokens : List Token) (b : ℕ) →
        IsTrue (is_blank b) → IsTokenList 0 bytes tokens → IsTokenList 0 (bytes ++ b ∷ []) tokens }
{}

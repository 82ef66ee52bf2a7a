//! Worked examples of what buffers spell, and of how an outcome is given. The functions have empty bodies, and their contracts state
//! the examples.

ghost use Rattle.std.specs.Prelude.{◌≡◌, ◌++◌, ◌∷◌, [], None, Some, codes};
ghost use Rattle.ms_edge.specs.FilesInMemory.{held_under};
ghost use Rattle.monastr_c.specs.Buffers.{FilesAddUp, files_in, names_in, pieces};
ghost use Rattle.monastr_c.specs.Reply.{Begins, sizes_of};
ghost use Rattle.monastr_c.specs.Request.{AddUp, words_in};
ghost use Rattle.monastr_c.specs.declared.request.Request.{Request as Asked};
ghost use Rattle.monastr_c.specs.inner.Examples.{file, twice, wrote_one};

/// Words that bytes spell.
pub fn worked_pieces()
    ensures none { pieces [] [] ≡ [] }
    ensures two { pieces (codes "decidea.mona") (6 ∷ 6 ∷ []) ≡ codes "decide" ∷ codes "a.mona" ∷ [] }
    ensures empty { pieces (codes "ab") (0 ∷ 2 ∷ []) ≡ [] ∷ codes "ab" ∷ [] }
{}

/// Files that bytes spell. Of two with one name the last is held.
pub fn worked_files()
    ensures one { files_in (codes "atrue;") (file 1 5 ∷ []) ≡ (codes "a", codes "true;") ∷ [] }
    ensures two { files_in (codes "atrue;a") twice ≡ (codes "a", codes "true;") ∷ (codes "a", []) ∷ [] }
    ensures names { names_in (codes "atrue;a") twice ≡ codes "a" ∷ codes "a" ∷ [] }
    ensures last { held_under (files_in (codes "atrue;a") twice) (codes "a") ≡ Some [] }
    ensures other { held_under (files_in (codes "atrue;a") twice) (codes "b") ≡ None }
    ensures add_up { FilesAddUp (codes "atrue;a") twice }
    ensures differ { ¬ FilesAddUp (codes "atrue;") twice }
{}

/// Requests whose lengths do not add up: one byte is left over, or one is wanting.
pub fn worked_requests()
    ensures over { (request : Asked) → request.words.now ≡ codes "gen" → request.word_lengths.now ≡ 2 ∷ [] → ¬ AddUp request }
    ensures wanting { (request : Asked) → request.words.now ≡ codes "gen" → request.word_lengths.now ≡ 4 ∷ [] → ¬ AddUp request }
    ensures words { (request : Asked) → request.words.now ≡ codes "gen3" → request.word_lengths.now ≡ 3 ∷ 1 ∷ []
        → words_in request ≡ codes "gen" ∷ codes "3" ∷ [] }
{}

/// How much an outcome needs, and what stands in a room once it was given.
pub fn worked_replies()
    ensures sizes { sizes_of wrote_one ≡ record { text = 6; bytes = 10; files = 1 } }
    ensures front { Begins (codes "abc") (codes "xyc") (codes "xy") }
    ensures behind { ¬ Begins (codes "abc") (codes "xyz") (codes "xy") }
{}

//! Worked examples of the definitions. The functions have empty bodies, and their contracts state the examples.

ghost use Rattle.ms_edge.specs.declared.refusal.Refusal.TheVariants.{ImportMissing, ReadFault};
ghost use Rattle.ms_dfafile_imports.specs.inner.Examples.{content_in, import_by, import_of, nowhere, one_absence};
ghost use Rattle.ms_dfafile_imports.specs.Enough.{contents_of};
ghost use Rattle.ms_dfafile_adopt.specs.inner.Examples.{set_pair, subset};
ghost use Rattle.ms_logic_measures.specs.inner.MeasuredContents.{turned_subset};
ghost use Rattle.ms_logic_words.specs.inner.ContentExamples.{subset_content};
ghost use Rattle.ms_dfafile_imports.specs.Imports.{HaveOneContent, IsUnimported};
ghost use Rattle.ms_logic.specs.declared.mode.Mode.TheVariants.{M2lStr, Ws1s};
ghost use Rattle.std.specs.Prelude.{◌≡◌, [], ◌∷◌, codes};

/// Imports that are refused, by files that hold nothing: one was not there when it was read.
pub fn worked_refusals()
    // import("a");
    ensures missing { IsUnimported one_absence Ws1s 100 (import_of (codes "a") ∷ []) (ImportMissing nowhere (codes "a")) }
    ensures other_name { ¬ IsUnimported one_absence Ws1s 100 (import_of (codes "a") ∷ []) (ImportMissing nowhere (codes "b")) }
    ensures no_fault { ¬ IsUnimported one_absence Ws1s 100 (import_of (codes "a") ∷ []) (ReadFault (codes "a")) }

    // import("a") & import("b");
    ensures not_first { ¬ IsUnimported one_absence Ws1s 100 (import_of (codes "a") ∷ import_of (codes "b") ∷ []) (ImportMissing nowhere (codes "b")) }
{}

/// The contents of two imports.
pub fn worked_contents()
    // of one file
    ensures two_contents { ¬ HaveOneContent (import_of (codes "a") ∷ import_of (codes "a") ∷ []) (content_in Ws1s ∷ content_in M2lStr ∷ []) }

    // of two files
    ensures two_files { HaveOneContent (import_of (codes "a") ∷ import_of (codes "b") ∷ []) (content_in Ws1s ∷ content_in M2lStr ∷ []) }

    // of one file, whose variables stand for others in each
    ensures by_places { contents_of (import_by (codes "a") (set_pair (codes "P") ∷ set_pair (codes "Q") ∷ []) ∷ import_by (codes "a") (set_pair (codes "Q") ∷ set_pair (codes "P") ∷ []) ∷ [])
        (subset ∷ subset ∷ []) ≡ subset_content ∷ turned_subset ∷ [] }
{}

ghost use Rattle.std.specs.Prelude.{[], ◌∷◌, Some};
ghost use Rattle.ms_edge.specs.declared.refusal.Refusal.TheVariants.{FileMissing, IncludeCycle, NotHere};
ghost use Rattle.ms_include.specs.inner.Examples.{a, b, c, d, at, mark, include, goal, plain, headed, files_in, gives};
ghost use Rattle.ms_include.specs.Load.{IsLoaded, IsRefusedLoad};

/// Sources of several files, and the declarations that they come to.
pub fn example_loads()
    // Without includes a source is its own declarations.
    ensures one_file { IsLoaded (files_in ((a, plain (mark 1 ∷ mark 2 ∷ [])) ∷ [])) a (gives (mark 1 ∷ mark 2 ∷ []) (a ∷ [])) }

    // An include stands for the declarations of its file, right where it is; a second one adds nothing.
    ensures in_place { IsLoaded (files_in
        ((a, plain (mark 1 ∷ include 0 20 b ∷ mark 2 ∷ include 0 60 b ∷ mark 3 ∷ [])) ∷ (b, plain (mark 7 ∷ mark 8 ∷ [])) ∷ [])) a
        (gives (mark 1 ∷ mark 7 ∷ mark 8 ∷ mark 2 ∷ mark 3 ∷ []) (a ∷ b ∷ [])) }

    // A file that two others include stands where the first of them includes it.
    ensures shared { IsLoaded (files_in
        ((a, plain (include 0 0 b ∷ include 0 13 c ∷ [])) ∷ (b, plain (include 1 0 d ∷ mark 1 ∷ [])) ∷ (c, plain (include 3 0 d ∷ mark 2 ∷ [])) ∷ (d, plain (mark 3 ∷ [])) ∷ [])) a
        (gives (mark 3 ∷ mark 1 ∷ mark 2 ∷ []) (a ∷ b ∷ d ∷ c ∷ [])) }

    // A goal of any file is a goal of the source, under the title that it has there.
    ensures goals { IsLoaded (files_in
        ((a, plain (include 0 0 b ∷ goal 0 13 c ∷ [])) ∷ (b, plain (goal 1 0 d ∷ [])) ∷ [])) a
        (gives (goal 1 0 d ∷ goal 0 13 c ∷ []) (a ∷ b ∷ [])) }
{}

/// Sources of several files that are refused, each with the files that were read by then.
pub fn example_refused_loads()
    // A file that includes itself through two others: at the include that closes the chain.
    ensures cycle { IsRefusedLoad (files_in
        ((a, plain (include 0 0 b ∷ [])) ∷ (b, plain (mark 1 ∷ include 1 13 c ∷ [])) ∷ (c, plain (include 2 0 a ∷ [])) ∷ [])) a
        (IncludeCycle (at 2 8) a (0 ∷ 1 ∷ 2 ∷ [])) (a ∷ b ∷ c ∷ []) }

    // The main file's own name.
    ensures own_name { IsRefusedLoad (files_in ((a, plain (mark 1 ∷ include 0 40 a ∷ [])) ∷ [])) a (IncludeCycle (at 0 48) a (0 ∷ [])) (a ∷ []) }

    // A file that is not there, at the place where it is named.
    ensures missing { IsRefusedLoad (files_in ((a, plain (include 0 5 b ∷ [])) ∷ [])) a (FileMissing (Some (at 0 13)) b) (a ∷ []) }

    // A header in an included file, at the header.
    ensures header { IsRefusedLoad (files_in ((a, headed 0 (include 0 6 b ∷ [])) ∷ (b, headed 1 []) ∷ [])) a (NotHere (at 1 0)) (a ∷ b ∷ []) }

    // The first of two: what an earlier include leads to comes before what follows it.
    ensures first { IsRefusedLoad (files_in
        ((a, plain (include 0 0 b ∷ include 0 13 d ∷ [])) ∷ (b, plain (mark 1 ∷ include 1 9 c ∷ [])) ∷ (c, headed 2 []) ∷ [])) a
        (NotHere (at 2 0)) (a ∷ b ∷ c ∷ []) }
{}

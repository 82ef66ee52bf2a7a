//! Laws of canonical contents. Each function has an empty body, and its contract states its laws.

ghost use Rattle.ms_dfa.specs.declared.plain.FileSign.{FileSign};
ghost use Rattle.ms_minim_canonical.specs.Laws.{CanonicalContentsAreEqual, CanonicalContentsHaveFewestStates};

use ms_dfa::FileSign;

/// Of the contents of a mode that give each word over their variables the same sign, one is canonical at most, and it has
/// fewest states, whatever the signs are.
pub fn laws_of_canonical_contents<Sign>()
    ensures equal { CanonicalContentsAreEqual Sign }
    ensures fewest { CanonicalContentsHaveFewestStates Sign }
{}

/// The same of the contents of files.
pub fn laws_of_canonical_files()
    ensures equal { CanonicalContentsAreEqual FileSign }
    ensures fewest { CanonicalContentsHaveFewestStates FileSign }
{
    laws_of_canonical_contents::<FileSign>();
}

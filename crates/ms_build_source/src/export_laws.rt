//! Laws of the definitions. The function has an empty body, and its contract states the laws.

ghost use Rattle.ms_build_source.specs.ExportLaws.{ExportsAreEqualWhereValuesAre, ExportsAreMainFilesWhereValuesAre, MainFilesAreEqualWhereValuesAre};

/// Files under the same names have equal bytes exactly where they give one value: those of two formulas, that of a formula and that of
/// a main value, and those of two main values.
pub fn laws_of_exports()
    ensures exports { ExportsAreEqualWhereValuesAre }
    ensures mixed { ExportsAreMainFilesWhereValuesAre }
    ensures main { MainFilesAreEqualWhereValuesAre }
{}

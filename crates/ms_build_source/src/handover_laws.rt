//! What lowering and sharing ask of what they are handed. The function has an empty body, and its contract
//! states the laws.

ghost use Rattle.ms_build_source.specs.inner.HandoverLaws.{SourcesAreShared, SourcesHaveRoots, SourcesImportFromTheTable, SourcesListVariables, SourcesWithoutExportsListVariables};

/// A source whose numbers are in order lists its variables, as lowering asks, where its exports list their free variables or
/// it exports nothing; its core formulas import from the table of the source alone; and what lowering gives for it has the roots of the
/// source, where calls stand for what they become, and is what sharing asks.
pub fn laws_of_handover()
    ensures lists_variables { SourcesListVariables }
    ensures lists_without_exports { SourcesWithoutExportsListVariables }
    ensures roots { SourcesHaveRoots }
    ensures shared { SourcesAreShared }
    ensures imports { SourcesImportFromTheTable }
{}

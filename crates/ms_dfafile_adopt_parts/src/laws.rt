//! What an import lacks and makes. The function has an empty body, and its contract states the laws.

ghost use Rattle.ms_dfafile_adopt_parts.specs.Laws.{AdoptionsAreWithinMeasure, AdoptionsHaveFewParts, EnoughIsNotBelowImport, LackingAdoptionsAreBelowTheirImport};

/// A file that lacks nodes as an import lacks them only under a limit below the measure of the call that adopts it, and so below each
/// budget of the import; and no limit that is enough is below the import. Starts lead what it makes of a file to no more references than
/// the number m of its measure.
pub fn laws_of_adoptions()
    ensures measure { AdoptionsAreWithinMeasure }
    ensures few { AdoptionsHaveFewParts }
    ensures below { LackingAdoptionsAreBelowTheirImport }
    ensures enough { EnoughIsNotBelowImport }
{}

//! Laws of the definitions. The functions have empty bodies, and their contracts state the laws.

ghost use Rattle.ms_include_laws.specs.inner.loads.Checks.{FaultlessSourcesPass, ShallowSourcesPass, SmallSourcesPass, TypedSourcesAreOneProblem, TypedSourcesAskTheSame};
ghost use Rattle.ms_include_laws.specs.inner.loads.Loads.{FilesAreOneSource, LoadableSourcesLoad, LoadableTextsLoad, LoadsAreOne, SourceFilesAreRead, TextLoadsAreOne};
ghost use Rattle.ms_include_laws.specs.inner.loads.Reading.{GrammarFaultsAreOne, ReadAsOneSource, RefusalsAreOne, SourcesAreRead};

/// Bytes read as one source at most, places included. Where they read as a source they are not refused, and where they read
/// as none they are refused in one way; want of memory is free.
pub fn laws_of_reading()
    ensures source { ReadAsOneSource }
    ensures read { SourcesAreRead }
    ensures grammar { GrammarFaultsAreOne }
    ensures refusal { RefusalsAreOne }
{}

/// Where files tell what they hold, a file reads as one source at most, and is not refused then. A main file with its includes
/// loads as one source at most; if it loads, a load of it is refused only for want of memory, or since a read failed.
pub fn laws_of_loads()
    ensures file { FilesAreOneSource }
    ensures file_read { SourceFilesAreRead }
    ensures load { LoadsAreOne }
    ensures loadable { LoadableSourcesLoad }
{}

/// A text loads as one source at most, and is refused for want of memory alone if it loads.
pub fn laws_of_texts()
    ensures load { TextLoadsAreOne }
    ensures loadable { LoadableTextsLoad }
{}

/// A source without a fault passes the check, becomes one problem, and asks the same of its formulas and of its goals, whichever
/// tree of the code stands for it. One within the limits on depth and size is refused for neither.
pub fn laws_of_checks()
    ensures faultless { FaultlessSourcesPass }
    ensures shallow { ShallowSourcesPass }
    ensures small { SmallSourcesPass }
    ensures problem { TypedSourcesAreOneProblem }
    ensures questions { TypedSourcesAskTheSame }
{}

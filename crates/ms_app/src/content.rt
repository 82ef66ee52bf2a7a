ghost use Rattle.std.specs.Prelude.{◌≡◌, ◌≤◌, ◌+◌, ℕ, List, length, IfOk};
ghost use Rattle.ms_build.specs.Built.{IsLimit};
ghost use Rattle.ms_dfa.specs.Files.{HasSignsOf, content_of_file};
ghost use Rattle.ms_dfa.specs.declared.plain.FileVersion.TheVariants.{Two};
ghost use Rattle.ms_dfafile.specs.File.{names_of};
ghost use Rattle.ms_logic_words.specs.Canonical.{IsCanonical};
ghost use Rattle.ms_logic.specs.Verdict.{Problem};
ghost use Rattle.ms_build_source.specs.inner.Copies.{IsCanonicalCopy};
ghost use Rattle.ms_build_source.specs.Solution.{IsNamed};
ghost use Rattle.ms_build_source.specs.Values.{HasMainValue, IsMainFile};
ghost use Rattle.ms_app.specs.Counts.{IsCanonicalOf};

use ms_build_source::Solution;
use ms_dfa::{FileVersion, Plain};
use ms_list::{NoMemory, StepFault};
use ms_minim_canonical::canonical;
use std::alloc::Global;

/// The canonical content, in a version, of the main value of a source over its globals. Its automaton has at most `limit` nodes and states, and
/// so has the content.
pub fn canonical_of(
    alloc: Global,
    solution: &Solution,
    version: FileVersion,
    limit: u64,
) -> Result<Plain, NoMemory>
    requires named { IsNamed solution.now }
    requires limit { IsLimit limit }
    requires fits { length solution.now.automaton.nodes + length solution.now.automaton.states ≤ limit }
    ensures copy { IfOk result (IsCanonicalCopy version solution.now.automaton solution.now.names) }
    ensures content { IfOk result (λ made. (problem : Problem) → HasMainValue problem solution.now.automaton → IsCanonicalOf version problem (content_of_file made)) }
    ensures file { IfOk result (λ made. (problem : Problem) → HasMainValue problem solution.now.automaton → IsMainFile version problem solution.now.names made) }
    ensures canonical { IfOk result (λ made. IsCanonical (content_of_file made)) }
    ensures signs { IfOk result (λ made. HasSignsOf made.version (content_of_file made)) }
    ensures names { IfOk result (λ made. names_of made ≡ solution.now.names) }
    ensures small { IfOk result (λ made. length made.nodes + length made.states ≤ 4000000000) }
{
    // The number of states tells that it is an automaton.
    let _ = solution.automaton.states();
    match canonical(alloc, &solution.automaton, &solution.names, version, limit) {
        Ok(content) => Ok(content),
        Err(StepFault::Memory) => Err(NoMemory),
        // An automaton within the limit has a canonical content within it.
        Err(StepFault::Nodes { .. }) => unreachable!(),
    }
}

/// The content in version 2, which counts are of, by the content in some version.
pub fn in_second_version(
    alloc: Global,
    solution: &Solution,
    content: Plain,
    limit: u64,
) -> Result<Plain, NoMemory>
    requires named { IsNamed solution.now }
    requires limit { IsLimit limit }
    requires fits { length solution.now.automaton.nodes + length solution.now.automaton.states ≤ limit }
    requires content { (problem : Problem) → HasMainValue problem solution.now.automaton → IsCanonicalOf content.version problem (content_of_file content) }
    ensures { IfOk result (λ made. (problem : Problem) → HasMainValue problem solution.now.automaton → IsCanonicalOf Two problem (content_of_file made)) }
{
    match content.version {
        FileVersion::Two => Ok(content),
        FileVersion::One => canonical_of(alloc, solution, FileVersion::Two, limit),
    }
}

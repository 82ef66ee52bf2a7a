ghost use Rattle.std.specs.Prelude.{◌≡◌, ◌≤◌, ◌<◌, ◌+◌, length, map, IfOk};
ghost use Rattle.std.specs.Option.{option_map};
ghost use Rattle.ms_list.specs.declared.word.Word.{Word};
ghost use Rattle.ms_logic_words.specs.Canonical.{IsCanonical};
ghost use Rattle.ms_logic_words.specs.Content.{IsWordOver, sign_of};
ghost use Rattle.ms_dfa_explore.specs.Explored.{OnRefused};
ghost use Rattle.ms_dfa.specs.Files.{content_of_file, file_sign};
ghost use Rattle.ms_minim.specs.Needed.{NeedsAtLeast};
ghost use Rattle.ms_minim_canonical.specs.inner.Reading.{IsReadingFor};

use crate::renumber::renumbered;
use ms_dfa::{Automaton, FileVar, FileVersion, Plain, Track};
use ms_list::{List, Name, NoMemory, StepFault, push};
use ms_minim::{SignReading, reduce};
use std::alloc::Global;

/// Variables of a file with the orders of tracks, and with names.
fn file_variables(
    alloc: Global,
    tracks: &[Track],
    names: &[Name],
) -> Result<List<FileVar>, NoMemory>
    requires { length names.now ≡ length tracks.now }
    ensures orders { IfOk result (λ made. map (λ v. v.order) made ≡ map (λ track. track.order) tracks.now) }
    ensures names { IfOk result (λ made. map (λ v. v.name) made ≡ names.now) }
{
    let mut made = List::new(alloc);
    for place in 0..tracks.len() {
        let name = Name::new(alloc, names[place].text())?;
        let order = tracks[place].order;
        push(&mut made, FileVar { order, name })?;
    }
    Ok(made)
}

/// How signs are read for a file of a version: as one exactly where it has one sign for them.
fn reading_of(version: FileVersion) -> SignReading
    ensures { IsReadingFor version result }
{
    match version {
        FileVersion::One => SignReading::UndefinedAsOutside,
        FileVersion::Two => SignReading::AsTheyAre,
    }
}

/// The canonical content of an automaton file of a version: among the contents of that version the only one of fewest states,
/// with reduced diagrams and all numbered by first sight, that gives each word the file's sign of its own. Each track has a
/// name. Nodes and states are together at most `limit`.
pub fn canonical(
    alloc: Global,
    a: &Automaton,
    names: &List<Name>,
    version: FileVersion,
    limit: u64,
) -> Result<Plain, StepFault>
    requires named { length names.now ≡ length a.now.variables }
    requires some { 1 ≤ limit }
    requires small { limit ≤ 4000000000 }
    ensures version { IfOk result (λ made. made.version ≡ version) }
    ensures mode { IfOk result (λ made. made.mode ≡ a.now.mode) }
    ensures orders { IfOk result (λ made. map (λ v. v.order) made.variables ≡ map (λ v. v.order) a.now.variables) }
    ensures names { IfOk result (λ made. map (λ v. v.name) made.variables ≡ names.now) }
    ensures signs { IfOk result (λ made. (word : Word) → IsWordOver a.now.variables word → sign_of (content_of_file made) word ≡ option_map (file_sign version) (sign_of a.now word)) }
    ensures canonical { IfOk result (λ made. IsCanonical (content_of_file made)) }
    ensures few { IfOk result (λ made. length made.nodes + length made.states ≤ limit) }
    ensures nodes { OnRefused result (λ refused. (refused ≡ limit) × (limit < length a.now.nodes + length a.now.states)) }
    ensures needs { OnRefused result (λ refused. NeedsAtLeast limit a.now) }
{
    let variables = match file_variables(alloc, a.tracks(), names.slice()) {
        Ok(variables) => variables,
        Err(_) => return Err(StepFault::Memory),
    };
    let reduced = match reduce(alloc, a, reading_of(version), limit) {
        Ok(reduced) => reduced,
        Err(fault) => return Err(fault),
    };
    let states = reduced.states.slice();
    let made = match renumbered(alloc, &reduced.store, reduced.start, states, version) {
        Ok(made) => made,
        Err(_) => return Err(StepFault::Memory),
    };
    Ok(Plain {
        version,
        mode: a.mode(),
        variables,
        start: made.start,
        states: made.states,
        nodes: made.nodes,
    })
}

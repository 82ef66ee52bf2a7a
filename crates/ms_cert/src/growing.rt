ghost use Rattle.std.specs.Prelude.{◌≡◌, ◌<◌, ◌+◌, ◌++◌, ◌∷◌, [], ℕ, List as Sequence, Some, length, map, slice_get, slice_index, IfOk, OnOk};
ghost use Rattle.std.specs.List.{AllByRecursion};
ghost use Rattle.ms_dfa.specs.Files.{content_of_file};
ghost use Rattle.ms_cert.specs.Certificate.{AreApart, IsLineOver};
ghost use Rattle.ms_cert.specs.declared.cert.TreeLine.TheVariants.{At, By};
ghost use Rattle.ms_cert.specs.inner.Growing.{Joins};
ghost use Rattle.ms_cert.specs.inner.Partition.{IsDiscrete, IsPartition, classes_of};

use crate::cert::TreeLine;
use crate::laid_out::LaidOut;
use crate::partition::{Partition, append};
use crate::splitter::Splitter;
use ms_list::{List, NoMemory};
use std::alloc::Global;

/// For each class the leaf of its first state.
fn leaves(alloc: Global, members: &[List<u32>]) -> Result<Vec<List<TreeLine>>, NoMemory>
    requires { (class : ℕ) (states : Sequence ℕ) → slice_get members.now class ≡ Some states → 0 < length states }
    ensures { IfOk result (λ made. made.items ≡ map (λ states. At (slice_index states 0) ∷ []) members.now) }
{
    let mut made = Vec::new(alloc);
    for states in members {
        let mut lines = Vec::new(alloc);
        append(&mut lines, TreeLine::At(*states.get(0)))?;
        append(&mut made, List::from(lines))?;
    }
    Ok(made)
}

/// The lines of two trees, and a line behind both.
fn branch(
    line: TreeLine,
    first: List<TreeLine>,
    second: List<TreeLine>,
) -> Result<List<TreeLine>, NoMemory>
    ensures { IfOk result (λ made. made ≡ second ++ first ++ line ∷ []) }
{
    let mut lines = second.into_vec();
    let mut others = first.into_vec();
    match lines.append(&mut others) {
        Ok(()) => {}
        Err(_) => return Err(NoMemory),
    }
    append(&mut lines, line)?;
    Ok(List::from(lines))
}

/// The last class goes back into another one: the lines of both become one tree behind a line, which stands last.
fn join(
    alloc: Global,
    trees: &mut Vec<List<TreeLine>>,
    parent: usize,
    line: TreeLine,
) -> Result<(), NoMemory>
    requires { parent + 1 < length trees.old.items }
    ensures { OnOk result (Joins parent line trees.old.items trees.new.items) }
{
    let Some(first) = trees.pop() else {
        unreachable!()
    };
    let second = std::mem::replace(&mut trees[parent], List::new(alloc));
    trees[parent] = branch(line, first, second)?;
    Ok(())
}

/// The lines of a tree that separates all states, where each has a class of its own: from the last class on each goes back into the
/// one from which it was split off, behind a line with its splitter.
pub(crate) fn grow_tree(file: &LaidOut, partition: Partition) -> Result<List<TreeLine>, NoMemory>
    requires partition { IsPartition (content_of_file file.now.plain.now) (classes_of partition) }
    requires discrete { IsDiscrete partition.classes.items }
    requires some { 0 < length file.now.plain.now.states }
    ensures apart { IfOk result (AreApart (content_of_file file.now.plain.now)) }
    ensures over { IfOk result (AllByRecursion (IsLineOver (content_of_file file.now.plain.now).variables)) }
{
    let mut partition = partition;
    let mut trees = leaves(file.alloc, partition.members.as_slice())?;
    'joining: while trees.len() > 1 {
        let Some(splitter) = partition.splitters.pop() else {
            unreachable!()
        };
        let Splitter { sign, letters, .. } = splitter;
        let parent = partition.parents[trees.len() - 1];
        let letters = letters.into_list(file.alloc)?;
        join(file.alloc, &mut trees, parent, TreeLine::By(sign, letters))?;
    }
    let Some(last) = trees.pop() else {
        unreachable!()
    };
    let mut lines = last.into_vec();
    lines.reverse();
    Ok(List::from(lines))
}

ghost use Rattle.std.specs.Prelude.{◌≡◌, ◌≤◌, ◌<◌, ℕ, length, slice_get, IfOk, IsTrue};
ghost use Rattle.ms_minim.specs.inner.Image.{AreImages};
ghost use Rattle.ms_minim.specs.inner.Origin.{AreOrigins};
ghost use Rattle.ms_minim.specs.inner.Refined.{IsRefined};
ghost use Rattle.ms_minim.specs.inner.Partition.{IsIdentity, IsPartition, IsPassed, AreNerodeClasses, IsInhabited};

use crate::classes::Partition;
use crate::discrete::{own_classes, own_images};
use crate::hashes::split_by_hashes;
use crate::images::{Images, Reached, images_of};
use crate::marking::{marks, sign_marks};
use crate::origins::{Origins, reach_all, reach_nodes};
use crate::reading::Reader;
use crate::rounds::group;
use crate::splitting::split;
use ms_list::{List, NoMemory, push};
use std::alloc::Global;

/// How many passes that split little are made over all states before classes are split where few states lead elsewhere.
const PASSES: u32 = 16;

/// All of so many states in one class.
fn one_class(alloc: Global, states: u32) -> Result<Partition, NoMemory>
    requires { 1 ≤ states }
    ensures inhabited { IfOk result (λ made. IsInhabited made.classes made.members) }
    ensures all { IfOk result (λ made. length made.classes ≡ states) }
    ensures one { IfOk result (λ made. (one other : ℕ) → one < states → other < states → slice_get made.classes one ≡ slice_get made.classes other) }
{
    let mut classes = List::new(alloc);
    for _ in 0..states {
        push(&mut classes, 0)?;
    }
    let mut members = List::new(alloc);
    push(&mut members, 0)?;
    Ok(Partition { classes, members })
}

/// The states by their signs.
fn by_signs(alloc: Global, automaton: &Reader) -> Result<Partition, NoMemory>
    ensures { IfOk result (λ made. IsPartition automaton.now made.classes made.members) }
{
    let one = one_class(alloc, automaton.states())?;
    let signs = sign_marks(alloc, automaton)?;
    split(alloc, &one, signs.slice())
}

/// Classes of states with the images of the nodes by them, and these classes split by where letters lead.
#[derive(Drop)]
pub(crate) struct Pass {
    pub images: Images,
    pub finer: Partition,
}

/// The states by their residuals, with the images of the nodes by them.
#[derive(Drop)]
pub(crate) struct Residuals {
    pub partition: Partition,
    pub images: Images,
}

/// All classes split by where letters lead from their states.
fn split_once(
    alloc: Global,
    automaton: &Reader,
    origins: &Origins,
    partition: &Partition,
) -> Result<Pass, NoMemory>
    requires origins { AreOrigins automaton.now origins.now }
    requires partition { IsPartition automaton.now partition.now.classes partition.now.members }
    ensures images { IfOk result (λ made. AreImages automaton.now.nodes partition.now.classes origins.now.nodes.items made.images) }
    ensures few { IfOk result (λ made. length made.images.store.nodes ≤ length automaton.now.nodes) }
    ensures finer { IfOk result (λ made. IsPassed automaton.now partition.now.classes partition.now.members made.finer.classes made.finer.members) }
{
    // The states tell that it is an automaton.
    let _ = automaton.states();
    let classes = partition.classes.slice();
    let reached = Reached {
        store: automaton.store(),
        origins: &origins.nodes,
        classes,
    };
    let images = images_of(alloc, &reached)?;
    let marks = marks(alloc, automaton, origins, &images, classes)?;
    let finer = split(alloc, partition, marks.slice())?;
    Ok(Pass { images, finer })
}

/// What a pass comes to: finer classes, or the images of the nodes where no class is to be split.
#[derive(Drop)]
pub(crate) enum Refined {
    Finer(Partition),
    Settled(Images),
}

/// Classes split by hashes, and where these tell none apart, by where letters lead from all states.
fn refine_once(
    alloc: Global,
    automaton: &Reader,
    origins: &Origins,
    partition: &Partition,
) -> Result<Refined, NoMemory>
    requires origins { AreOrigins automaton.now origins.now }
    requires partition { IsPartition automaton.now partition.now.classes partition.now.members }
    ensures { IfOk result (IsRefined automaton.now origins.now.nodes.items partition.now.classes partition.now.members) }
{
    let finer = split_by_hashes(alloc, automaton, partition)?;
    if finer.members.len() != partition.members.len() {
        return Ok(Refined::Finer(finer));
    }
    let Pass { images, finer } = split_once(alloc, automaton, origins, partition)?;
    if finer.members.len() == partition.members.len() {
        Ok(Refined::Settled(images))
    } else {
        Ok(Refined::Finer(finer))
    }
}

/// Whether a pass has come to less than half as many classes again. All others together are few, however many states there are.
fn splits_little(before: usize, after: usize) -> bool {
    after.saturating_sub(before) < before / 2
}

/// Classes that passes have come to. Where it is due they are split too by what `group` makes of them, which goes on where few
/// states lead elsewhere.
fn regrouped(
    alloc: Global,
    automaton: &Reader,
    places: &[u32],
    partition: Partition,
    is_due: bool,
) -> Result<Partition, NoMemory>
    requires places { IsIdentity (length automaton.now.variables) places.now }
    requires partition { IsPartition automaton.now partition.classes partition.members }
    ensures partition { IfOk result (λ made. IsPartition automaton.now made.classes made.members) }
    ensures more { IfOk result (λ made. length partition.members ≤ length made.members) }
{
    if !is_due {
        return Ok(partition);
    }
    // The states tell that it is an automaton.
    let _ = automaton.states();
    let groups = group(alloc, automaton, places, &partition)?;
    let finer = split(alloc, &partition, &groups)?;
    Ok(finer)
}

/// Whether each state has a class of its own, and words lead to all of them and to all nodes, so that nothing falls together and
/// nothing falls away.
fn is_discrete(automaton: &Reader, origins: &Origins, partition: &Partition) -> bool
    ensures { IsTrue result → length partition.now.members ≡ length automaton.now.states }
{
    partition.members.len() == automaton.states() as usize
        && reach_all(origins)
        && reach_nodes(origins)
}

/// The states and the nodes as they are, where each state has a class of its own.
fn own_residuals(
    alloc: Global,
    automaton: &Reader,
    origins: &Origins,
    partition: &Partition,
) -> Result<Residuals, NoMemory>
    requires origins { AreOrigins automaton.now origins.now }
    requires partition { IsPartition automaton.now partition.now.classes partition.now.members }
    requires own { length partition.now.members ≡ length automaton.now.states }
    ensures classes { IfOk result (λ made. AreNerodeClasses automaton.now made.partition.classes made.partition.members) }
    ensures images { IfOk result (λ made. AreImages automaton.now.nodes made.partition.classes origins.now.nodes.items made.images) }
    ensures few { IfOk result (λ made. length made.images.store.nodes ≤ length automaton.now.nodes) }
{
    let partition = own_classes(alloc, automaton.states())?;
    let images = own_images(alloc, automaton.store())?;
    // The length tells that the nodes are those of a store.
    let _ = images.store.len();
    Ok(Residuals { partition, images })
}

/// The states by their residuals.
pub(crate) fn refine(
    alloc: Global,
    automaton: &Reader,
    places: &[u32],
    origins: &Origins,
) -> Result<Residuals, NoMemory>
    requires places { IsIdentity (length automaton.now.variables) places.now }
    requires origins { AreOrigins automaton.now origins.now }
    ensures classes { IfOk result (λ made. AreNerodeClasses automaton.now made.partition.classes made.partition.members) }
    ensures images { IfOk result (λ made. AreImages automaton.now.nodes made.partition.classes origins.now.nodes.items made.images) }
    ensures few { IfOk result (λ made. length made.images.store.nodes ≤ length automaton.now.nodes) }
{
    let mut partition = by_signs(alloc, automaton)?;
    let mut passes: u32 = 0;
    loop {
        if is_discrete(automaton, origins, &partition) {
            return own_residuals(alloc, automaton, origins, &partition);
        }
        let finer = match refine_once(alloc, automaton, origins, &partition)? {
            Refined::Finer(finer) => finer,
            Refined::Settled(images) => return Ok(Residuals { partition, images }),
        };
        let is_slow = splits_little(partition.members.len(), finer.members.len());
        passes = passes.saturating_add(u32::from(is_slow));
        let is_due = is_slow && passes == PASSES;
        partition = regrouped(alloc, automaton, places, finer, is_due)?;
    }
}

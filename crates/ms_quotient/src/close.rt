ghost use Rattle.std.specs.Prelude.{◌≡◌, ℕ, ◌<◌, ◌⊎◌, length, All, IfOk, OnOk};
ghost use Rattle.ms_quotient.specs.Closure.{AreMarksFrom, IsClosure, LeadsWithin, marks_at};
ghost use Rattle.ms_quotient.specs.Way.{ArePlaces, IsClosedWhereSeen, IsOn, IsSeen, LeadsTo, union_along, written_along};

use crate::marks::Marks;
use crate::way::{Way, go_on, place_on};
use ms_list::{List, NoMemory};
use std::alloc::Global;

/// Places with their marks, each of which leads on to another.
#[derive(Clone, Copy)]
struct Places<'a> {
    next: &'a [u32],
    marks: &'a [Marks],
}

/// The marks on a way and those at its end.
fn union_along(marks: &[Marks], way: &[usize], end: Marks) -> Marks
    requires { All (λ place. place < length marks.now) way.now }
    ensures { result ≡ union_along marks.now way.now end }
{
    let mut met = end;
    let mut left = way.len();
    while left > 0 {
        left -= 1;
        met = marks[way[left]].with(met);
    }
    met
}

/// Goes back along a way, and writes at each place the marks from there on.
fn go_back(marks: &[Marks], closed: &mut [Marks], way: &[usize], end: Marks)
    requires marks { All (λ place. place < length marks.now) way.now }
    requires closed { length closed.old ≡ length marks.now }
    ensures { closed.new ≡ written_along marks.now closed.old way.now end }
{
    let mut met = end;
    let mut left = way.len();
    while left > 0 {
        left -= 1;
        let place = way[left];
        met = marks[place].with(met);
        closed[place] = met;
    }
}

/// The marks from the end of a way on: the way leads into a ring there, or to where it is closed already.
fn marks_at_end(places: &Places, closed: &[Marks], way: &Way) -> Marks
    requires long { length closed.now ≡ length places.now.next.now }
    requires places { ArePlaces places.now.next.now places.now.marks.now }
    requires all { All (λ place. place < length places.now.next.now) way.now.places }
    requires end { way.now.end < length places.now.next.now }
    requires way { (start : ℕ) × LeadsTo places.now.next.now start way.now.places way.now.end }
    requires closed { IsOn way.now.end way.now.places ⊎ AreMarksFrom places.now.next.now places.now.marks.now way.now.end (marks_at closed.now way.now.end) }
    ensures { AreMarksFrom places.now.next.now places.now.marks.now way.now.end result }
{
    let ring = place_on(way.places.slice(), way.end);
    if ring < way.places.len() {
        union_along(places.marks, &way.places.slice()[ring..], Marks::none())
    } else {
        closed[way.end]
    }
}

/// Closes the places to which one leads on, with itself, so far as they have not been seen.
fn close_from(
    alloc: Global,
    places: &Places,
    seen: &mut [bool],
    closed: &mut [Marks],
    start: usize,
) -> Result<(), NoMemory>
    requires places { ArePlaces places.now.next.now places.now.marks.now }
    requires start { start < length places.now.next.now }
    requires seen { length seen.old ≡ length places.now.next.now }
    requires long { length closed.old ≡ length places.now.next.now }
    requires closed { IsClosedWhereSeen places.now.next.now places.now.marks.now seen.old closed.old }
    ensures closed { OnOk result (IsClosedWhereSeen places.now.next.now places.now.marks.now seen.new closed.new) }
    ensures start { OnOk result (IsSeen seen.new start) }
    ensures kept { OnOk result ((place : ℕ) → IsSeen seen.old place → IsSeen seen.new place) }
{
    let way = go_on(alloc, places.next, seen, start)?;
    let end = marks_at_end(places, closed, &way);
    go_back(places.marks, closed, way.places.slice(), end);
    Ok(())
}

/// For each place the marks that stand there or at one of the places to which it leads on.
pub fn close_zeros(alloc: Global, next: &[u32], marks: &[Marks]) -> Result<List<Marks>, NoMemory>
    requires long { length next.now ≡ length marks.now }
    requires within { LeadsWithin next.now }
    ensures { IfOk result (IsClosure next.now marks.now) }
{
    let places = Places { next, marks };
    let Ok(mut seen) = vec![in alloc; false; next.len()] else {
        return Err(NoMemory);
    };
    let Ok(mut closed) = vec![in alloc; Marks::none(); next.len()] else {
        return Err(NoMemory);
    };
    for start in 0..next.len() {
        close_from(
            alloc,
            &places,
            seen.as_mut_slice(),
            closed.as_mut_slice(),
            start,
        )?;
    }
    Ok(List::from(closed))
}

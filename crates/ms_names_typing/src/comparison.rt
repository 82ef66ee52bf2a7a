//! Relations between numbers and sets, and whether a set is empty.

ghost use Rattle.ms_logic.specs.Tree as tree;
ghost use Rattle.ms_logic.specs.View.{argument_of, set_term_of, term_of};
ghost use Rattle.ms_names_rules.specs.Typed.{related, set_in, typed_relation};
ghost use Rattle.std.specs.Option.{option_map};
ghost use Rattle.std.specs.Prelude.{◌≡◌};

use crate::order::set_in;
use ms_logic::{Arg, Formula, Rel, Term1, Term2};

fn compared(rel: Rel, left: Term1, right: Term1) -> Option<Arg>
    ensures { option_map argument_of result ≡ related rel (tree.number_argument (term_of left)) (tree.number_argument (term_of right)) }
{
    match rel {
        Rel::Member | Rel::NotMember | Rel::Sub => None,
        Rel::Equal | Rel::Differs | Rel::Less | Rel::AtMost | Rel::Greater | Rel::AtLeast => {
            Some(Arg::Zero(Formula::Compare(rel, left, right)))
        }
    }
}

fn compared_sets(rel: Rel, left: Term2, right: Term2) -> Option<Arg>
    ensures { option_map argument_of result ≡ related rel (tree.set_argument (set_term_of left)) (tree.set_argument (set_term_of right)) }
{
    match rel {
        Rel::Equal | Rel::Differs | Rel::Sub => {
            Some(Arg::Zero(Formula::CompareSets(rel, left, right)))
        }
        Rel::Member | Rel::NotMember | Rel::Less | Rel::AtMost | Rel::Greater | Rel::AtLeast =>
            None,
    }
}

fn member(rel: Rel, number: Term1, set: Term2) -> Option<Arg>
    ensures { option_map argument_of result ≡ related rel (tree.number_argument (term_of number)) (tree.set_argument (set_term_of set)) }
{
    match rel {
        Rel::Member => Some(Arg::Zero(Formula::Member(true, number, set))),
        Rel::NotMember => Some(Arg::Zero(Formula::Member(false, number, set))),
        Rel::Equal
        | Rel::Differs
        | Rel::Less
        | Rel::AtMost
        | Rel::Greater
        | Rel::AtLeast
        | Rel::Sub => None,
    }
}

#[inline(never)]
pub fn relation(rel: Rel, left: Option<Arg>, right: Option<Arg>) -> Option<Arg>
    ensures { option_map argument_of result ≡ typed_relation rel (option_map argument_of left) (option_map argument_of right) }
{
    let left = left?;
    let right = right?;
    match left {
        Arg::Zero(_) => None,
        Arg::One(left) => match right {
            Arg::Zero(_) => None,
            Arg::One(right) => compared(rel, left, right),
            Arg::Two(right) => member(rel, left, right),
        },
        Arg::Two(left) => match right {
            Arg::Zero(_) => None,
            Arg::One(_) => None,
            Arg::Two(right) => compared_sets(rel, left, right),
        },
    }
}

#[inline(never)]
pub fn emptiness(body: Option<Arg>) -> Option<Arg>
    ensures { option_map argument_of result ≡ option_map (λ s. tree.truth_argument (tree.emptiness s)) (set_in (option_map argument_of body)) }
{
    match set_in(body) {
        Some(set) => Some(Arg::Zero(Formula::IsEmpty(set))),
        None => None,
    }
}

ghost use Rattle.std.specs.Prelude.{◌≡◌, ◌↔◌, IsTrue};
ghost use Rattle.ms_logic.specs.declared.formula.Formula.TheVariants.{Compare, CompareSets, Member};

use crate::term_equality::{same_number, same_set};
use ms_list::Boxed;
use ms_logic::{Arg, Binding, Formula, Rel, Term1, Term2};

/// Whether two formulas are the same tree. It takes no memory.
#[cycle(same_formula)]
pub fn same_formula(a: &Formula, b: &Formula) -> bool
    ensures { IsTrue result ↔ (a.now ≡ b.now) }
{
    match a {
        Formula::True => matches!(b, Formula::True),
        Formula::False => matches!(b, Formula::False),
        Formula::Var(x) => matches!(b, Formula::Var(y) if x == y),
        Formula::Not(f) => matches!(b, Formula::Not(g) if same_formula(f.get(), g.get())),
        Formula::And(fs) => matches!(b, Formula::And(gs) if same_all(fs.slice(), gs.slice())),
        Formula::Or(fs) => matches!(b, Formula::Or(gs) if same_all(fs.slice(), gs.slice())),
        Formula::Implies(f, g) => {
            matches!(b, Formula::Implies(h, i)
                if same_formula(f.get(), h.get()) && same_formula(g.get(), i.get()))
        }
        Formula::Iff(f, g) => {
            matches!(b, Formula::Iff(h, i)
                if same_formula(f.get(), h.get()) && same_formula(g.get(), i.get()))
        }
        Formula::Compare(r, t, u) => is_comparison(b, *r, t, u),
        Formula::CompareSets(r, t, u) => is_set_comparison(b, *r, t, u),
        Formula::Member(r, t, u) => is_membership(b, *r, t, u),
        Formula::IsEmpty(t) => matches!(b, Formula::IsEmpty(u) if same_set(t, u)),
        Formula::Bind(q, o, x, d, f) => {
            matches!(b, Formula::Bind(r, p, y, e, g)
                if q == r && o == p && x == y && same_domain(d, e) && same_formula(f.get(), g.get()))
        }
        Formula::Let(xs, f) => {
            matches!(b, Formula::Let(ys, g)
                if same_bindings(xs.slice(), ys.slice()) && same_formula(f.get(), g.get()))
        }
        Formula::Call(p, xs) => {
            matches!(b, Formula::Call(q, ys) if p == q && same_arguments(xs.slice(), ys.slice()))
        }
        Formula::Restrict(f) => matches!(b, Formula::Restrict(g) if same_formula(f.get(), g.get())),
        Formula::Import(i) => matches!(b, Formula::Import(j) if i == j),
        Formula::Export(i, f) => {
            matches!(b, Formula::Export(j, g) if i == j && same_formula(f.get(), g.get()))
        }
        Formula::Domain(p, x) => matches!(b, Formula::Domain(q, y) if p == q && x == y),
    }
}

fn is_comparison(b: &Formula, r: Rel, t: &Term1, u: &Term1) -> bool
    ensures { IsTrue result ↔ (Compare r t.now u.now ≡ b.now) }
{
    matches!(b, Formula::Compare(s, v, w) if r == *s && same_number(t, v) && same_number(u, w))
}

fn is_set_comparison(b: &Formula, r: Rel, t: &Term2, u: &Term2) -> bool
    ensures { IsTrue result ↔ (CompareSets r t.now u.now ≡ b.now) }
{
    matches!(b, Formula::CompareSets(s, v, w) if r == *s && same_set(t, v) && same_set(u, w))
}

fn is_membership(b: &Formula, r: bool, t: &Term1, u: &Term2) -> bool
    ensures { IsTrue result ↔ (Member r t.now u.now ≡ b.now) }
{
    matches!(b, Formula::Member(s, v, w) if r == *s && same_number(t, v) && same_set(u, w))
}

#[cycle(same_formula)]
fn same_all(a: &[Formula], b: &[Formula]) -> bool
    ensures { IsTrue result ↔ (a.now ≡ b.now) }
{
    if a.len() != b.len() {
        return false;
    }
    for i in 0..a.len() {
        if !same_formula(&a[i], &b[i]) {
            return false;
        }
    }
    true
}

#[cycle(same_formula)]
fn same_domain(a: &Option<Boxed<Formula>>, b: &Option<Boxed<Formula>>) -> bool
    ensures { IsTrue result ↔ (a.now ≡ b.now) }
{
    match a {
        None => b.is_none(),
        Some(f) => matches!(b, Some(g) if same_formula(f.get(), g.get())),
    }
}

#[cycle(same_formula)]
fn same_bindings(a: &[Binding], b: &[Binding]) -> bool
    ensures { IsTrue result ↔ (a.now ≡ b.now) }
{
    if a.len() != b.len() {
        return false;
    }
    for i in 0..a.len() {
        if !same_binding(&a[i], &b[i]) {
            return false;
        }
    }
    true
}

#[cycle(same_formula)]
fn same_binding(a: &Binding, b: &Binding) -> bool
    ensures { IsTrue result ↔ (a.now ≡ b.now) }
{
    a.variable == b.variable && same_argument(&a.value, &b.value)
}

#[cycle(same_formula)]
fn same_arguments(a: &[Arg], b: &[Arg]) -> bool
    ensures { IsTrue result ↔ (a.now ≡ b.now) }
{
    if a.len() != b.len() {
        return false;
    }
    for i in 0..a.len() {
        if !same_argument(&a[i], &b[i]) {
            return false;
        }
    }
    true
}

#[cycle(same_formula)]
fn same_argument(a: &Arg, b: &Arg) -> bool
    ensures { IsTrue result ↔ (a.now ≡ b.now) }
{
    match a {
        Arg::Zero(f) => matches!(b, Arg::Zero(g) if same_formula(f, g)),
        Arg::One(t) => matches!(b, Arg::One(u) if same_number(t, u)),
        Arg::Two(t) => matches!(b, Arg::Two(u) if same_set(t, u)),
    }
}

ghost use Rattle.std.specs.Prelude.{◌≡◌, ◌↔◌, IsTrue};

use ms_logic::{Term1, Term2};

/// Whether two terms are the same tree.
#[cycle(same_term)]
pub fn same_number(a: &Term1, b: &Term1) -> bool
    ensures { IsTrue result ↔ (a.now ≡ b.now) }
{
    match a {
        Term1::Var(x) => matches!(b, Term1::Var(y) if x == y),
        Term1::Number(x) => matches!(b, Term1::Number(y) if x == y),
        Term1::Plus(t, x) =>
            matches!(b, Term1::Plus(u, y) if x == y && same_number(t.get(), u.get())),
        Term1::Minus(t, x) =>
            matches!(b, Term1::Minus(u, y) if x == y && same_number(t.get(), u.get())),
        Term1::Min(s) => matches!(b, Term1::Min(t) if same_set(s.get(), t.get())),
        Term1::Max(s) => matches!(b, Term1::Max(t) if same_set(s.get(), t.get())),
    }
}

/// Whether two terms for sets are the same tree.
#[cycle(same_term)]
pub fn same_set(a: &Term2, b: &Term2) -> bool
    ensures { IsTrue result ↔ (a.now ≡ b.now) }
{
    match a {
        Term2::Var(x) => matches!(b, Term2::Var(y) if x == y),
        Term2::EmptySet => matches!(b, Term2::EmptySet),
        Term2::Whole => matches!(b, Term2::Whole),
        Term2::Literal(xs) =>
            matches!(b, Term2::Literal(ys) if same_elements(xs.slice(), ys.slice())),
        Term2::Pconst(x) => matches!(b, Term2::Pconst(y) if x == y),
        Term2::Union(s, t) =>
            matches!(b, Term2::Union(u, v) if same_set(s.get(), u.get()) && same_set(t.get(), v.get())),
        Term2::Inter(s, t) =>
            matches!(b, Term2::Inter(u, v) if same_set(s.get(), u.get()) && same_set(t.get(), v.get())),
        Term2::Minus(s, t) =>
            matches!(b, Term2::Minus(u, v) if same_set(s.get(), u.get()) && same_set(t.get(), v.get())),
        Term2::Up(s, x) => matches!(b, Term2::Up(t, y) if x == y && same_set(s.get(), t.get())),
        Term2::Down(s, x) => matches!(b, Term2::Down(t, y) if x == y && same_set(s.get(), t.get())),
    }
}

#[cycle(same_term)]
fn same_elements(a: &[Term1], b: &[Term1]) -> bool
    ensures { IsTrue result ↔ (a.now ≡ b.now) }
{
    if a.len() != b.len() {
        return false;
    }
    for i in 0..a.len() {
        if !same_number(&a[i], &b[i]) {
            return false;
        }
    }
    true
}

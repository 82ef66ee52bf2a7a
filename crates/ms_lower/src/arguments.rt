ghost use Rattle.ms_logic.specs.View.{argument_of, binding_of};
ghost use Rattle.ms_lower.specs.inner.Given.{values_of, variables_of};
ghost use Rattle.std.specs.Prelude.{◌≡◌, ◌<◌, length, map, slice_get, Some};

use ms_logic::{Arg, Binding, Param};

/// The parameters of a predicate with the arguments of a call, or the names of a `let` with its right sides.
#[derive(Clone, Copy)]
pub enum Arguments<'a> {
    Call(&'a [Param], &'a [Arg]),
    Let(&'a [Binding]),
}

fn parameter(params: &[Param], i: usize) -> Option<u32>
    ensures { result ≡ slice_get (map (λ p. p.variable) params.now) i }
{
    if i < params.len() {
        Some(params[i].variable)
    } else {
        None
    }
}

fn name(bindings: &[Binding], i: usize) -> Option<u32>
    ensures { result ≡ slice_get (map (λ b. b.0) (map binding_of bindings.now)) i }
{
    if i < bindings.len() {
        Some(bindings[i].variable)
    } else {
        None
    }
}

fn argument(values: &[Arg], i: usize) -> &Arg
    requires { i < length values.now }
    ensures { slice_get (map argument_of values.now) i ≡ Some (argument_of result.now) }
{
    &values[i]
}

fn right_side(bindings: &[Binding], i: usize) -> &Arg
    requires { i < length bindings.now }
    ensures { slice_get (map (λ b. b.1) (map binding_of bindings.now)) i ≡ Some (argument_of result.now) }
{
    &bindings[i].value
}

impl Arguments<'_> {
    /// How many arguments there are.
    pub fn len(&self) -> usize
        ensures { result ≡ length (values_of self.now) }
    {
        match self {
            Arguments::Call(_, values) => values.len(),
            Arguments::Let(bindings) => bindings.len(),
        }
    }

    /// The variable that gets the value with a number, if there is one.
    pub fn variable(&self, i: usize) -> Option<u32>
        ensures { result ≡ slice_get (variables_of self.now) i }
    {
        match self {
            Arguments::Call(params, _) => parameter(params, i),
            Arguments::Let(bindings) => name(bindings, i),
        }
    }

    /// The value with a number.
    pub fn value(&self, i: usize) -> &Arg
        requires { i < length (values_of self.now) }
        ensures { slice_get (values_of self.now) i ≡ Some (argument_of result.now) }
    {
        match self {
            Arguments::Call(_, values) => argument(values, i),
            Arguments::Let(bindings) => right_side(bindings, i),
        }
    }
}

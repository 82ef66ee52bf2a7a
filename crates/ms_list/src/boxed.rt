ghost use Rattle.std.specs.Prelude.{◌≡◌, IfOk, IfErr};

use std::alloc::Global;
use std::marker::Model;

/// A value on the heap that contracts see as the value itself: two boxes of equal values are equal,
/// wherever they lie. Trees are built with it.
#[derive(Drop)]
pub struct Boxed<T> {
    inner: Box<T>,
}

impl<T> Model for Boxed<T> {
    ghost Value = { T };

    ghost coded = { T.code };

    ghost view = { λ boxed. boxed.inner.value };
}

impl<T> Boxed<T> {
    /// Puts the value on the heap. Where memory is refused, the value comes back.
    pub fn new(alloc: Global, value: T) -> Result<Boxed<T>, T>
        ensures ok { IfOk result (λ boxed. boxed ≡ value) }
        ensures back { IfErr result (λ returned. returned ≡ value) }
    {
        match Box::new(alloc, value) {
            Ok(inner) => Ok(Boxed { inner }),
            Err(refused) => Err(refused.value),
        }
    }

    pub fn get(&self) -> &T
        ensures { result.now ≡ self.now }
    {
        &self.inner
    }

    pub fn into_inner(self) -> T
        ensures { result ≡ self }
    {
        let Boxed { inner } = self;
        Box::into_inner(inner)
    }
}

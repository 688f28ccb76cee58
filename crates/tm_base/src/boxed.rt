ghost use Rattle.std.specs.Prelude.{◌≡◌, IfOk};

use crate::memory::Memory;
use std::alloc::Global;
use std::marker::Model;

/// A value on the heap. Contracts see it as that value.
#[derive(Debug, Drop)]
pub struct Boxed<T> {
    inner: Box<T>,
}

impl<T> Model for Boxed<T> {
    ghost Value = { T };

    ghost coded = { T.code };

    ghost view = { λ boxed. boxed.inner.value };
}

impl<T: Drop> Boxed<T> {
    /// Moves the value to the heap. Where memory is wanting, the value is dropped.
    pub fn new(alloc: Global, value: T) -> Result<Boxed<T>, Memory>
        ensures { IfOk result (λ boxed. boxed ≡ value) }
    {
        let inner = Box::new(alloc, value)?;
        Ok(Boxed { inner })
    }
}

impl<T> Boxed<T> {
    /// The value.
    pub fn get(&self) -> &T
        ensures { result.now ≡ self.now }
    {
        &self.inner
    }

    /// The value, moved out.
    pub fn into_inner(self) -> T
        ensures { result ≡ self }
    {
        let Boxed { inner } = self;
        Box::into_inner(inner)
    }
}

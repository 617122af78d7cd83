//! Values that stand in a box of their own, so that what holds them is small.

ghost use Rattle.py_node.specs.Below.{IfOk};
ghost use Rattle.std.specs.Prelude.{◌≡◌};

use crate::memory::OutOfMemory;
use std::alloc::Global;
use std::marker::Model;

/// A box that contracts see as the value in it.
#[derive(Drop)]
pub struct Boxed<T> {
    value: Box<T>,
}

impl<T> Model for Boxed<T> {
    ghost Value = { T };

    ghost coded = { T.code };

    ghost view = { λ a. a.value.value };
}

impl<T> Boxed<T> {
    /// The value.
    pub fn get(&self) -> &T
        ensures { result.now ≡ self.now }
    {
        &self.value
    }
}

impl<T: Drop> Boxed<T> {
    /// A value in a box of its own, unless memory runs out.
    pub fn new(alloc: Global, value: T) -> Result<Boxed<T>, OutOfMemory>
        ensures { IfOk result (λ b. b ≡ value) }
    {
        let value = Box::new(alloc, value)?;
        Ok(Boxed { value })
    }
}

//! A box that moves from cell to cell.
ghost use Rattle.std.specs.Prelude.{◌≡◌, IfOk};
ghost use Rattle.std.specs.Borrow.{Lends, sem};

use flow_value::NoMemory;
use std::alloc::Global;
use std::marker::Model;

/// A `Box` that contracts see as its value.
#[derive(Drop)]
pub struct Boxed<T> {
    inner: Box<T>,
}

impl<T> Model for Boxed<T> {
    ghost Value = { T };

    ghost coded = { T.code };

    ghost view = { λ b. b.inner.value };
}

impl<T> Boxed<T> {
    ghost use Rattle.run_cells.specs.contracts.boxed.Boxed.{the_row};

    /// The value, lent.
    pub fn get(&self) -> &T
        ensures { result.now ≡ self.now }
    {
        &self.inner
    }

    /// The value, lent to be changed where it stands.
    pub fn get_mut(&mut self) -> &mut T
        ensures* writes_back { sem 𝓛 (Lends (the_row T.row) T.row self.entry result (λ w. w)) }
        ensures value { result.now ≡ self.old }
    {
        self.inner.as_mut()
    }

    /// The value, moved out.
    pub fn into_inner(self) -> T
        ensures { result ≡ self }
    {
        let Boxed { inner } = self;
        Box::into_inner(inner)
    }

    /// Puts another value in, and hands out the one before; takes no memory.
    pub fn replace(&mut self, value: T) -> T
        ensures before { result ≡ self.old }
        ensures now { self.new ≡ value }
    {
        Box::replace(&mut self.inner, value)
    }
}

impl<T: Drop> Boxed<T> {
    /// A box of the value.
    pub fn new(alloc: Global, value: T) -> Result<Boxed<T>, NoMemory>
        ensures { IfOk result (λ b. b ≡ value) }
    {
        Ok(Boxed {
            inner: Box::new(alloc, value)?,
        })
    }
}

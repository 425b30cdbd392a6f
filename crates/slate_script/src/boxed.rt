// A value on the heap, as commands and replies hold one.
ghost use Rattle.std.specs.Prelude.{◌≡◌, IfOk};

use slate_types::NoMemory;
use std::alloc::Global;
use std::fmt::{self, Debug, Formatter, Write};
use std::marker::Model;

/// A value on the heap, so that a type with a large variant that is rare stays small. A contract sees the value.
pub struct Boxed<T> {
    value: Box<T>,
}

/// It is shown as the value.
impl<T: Debug> Debug for Boxed<T> {
    fn fmt<W: Write>(&self, f: &mut Formatter<W>) -> fmt::Result {
        (*self.value).fmt(f)
    }
}

impl<T: Drop> Drop for Boxed<T> {
    fn drop(self) {
        let Boxed { value: _ } = self;
    }
}

impl<T> Model for Boxed<T> {
    ghost Value = { T };

    ghost view = { λ b. b.value.value };
}

impl<T: Drop> Boxed<T> {
    /// Puts a value on the heap. Where memory runs out, it is dropped.
    pub fn new(alloc: Global, value: T) -> Result<Boxed<T>, NoMemory>
        ensures { IfOk result (λ boxed. boxed ≡ value) }
    {
        Ok(Boxed {
            value: Box::new(alloc, value)?,
        })
    }

    /// The value.
    pub fn as_ref(&self) -> &T
        ensures { result.now ≡ self.now }
    {
        &self.value
    }
}

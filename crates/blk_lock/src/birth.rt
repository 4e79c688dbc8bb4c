//! What is told to the table once, when the lock is made.
ghost use Rattle.std.specs.Prelude.{◌≡◌};
ghost use base.Fml.{ftrue};

use std::marker::{Model, PhantomData};

/// An opening that a caller named. It has no bytes, and stands in clauses alone.
pub struct Named<O> {
    marker: PhantomData<O>,
    pub ghost opening: { O },
}

impl<O> Model for Named<O> {
    ghost also_owns = { λ _. ftrue };
}

impl<O> Named<O> {
    pub fn of() -> Named<O>
        ghost opening: { O }
        ensures { result.opening ≡ opening }
    {
        Named {
            marker: PhantomData,
        }
    }
}

impl<O> Drop for Named<O> {
    fn drop(self) {
        let Self { marker: _ } = self;
    }
}

//! A place in a list, or none, as a number of four bytes.

ghost use Rattle.std.specs.Prelude.{◌≡◌, None, Some, IfOk};

use std::alloc::AllocError;
use std::marker::Model;

/// A place in a list, or none, in four bytes.
#[derive(Clone, Copy)]
pub(crate) struct Place {
    after: u32,
}

impl Model for Place {
    ghost use Rattle.std.specs.Prelude.{ℕ, Option};
    ghost use Rattle.som_tables.specs.Layout.{after_of, before};

    ghost Value = { Option ℕ };

    ghost view = { λ p. before p.after };

    ghost inverse = { λ o. record { after = after_of o } };
}

impl Place {
    pub(crate) fn none() -> Place
        ensures { result ≡ None }
    {
        Place { after: 0 }
    }

    /// A place that has no room in four bytes counts as want of memory.
    pub(crate) fn at(place: usize) -> Result<Place, AllocError>
        ensures { IfOk result (λ p. p ≡ Some place) }
    {
        match u32::try_from(place) {
            Ok(number) if number < u32::MAX => Ok(Place { after: number + 1 }),
            _ => Err(AllocError),
        }
    }

    pub(crate) fn get(&self) -> Option<usize>
        ensures { result ≡ self.now }
    {
        if self.after == 0 {
            None
        } else {
            Some(self.after as usize - 1)
        }
    }
}

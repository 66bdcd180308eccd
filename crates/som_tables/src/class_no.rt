//! The number of a class in a table.

ghost use Rattle.std.specs.Prelude.{◌≡◌};

use std::marker::Model;

/// A class of a table, by its place among the classes that were added, from 0.
#[derive(Clone, Copy, PartialEq, Eq, PartialOrd, Ord, Hash)]
pub struct ClassNo(u32);

impl Model for ClassNo {
    ghost use Rattle.std.specs.Prelude.{ℕ};

    ghost Value = { ℕ };

    ghost view = { λ c. c.0 };

    ghost inverse = { λ n. record { 0 = n } };
}

impl ClassNo {
    pub fn new(number: u32) -> ClassNo
        ensures { result ≡ number }
    {
        ClassNo(number)
    }

    pub fn number(&self) -> u32
        ensures { result ≡ self.now }
    {
        self.0
    }
}

//! Tokens of methods and of variables: the class that introduced a cell, and its place there.

ghost use Rattle.std.specs.Prelude.{◌≡◌, ⊤, nat_eq};
ghost use Rattle.std.specs.Ordering.{on, eq_of_both};
ghost use Rattle.std.specs.Cmp.Rules.{comparing};
ghost use Rattle.std.proofs.Common.{rules};

use crate::{ClassNo, DataKind, Kind, MethodKind};
use std::alloc::AllocError;
use std::fmt;
use std::marker::{Model, PhantomData};

/// Names a cell in the row of the class that introduced it, and in the row of each class below that one.
pub struct Token<K: Kind> {
    class: ClassNo,
    place: u16,
    kind: PhantomData<K>,
}

/// The token of a method.
pub type MToken = Token<MethodKind>;

/// The token of a variable.
pub type DToken = Token<DataKind>;

impl<K: Kind> Model for Token<K> {
    ghost use Rattle.std.specs.Prelude.{ℕ};

    ghost Value = { ℕ × ℕ };

    ghost view = { λ t. (t.class, t.place) };

    ghost inverse = { λ t. record { class = t.0; place = t.1; kind = record {} } };
}

impl<K: Kind> Token<K> {
    pub fn new(class: ClassNo, place: u16) -> Token<K>
        ensures { result ≡ (class, place) }
    {
        Token {
            class,
            place,
            kind: PhantomData,
        }
    }

    /// The class that introduced it.
    pub fn class(&self) -> ClassNo
        ensures { result ≡ self.now.0 }
    {
        self.class
    }

    /// Its place among the cells that its class introduced.
    pub fn place(&self) -> u16
        ensures { result ≡ self.now.1 }
    {
        self.place
    }
}

impl<K: Kind> Clone for Token<K> {
    ghost is_clone = { λ token copy. copy ≡ token };

    ghost is_infallible = { λ _. ⊤ };

    fn clone(&self) -> Result<Token<K>, AllocError> {
        Ok(Token::new(self.class, self.place))
    }
}

impl<K: Kind> Copy for Token<K> {}

impl<K: Kind> PartialEq for Token<K> {
    ghost eq = { eq_of_both (on (λ t. t.0) nat_eq) (on (λ t. t.1) nat_eq) };

    ghost laws = { Prim.search (comparing, rules) };

    fn eq(&self, other: &Token<K>) -> bool {
        self.class == other.class && self.place == other.place
    }
}

impl<K: Kind> Eq for Token<K> {
    ghost laws = { Prim.search (comparing, rules) };
}

impl<K: Kind> fmt::Debug for Token<K> {
    fn fmt<W: fmt::Write>(&self, f: &mut fmt::Formatter<W>) -> fmt::Result {
        f.debug_tuple("Token")
            .field(&self.class.number())
            .field(&self.place)
            .finish()
    }
}

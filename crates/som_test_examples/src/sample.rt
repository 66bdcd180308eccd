//! The sample hierarchy as an `Ancestry` in memory.

ghost use Rattle.std.specs.Prelude.{◌≡◌, ◌<◌, Some, length, nat_eq, slice_get};
ghost use Rattle.som_model.specs.Lists.{some};
ghost use Rattle.som_tables.specs.Rows.{same_token};
ghost use Rattle.som_test_examples.specs.Sample.{sample};

use crate::rows::{ancestors, bodies, introduced};
use som_meta::Ancestry;
use som_model::{List, NoMemory};
use som_tables::{ClassNo, MToken};
use std::alloc::Global;
use std::marker::Model;

/// The sample's classes in memory, by number.
#[derive(Drop)]
pub struct Sample {
    ancestors: List<List<ClassNo>>,
    introduced: List<List<MToken>>,
    bodies: List<List<MToken>>,
}

impl Model for Sample {
    ghost use Rattle.std.specs.Prelude.{⊤};
    ghost use Rattle.som_test_examples.specs.Sample.{IsSample};

    ghost Value = { ⊤ };

    ghost view = { λ _. tt };

    ghost invariant = { λ s. IsSample s.ancestors s.introduced s.bodies };
}

/// The list at the place of a class.
fn at<T>(rows: &List<List<T>>, class: ClassNo) -> &List<T>
    requires { class < length rows.now }
    ensures { slice_get rows.now class ≡ Some result.now }
{
    &rows.as_slice()[class.number() as usize]
}

/// Whether a class is one of these.
fn is_among(class: ClassNo, classes: &[ClassNo]) -> bool
    ensures { result ≡ some (nat_eq class) classes.now }
{
    for other in classes {
        if class == *other {
            return true;
        }
    }
    false
}

/// Whether a token is one of these.
fn has_token(tokens: &[MToken], token: MToken) -> bool
    ensures { result ≡ some (same_token token) tokens.now }
{
    for other in tokens {
        if token == *other {
            return true;
        }
    }
    false
}

impl Sample {
    pub fn new(alloc: Global) -> Result<Sample, NoMemory> {
        Ok(Sample {
            ancestors: ancestors(alloc)?,
            introduced: introduced(alloc)?,
            bodies: bodies(alloc)?,
        })
    }
}

impl Ancestry for Sample {
    ghost known = { λ _. sample };

    fn is_a(&self, class: ClassNo, ancestor: ClassNo) -> bool {
        is_among(ancestor, at(&self.ancestors, class).as_slice())
    }

    fn ancestors(&self, class: ClassNo) -> &List<ClassNo> {
        at(&self.ancestors, class)
    }

    fn has_body(&self, class: ClassNo, token: MToken) -> bool {
        has_token(at(&self.bodies, class).as_slice(), token)
    }

    fn introduced(&self, class: ClassNo) -> &List<MToken> {
        at(&self.introduced, class)
    }

    fn is_kernel(&self, class: ClassNo) -> bool {
        class.number() < 3
    }

    fn before_after(&self) -> ClassNo {
        ClassNo::new(2)
    }
}

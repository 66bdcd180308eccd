//! Whether a class number stands for a key, and the made class that a key means.

ghost use Rattle.som_meta.specs.Numbering.{IsNumbered, key_at};
ghost use Rattle.som_model.specs.Lists.{Mem};
ghost use Rattle.som_model.specs.declared.key.ClassKey.{ClassKey as Key};
ghost use Rattle.std.specs.Prelude.{◌≡◌, ◌↔◌, ◌∷◌, [], ℕ, IfNone, IfSome, IsTrue, List as Seq, map};

use crate::numbers::Numbers;
use crate::position::Kind;
use som_model::{ClassKey, List};
use som_tables::ClassNo;

/// Whether a number is that of a key's class, part by part.
#[cycle(stands_for)]
fn stands_for(key: &ClassKey, numbers: &Numbers, class: ClassNo) -> bool
    ensures { IsNumbered numbers.now class → (IsTrue result ↔ (key_at numbers.now class ≡ key.now)) }
{
    if class.number() >= numbers.count() {
        return false;
    }
    match numbers.kind(class) {
        Kind::Declared => numbers.declared(class).key.is(key),
        Kind::Derived => is_derived(key, numbers, numbers.parents(class).as_slice()),
        Kind::Proxy => is_proxy(key, numbers, numbers.parents(class).as_slice()),
    }
}

/// Whether the class that is derived from these is that of a key.
#[cycle(stands_for)]
fn is_derived(key: &ClassKey, numbers: &Numbers, classes: &[ClassNo]) -> bool
    ensures { ((n : ℕ) → Mem n classes.now → IsNumbered numbers.now n) → (IsTrue result ↔ (ClassKey.Derived (map (key_at numbers.now) classes.now) ≡ key.now)) }
{
    match key {
        ClassKey::Named { .. } => false,
        ClassKey::Derived { parents } => stand_for(parents, numbers, classes),
        ClassKey::Proxy { .. } => false,
    }
}

/// Whether the class of the proxies of this one is that of a key.
#[cycle(stands_for)]
fn is_proxy(key: &ClassKey, numbers: &Numbers, target: &[ClassNo]) -> bool
    ensures { (n : ℕ) → target.now ≡ n ∷ [] → IsNumbered numbers.now n → (IsTrue result ↔ (ClassKey.Proxy (key_at numbers.now n) ≡ key.now)) }
{
    match key {
        ClassKey::Named { .. } => false,
        ClassKey::Derived { .. } => false,
        ClassKey::Proxy { of } => match target {
            [class] => stands_for(of.get(), numbers, *class),
            _ => false,
        },
    }
}

/// Whether these classes are those of these keys.
#[cycle(stands_for)]
fn stand_for(keys: &List<ClassKey>, numbers: &Numbers, classes: &[ClassNo]) -> bool
    ensures { ((n : ℕ) → Mem n classes.now → IsNumbered numbers.now n) → (IsTrue result ↔ (map (key_at numbers.now) classes.now ≡ keys.now)) }
{
    if keys.len() != classes.len() {
        return false;
    }
    for (i, key) in keys.as_slice().iter().enumerate() {
        if !stands_for(key, numbers, classes[i]) {
            return false;
        }
    }
    true
}

/// The number of the class of a key of no declared class: the made classes are asked one after the other.
pub(crate) fn find_made(key: &ClassKey, numbers: &Numbers) -> Option<ClassNo>
    requires { (parents : Seq Key) × (key.now ≡ ClassKey.Derived parents) }
    ensures some { IfSome result (λ n. IsNumbered numbers.now n × (key_at numbers.now n ≡ key.now)) }
    ensures none { IfNone result ((n : ℕ) → IsNumbered numbers.now n → key_at numbers.now n ≡ key.now → ⊥) }
{
    for number in numbers.declared_count()..numbers.count() {
        let class = ClassNo::new(number);
        if stands_for(key, numbers, class) {
            return Some(class);
        }
    }
    None
}

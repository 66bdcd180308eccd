//! Equality tests of keys, types, signatures and interfaces.

ghost use Rattle.som_model.specs.Keys.{same_key};
ghost use Rattle.som_model.specs.Same.{same_interface, same_sig, same_type};
ghost use Rattle.std.specs.Prelude.{IsTrue, ◌↔◌, ◌≡◌};

use crate::{ClassFace, ClassKey, Entry, Interface, List, Sig, Text, ValueType, Way};

fn are_one_text(a: &Text, b: &Text) -> bool
    ensures { IsTrue result ↔ (a.now ≡ b.now) }
{
    a.as_slice() == b.as_slice()
}

#[cycle(same_key)]
fn are_one_key(a: &ClassKey, b: &ClassKey) -> bool
    ensures { IsTrue result ↔ (a.now ≡ b.now) }
{
    match (a, b) {
        (ClassKey::Named { module: m, name: x }, ClassKey::Named { module: n, name: y }) => {
            *m == *n && are_one_text(x, y)
        }
        (ClassKey::Derived { parents: x }, ClassKey::Derived { parents: y }) => {
            are_one_keys(x, y)
        }
        (ClassKey::Proxy { of: x }, ClassKey::Proxy { of: y }) => are_one_key(x.get(), y.get()),
        _ => false,
    }
}

#[cycle(same_key)]
fn are_one_keys(a: &List<ClassKey>, b: &List<ClassKey>) -> bool
    ensures { IsTrue result ↔ (a.now ≡ b.now) }
{
    if a.len() != b.len() {
        return false;
    }
    let others = b.as_slice();
    for (i, x) in a.as_slice().iter().enumerate() {
        if !are_one_key(x, &others[i]) {
            return false;
        }
    }
    true
}

// Whether two lists are one, where the test tells items apart.
fn are_one_list<T, F: Fn(&T, &T) -> bool>(a: &List<T>, b: &List<T>, test: F) -> bool
    requires callable { (x y : _) → F.pre test x y }
    requires equal { (x y : _) (answer : _) → F.post test x y answer → (IsTrue answer ↔ (x.now ≡ y.now)) }
    ensures { IsTrue result ↔ (a.now ≡ b.now) }
{
    if a.len() != b.len() {
        return false;
    }
    let others = b.as_slice();
    for (i, x) in a.as_slice().iter().enumerate() {
        if !test(x, &others[i]) {
            return false;
        }
    }
    true
}

fn are_one_type(a: &ValueType, b: &ValueType) -> bool
    ensures { IsTrue result ↔ (a.now ≡ b.now) }
{
    match (a, b) {
        (ValueType::Void, ValueType::Void) => true,
        (ValueType::Long, ValueType::Long) => true,
        (ValueType::Boolean, ValueType::Boolean) => true,
        (ValueType::Str, ValueType::Str) => true,
        (ValueType::Class(x), ValueType::Class(y)) => are_one_key(x, y),
        _ => false,
    }
}

fn are_one_sig(a: &Sig, b: &Sig) -> bool
    ensures { IsTrue result ↔ (a.now ≡ b.now) }
{
    are_one_type(&a.result, &b.result)
        && are_one_list(
            &a.params,
            &b.params,
            |x: &ValueType, y: &ValueType| -> bool
                ensures { IsTrue result ↔ (x.now ≡ y.now) }
            { are_one_type(x, y) },
        )
}

fn are_one_entry(a: &Entry, b: &Entry) -> bool
    ensures { IsTrue result ↔ (a.now ≡ b.now) }
{
    match (a, b) {
        (
            Entry::Introduced {
                name: x,
                sig: s,
                way: v,
            },
            Entry::Introduced {
                name: y,
                sig: t,
                way: w,
            },
        ) => are_one_text(x, y) && are_one_sig(s, t) && *v == *w,
        (Entry::Moved { name: x, to: k }, Entry::Moved { name: y, to: m }) => {
            are_one_text(x, y) && are_one_key(k, m)
        }
        _ => false,
    }
}

fn are_one_metaclass(a: &Option<ClassKey>, b: &Option<ClassKey>) -> bool
    ensures { IsTrue result ↔ (a.now ≡ b.now) }
{
    match (a, b) {
        (None, None) => true,
        (Some(x), Some(y)) => are_one_key(x, y),
        _ => false,
    }
}

fn are_one_entries(a: &List<Entry>, b: &List<Entry>) -> bool
    ensures { IsTrue result ↔ (a.now ≡ b.now) }
{
    are_one_list(
        a,
        b,
        |x: &Entry, y: &Entry| -> bool
            ensures { IsTrue result ↔ (x.now ≡ y.now) }
        { are_one_entry(x, y) },
    )
}

fn are_one_face(a: &ClassFace, b: &ClassFace) -> bool
    ensures { IsTrue result ↔ (a.now ≡ b.now) }
{
    are_one_text(&a.name, &b.name)
        && a.major == b.major
        && a.minor == b.minor
        && are_one_keys(&a.parents, &b.parents)
        && are_one_metaclass(&a.metaclass, &b.metaclass)
        && are_one_entries(&a.entries, &b.entries)
}

fn are_one_interface(a: &Interface, b: &Interface) -> bool
    ensures { IsTrue result ↔ (a.now ≡ b.now) }
{
    are_one_list(
        &a.classes,
        &b.classes,
        |x: &ClassFace, y: &ClassFace| -> bool
            ensures { IsTrue result ↔ (x.now ≡ y.now) }
        { are_one_face(x, y) },
    )
}

impl ClassKey {
    /// Whether two keys name one class.
    pub fn is(&self, other: &ClassKey) -> bool
        ensures { result ≡ same_key self.now other.now }
    {
        are_one_key(self, other)
    }
}

impl ValueType {
    pub fn is(&self, other: &ValueType) -> bool
        ensures { result ≡ same_type self.now other.now }
    {
        are_one_type(self, other)
    }
}

impl Sig {
    /// Whether two signatures are one: the same result and the same parameters.
    pub fn is(&self, other: &Sig) -> bool
        ensures { result ≡ same_sig self.now other.now }
    {
        are_one_sig(self, other)
    }
}

impl Interface {
    /// Whether two interfaces have the same faces in the same order.
    pub fn is(&self, other: &Interface) -> bool
        ensures { result ≡ same_interface self.now other.now }
    {
        are_one_interface(self, other)
    }
}

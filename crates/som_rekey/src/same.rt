//! Whether faces are those of others under other modules, told without a copy of them.

ghost use Rattle.som_rekey_laws.specs.Rekeying.{rekey, rekey_entry as new_entry, rekey_face as new_face, rekey_sig as new_sig, rekey_type as new_type};
ghost use Rattle.std.specs.Option.{option_map};
ghost use Rattle.std.specs.Prelude.{◌≡◌, IsTrue, map};

use crate::NewModules;
use som_model::{ClassFace, ClassKey, Entry, List, Sig, Text, ValueType};

fn is_text(old: &Text, new: &Text) -> bool
    ensures { IsTrue result → new.now ≡ old.now }
{
    new.as_slice() == old.as_slice()
}

// Whether a key is another's new one. Of keys that are made of others it is never said.
fn is_new_key<C: NewModules>(change: &C, old: &ClassKey, new: &ClassKey) -> bool
    ensures { IsTrue result → new.now ≡ rekey (C.change change.now) old.now }
{
    match (old, new) {
        (
            ClassKey::Named { module, name },
            ClassKey::Named {
                module: home,
                name: other,
            },
        ) => change.module_of(*module, name) == *home && is_text(name, other),
        _ => false,
    }
}

fn are_new_keys<C: NewModules>(change: &C, olds: &List<ClassKey>, news: &List<ClassKey>) -> bool
    ensures { IsTrue result → news.now ≡ map (rekey (C.change change.now)) olds.now }
{
    if olds.len() != news.len() {
        return false;
    }
    let others = news.as_slice();
    for (i, old) in olds.as_slice().iter().enumerate() {
        if !is_new_key(change, old, &others[i]) {
            return false;
        }
    }
    true
}

fn is_new_type<C: NewModules>(change: &C, old: &ValueType, new: &ValueType) -> bool
    ensures { IsTrue result → new.now ≡ new_type (C.change change.now) old.now }
{
    match (old, new) {
        (ValueType::Void, ValueType::Void) => true,
        (ValueType::Long, ValueType::Long) => true,
        (ValueType::Boolean, ValueType::Boolean) => true,
        (ValueType::Str, ValueType::Str) => true,
        (ValueType::Class(key), ValueType::Class(other)) => is_new_key(change, key, other),
        _ => false,
    }
}

fn are_new_types<C: NewModules>(change: &C, olds: &List<ValueType>, news: &List<ValueType>) -> bool
    ensures { IsTrue result → news.now ≡ map (new_type (C.change change.now)) olds.now }
{
    if olds.len() != news.len() {
        return false;
    }
    let others = news.as_slice();
    for (i, old) in olds.as_slice().iter().enumerate() {
        if !is_new_type(change, old, &others[i]) {
            return false;
        }
    }
    true
}

fn is_new_sig<C: NewModules>(change: &C, old: &Sig, new: &Sig) -> bool
    ensures { IsTrue result → new.now ≡ new_sig (C.change change.now) old.now }
{
    is_new_type(change, &old.result, &new.result) && are_new_types(change, &old.params, &new.params)
}

fn is_new_entry<C: NewModules>(change: &C, old: &Entry, new: &Entry) -> bool
    ensures { IsTrue result → new.now ≡ new_entry (C.change change.now) old.now }
{
    match (old, new) {
        (
            Entry::Introduced { name, sig, way },
            Entry::Introduced {
                name: other,
                sig: signature,
                way: called,
            },
        ) => is_text(name, other) && is_new_sig(change, sig, signature) && *way == *called,
        (
            Entry::Moved { name, to },
            Entry::Moved {
                name: other,
                to: owner,
            },
        ) => is_text(name, other) && is_new_key(change, to, owner),
        _ => false,
    }
}

fn are_new_entries<C: NewModules>(change: &C, olds: &List<Entry>, news: &List<Entry>) -> bool
    ensures { IsTrue result → news.now ≡ map (new_entry (C.change change.now)) olds.now }
{
    if olds.len() != news.len() {
        return false;
    }
    let others = news.as_slice();
    for (i, old) in olds.as_slice().iter().enumerate() {
        if !is_new_entry(change, old, &others[i]) {
            return false;
        }
    }
    true
}

fn is_new_metaclass<C: NewModules>(
    change: &C,
    old: &Option<ClassKey>,
    new: &Option<ClassKey>,
) -> bool
    ensures { IsTrue result → new.now ≡ option_map (rekey (C.change change.now)) old.now }
{
    match (old, new) {
        (None, None) => true,
        (Some(key), Some(other)) => is_new_key(change, key, other),
        _ => false,
    }
}

/// Whether a face is another's under new keys. It says no more of faces that it answers false for.
pub fn is_new_face<C: NewModules>(change: &C, old: &ClassFace, new: &ClassFace) -> bool
    ensures { IsTrue result → new.now ≡ new_face (C.change change.now) old.now }
{
    is_text(&old.name, &new.name)
        && old.major == new.major
        && old.minor == new.minor
        && are_new_keys(change, &old.parents, &new.parents)
        && is_new_metaclass(change, &old.metaclass, &new.metaclass)
        && are_new_entries(change, &old.entries, &new.entries)
}

//! Questions on methods: owner, signature, and types.

ghost use Rattle.som_meta.specs.Numbering.{IsNumbered, IsToken, key_at};
ghost use Rattle.som_model.specs.Class.{entry_name as name_in};
ghost use Rattle.std.specs.Prelude.{◌≡◌, ◌<◌, IfOk, IfSome, Some, length, slice_get};

use crate::lines::first_word;
use crate::making::class_called;
use crate::telling::{told, told_class};
use crate::unasked::Unasked;
use som_classmgr::{Kernel, KeyView, Linked};
use som_model::{ClassKey, Entry, List, MethodRef, NoMemory, Text, ValueType};
use som_tables::{ClassNo, MToken};
use std::alloc::Global;

fn entry_name(entry: &Entry) -> &Text
    ensures { result.now ≡ name_in entry.now }
{
    match entry {
        Entry::Introduced { name, .. } => name,
        Entry::Moved { name, .. } => name,
    }
}

// The place of the entry of a name.
fn place_of(entries: &[Entry], name: &[u8]) -> Option<usize>
    ensures { IfSome result (λ place. place < length entries.now) }
{
    entries.iter().position(|entry| entry_name(entry).is(name))
}

// The entry at a place.
fn entry_in(entries: &[Entry], place: usize) -> &Entry
    requires { place < length entries.now }
    ensures { slice_get entries.now place ≡ Some result.now }
{
    &entries[place]
}

// The key of a declared class.
fn declared_key(alloc: Global, kernel: &Kernel<Linked>, class: ClassNo) -> Result<ClassKey, Unasked>
    requires { IsNumbered kernel.now.classes class }
    ensures { IfOk result (λ key. key ≡ key_at kernel.now.classes class) }
{
    match kernel.key(class) {
        KeyView::Named { module, name } => {
            let name = name.copy(alloc)?;
            Ok(ClassKey::Named { module, name })
        }
        _ => Err(Unasked::Line),
    }
}

// The token of the owner of the method that the entry of a name in a declared class names.
fn owner_of(
    alloc: Global,
    kernel: &Kernel<Linked>,
    class: ClassNo,
    name: &[u8],
) -> Result<MToken, Unasked>
    requires declared { class < length kernel.now.classes.classes }
    requires numbered { IsNumbered kernel.now.classes class }
    ensures { IfOk result (IsToken kernel.now.classes) }
{
    kernel.know();
    let entries = kernel.face(class).entries.as_slice();
    let Some(place) = place_of(entries, name) else {
        return Err(Unasked::Line);
    };
    let entry = entry_in(entries, place);
    let name = entry_name(entry).copy(alloc)?;
    let class = declared_key(alloc, kernel, class)?;
    Ok(kernel.method_token(&MethodRef { class, name }))
}

fn word_of(kind: &ValueType) -> &'static [u8] {
    match kind {
        ValueType::Void => b"void",
        ValueType::Long => b"long",
        ValueType::Boolean => b"boolean",
        ValueType::Str => b"string",
        ValueType::Class(_) => b"class",
    }
}

/// Tells types in order, with commas between.
pub fn tell_types(kinds: &[ValueType], out: &mut List<u8>) -> Result<(), NoMemory> {
    for (place, kind) in kinds.iter().enumerate() {
        if place > 0 {
            told(out, b", ")?;
        }
        told(out, word_of(kind))?;
    }
    Ok(())
}

// Tells the class that introduces a method, the method's name, and its signature.
fn tell_method(
    alloc: Global,
    kernel: &Kernel<Linked>,
    token: MToken,
    out: &mut List<u8>,
) -> Result<(), NoMemory>
    requires { IsToken kernel.now.classes token }
{
    let (method, sig) = kernel.method(token);
    told_class(alloc, out, kernel, token.class())?;
    told(out, b"::")?;
    told(out, method.name.as_slice())?;
    told(out, b": ")?;
    told(out, word_of(&sig.result))?;
    told(out, b"(")?;
    tell_types(sig.params.as_slice(), out)?;
    told(out, b")")
}

/// Tells whose method the entry of a name is in a declared class.
pub fn tell_entry(
    alloc: Global,
    kernel: &Kernel<Linked>,
    rest: &[u8],
    out: &mut List<u8>,
) -> Result<(), Unasked> {
    let (class, name) = first_word(rest);
    let class = class_called(alloc, kernel, class)?;
    if class.number() >= kernel.declared_count() {
        return Err(Unasked::Line);
    }
    let token = owner_of(alloc, kernel, class, name)?;
    tell_method(alloc, kernel, token, out)?;
    Ok(())
}

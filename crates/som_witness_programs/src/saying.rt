//! The texts of the client, and where there are some.

ghost use Rattle.som_model.specs.declared.program.Interface.{Interface};
ghost use Rattle.som_verify_forms.specs.Knowing.{IsKnowledge, all_of};
ghost use Rattle.som_model.specs.Owner.{entry_at};
ghost use Rattle.som_idl.specs.Grammar as interfaces;
ghost use Rattle.som_witness.specs.Wording.{can_call, can_override, class_text, goes_by_slot, has_text, texts_of, type_is_named};
ghost use Rattle.som_witness_programs.specs.Lent.{IsOf, shown};
ghost use Rattle.som_witness_programs.specs.Texted.{says};
ghost use Rattle.std.specs.Prelude.{◌≡◌, IfOk, None, Some, if◌then◌else◌, option_copied};

use crate::body_text::bodies_text;
use crate::interface_text::idl_text;
use crate::showing::Showing;
use crate::words::class_text;
use som_lex::is_word;
use som_model::{ClassKey, Entry, MethodRef, NoMemory, Text, ValueType, Way};
use som_verify_classes::find_entry;
use som_verify_forms::{Knowledge, entries_of, place_of};
use som_witness::Texts;
use std::alloc::Global;

// Whether a name of a class is one of an interface file.
fn is_named(class: &ClassKey) -> bool
    ensures { result ≡ interfaces.is_name_text (class_text class.now) }
{
    som_idl::is_name_text(class_text(class))
}

// Whether a type that is a class has a name of an interface file.
fn type_is_named(kind: &ValueType) -> bool
    ensures { result ≡ type_is_named kind.now }
{
    match kind {
        ValueType::Class(key) => is_named(key),
        _ => true,
    }
}

// Whether an interface file may say that the method is overridden.
fn can_override(method: &MethodRef) -> bool
    ensures { result ≡ can_override method.now }
{
    is_named(&method.class)
        && som_idl::is_name_text(method.name.as_slice())
        && !method.name.is(b"releaseorder")
}

// The entry that the class of the method has for its name.
fn entry_at<'a>(olds: &Knowledge<'a>, method: &MethodRef) -> Option<&'a Entry>
    requires { IsKnowledge olds.now }
    ensures { option_copied result ≡ entry_at (all_of olds.now) method.now.class method.now.name }
{
    match place_of(olds, &method.class) {
        Some(place) => find_entry(entries_of(olds, place), &method.name),
        None => None,
    }
}

// Whether a call of the entry by its name in a text is one by its slot.
fn goes_by_slot(entry: Option<&Entry>) -> bool
    ensures { result ≡ goes_by_slot (option_copied entry.entry) }
{
    match entry {
        Some(
            Entry::Introduced {
                way: Way::Lookup,
                ..
            },
        ) => false,
        _ => true,
    }
}

// Whether a body may call the method by its slot.
fn can_call(olds: &Knowledge, method: &MethodRef) -> bool
    requires { IsKnowledge olds.now }
    ensures { (i : Interface) → IsOf i olds.now → result ≡ can_call i method.now }
{
    is_named(&method.class)
        && is_word(method.name.as_slice())
        && goes_by_slot(entry_at(olds, method))
}

// Whether texts say what the client's class does.
fn says(olds: &Knowledge, method: &MethodRef, showing: &Showing) -> bool
    requires { IsKnowledge olds.now }
    ensures { (i : Interface) → IsOf i olds.now → result ≡ says i method.now (shown showing.now) }
{
    match showing {
        Showing::StandsBelow => is_named(&method.class),
        Showing::KeepsObject(ancestor) => is_named(&method.class) && is_named(ancestor),
        Showing::Overrides(_) => can_override(method),
        Showing::CallsSlot(_) => false,
        Showing::Calls(_) => can_call(olds, method),
        Showing::Passes { kind, .. } => can_call(olds, method) && type_is_named(kind),
        Showing::KeepsParameter { kind, .. } => can_override(method) && type_is_named(kind),
        Showing::ReturnsNothing(_) => can_override(method),
        Showing::ReturnsVariable { kind, .. } => can_override(method) && type_is_named(kind),
        Showing::ReturnsAnswer { kind, .. } => can_call(olds, method) && type_is_named(kind),
        Showing::ReturnsClass(metaclass) => {
            som_body::is_name_text(class_text(&method.class)) && is_named(metaclass)
        }
    }
}

fn has_text(olds: &Knowledge, method: &MethodRef, showing: &Showing) -> bool
    requires { IsKnowledge olds.now }
    ensures { (i : Interface) → IsOf i olds.now → result ≡ has_text i method.now (shown showing.now) }
{
    says(olds, method, showing)
}

fn texts_of(
    alloc: Global,
    w: &Text,
    method: &MethodRef,
    showing: &Showing,
) -> Result<Texts, NoMemory>
    ensures { IfOk result (λ texts. texts ≡ texts_of w.now method.now (shown showing.now)) }
{
    Ok(Texts {
        idl: Text::from_vec(idl_text(alloc, w, method, showing)?),
        bodies: Text::from_vec(bodies_text(alloc, w, method, showing)?),
        main: Text::from_slice(alloc, b"main { }")?,
    })
}

/// The texts of the client, if it has some.
pub fn texts(
    alloc: Global,
    olds: &Knowledge,
    w: &Text,
    method: &MethodRef,
    showing: &Showing,
) -> Result<Option<Texts>, NoMemory>
    requires { IsKnowledge olds.now }
    ensures { (i : Interface) → IsOf i olds.now →
        IfOk result (λ texts. texts ≡ (if has_text i method.now (shown showing.now) then Some (texts_of w.now method.now (shown showing.now)) else None)) }
{
    if has_text(olds, method, showing) {
        Ok(Some(texts_of(alloc, w, method, showing)?))
    } else {
        Ok(None)
    }
}

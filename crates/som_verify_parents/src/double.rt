//! Searches for doubles: the first name that stands twice among names, and a class that is named twice.

ghost use Rattle.som_model.specs.Keys.{same_key};
ghost use Rattle.som_model.specs.Lists.{among, doubles, first, some};
ghost use Rattle.som_order.specs.Names.{texts};
ghost use Rattle.std.specs.Prelude.{◌≡◌, ◌∷◌, ◌++◌, [], IfOk, OnOk, is_some, option_copied};
ghost use Rattle.std.specs.Str.{bytes_eq};

use indexmap::IndexSet;
use som_model::{ClassKey, NoMemory};
use som_order::note_name;
use std::alloc::Global;

// So many names are sooner compared with one another than looked up in a table.
const FEW: usize = 8;

/// The first name that stands a second time.
pub fn first_double<'a>(alloc: Global, names: &[&'a [u8]]) -> Result<Option<&'a [u8]>, NoMemory>
    ensures { IfOk result (λ double. option_copied double ≡ first (doubles bytes_eq [] (texts names.now))) }
{
    if names.len() <= FEW {
        return Ok(double_among(names));
    }
    let mut seen = IndexSet::new(alloc);
    double_after(&mut seen, names)
}

// The same, by comparing each name with those before it.
fn double_among<'a>(names: &[&'a [u8]]) -> Option<&'a [u8]>
    ensures { option_copied result ≡ first (doubles bytes_eq [] (texts names.now)) }
{
    for place in 0..names.len() {
        let name = names[place];
        if is_among(&names[..place], name) {
            return Some(name);
        }
    }
    None
}

fn is_among(names: &[&[u8]], name: &[u8]) -> bool
    ensures { result ≡ among name.now (texts names.now) }
{
    for other in names {
        if name == *other {
            return true;
        }
    }
    false
}

// The first name that stands a second time, after those that were seen.
#[tactic(auto, using(som_verify_classes::proofs::Doubled::doubled))]
fn double_after<'a>(
    seen: &mut IndexSet<&'a [u8]>,
    names: &[&'a [u8]],
) -> Result<Option<&'a [u8]>, NoMemory>
    ensures { IfOk result (λ double. option_copied double ≡ first (doubles bytes_eq (texts seen.old.keys) (texts names.now))) }
{
    for name in names {
        if !note_name(seen, *name)? {
            return Ok(Some(*name));
        }
    }
    Ok(None)
}

/// Adds a lent name after the others. It fails for want of memory alone.
pub fn add<'a>(names: &mut Vec<&'a [u8]>, name: &'a [u8]) -> Result<(), NoMemory>
    ensures { OnOk result (texts names.new.items ≡ texts names.old.items ++ name.now ∷ []) }
{
    names.push(name)?;
    Ok(())
}

/// Whether a class is named twice. It compares each key with those before it, so it is for short lists.
pub fn has_double(keys: &[ClassKey]) -> bool
    ensures { result ≡ is_some (first (doubles same_key [] keys.now)) }
{
    for place in 0..keys.len() {
        if stands_in(&keys[..place], &keys[place]) {
            return true;
        }
    }
    false
}

fn stands_in(keys: &[ClassKey], key: &ClassKey) -> bool
    ensures { result ≡ some (same_key key.now) keys.now }
{
    for other in keys {
        if key.is(other) {
            return true;
        }
    }
    false
}

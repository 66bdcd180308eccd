//! A symbol table from names to places, where the first entry of a name counts.

ghost use Rattle.som_sema_names.specs.Noted as spec;
ghost use Rattle.som_sema_names.specs.Noted.{At, IsKnown, all_at};
ghost use Rattle.std.specs.Prelude.{◌≡◌, ◌++◌, ◌∷◌, [], if◌then◌else◌, List as Seq, IfOk, OnErr, OnOk};

use indexmap::IndexSet;
use som_model::NoMemory;
use som_order::{find_name, note_name};
use std::alloc::Global;

/// An entry of a list: a name, lent by its text, with a place.
#[derive(Clone, Copy)]
pub struct Noted<'a> {
    pub name: &'a [u8],
    pub place: usize,
}

/// A symbol table: `places` has at the index of a name in `names` the first place of that name.
#[derive(Drop)]
pub struct Places<'a> {
    pub names: IndexSet<&'a [u8]>,
    pub places: Vec<usize>,
}

/// A table of the first place of each name.
pub fn place_table<'a>(alloc: Global, all: &[Noted<'a>]) -> Result<Places<'a>, NoMemory>
    ensures { IfOk result (IsKnown (all_at all.now)) }
{
    let mut names = IndexSet::new(alloc);
    let mut places = Vec::new(alloc);
    for noted in all {
        let is_new = note_name(&mut names, noted.name)?;
        push_if(&mut places, is_new, noted.place)?;
    }
    Ok(Places { names, places })
}

/// The first place of a name, and None where the table has no such name.
pub fn first_place(table: &Places, name: &[u8]) -> Option<usize>
    ensures { (ps : Seq At) → IsKnown ps table.now → result ≡ spec.first_place ps name.now }
{
    match find_name(&table.names, name) {
        None => None,
        Some(index) => table.places.as_slice().get(index).copied(),
    }
}

fn push_if(places: &mut Vec<usize>, is_new: bool, place: usize) -> Result<(), NoMemory>
    ensures { OnOk result (places.new.items ≡ (if is_new then places.old.items ++ place ∷ [] else places.old.items)) }
{
    if is_new {
        places.push(place)?;
    }
    Ok(())
}

/// Adds a name with a place at the end; where memory runs out the list is as it was.
pub fn note<'a>(all: &mut Vec<Noted<'a>>, name: &'a [u8], place: usize) -> Result<(), NoMemory>
    ensures ok { OnOk result (all_at all.new.items ≡ all_at all.old.items ++ record { name = name.now; place = place } ∷ []) }
    ensures err { OnErr result (all.new.items ≡ all.old.items) }
{
    all.push(Noted { name, place })?;
    Ok(())
}

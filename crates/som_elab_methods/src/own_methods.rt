//! `OwnMethods`, the methods of an interface that may have bodies, in tables of their names.

ghost use Rattle.som_elab_methods.specs.Bodies.{operations as declared};
ghost use Rattle.som_elab_methods.specs.Tables.{HaveNames, replaced as replaced_at};
ghost use Rattle.som_model.specs.Class.{entry_of};
ghost use Rattle.som_model.specs.Lists.{among, find};
ghost use Rattle.som_model.specs.declared.class.Override.{Override as Replaced};
ghost use Rattle.som_order.specs.Names.{texts};
ghost use Rattle.som_sema_names.specs.Noted.{IsKnown, all_at, counted};
ghost use Rattle.std.specs.Prelude.{◌≡◌, option_copied, slice_get, IfOk};
ghost use Rattle.std.specs.Str.{bytes_eq};

use crate::operations::{is_operation, operation_names};
use indexmap::IndexSet;
use som_model::{Entry, NoMemory, Override};
use som_sema_drafts::Draft;
use som_sema_names::{Places, entry_named, entry_places, first_place, note, place_table};
use std::alloc::Global;

/// An interface with tables of the methods that it declares by operations, of its entries and of the methods that it overrides.
#[derive(Drop)]
pub struct OwnMethods<'d, 'b> {
    pub draft: &'d Draft<'b>,
    operations: IndexSet<&'d [u8]>,
    entries: Places<'d>,
    overrides: Places<'d>,
    ghost by_operations: { HaveNames (declared draft.now.text.now) (texts operations.keys) },
    ghost by_entries: { IsKnown (counted 0 draft.now.decl.face.entries) entries },
    ghost by_overrides: { IsKnown (replaced_at 0 draft.now.decl.overrides) overrides },
}

impl<'d, 'b> OwnMethods<'d, 'b> {
    /// Notes the methods of an interface, in one pass over each list.
    pub fn noted(alloc: Global, draft: &'d Draft<'b>) -> Result<OwnMethods<'d, 'b>, NoMemory>
        ensures { IfOk result (λ m. m.draft.now ≡ draft.now) }
    {
        let operations = operation_names(alloc, draft.text)?;
        let entries = entry_places(alloc, draft.decl.face.entries.as_slice())?;
        let overrides = override_places(alloc, draft.decl.overrides.as_slice())?;
        Ok(OwnMethods {
            draft,
            operations,
            entries,
            overrides,
        })
    }

    /// Whether the interface declares a method by an operation.
    pub fn declares(&self, name: &[u8]) -> bool
        ensures { result ≡ among name.now (declared self.now.draft.now.text.now) }
    {
        is_operation(self.draft.text, &self.operations, name)
    }

    /// The entry of a name.
    pub fn entry(&self, name: &[u8]) -> Option<&'d Entry>
        ensures { option_copied result ≡ entry_of self.now.draft.now.decl.face.entries name.now }
    {
        entry_named(self.draft.decl.face.entries.as_slice(), &self.entries, name)
    }

    /// The first override of a method of that name.
    pub fn replaced(&self, name: &[u8]) -> Option<&'d Override>
        ensures { option_copied result ≡ find (λ (o : Replaced). bytes_eq name.now o.method.name) self.now.draft.now.decl.overrides }
    {
        override_named(self.draft.decl.overrides.as_slice(), &self.overrides, name)
    }
}

// The first place of each overridden method's name.
fn override_places<'a>(alloc: Global, overrides: &'a [Override]) -> Result<Places<'a>, NoMemory>
    ensures { IfOk result (IsKnown (replaced_at 0 overrides.now)) }
{
    let mut all = Vec::new(alloc);
    for place in 0..overrides.len() {
        note(&mut all, overrides[place].method.name.as_slice(), place)?;
    }
    place_table(alloc, &all)
}

fn override_named<'a>(
    overrides: &'a [Override],
    places: &Places,
    name: &[u8],
) -> Option<&'a Override>
    requires { IsKnown (replaced_at 0 overrides.now) places.now }
    ensures { option_copied result ≡ find (λ (o : Replaced). bytes_eq name.now o.method.name) overrides.now }
{
    match first_place(places, name) {
        None => None,
        Some(place) => override_in(overrides, place),
    }
}

fn override_in(overrides: &[Override], place: usize) -> Option<&Override>
    ensures { option_copied result ≡ slice_get overrides.now place }
{
    overrides.get(place)
}

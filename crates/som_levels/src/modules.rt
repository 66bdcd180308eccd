//! The change of modules that a level's sizes give: flat names get the modules of their levels.

ghost use Rattle.som_level_programs.specs.ByLevels.{level_change, level_named, own_module as module_of_own, split};
ghost use Rattle.som_levels.specs.Flat.{IsFlat, names_of};
ghost use Rattle.som_order.specs.Names.{texts};
ghost use Rattle.som_model.specs.Lists.{doubles};
ghost use Rattle.som_model.specs.declared.key.Module.TheVariants as modules;
ghost use Rattle.std.specs.Prelude.{◌≡◌, ◌<◌, [], IfOk};
ghost use Rattle.std.specs.Str.{bytes_eq};

use crate::places::{level_at, level_module};
use indexmap::IndexSet;
use som_model::{Interface, List, Module, NoMemory, Text};
use som_order::{find_name, note_name};
use som_rekey::NewModules;
use std::alloc::Global;
use std::marker::Model;

/// Which module each flat name gets: a class of the base that of its level, and a class of the program's own that of what stands above the
/// levels. Names of the base are found in a table.
pub struct LevelModules<'a> {
    sizes: &'a List<u16>,
    client: bool,
    base: &'a Interface,
    names: IndexSet<&'a [u8]>,
}

impl<'a> Drop for LevelModules<'a> {
    fn drop(self) {
        let LevelModules {
            sizes: _,
            client: _,
            base: _,
            names,
        } = self;
        drop(names);
    }
}

impl<'a> Model for LevelModules<'a> {
    ghost use Rattle.som_levels.specs.Flat.{Flat, IsFlat, names_of};
    ghost use Rattle.som_model.specs.contracts.key.ClassKey as key;
    ghost use Rattle.som_order.specs.Names.{texts};
    ghost use Rattle.std.specs.Coded.{codes};
    ghost use Rattle.std.specs.Prelude.{◌≡◌};

    ghost Value = { Flat };

    ghost coded = { Prim.hlevel (codes, key.the_row.coded) };

    ghost view = { λ m. record { sizes = m.sizes.now; client = m.client; base = m.base.now } };

    ghost invariant = { λ m. IsFlat m.sizes.now m.base.now × (texts m.names.keys ≡ names_of m.base.now) };
}

impl<'a> LevelModules<'a> {
    /// The change for a program above levels of these sizes, whose base has their classes one after the other.
    pub fn new(
        alloc: Global,
        sizes: &'a List<u16>,
        client: bool,
        base: &'a Interface,
    ) -> Result<LevelModules<'a>, NoMemory>
        requires { IsFlat sizes.now base.now }
        ensures { IfOk result (λ m. m ≡ record { sizes = sizes.now; client = client; base = base.now }) }
    {
        let names = names_in(alloc, base)?;
        Ok(LevelModules {
            sizes,
            client,
            base,
            names,
        })
    }

    /// The module of the program's own classes.
    pub fn own(&self) -> Module
        ensures { result ≡ level_change self.now.sizes self.now.client self.now.base modules.Client [] }
    {
        own_module(self.sizes.len(), self.client)
    }

    // The module of a class of the base.
    fn of_base(&self, name: &Text) -> Module
        ensures { result ≡ level_named 0 (split self.now.sizes self.now.base.classes) name.now }
    {
        match find_name(&self.names, name.as_slice()) {
            Some(place) => level_module(level_at(self.sizes.as_slice(), place)),
            None => Module::Library,
        }
    }

    pub(crate) fn sizes(&self) -> &List<u16>
        ensures is { result.now ≡ self.now.sizes }
        ensures flat { IsFlat self.now.sizes self.now.base }
    {
        self.sizes
    }

    pub(crate) fn base(&self) -> &Interface
        ensures { result.now ≡ self.now.base }
    {
        self.base
    }
}

impl<'a> NewModules for LevelModules<'a> {
    ghost use Rattle.som_level_programs.specs.ByLevels.{level_change};

    ghost change = { λ m. level_change m.sizes m.client m.base };

    fn module_of(&self, origin: Module, name: &Text) -> Module {
        match origin {
            Module::Kernel => Module::Kernel,
            Module::Library => self.of_base(name),
            Module::Upper(level) => Module::Upper(level),
            Module::Client => own_module(self.sizes.len(), self.client),
        }
    }
}

// The names of the classes of a base in which no two have one name.
fn names_in(alloc: Global, base: &Interface) -> Result<IndexSet<&[u8]>, NoMemory>
    requires { doubles bytes_eq [] (names_of base.now) ≡ [] }
    ensures { IfOk result (λ names. texts names.keys ≡ names_of base.now) }
{
    let mut names = IndexSet::new(alloc);
    for face in base.classes.as_slice() {
        let _is_new = note_name(&mut names, face.name.as_slice())?;
    }
    Ok(names)
}

// The module of what stands above so many levels.
fn own_module(levels: usize, client: bool) -> Module
    requires { levels < 256 }
    ensures { result ≡ module_of_own levels client }
{
    if client {
        Module::Client
    } else {
        Module::Upper(levels as u8)
    }
}

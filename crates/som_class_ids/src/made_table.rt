//! Derived classes and proxy classes, found by the parents that they are made of.

ghost use Rattle.std.specs.HashMap.{spare};
ghost use Rattle.std.specs.Prelude.{◌≡◌, ◌≢◌, ◌<◌, ◌≤◌, ◌++◌, ◌∷◌, [], ℕ, List as Seq, None, OnErr, OnOk, Some, length};
ghost use Rattle.som_class_ids.specs.Made.{AreListed, HasRoom, TellsSame, found, found_made};
ghost use Rattle.som_class_ids.specs.declared.position.Kind.TheVariants as kinds;
ghost use Rattle.som_class_ids.specs.declared.position.Kind.{Kind as Making};

use crate::position::{Kind, Position};
use indexmap::IndexMap;
use som_model::{List, NoMemory};
use som_tables::ClassNo;
use std::alloc::Global;

/// The classes that are made of others, by what they are made of: the derived ones, and those of proxies.
#[derive(Drop)]
pub(crate) struct MadeTable {
    derived: IndexMap<Vec<ClassNo>, ClassNo>,
    proxies: IndexMap<Vec<ClassNo>, ClassNo>,
}

impl MadeTable {
    /// No class is noted.
    pub(crate) fn new(alloc: Global) -> MadeTable
        ensures { (kind : Making) (parents : Seq ℕ) → found_made result kind parents ≡ None }
    {
        MadeTable {
            derived: IndexMap::new(alloc),
            proxies: IndexMap::new(alloc),
        }
    }

    /// The number of the class that is made so of these.
    pub(crate) fn find(&self, kind: Kind, parents: &[ClassNo]) -> Option<ClassNo>
        ensures { result ≡ found_made self.now kind parents.now }
    {
        match kind {
            Kind::Declared => None,
            Kind::Derived => self.derived.get(parents).copied(),
            Kind::Proxy => self.proxies.get(parents).copied(),
        }
    }

    /// Makes room for one class more.
    fn reserve(&mut self) -> Result<(), NoMemory>
        ensures same { TellsSame self.old self.new }
        ensures room { OnOk result (HasRoom self.new) }
    {
        self.derived.reserve(1)?;
        self.proxies.reserve(1)?;
        Ok(())
    }

    /// Notes a class that wasn't noted.
    fn note(&mut self, kind: Kind, parents: Vec<ClassNo>, class: ClassNo)
        requires room { HasRoom self.old }
        requires made { kind ≢ kinds.Declared }
        requires fresh { found_made self.old kind parents.items ≡ None }
        ensures class { found_made self.new kind parents.items ≡ Some class }
        ensures others { (other : Making) (others : Seq ℕ) → ((other ≡ kind) × (others ≡ parents.items) → ⊥) → found_made self.new other others ≡ found_made self.old other others }
    {
        match kind {
            Kind::Declared => unreachable!(),
            Kind::Derived => put(&mut self.derived, parents, class),
            Kind::Proxy => put(&mut self.proxies, parents, class),
        }
    }
}

fn put(table: &mut IndexMap<Vec<ClassNo>, ClassNo>, parents: Vec<ClassNo>, class: ClassNo)
    requires room { 0 < spare table.old }
    requires fresh { found table.old.entries (λ k. k.items) parents.items ≡ None }
    ensures class { found table.new.entries (λ k. k.items) parents.items ≡ Some class }
    ensures others { (others : Seq ℕ) → (others ≡ parents.items → ⊥) → found table.new.entries (λ k. k.items) others ≡ found table.old.entries (λ k. k.items) others }
{
    match table.insert(parents, class) {
        Ok(_) => (),
        Err(_) => unreachable!(),
    }
}

/// Adds the position of a made class that had none, so that it is found by what it is made of.
pub(crate) fn push_made(
    alloc: Global,
    positions: &mut List<Position>,
    table: &mut MadeTable,
    position: Position,
) -> Result<(), NoMemory>
    requires few { length positions.old < 4294967296 }
    requires made { position.kind ≢ kinds.Declared }
    requires fresh { found_made table.old position.kind position.parents ≡ None }
    ensures ok { OnOk result (positions.new ≡ positions.old ++ position ∷ []) }
    ensures err { OnErr result (positions.new ≡ positions.old) }
    ensures listed { (first : ℕ) → first ≤ length positions.old → AreListed first positions.old table.old → AreListed first positions.new table.new }
{
    let kind = position.kind;
    let class = ClassNo::new(positions.len() as u32);
    let parents = Vec::from_slice(alloc, position.parents.as_slice())?;
    table.reserve()?;
    positions.push(position)?;
    table.note(kind, parents, class);
    Ok(())
}

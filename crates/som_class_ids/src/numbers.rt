//! The numbers of a run's classes, declared and made, by which they are asked and found.

ghost use Rattle.som_model_laws.specs.Metaclasses.{IsDeclared};
ghost use Rattle.som_meta.specs.Numbering.{AreApart, AreNumbered, IsNumbered, key_at};
ghost use Rattle.som_model.specs.Classes.{ancestors as ancestors_at, hierarchy, is_a as descends};
ghost use Rattle.som_model.specs.Lists.{Mem};
ghost use Rattle.som_model.specs.Loads.{keys_of};
ghost use Rattle.som_model.specs.Metaclass.{rank as rank_of};
ghost use Rattle.som_semantics.specs.World.{named_class};
ghost use Rattle.som_model.specs.declared.limits.TheConstants.{MAX_LAID_CLASSES};
ghost use Rattle.som_class_ids.specs.Classes.{AreDeclared, class_of, classes_of};
ghost use Rattle.som_class_ids.specs.Numbers.{AreFirst, IsProxy, made_key, with_key};
ghost use Rattle.som_class_ids.specs.declared.position.Kind.TheVariants as kinds;
ghost use Rattle.std.specs.Option.{option_map};
ghost use Rattle.std.specs.Prelude.{◌≡◌, ◌≢◌, ◌↔◌, ◌+◌, ◌<◌, ◌≤◌, ◌++◌, ◌∷◌, [], ℕ, IfNone, IfOk, IfSome, None, OnErr, OnOk, Some, length, map, slice_get};

use crate::declared::{declared_number, declared_positions, number_of};
use crate::keyed::{Keyed, class_at};
use crate::keys::find_made;
use crate::made::greatest_rank;
use crate::made_table::{MadeTable, push_made};
use crate::named::{class_named, highest_level};
use crate::names::{Names, names_of};
use crate::position::{Kind, Position, is_marked, next_made, position_of};
use som_model::{ClassKey, List, NoMemory, Text};
use som_tables::ClassNo;
use std::alloc::Global;
use std::marker::Model;

/// More classes than these have no numbers, which counts as want of memory.
const MOST_NUMBERS: usize = 4_294_967_294;

/// The classes of a run by their numbers: the declared ones by their places, and after them those that are made of others, in the order in which they
/// were first asked for. Contracts see the declared classes, and the key that each number stands for.
pub struct Numbers {
    classes: List<Keyed>,
    positions: List<Position>,
    names: Names,
    highest: u8,
    table: MadeTable,
    marks: Vec<bool>,
}

impl Drop for Numbers {
    fn drop(self) {
        let Numbers {
            classes,
            positions,
            names,
            highest: _,
            table,
            marks,
        } = self;
        drop(classes);
        drop(positions);
        drop(names);
        drop(table);
        drop(marks);
    }
}

impl Model for Numbers {
    ghost use Rattle.som_meta.specs.Numbering.{Numbering};
    ghost use Rattle.som_model.specs.contracts.key.ClassKey as key;
    ghost use Rattle.som_model.specs.contracts.syntax.Block as block;
    ghost use Rattle.som_class_ids.specs.Numbers.{AreKept, numbering_of};
    ghost use Rattle.std.specs.Coded.{codes};

    ghost Value = { Numbering };

    ghost coded = { Prim.hlevel (codes, key.the_row.coded, block.the_row.coded) };

    ghost view = { λ n. numbering_of n.classes n.positions };

    ghost invariant = { λ n. AreKept n.classes n.positions n.names n.highest n.table n.marks.items };
}

impl Numbers {
    /// Numbers the kernel's classes and those after them.
    pub fn new(alloc: Global, classes: List<Keyed>) -> Result<Numbers, NoMemory>
        requires few { length classes ≤ MAX_LAID_CLASSES + 4 }
        requires declared { AreDeclared (classes_of classes) }
        ensures { IfOk result (λ n. n ≡ record { classes = classes_of classes; keys = keys_of (classes_of classes) }) }
    {
        let names = names_of(alloc, classes.as_slice())?;
        let positions = declared_positions(alloc, &names, classes.as_slice())?;
        let highest = highest_level(classes.as_slice());
        Ok(Numbers {
            classes,
            positions,
            names,
            highest,
            table: MadeTable::new(alloc),
            marks: Vec::new(alloc),
        })
    }

    /// How many classes have numbers.
    pub fn count(&self) -> u32
        ensures count { result ≡ length self.now.keys }
        ensures apart { AreApart self.now }
    {
        self.positions.len() as u32
    }

    /// Whether a class is another or descends from it, of a declared class by one look.
    pub fn is_a(&self, class: ClassNo, ancestor: ClassNo) -> bool
        requires class { IsNumbered self.now class }
        requires ancestor { IsNumbered self.now ancestor }
        ensures { result ≡ descends self.now.classes (key_at self.now class) (key_at self.now ancestor) }
    {
        is_marked(self.positions.as_slice(), class, ancestor)
    }

    /// A class and its ancestors, in the order of the definition.
    pub fn ancestors(&self, class: ClassNo) -> &List<ClassNo>
        requires { IsNumbered self.now class }
        ensures numbered { AreNumbered self.now result.now }
        ensures keys { map (key_at self.now) result.now ≡ ancestors_at self.now.classes (key_at self.now class) }
    {
        &position_of(self.positions.as_slice(), class).ancestors
    }

    /// The parents of a class, which have lower numbers.
    pub fn parents(&self, class: ClassNo) -> &List<ClassNo>
        requires { IsNumbered self.now class }
        ensures lower { (p : ℕ) → Mem p result.now → p < class }
        ensures keys { map (key_at self.now) result.now ≡ (hierarchy self.now.classes).parents (key_at self.now class) }
    {
        &position_of(self.positions.as_slice(), class).parents
    }

    /// The rank of a class.
    pub fn rank(&self, class: ClassNo) -> u32
        requires { IsNumbered self.now class }
        ensures { result ≡ rank_of self.now.classes (key_at self.now class) }
    {
        position_of(self.positions.as_slice(), class).rank
    }

    /// How many classes are declared, the kernel's among them. They have the first numbers.
    pub fn declared_count(&self) -> u32
        ensures count { result ≡ length self.now.classes }
        ensures first { AreFirst self.now }
        ensures declared { AreDeclared self.now.classes }
    {
        self.classes.len() as u32
    }

    /// Whether a class is declared, or how it is made of its parents.
    pub fn kind(&self, class: ClassNo) -> Kind
        requires { IsNumbered self.now class }
        ensures declared { (result ≡ kinds.Declared) ↔ (class < length self.now.classes) }
        ensures derived { result ≡ kinds.Derived → key_at self.now class ≡ ClassKey.Derived ((hierarchy self.now.classes).parents (key_at self.now class)) }
        ensures proxy { result ≡ kinds.Proxy → IsProxy self.now class }
    {
        if (class.number() as usize) < self.classes.len() {
            Kind::Declared
        } else {
            position_of(self.positions.as_slice(), class).kind
        }
    }

    /// The number of a declared class.
    pub fn number_of(&self, key: &ClassKey) -> ClassNo
        requires { Mem key.now (keys_of self.now.classes) }
        ensures declared { result < length self.now.classes }
        ensures numbered { IsNumbered self.now result }
        ensures key { key_at self.now result ≡ key.now }
    {
        number_of(&self.names, self.classes.as_slice(), key)
    }

    /// The number of a class, declared or made. A class of proxies is found by its target, a derived one among the made classes, in the time of
    /// comparing their parents with the key.
    pub fn find(&self, key: &ClassKey) -> Option<ClassNo>
        ensures some { IfSome result (λ n. IsNumbered self.now n × (key_at self.now n ≡ key.now)) }
        ensures none { IfNone result ((n : ℕ) → IsNumbered self.now n → key_at self.now n ≡ key.now → ⊥) }
    {
        match key {
            ClassKey::Named { .. } => self.find_declared(key),
            ClassKey::Derived { .. } => find_made(key, self),
            ClassKey::Proxy { of } => match self.find(of.get()) {
                Some(target) => self.proxy_of(target),
                None => self.no_proxy(of.get()),
            },
        }
    }

    /// The number of the class of the proxies of a class, if it has one.
    pub fn proxy_of(&self, target: ClassNo) -> Option<ClassNo>
        requires { IsNumbered self.now target }
        ensures some { IfSome result (λ n. IsNumbered self.now n × (key_at self.now n ≡ ClassKey.Proxy (key_at self.now target))) }
        ensures none { IfNone result ((n : ℕ) → IsNumbered self.now n → key_at self.now n ≡ ClassKey.Proxy (key_at self.now target) → ⊥) }
    {
        self.made(Kind::Proxy, &[target])
    }

    /// A class without a number has no proxy with one.
    fn no_proxy(&self, of: &ClassKey) -> Option<ClassNo>
        requires { (n : ℕ) → IsNumbered self.now n → key_at self.now n ≡ of.now → ⊥ }
        ensures none { result ≡ None }
        ensures proxy { (n : ℕ) → IsNumbered self.now n → key_at self.now n ≡ ClassKey.Proxy of.now → ⊥ }
    {
        let _known = self.positions.len();
        None
    }

    fn find_declared(&self, key: &ClassKey) -> Option<ClassNo>
        requires { IsDeclared key.now }
        ensures some { IfSome result (λ n. IsNumbered self.now n × (key_at self.now n ≡ key.now)) }
        ensures none { IfNone result ((n : ℕ) → IsNumbered self.now n → key_at self.now n ≡ key.now → ⊥) }
    {
        declared_number(&self.names, self.classes.as_slice(), key)
    }

    /// The number of the class of a name: of the client's, or else of that of the highest level above the library, or else of the library's, or else of
    /// the kernel's.
    pub fn named(&self, name: &Text) -> Option<ClassNo>
        ensures declared { IfSome result (λ n. n < length self.now.classes) }
        ensures key { option_map (key_at self.now) result ≡ named_class self.now.classes name.now }
    {
        class_named(&self.names, self.classes.as_slice(), self.highest, name)
    }

    /// A declared class.
    pub fn declared(&self, class: ClassNo) -> &Keyed
        requires { class < length self.now.classes }
        ensures class { slice_get self.now.classes class ≡ Some (class_of result.now) }
        ensures numbered { IsNumbered self.now class }
        ensures key { key_at self.now class ≡ result.now.key }
    {
        class_at(self.classes.as_slice(), class)
    }

    /// Numbers a class that is made so of these, and that had no number.
    fn add(
        &mut self,
        alloc: Global,
        kind: Kind,
        parents: List<ClassNo>,
    ) -> Result<ClassNo, NoMemory>
        requires made { kind ≢ kinds.Declared }
        requires one { kind ≡ kinds.Proxy → length parents ≡ 1 }
        requires numbered { (n : ℕ) → Mem n parents → IsNumbered self.old n }
        requires fresh { (n : ℕ) → IsNumbered self.old n → key_at self.old n ≡ made_key kind (map (key_at self.old) parents) → ⊥ }
        ensures added { OnOk result (self.new ≡ record { classes = self.old.classes; keys = self.old.keys ++ made_key kind (map (key_at self.old) parents) ∷ [] }) }
        ensures class { IfOk result (λ n. n ≡ length self.old.keys) }
        ensures err { OnErr result (self.new ≡ self.old) }
    {
        if self.positions.len() >= MOST_NUMBERS {
            return Err(NoMemory);
        }
        let class = ClassNo::new(self.positions.len() as u32);
        let rank = greatest_rank(self.positions.as_slice(), parents.as_slice());
        let position = next_made(
            alloc,
            self.positions.as_slice(),
            &mut self.marks,
            kind,
            parents,
            rank,
        )?;
        push_made(alloc, &mut self.positions, &mut self.table, position)?;
        Ok(class)
    }

    /// The number of the class that is made so of these, if it has one.
    fn made(&self, kind: Kind, parents: &[ClassNo]) -> Option<ClassNo>
        requires made { kind ≢ kinds.Declared }
        requires one { kind ≡ kinds.Proxy → length parents.now ≡ 1 }
        requires numbered { (n : ℕ) → Mem n parents.now → IsNumbered self.now n }
        ensures some { IfSome result (λ n. IsNumbered self.now n × (key_at self.now n ≡ made_key kind (map (key_at self.now) parents.now))) }
        ensures none { IfNone result ((n : ℕ) → IsNumbered self.now n → key_at self.now n ≡ made_key kind (map (key_at self.now) parents.now) → ⊥) }
    {
        self.table.find(kind, parents)
    }

    /// The number of the class that is made so of these, which has one from now on.
    fn number_made(
        &mut self,
        alloc: Global,
        kind: Kind,
        parents: List<ClassNo>,
    ) -> Result<ClassNo, NoMemory>
        requires made { kind ≢ kinds.Declared }
        requires one { kind ≡ kinds.Proxy → length parents ≡ 1 }
        requires numbered { (n : ℕ) → Mem n parents → IsNumbered self.old n }
        ensures keys { OnOk result (self.new ≡ with_key self.old (made_key kind (map (key_at self.old) parents))) }
        ensures class { IfOk result (λ n. IsNumbered self.new n × (key_at self.new n ≡ made_key kind (map (key_at self.old) parents))) }
        ensures err { OnErr result (self.new ≡ self.old) }
    {
        match self.made(kind, parents.as_slice()) {
            Some(class) => Ok(class),
            None => self.add(alloc, kind, parents),
        }
    }

    /// The number of the class that is derived from these, which has one from now on.
    pub fn derived(&mut self, alloc: Global, parents: List<ClassNo>) -> Result<ClassNo, NoMemory>
        requires { (n : ℕ) → Mem n parents → IsNumbered self.old n }
        ensures keys { OnOk result (self.new ≡ with_key self.old (ClassKey.Derived (map (key_at self.old) parents))) }
        ensures class { IfOk result (λ n. IsNumbered self.new n × (key_at self.new n ≡ ClassKey.Derived (map (key_at self.old) parents))) }
        ensures err { OnErr result (self.new ≡ self.old) }
    {
        self.number_made(alloc, Kind::Derived, parents)
    }

    /// The number of the class of the proxies of a class, which has one from now on.
    pub fn proxy(&mut self, alloc: Global, of: ClassNo) -> Result<ClassNo, NoMemory>
        requires { IsNumbered self.old of }
        ensures keys { OnOk result (self.new ≡ with_key self.old (ClassKey.Proxy (key_at self.old of))) }
        ensures class { IfOk result (λ n. IsNumbered self.new n × (key_at self.new n ≡ ClassKey.Proxy (key_at self.old of))) }
        ensures err { OnErr result (self.new ≡ self.old) }
    {
        let mut parents = List::new(alloc);
        parents.push(of)?;
        self.number_made(alloc, Kind::Proxy, parents)
    }
}

//! The classes of a run in one value: numbers, owners of methods and members, as an `Ancestry`.

ghost use Rattle.som_class_table.specs.Loaded.{AreLoaded};
ghost use Rattle.som_class_methods.specs.Members.{HaveTokens, override_method, select_method};
ghost use Rattle.som_meta.specs.Numbering.{AreApart, IsNumbered, IsToken, key_at, method_at};
ghost use Rattle.som_model.specs.Class.{Class};
ghost use Rattle.som_model.specs.Classes.{hierarchy};
ghost use Rattle.som_model.specs.Implementation.{has_body as has_body_of, selected as selected_of};
ghost use Rattle.som_model.specs.Kernel.{kernel};
ghost use Rattle.som_model.specs.Lists.{Mem};
ghost use Rattle.som_model.specs.Loads.{Loads, keys_of};
ghost use Rattle.som_model.specs.Made.{all_roots};
ghost use Rattle.som_model.specs.Metaclass.{rank as rank_of};
ghost use Rattle.som_model.specs.Owner.{entry_at, owner};
ghost use Rattle.som_semantics.specs.World.{named_class};
ghost use Rattle.som_model.specs.declared.key.ClassKey.{ClassKey as Key};
ghost use Rattle.som_class_ids.specs.Classes.{class_of, classes_of};
ghost use Rattle.som_class_ids.specs.Numbers.{AreFirst, IsProxy, with_key};
ghost use Rattle.som_class_ids.specs.declared.position.Kind.TheVariants as kinds;
ghost use Rattle.som_class_methods.specs.Owners.{IsTokenOf};
ghost use Rattle.std.specs.Option.{option_map};
ghost use Rattle.std.specs.Prelude.{◌≡◌, ◌↔◌, ◌==◌, ◌&&◌, ◌<◌, ◌++◌, ℕ, IfNone, IfOk, IfSome, IsSome, None, OnErr, OnOk, Some, length, map, nat_lt, slice_get};

use crate::kernel::after_kernel;
use crate::proxies::{number_proxies, proxied};
use crate::tokens::introduced_tokens;
use som_class_ids::{Keyed, Kind, Numbers};
use som_class_methods::{Members, Owners};
use som_meta::Ancestry;
use som_model::{Block, ClassKey, List, MethodRef, NoMemory, Text};
use som_tables::{ClassNo, MToken};
use std::alloc::Global;
use std::marker::Model;

/// The classes of a run by their numbers, and the tokens of their methods; the trait of this name in `som_values` is what
/// values ask. Contracts see the declared classes, and the key that each number stands for.
pub struct Classes {
    numbers: Numbers,
    owners: Owners,
    members: Members,
    introduced: List<List<MToken>>,
    none: List<MToken>,
}

impl Drop for Classes {
    fn drop(self) {
        let Classes {
            numbers,
            owners,
            members,
            introduced,
            none,
        } = self;
        drop(numbers);
        drop(owners);
        drop(members);
        drop(introduced);
        drop(none);
    }
}

impl Model for Classes {
    ghost use Rattle.som_class_table.specs.Kept.{IsClasses};
    ghost use Rattle.som_meta.specs.Numbering.{Numbering};
    ghost use Rattle.som_model.specs.contracts.key.ClassKey as key;
    ghost use Rattle.som_model.specs.contracts.syntax.Block as block;
    ghost use Rattle.std.specs.Coded.{codes};

    ghost Value = { Numbering };

    ghost coded = { Prim.hlevel (codes, key.the_row.coded, block.the_row.coded) };

    ghost view = { λ c. c.numbers };

    ghost invariant = { λ c. IsClasses c.numbers c.owners c.members c.introduced c.none };
}

/// The numbers of the kernel's classes, of these, and of the proxies that blocks of theirs or of main name.
fn numbered(alloc: Global, classes: List<Keyed>, main: &Block) -> Result<Numbers, NoMemory>
    requires { Loads (classes_of classes) main.now }
    ensures classes { IfOk result (λ k. k.classes ≡ kernel ++ classes_of classes) }
    ensures keys { IfOk result (λ k. (key : Key) → Mem key k.keys ↔ Mem key (all_roots k.classes main.now)) }
    ensures loaded { IfOk result (λ k. AreLoaded k) }
{
    let named = proxied(alloc, classes.as_slice(), main)?;
    let all = after_kernel(alloc, classes)?;
    let mut numbers = Numbers::new(alloc, all)?;
    number_proxies(alloc, &mut numbers, named.as_slice())?;
    know_numbers(&numbers);
    Ok(numbers)
}

/// The first numbers are those of the declared classes, and no two numbers stand for one class.
fn know_numbers(numbers: &Numbers)
    ensures first { AreFirst numbers.now }
    ensures apart { AreApart numbers.now }
{
    let _declared = numbers.declared_count();
    let _count = numbers.count();
}

impl Classes {
    /// Numbers the kernel's classes, these, and the classes of the proxies that a block of theirs or main names.
    pub fn new(alloc: Global, classes: List<Keyed>, main: &Block) -> Result<Classes, NoMemory>
        requires { Loads (classes_of classes) main.now }
        ensures classes { IfOk result (λ k. k.classes ≡ kernel ++ classes_of classes) }
        ensures keys { IfOk result (λ k. (key : Key) → Mem key k.keys ↔ Mem key (all_roots k.classes main.now)) }
    {
        let numbers = numbered(alloc, classes, main)?;
        let owners = Owners::new(alloc, &numbers)?;
        let members = Members::new(alloc, &numbers, &owners)?;
        let introduced = introduced_tokens(alloc, &numbers)?;
        Ok(Classes {
            numbers,
            owners,
            members,
            introduced,
            none: List::new(alloc),
        })
    }

    /// How many classes have numbers.
    pub fn count(&self) -> u32
        ensures count { result ≡ length self.now.keys }
        ensures apart { AreApart self.now }
        ensures loaded { AreLoaded self.now }
    {
        self.numbers.count()
    }

    /// How many classes are declared, the kernel's among them. They have the first numbers.
    pub fn declared_count(&self) -> u32
        ensures count { result ≡ length self.now.classes }
        ensures first { AreFirst self.now }
    {
        self.numbers.declared_count()
    }

    /// Whether a class is declared, or how it is made of its parents.
    pub fn kind(&self, class: ClassNo) -> Kind
        requires { IsNumbered self.now class }
        ensures declared { (result ≡ kinds.Declared) ↔ (class < length self.now.classes) }
        ensures derived { result ≡ kinds.Derived → key_at self.now class ≡ ClassKey.Derived ((hierarchy self.now.classes).parents (key_at self.now class)) }
        ensures proxy { result ≡ kinds.Proxy → IsProxy self.now class }
    {
        self.numbers.kind(class)
    }

    /// The parents of a class, which have lower numbers.
    pub fn parents(&self, class: ClassNo) -> &List<ClassNo>
        requires { IsNumbered self.now class }
        ensures lower { (p : ℕ) → Mem p result.now → p < class }
        ensures keys { map (key_at self.now) result.now ≡ (hierarchy self.now.classes).parents (key_at self.now class) }
    {
        self.numbers.parents(class)
    }

    /// The rank of a class.
    pub fn rank(&self, class: ClassNo) -> u32
        requires { IsNumbered self.now class }
        ensures { result ≡ rank_of self.now.classes (key_at self.now class) }
    {
        self.numbers.rank(class)
    }

    /// The number of a declared class.
    pub fn number_of(&self, key: &ClassKey) -> ClassNo
        requires { Mem key.now (keys_of self.now.classes) }
        ensures declared { result < length self.now.classes }
        ensures numbered { IsNumbered self.now result }
        ensures key { key_at self.now result ≡ key.now }
    {
        self.numbers.number_of(key)
    }

    /// The number of a class, declared or made.
    pub fn find(&self, key: &ClassKey) -> Option<ClassNo>
        ensures some { IfSome result (λ n. IsNumbered self.now n × (key_at self.now n ≡ key.now)) }
        ensures none { IfNone result ((n : ℕ) → IsNumbered self.now n → key_at self.now n ≡ key.now → ⊥) }
    {
        self.numbers.find(key)
    }

    /// The number of the class of the proxies of a class, if it has one.
    pub fn proxy_of(&self, target: ClassNo) -> Option<ClassNo>
        requires { IsNumbered self.now target }
        ensures some { IfSome result (λ n. IsNumbered self.now n × (key_at self.now n ≡ ClassKey.Proxy (key_at self.now target))) }
        ensures none { IfNone result ((n : ℕ) → IsNumbered self.now n → key_at self.now n ≡ ClassKey.Proxy (key_at self.now target) → ⊥) }
    {
        self.numbers.proxy_of(target)
    }

    /// The number of the class of a name: of the client's, or else of that of the highest level above the library, or else of the library's, or else of
    /// the kernel's.
    pub fn named(&self, name: &Text) -> Option<ClassNo>
        ensures declared { IfSome result (λ n. n < length self.now.classes) }
        ensures key { option_map (key_at self.now) result ≡ named_class self.now.classes name.now }
    {
        self.numbers.named(name)
    }

    /// A declared class.
    pub fn declared(&self, class: ClassNo) -> &Keyed
        requires { class < length self.now.classes }
        ensures class { slice_get self.now.classes class ≡ Some (class_of result.now) }
        ensures numbered { IsNumbered self.now class }
        ensures key { key_at self.now class ≡ result.now.key }
    {
        self.numbers.declared(class)
    }

    /// The number of the class that is derived from these, which has one from now on.
    pub fn derived(&mut self, alloc: Global, parents: List<ClassNo>) -> Result<ClassNo, NoMemory>
        requires { (n : ℕ) → Mem n parents → IsNumbered self.old n }
        ensures keys { OnOk result (self.new ≡ with_key self.old (ClassKey.Derived (map (key_at self.old) parents))) }
        ensures class { IfOk result (λ n. IsNumbered self.new n × (key_at self.new n ≡ ClassKey.Derived (map (key_at self.old) parents))) }
        ensures err { OnErr result (self.new ≡ self.old) }
    {
        let class = self.numbers.derived(alloc, parents);
        know_numbers(&self.numbers);
        class
    }

    /// The token of the owner of a method that an entry of its class names.
    pub fn method_token(&self, method: &MethodRef) -> MToken
        requires { IsSome (entry_at self.now.classes method.now.class method.now.name) }
        ensures { IsTokenOf self.now result (owner self.now.classes method.now) }
    {
        self.owners.method_token(&self.numbers, method)
    }

    /// The tokens of the methods that a declared class overrides, in the order of its overrides.
    pub fn overridden(&self, class: ClassNo) -> &[MToken]
        requires { class < length self.now.classes }
        ensures { (c : Class) → slice_get self.now.classes class ≡ Some c → HaveTokens self.now (map override_method c.decl.overrides) result.now }
    {
        self.members.overridden(class)
    }

    /// The tokens of the methods for which a declared class selects parents, in the order of its selects.
    pub fn selecting(&self, class: ClassNo) -> &[MToken]
        requires { class < length self.now.classes }
        ensures { (c : Class) → slice_get self.now.classes class ≡ Some c → HaveTokens self.now (map select_method c.decl.selects) result.now }
    {
        self.members.selecting(class)
    }

    /// The parent that a declared class selects for a method.
    pub fn selected(&self, class: ClassNo, token: MToken) -> Option<ClassNo>
        requires declared { class < length self.now.classes }
        requires token { IsToken self.now token }
        ensures some { IfSome result (λ p. IsNumbered self.now p × (selected_of self.now.classes (method_at self.now token) (key_at self.now class) ≡ Some (key_at self.now p))) }
        ensures none { IfNone result (selected_of self.now.classes (method_at self.now token) (key_at self.now class) ≡ None) }
    {
        self.members.selected(&self.numbers, class, token)
    }

    /// The classes are loaded.
    fn know_loaded(&self)
        ensures { AreLoaded self.now }
    {
        let _count = self.numbers.count();
    }

    /// The class whose objects a proxy stands for.
    fn target(&self, proxy: ClassNo) -> ClassNo
        requires numbered { IsNumbered self.now proxy }
        requires proxy { IsProxy self.now proxy }
        ensures numbered { IsNumbered self.now result }
        ensures key { key_at self.now proxy ≡ ClassKey.Proxy (key_at self.now result) }
    {
        self.parents(proxy).as_slice()[0]
    }

    /// Whether the class of the proxies of a target has a body for a method: it does nothing to begin and to end an object, and forwards what a class
    /// outside the kernel introduces from which its target descends.
    fn proxy_has_body(&self, target: ClassNo, token: MToken) -> bool
        requires target { IsNumbered self.now target }
        requires token { IsToken self.now token }
        ensures { result ≡ has_body_of self.now.classes (method_at self.now token) (ClassKey.Proxy (key_at self.now target)) }
    {
        self.know_loaded();
        if is_life(token) {
            return true;
        }
        if is_low(token.class()) {
            return false;
        }
        self.numbers.is_a(target, token.class())
    }
}

/// Whether a method is the first or the second of SOMObject, which begin and end an object.
fn is_life(token: MToken) -> bool
    ensures { result ≡ ((token.0 == 0) && nat_lt token.1 2) }
{
    token.class().number() == 0 && token.place() < 2
}

/// Whether a class has one of the four numbers of the kernel's.
fn is_low(class: ClassNo) -> bool
    ensures { result ≡ nat_lt class 4 }
{
    class.number() < 4
}

impl Ancestry for Classes {
    ghost known = { λ k. k };

    fn is_a(&self, class: ClassNo, ancestor: ClassNo) -> bool {
        self.numbers.is_a(class, ancestor)
    }

    fn ancestors(&self, class: ClassNo) -> &List<ClassNo> {
        self.numbers.ancestors(class)
    }

    fn has_body(&self, class: ClassNo, token: MToken) -> bool {
        match self.kind(class) {
            Kind::Declared => self.members.has_body(&self.numbers, class, token),
            Kind::Derived => false,
            Kind::Proxy => self.proxy_has_body(self.target(class), token),
        }
    }

    fn introduced(&self, class: ClassNo) -> &List<MToken> {
        if class.number() < self.numbers.declared_count() {
            &self.introduced.as_slice()[class.number() as usize]
        } else {
            &self.none
        }
    }

    fn is_kernel(&self, class: ClassNo) -> bool {
        self.know_loaded();
        is_low(class)
    }

    fn before_after(&self) -> ClassNo {
        self.know_loaded();
        ClassNo::new(3)
    }
}

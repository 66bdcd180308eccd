//! Own bodies and selected parents of declared classes, asked by the token of a method.

ghost use Rattle.som_class_methods.specs.Members.{AreNamed, CanLay, HaveTokens, override_method, select_method};
ghost use Rattle.som_class_methods.specs.Own.{AreOwn, IsKept, IsMembers};
ghost use Rattle.som_meta.specs.Numbering.{IsNumbered, IsToken, Numbering, key_at, method_at};
ghost use Rattle.som_model.specs.Class.{Class};
ghost use Rattle.som_model.specs.Implementation.{has_body as has_body_of, selected as selected_of};
ghost use Rattle.som_class_methods.specs.Owners.{AreFaces};
ghost use Rattle.som_class_methods.specs.Tokens.{IsOwners};
ghost use Rattle.std.specs.Prelude.{◌≡◌, ◌↔◌, ◌<◌, IfNone, IfOk, IfSome, IsTrue, None, Some, length, map, slice_get};

use crate::Owners;
use crate::tokens::{Own, own_tokens, token_place};
use som_class_ids::Numbers;
use som_model::{List, NoMemory, Select};
use som_tables::{ClassNo, MToken};
use std::alloc::Global;

/// For each declared class the tokens of the methods that it overrides, and of those for which it selects a parent.
pub struct Members {
    own: List<Own>,
}

impl Drop for Members {
    fn drop(self) {
        let Members { own } = self;
        drop(own);
    }
}

fn all_tokens(alloc: Global, numbers: &Numbers, owners: &Owners) -> Result<List<Own>, NoMemory>
    requires owners { IsOwners numbers.now owners.now }
    requires faces { AreFaces numbers.now.classes }
    requires named { AreNamed numbers.now.classes }
    ensures own { IfOk result (λ own. AreOwn numbers.now own) }
    ensures each { IfOk result (λ own. length own ≡ length numbers.now.classes) }
{
    let mut all = List::new(alloc);
    for number in 0..numbers.declared_count() {
        let class = &numbers.declared(ClassNo::new(number)).decl;
        let own = own_tokens(alloc, numbers, owners, class)?;
        all.push(own)?;
    }
    Ok(all)
}

fn is_class(a: ClassNo, b: ClassNo) -> bool
    ensures { IsTrue result ↔ (a ≡ b) }
{
    a == b
}

fn parent_at(parents: &[ClassNo], place: usize) -> Option<ClassNo>
    ensures { result ≡ slice_get parents.now place }
{
    if place < parents.len() {
        Some(parents[place])
    } else {
        None
    }
}

fn chosen_at(selects: &[Select], place: usize) -> usize
    requires { place < length selects.now }
    ensures { (s : _) → slice_get selects.now place ≡ Some s → result ≡ s.parent }
{
    selects[place].parent as usize
}

impl Members {
    /// The tokens of all declared classes.
    pub fn new(alloc: Global, numbers: &Numbers, owners: &Owners) -> Result<Members, NoMemory>
        requires owners { IsOwners numbers.now owners.now }
        requires faces { AreFaces numbers.now.classes }
        requires named { AreNamed numbers.now.classes }
        ensures { IfOk result (λ members. IsMembers numbers.now members) }
    {
        Ok(Members {
            own: all_tokens(alloc, numbers, owners)?,
        })
    }

    fn own_at(&self, class: ClassNo) -> &Own
        requires { IsKept self.now class }
        ensures { slice_get self.now.own class ≡ Some result.now }
    {
        &self.own.as_slice()[class.number() as usize]
    }

    /// The tokens of the methods that a declared class overrides, in the order of its overrides.
    pub fn overridden(&self, class: ClassNo) -> &[MToken]
        requires { IsKept self.now class }
        ensures { (k : Numbering) (c : Class) → IsMembers k self.now → slice_get k.classes class ≡ Some c → HaveTokens k (map override_method c.decl.overrides) result.now }
    {
        self.own_at(class).overrides.as_slice()
    }

    /// The tokens of the methods for which a declared class selects parents, in the order of its selects.
    pub fn selecting(&self, class: ClassNo) -> &[MToken]
        requires { IsKept self.now class }
        ensures { (k : Numbering) (c : Class) → IsMembers k self.now → slice_get k.classes class ≡ Some c → HaveTokens k (map select_method c.decl.selects) result.now }
    {
        self.own_at(class).selects.as_slice()
    }

    /// Whether a declared class has a body of its own for a method.
    pub fn has_body(&self, numbers: &Numbers, class: ClassNo, token: MToken) -> bool
        requires members { IsMembers numbers.now self.now }
        requires faces { AreFaces numbers.now.classes }
        requires laid { CanLay numbers.now }
        requires declared { class < length numbers.now.classes }
        requires token { IsToken numbers.now token }
        ensures { result ≡ has_body_of numbers.now.classes (method_at numbers.now token) (key_at numbers.now class) }
    {
        is_class(token.class(), class)
            || token_place(self.own_at(class).overrides.as_slice(), token).is_some()
    }

    /// The parent that a declared class selects for a method.
    pub fn selected(&self, numbers: &Numbers, class: ClassNo, token: MToken) -> Option<ClassNo>
        requires members { IsMembers numbers.now self.now }
        requires faces { AreFaces numbers.now.classes }
        requires laid { CanLay numbers.now }
        requires declared { class < length numbers.now.classes }
        requires token { IsToken numbers.now token }
        ensures some { IfSome result (λ p. IsNumbered numbers.now p × (selected_of numbers.now.classes (method_at numbers.now token) (key_at numbers.now class) ≡ Some (key_at numbers.now p))) }
        ensures none { IfNone result (selected_of numbers.now.classes (method_at numbers.now token) (key_at numbers.now class) ≡ None) }
    {
        match token_place(self.own_at(class).selects.as_slice(), token) {
            Some(place) => {
                let chosen = chosen_at(numbers.declared(class).decl.selects.as_slice(), place);
                parent_at(numbers.parents(class).as_slice(), chosen)
            }
            None => None,
        }
    }
}

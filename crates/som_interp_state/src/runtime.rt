//! The questions that a runner asks of a linked kernel, with what each answer means.

ghost use Rattle.som_meta.specs.Numbering.{IsToken};
ghost use Rattle.som_semantics.specs.Invoked.{class_found};
ghost use Rattle.som_model.specs.Made.{ComesOf};
ghost use Rattle.som_model.specs.Classes.{ancestors};
ghost use Rattle.som_model.specs.Owner.{entry_at, introduces};
ghost use Rattle.som_semantics.specs.State.{Long, Str, zeros};
ghost use Rattle.som_model.specs.declared.key.ClassKey.{ClassKey as Key};
ghost use Rattle.som_model.specs.declared.key.ClassKey.TheVariants as made_of;
ghost use Rattle.som_model.specs.declared.syntax.Block.{Block as Main};
ghost use Rattle.som_interp_state.specs.Asked.{Agree, AreNewCells, CanLoad, HaveNumbers, IsAnswer, IsClosed, asked_for, is_proxy, target_after};
ghost use Rattle.som_interp_state.specs.Settings.{Linked};
ghost use Rattle.som_interp_state.specs.Standing.{zero_shown};
ghost use Rattle.som_values.specs.Shown.{IsKey, IsNumbered, key_of};
ghost use Rattle.std.specs.List.{All};
ghost use Rattle.std.specs.Option.{option_map};
ghost use Rattle.std.specs.Prelude.{◌≡◌, ◌⊎◌, ◌+◌, ◌∷◌, [], ℕ, IfNone, IfOk, IfSome, IsSome, None, OnOk, Some, map, true};

use crate::{BodyView, Zero};
use som_model::{Block, ClassKey, List, MethodRef, NoMemory, Sig, Text};
use som_objects::Cell;
use som_tables::{ClassNo, MToken, Steps};
use som_trace::ClassKeys;
use som_values::Classes;
use std::alloc::Global;
use std::sync::ledger::Ledger;

/// A linked kernel, as a running program asks it: which classes have numbers, which of them are made, the methods and
/// bodies that they have, and where their variables stand.
pub trait Runtime: Classes + ClassKeys {
    /// What the kernel says of its numbers.
    ghost linked: { Self → Linked };

    /// The block of the main that runs.
    ghost program: { Self → Main };

    /// All that is asked speaks of the same classes, which can be loaded; those that are made have their parents and
    /// metaclasses made.
    fn know(&self)
        ensures agree { Agree (Self.keys self.now) (Self.world self.now) (Self.known self.now) (linked self.now) }
        ensures loads { CanLoad (Self.known self.now).classes (program self.now) }
        ensures closed { IsClosed (Self.world self.now) (Self.made self.now) }
        ensures numbers { HaveNumbers (Self.keys self.now) (Self.known self.now).classes (program self.now) (Self.made self.now) };

    /// The main that runs.
    fn main(&self) -> &Block
        ensures { result.now ≡ program self.now };

    /// Makes a class as far as it isn't made: itself, and with each class its parents and its metaclass.
    fn reach(&mut self, alloc: Global, class: ClassNo) -> Result<(), NoMemory>
        requires { IsNumbered (Self.keys self.old) class }
        ensures keys { Self.keys self.new ≡ Self.keys self.old }
        ensures world { Self.world self.new ≡ Self.world self.old }
        ensures known { Self.known self.new ≡ Self.known self.old }
        ensures linked { linked self.new ≡ linked self.old }
        ensures program { program self.new ≡ program self.old }
        ensures keeps { (k : Key) → Self.made self.old k ≡ true → Self.made self.new k ≡ true }
        ensures made { OnOk result (Self.made self.new (key_of (Self.keys self.old) class) ≡ true) }
        ensures only { (k : Key) → Self.made self.new k ≡ true → (Self.made self.old k ≡ true) ⊎ ComesOf (Self.known self.old).classes (key_of (Self.keys self.old) class ∷ []) k };

    /// The number of the class of a key, which has to have one.
    fn number_of(&self, class: &ClassKey) -> ClassNo
        requires { IsKey (Self.keys self.now) class.now }
        ensures numbered { IsNumbered (Self.keys self.now) result }
        ensures key { key_of (Self.keys self.now) result ≡ class.now };

    /// The number of the class of a class's proxies.
    fn proxy_of(&self, target: &ClassKey) -> ClassNo
        requires { IsKey (Self.keys self.now) (made_of.Proxy target.now) }
        ensures numbered { IsNumbered (Self.keys self.now) result }
        ensures key { key_of (Self.keys self.now) result ≡ made_of.Proxy target.now };

    /// Whether a class is another or descends from it.
    fn inherits(&self, class: ClassNo, ancestor: ClassNo) -> bool
        requires class { IsNumbered (Self.keys self.now) class }
        requires ancestor { IsNumbered (Self.keys self.now) ancestor }
        ensures { result ≡ (Self.world self.now).is_a (key_of (Self.keys self.now) class) (key_of (Self.keys self.now) ancestor) };

    /// The parents of a class, from left to right.
    fn parents(&self, class: ClassNo) -> &List<ClassNo>
        requires { IsNumbered (Self.keys self.now) class }
        ensures numbered { All (IsNumbered (Self.keys self.now)) result.now }
        ensures keys { map (key_of (Self.keys self.now)) result.now ≡ (Self.world self.now).parents (key_of (Self.keys self.now) class) };

    /// The hooks of a class's objects: those of its metaclass.
    fn hooks(&self, class: ClassNo) -> &List<ClassNo>
        requires numbered { IsNumbered (Self.keys self.now) class }
        requires made { Self.made self.now (key_of (Self.keys self.now) class) ≡ true }
        ensures numbered { All (IsNumbered (Self.keys self.now)) result.now }
        ensures keys { map (key_of (Self.keys self.now)) result.now ≡ (Self.world self.now).hooks ((Self.world self.now).meta (key_of (Self.keys self.now) class)) };

    /// The token of the owner of a method that an entry of its class names.
    fn method_token(&self, method: &MethodRef) -> MToken
        requires { IsSome (entry_at (Self.known self.now).classes method.now.class method.now.name) }
        ensures token { IsToken (Self.known self.now) result }
        ensures method { (linked self.now).method result ≡ (Self.world self.now).owner method.now };

    /// The types of the parameters and of the result of the method of a token.
    fn signature(&self, method: MToken) -> &Sig
        requires { IsToken (Self.known self.now) method }
        ensures { (Self.world self.now).sig ((linked self.now).method method) ≡ Some result.now };

    /// The token of the method that a name means in a class that is made, or none. Each class that is asked is a counted
    /// step: the class and its ancestors in order, up to the first that introduces the name.
    fn find<L: Ledger>(&self, class: ClassNo, name: &Text, steps: &mut Steps<L>) -> Option<MToken>
        requires numbered { IsNumbered (Self.keys self.now) class }
        requires made { Self.made self.now (key_of (Self.keys self.now) class) ≡ true }
        ensures some { IfSome result (λ t. IsToken (Self.known self.now) t × ((Self.world self.now).byname (key_of (Self.keys self.now) class) name.now ≡ Some ((linked self.now).method t))) }
        ensures none { IfNone result ((Self.world self.now).byname (key_of (Self.keys self.now) class) name.now ≡ None) }
        ensures cost { steps.new ≡ steps.old + asked_for (introduces (Self.known self.now).classes name.now) (ancestors (Self.known self.now).classes (key_of (Self.keys self.now) class)) };

    /// The body that answers for a method in a class, by two counted steps.
    fn resolve<L: Ledger>(
        &self,
        class: ClassNo,
        method: MToken,
        steps: &mut Steps<L>,
    ) -> BodyView<'_>
        requires numbered { IsNumbered (Self.keys self.now) class }
        requires made { Self.made self.now (key_of (Self.keys self.now) class) ≡ true }
        requires method { IsToken (Self.known self.now) method }
        requires below { (Self.world self.now).is_a (key_of (Self.keys self.now) class) (key_of (Self.keys self.now) method.0) ≡ true }
        ensures body { IsAnswer (Self.world self.now) (linked self.now) class method result }
        ensures cost { steps.new ≡ steps.old + 2 };

    /// The class that somFindClass finds for a name and a version, made or not, or none.
    fn find_class(&self, name: &Text, major: i32, minor: i32) -> Option<ClassNo>
        ensures numbered { IfSome result (IsNumbered (Self.keys self.now)) }
        ensures key { option_map (key_of (Self.keys self.now)) result ≡ class_found (Self.world self.now) (Str name.now ∷ Long major ∷ Long minor ∷ []) };

    /// The major and the minor version of a class.
    fn version(&self, class: ClassNo) -> (u32, u32)
        requires { IsNumbered (Self.keys self.now) class }
        ensures { result ≡ (Self.world self.now).version (key_of (Self.keys self.now) class) };

    /// The place of a variable of a class among the cells of an object; none where the object has no such variable.
    fn place(&self, object: ClassNo, class: ClassNo, variable: u8) -> Option<u32>
        requires object { IsNumbered (Self.keys self.now) object }
        requires made { Self.made self.now (key_of (Self.keys self.now) object) ≡ true }
        requires class { IsNumbered (Self.keys self.now) class }
        ensures { result ≡ (linked self.now).variables object (key_of (Self.keys self.now) class) variable };

    /// How many variables a class's objects have. A proxy has one cell more, its target.
    fn variable_cells(&self, class: ClassNo) -> u32
        requires numbered { IsNumbered (Self.keys self.now) class }
        requires made { Self.made self.now (key_of (Self.keys self.now) class) ≡ true }
        ensures { (linked self.now).target class ≡ target_after (key_of (Self.keys self.now) class) result };

    /// The cells of a new object of a class, each variable at the zero value of its type, but for a proxy's target.
    fn zero_cells(&self, alloc: Global, class: ClassNo) -> Result<List<Cell>, NoMemory>
        requires numbered { IsNumbered (Self.keys self.now) class }
        requires made { Self.made self.now (key_of (Self.keys self.now) class) ≡ true }
        ensures { IfOk result (AreNewCells (Self.keys self.now) (Self.world self.now) (linked self.now) class) };

    /// Whether a class is that of another's proxies.
    fn is_proxy(&self, class: ClassNo) -> bool
        requires { IsNumbered (Self.keys self.now) class }
        ensures { result ≡ is_proxy (key_of (Self.keys self.now) class) };

    /// The zero value of a variable's type.
    fn zero(&self, class: ClassNo, variable: u8) -> Zero
        requires { IsNumbered (Self.keys self.now) class }
        ensures { zero_shown result ≡ zeros (Self.world self.now) (key_of (Self.keys self.now) class) variable };
}

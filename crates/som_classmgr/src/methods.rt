//! Methods as a linked kernel answers them: bodies, also of a parent, owners and signatures.

ghost use Rattle.som_classmgr.specs.Parents.{HasMethodAbove, parent_at};
ghost use Rattle.som_class_kernel.specs.Linked.{IsMadeIn};
ghost use Rattle.som_class_kernel.specs.Shown.{IsAnswer, body_at};
ghost use Rattle.som_meta.specs.Numbering.{IsNumbered, IsToken, key_at, method_at};
ghost use Rattle.som_model.specs.Ancestors.{Descends};
ghost use Rattle.som_model.specs.Classes.{hierarchy};
ghost use Rattle.som_model.specs.Implementation.{held as held_by};
ghost use Rattle.som_model.specs.Owner.{entry_at, owner, sig_of};
ghost use Rattle.som_model.specs.declared.key.ClassKey.{ClassKey};
ghost use Rattle.som_class_methods.specs.Owners.{IsTokenOf};
ghost use Rattle.som_interp_state.specs.Asked.{held_shown};
ghost use Rattle.std.specs.Prelude.{◌≡◌, ◌+◌, IsSome, Some};

use crate::kernel::Kernel;
use som_class_kernel::{BodyNo, Linked};
use som_interp_state::BodyView;
use som_model::{MethodRef, Sig};
use som_tables::{ClassNo, MToken, Steps};
use std::sync::ledger::Ledger;

impl Kernel<Linked> {
    /// The body that a class has for a method, its own or an inherited one, by two counted steps.
    pub fn resolve<L: Ledger>(&self, class: ClassNo, method: MToken, steps: &mut Steps<L>) -> BodyNo
        requires made { IsMadeIn self.now class }
        requires method { IsToken self.now.classes method }
        requires below { Descends (hierarchy self.now.classes.classes) (key_at self.now.classes class) (method_at self.now.classes method).class }
        ensures body { IsAnswer self.now (key_at self.now.classes class) method result }
        ensures cost { steps.new ≡ steps.old + 2 }
    {
        self.stage.resolve(class, method, steps)
    }

    /// The body that the parent of a class at a place has for a method, its own or an inherited one, by two counted steps.
    pub fn parent_resolve<L: Ledger>(
        &self,
        class: ClassNo,
        parent: u8,
        method: MToken,
        steps: &mut Steps<L>,
    ) -> BodyNo
        requires made { IsMadeIn self.now class }
        requires method { IsToken self.now.classes method }
        requires parent { HasMethodAbove self.now.classes class parent method }
        ensures body { (p : ClassKey) → parent_at self.now.classes class parent ≡ Some p → IsAnswer self.now p method result }
        ensures cost { steps.new ≡ steps.old + 2 }
    {
        let _classes = self.classes();
        let above = self.parents(class).as_slice()[usize::from(parent)];
        self.resolve(above, method, steps)
    }

    /// A body: whose it is, for which method, and what it is.
    pub fn body(&self, body: BodyNo) -> BodyView<'_>
        requires { IsSome (body_at self.now body) }
        ensures body { body_at self.now body ≡ Some (result.class, result.method) }
        ensures class { IsNumbered self.now.classes result.class }
        ensures method { IsToken self.now.classes result.method }
        ensures held { held_by self.now.classes.classes (key_at self.now.classes result.class) (method_at self.now.classes result.method)
            ≡ Some (held_shown (method_at self.now.classes result.method).name result.held) }
    {
        self.stage.body(body)
    }

    /// The token of the owner of a method that an entry of its class names.
    pub fn method_token(&self, method: &MethodRef) -> MToken
        requires { IsSome (entry_at self.now.classes.classes method.now.class method.now.name) }
        ensures { IsTokenOf self.now.classes result (owner self.now.classes.classes method.now) }
    {
        self.stage.classes().method_token(method)
    }

    /// The method of a token, and its signature.
    pub fn method(&self, token: MToken) -> (&MethodRef, &Sig)
        requires { IsToken self.now.classes token }
        ensures method { result.0.now ≡ method_at self.now.classes token }
        ensures sig { sig_of self.now.classes.classes (method_at self.now.classes token) ≡ Some result.1.now }
    {
        self.stage.method(token)
    }
}

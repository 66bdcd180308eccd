//! Methods of a linked kernel: the body that answers, what a body holds, and the signature of a token.

ghost use Rattle.som_class_bodies.specs.Bodies.{IsSourced, held_body as held_of_body};
ghost use Rattle.som_class_kernel.specs.Linked.{IsMadeIn};
ghost use Rattle.som_class_kernel.specs.Shown.{IsAnswer, body_at};
ghost use Rattle.som_meta.specs.Numbering.{IsNumbered, IsToken, key_at, method_at};
ghost use Rattle.som_model.specs.Ancestors.{Descends};
ghost use Rattle.som_model.specs.Class.{Class, introduced_sig as sig_in};
ghost use Rattle.som_model.specs.Classes.{hierarchy};
ghost use Rattle.som_model.specs.Implementation.{held as held_by};
ghost use Rattle.som_model.specs.Owner.{sig_of};
ghost use Rattle.som_interp_state.specs.Asked.{held_shown};
ghost use Rattle.std.specs.Prelude.{◌≡◌, ◌+◌, ◌<◌, ℕ, IsSome, List as Seq, Some, length, slice_get};

use crate::body::BodyNo;
use crate::linked::Linked;
use som_class_bodies::{BodyAt, Source};
use som_class_table::Classes;
use som_interp_state::{BodyView, Held};
use som_model::{Body, Entry, MethodRef, Sig};
use som_tables::{ClassNo, MToken, Steps};
use std::sync::ledger::Ledger;

/// What a declared body is.
fn held_body(body: &Body) -> Held<'_>
    ensures { (name : Seq ℕ) → held_shown name result ≡ held_of_body body.now }
{
    match body {
        Body::User(block) => Held::User(block),
        Body::Get(place) => Held::Get(*place),
        Body::Set(place) => Held::Set(*place),
    }
}

/// What a class holds for a method, by where its body stands.
fn held_at<'a>(classes: &'a Classes, body: &BodyAt) -> Held<'a>
    requires { IsSourced classes.now body.now }
    ensures { held_by classes.now.classes (key_at classes.now body.now.class) (method_at classes.now body.now.method)
        ≡ Some (held_shown (method_at classes.now body.now.method).name result) }
{
    let _count = classes.count();
    match body.source {
        Source::Introduced(place) => {
            held_body(&classes.declared(body.class).decl.bodies.as_slice()[usize::from(place)])
        }
        Source::Overriding(place) => {
            let overrides = classes.declared(body.class).decl.overrides.as_slice();
            Held::User(&overrides[usize::from(place)].block)
        }
        Source::Kernel => Held::Kernel,
        Source::Forward => Held::Forward,
        Source::Nothing => Held::Nothing,
    }
}

/// The signature of the entry of a declared class at a place.
fn introduced_sig(classes: &Classes, class: ClassNo, place: u16) -> &Sig
    requires declared { class < length classes.now.classes }
    requires entry { (c : Class) → slice_get classes.now.classes class ≡ Some c → IsSome (sig_in (slice_get c.decl.face.entries place)) }
    ensures { (c : Class) → slice_get classes.now.classes class ≡ Some c → sig_in (slice_get c.decl.face.entries place) ≡ Some result.now }
{
    match &classes.declared(class).decl.face.entries.as_slice()[usize::from(place)] {
        Entry::Introduced { sig, .. } => sig,
        Entry::Moved { .. } => unreachable!(),
    }
}

impl Linked {
    /// The body that a class has for a method, its own or an inherited one, by two counted steps.
    pub fn resolve<L: Ledger>(&self, class: ClassNo, method: MToken, steps: &mut Steps<L>) -> BodyNo
        requires made { IsMadeIn self.now class }
        requires method { IsToken self.now.classes method }
        requires below { Descends (hierarchy self.now.classes.classes) (key_at self.now.classes class) (method_at self.now.classes method).class }
        ensures body { IsAnswer self.now (key_at self.now.classes class) method result }
        ensures cost { steps.new ≡ steps.old + 2 }
    {
        let classes = self.classes();
        BodyNo(self.parts.bodies.resolve(classes, class, method, steps))
    }

    /// A body: whose it is, for which method, and what it is.
    pub fn body(&self, body: BodyNo) -> BodyView<'_>
        requires { IsSome (body_at self.now body) }
        ensures body { body_at self.now body ≡ Some (result.class, result.method) }
        ensures class { IsNumbered self.now.classes result.class }
        ensures method { IsToken self.now.classes result.method }
        ensures held { held_by self.now.classes.classes (key_at self.now.classes result.class) (method_at self.now.classes result.method)
            ≡ Some (held_shown (method_at self.now.classes result.method).name result.held) }
    {
        let classes = self.classes();
        let body = self.parts.bodies.body(body.0);
        BodyView {
            class: body.class,
            method: body.method,
            held: held_at(classes, body),
        }
    }

    /// The method of a token, and its signature.
    pub fn method(&self, token: MToken) -> (&MethodRef, &Sig)
        requires { IsToken self.now.classes token }
        ensures method { result.0.now ≡ method_at self.now.classes token }
        ensures sig { sig_of self.now.classes.classes (method_at self.now.classes token) ≡ Some result.1.now }
    {
        let classes = self.classes();
        let class = token.class();
        let introduced = &self.methods.as_slice()[class.number() as usize];
        let entry = &introduced.as_slice()[token.place() as usize];
        (&entry.method, introduced_sig(classes, class, entry.place))
    }
}

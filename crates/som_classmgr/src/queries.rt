//! Questions on the classes of a linked kernel: keys, versions, parents, metaclasses, hooks, descent.

ghost use Rattle.som_class_kernel.specs.Linked.{IsMadeIn};
ghost use Rattle.som_meta.specs.Numbering.{AreNumbered, IsNumbered, key_at};
ghost use Rattle.som_model.specs.Classes.{hierarchy, is_a as descends, version_of};
ghost use Rattle.som_semantics.specs.Invoked.{class_found, version_fits as fits};
ghost use Rattle.som_model.specs.Lists.{Mem};
ghost use Rattle.som_model.specs.Metaclass.{hooks as hooks_of, meta};
ghost use Rattle.som_semantics.specs.State.{Long, Str};
ghost use Rattle.som_semantics.specs.World.{world};
ghost use Rattle.som_trace.specs.Views.{IsView};
ghost use Rattle.std.specs.List.{count_by};
ghost use Rattle.std.specs.Option.{option_map};
ghost use Rattle.std.specs.Prelude.{◌≡◌, ◌↔◌, ◌∷◌, ◌<◌, [], ℕ, IfNone, IfSome, IsTrue, Some, length, map, slice_get};

use crate::kernel::Kernel;
use som_class_ids::Kind;
use som_class_kernel::Linked;
use som_class_table::Classes;
use som_meta::Ancestry;
use som_model::{Block, ClassFace, ClassKey, List, Text};
use som_tables::ClassNo;
use som_trace::KeyView;

/// Whether a version is the one that is asked for: any is, where 0.0 is asked for, and else one of the same major version with at least that minor one.
fn version_fits(version: (u32, u32), major: i32, minor: i32) -> bool
    ensures { result ≡ fits version major minor }
{
    if major == 0 && minor == 0 {
        return true;
    }
    i64::from(version.0) == i64::from(major) && i64::from(version.1) >= i64::from(minor)
}

/// The key of a declared class: its module and name.
fn declared_view(classes: &Classes, class: ClassNo) -> KeyView<'_>
    requires { class < length classes.now.classes }
    ensures { IsView classes.now result (key_at classes.now class) }
{
    let _count = classes.count();
    match &classes.declared(class).key {
        ClassKey::Named { module, name } => KeyView::Named {
            module: *module,
            name,
        },
        _ => unreachable!(),
    }
}

impl Kernel<Linked> {
    /// How many classes have numbers, made or not: the numbers below this one.
    pub fn count(&self) -> u32
        ensures { result ≡ length self.now.classes.keys }
    {
        self.classes().count()
    }

    /// How many classes are declared, the kernel's among them. They have the first numbers.
    pub fn declared_count(&self) -> u32
        ensures { result ≡ length self.now.classes.classes }
    {
        self.classes().declared_count()
    }

    /// The face of a declared class: all that is declared of it but its variables and bodies.
    pub fn face(&self, class: ClassNo) -> &ClassFace
        requires { class < length self.now.classes.classes }
        ensures { option_map (λ c. c.decl.face) (slice_get self.now.classes.classes class) ≡ Some result.now }
    {
        &self.classes().declared(class).decl.face
    }

    /// The client's main.
    pub fn main(&self) -> &Block
        ensures { result.now ≡ self.now.main }
    {
        self.stage.main()
    }

    /// The number of the class of a key, made or not.
    pub fn class_of(&self, key: &ClassKey) -> Option<ClassNo>
        ensures some { IfSome result (λ n. IsNumbered self.now.classes n × (key_at self.now.classes n ≡ key.now)) }
        ensures none { IfNone result ((n : ℕ) → IsNumbered self.now.classes n → key_at self.now.classes n ≡ key.now → ⊥) }
    {
        self.stage.classes().find(key)
    }

    /// The number of the class that a search by name and version finds, made or not: the client's class of the name, or else that of the highest level
    /// above the library, or else the library's, or else the kernel's, where its version fits.
    pub fn find_class(&self, name: &Text, major: i32, minor: i32) -> Option<ClassNo>
        ensures numbered { IfSome result (IsNumbered self.now.classes) }
        ensures key { option_map (key_at self.now.classes) result ≡ class_found (world self.now.classes.classes) (Str name.now ∷ Long major ∷ Long minor ∷ []) }
    {
        let classes = self.stage.classes();
        let class = classes.named(name)?;
        if version_fits(self.version(class), major, minor) {
            Some(class)
        } else {
            None
        }
    }

    /// Whether a class is another or descends from it.
    pub fn is_a(&self, class: ClassNo, ancestor: ClassNo) -> bool
        requires class { IsNumbered self.now.classes class }
        requires ancestor { IsNumbered self.now.classes ancestor }
        ensures { result ≡ descends self.now.classes.classes (key_at self.now.classes class) (key_at self.now.classes ancestor) }
    {
        self.stage.classes().is_a(class, ancestor)
    }

    /// The major and minor version of a class, 0.0 of a made one.
    pub fn version(&self, class: ClassNo) -> (u32, u32)
        requires { IsNumbered self.now.classes class }
        ensures { result ≡ version_of self.now.classes.classes (key_at self.now.classes class) }
    {
        let classes = self.stage.classes();
        if class.number() < classes.declared_count() {
            let face = &classes.declared(class).decl.face;
            (face.major, face.minor)
        } else {
            (0, 0)
        }
    }

    /// What a class is made of, one level deep, so that no tree of keys is built.
    pub fn key(&self, class: ClassNo) -> KeyView<'_>
        requires { IsNumbered self.now.classes class }
        ensures { IsView self.now.classes result (key_at self.now.classes class) }
    {
        let classes = self.stage.classes();
        match classes.kind(class) {
            Kind::Declared => declared_view(classes, class),
            Kind::Derived => KeyView::Derived {
                parents: classes.parents(class),
            },
            Kind::Proxy => KeyView::Proxy {
                target: classes.parents(class).as_slice()[0],
            },
        }
    }

    /// The parents of a class, which have lower numbers, and are made where the class is.
    pub fn parents(&self, class: ClassNo) -> &List<ClassNo>
        requires { IsNumbered self.now.classes class }
        ensures lower { (p : ℕ) → Mem p result.now → p < class }
        ensures numbered { AreNumbered self.now.classes result.now }
        ensures keys { map (key_at self.now.classes) result.now ≡ (hierarchy self.now.classes.classes).parents (key_at self.now.classes class) }
        ensures made { IsMadeIn self.now class → (p : ℕ) → Mem p result.now → IsMadeIn self.now p }
    {
        self.stage.classes().parents(class)
    }

    /// Whether a class is made.
    pub fn is_made(&self, class: ClassNo) -> bool
        requires { IsNumbered self.now.classes class }
        ensures { IsTrue result ↔ IsMadeIn self.now class }
    {
        self.stage.is_made(class)
    }

    /// How many classes are made.
    pub fn made(&self) -> u32
        ensures { result ≡ count_by (λ m. m) self.now.parts.made }
    {
        self.stage.made()
    }

    /// The metaclass of a class that is made.
    pub fn metaclass(&self, class: ClassNo) -> ClassNo
        requires numbered { IsNumbered self.now.classes class }
        requires made { IsMadeIn self.now class }
        ensures made { IsMadeIn self.now result }
        ensures numbered { IsNumbered self.now.classes result }
        ensures key { key_at self.now.classes result ≡ meta self.now.classes.classes (key_at self.now.classes class) }
    {
        self.stage.metaclass(class)
    }

    /// The hooks of the metaclass of a class that is made, in the order in which their before bodies run. They are made.
    pub fn hooks(&self, class: ClassNo) -> &List<ClassNo>
        requires { IsMadeIn self.now class }
        ensures numbered { AreNumbered self.now.classes result.now }
        ensures keys { map (key_at self.now.classes) result.now ≡ hooks_of self.now.classes.classes (meta self.now.classes.classes (key_at self.now.classes class)) }
        ensures made { (n : ℕ) → Mem n result.now → IsMadeIn self.now n }
    {
        self.stage.hooks(class)
    }
}

//! The laws of classes that can be loaded: what numbers, owners, members and laying ask of them holds.

ghost use Rattle.som_class_table.specs.Targets.{AreMade, HaveTargets, IsTarget};
ghost use Rattle.som_class_methods.specs.Members.{AreNamed, CanLay};
ghost use Rattle.som_meta.specs.Numbering.{AreApart, Numbering};
ghost use Rattle.som_model.specs.Class.{Class};
ghost use Rattle.som_model.specs.Kernel.{kernel};
ghost use Rattle.som_model.specs.Lists.{Mem};
ghost use Rattle.som_model.specs.Loads.{Loads};
ghost use Rattle.som_model.specs.Made.{IsMade};
ghost use Rattle.som_model.specs.Rules.{s6};
ghost use Rattle.som_model.specs.declared.key.ClassKey.TheVariants as keys;
ghost use Rattle.som_model.specs.declared.key.ClassKey.{ClassKey};
ghost use Rattle.som_model.specs.declared.limits.TheConstants.{MAX_LAID_CLASSES};
ghost use Rattle.som_model.specs.declared.syntax.Block.{Block};
ghost use Rattle.som_class_ids.specs.Classes.{AreDeclared};
ghost use Rattle.som_class_ids.specs.Numbers.{with_key};
ghost use Rattle.som_class_methods.specs.Owners.{AreFaces};
ghost use Rattle.som_class_layout_laws.specs.Schemes.{CanBeLaid, numbered};
ghost use Rattle.std.specs.Prelude.{◌≡◌, ◌≤◌, ◌+◌, ◌++◌, [], List as Seq, length};

/// The kernel's classes and others that can be loaded are what numbers, the owners of methods, and overrides and selects by tokens ask for:
/// keys differ and parents stand earlier, there are not too many, faces can stand together, each overridden or selected method has an
/// entry in its class, and no class has two entries of one name.
pub fn classes_law()
    ensures declared { (cs : Seq Class) (main : Block) → Loads cs main → AreDeclared (kernel ++ cs) }
    ensures few { (cs : Seq Class) (main : Block) → Loads cs main → length (kernel ++ cs) ≤ MAX_LAID_CLASSES + 4 }
    ensures faces { (cs : Seq Class) (main : Block) → Loads cs main → AreFaces (kernel ++ cs) }
    ensures named { (cs : Seq Class) (main : Block) → Loads cs main → AreNamed (kernel ++ cs) }
    ensures distinct { (cs : Seq Class) (main : Block) → Loads cs main → (c : Class) → Mem c (kernel ++ cs) → s6 c ≡ [] }
{}

/// They can be laid where no two numbers stand for one class and each numbered proxy is that of a declared class.
pub fn lay_law()
    ensures keys { (cs : Seq Class) (main : Block) → Loads cs main → (ks : Seq ClassKey) → AreApart (numbered cs ks) →
        HaveTargets (numbered cs ks) → CanBeLaid cs ks }
    ensures numbers { (cs : Seq Class) (main : Block) → Loads cs main → (k : Numbering) → k.classes ≡ kernel ++ cs → AreApart k →
        HaveTargets k → CanLay k }
{}

/// A proxy that is made for a run is that of a declared class: proxies come of what blocks name alone, since no metaclass is a proxy or
/// made of one. So it is of the numbered proxies, where each number stands for a class that is made.
pub fn made_law()
    ensures proxy { (cs : Seq Class) (main : Block) → Loads cs main → (of : ClassKey) → IsMade (kernel ++ cs) main (keys.Proxy of) →
        IsTarget (kernel ++ cs) of }
    ensures numbers { (cs : Seq Class) (main : Block) → Loads cs main → (k : Numbering) → k.classes ≡ kernel ++ cs → AreMade k main →
        HaveTargets k }
{}

/// The targets of numbered proxies stay declared where one class more gets a number that is derived of others, or is the proxy of a
/// declared class; and so numbers stay those of made classes, where a made one gets a number.
pub fn growing_law()
    ensures derived { (k : Numbering) → HaveTargets k → (parents : Seq ClassKey) → HaveTargets (with_key k (keys.Derived parents)) }
    ensures proxy { (k : Numbering) → HaveTargets k → (of : ClassKey) → IsTarget k.classes of → HaveTargets (with_key k (keys.Proxy of)) }
    ensures made { (k : Numbering) (main : Block) → AreMade k main → (key : ClassKey) → IsMade k.classes main key → AreMade (with_key k key) main }
{}

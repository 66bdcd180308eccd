//! States that compatibility holds of every class and member, and goes along from release to release.

ghost use Rattle.som_compat.specs.Conditions.{Conforms, IsCounted};
ghost use Rattle.som_compat.specs.Metaclasses.{Declares, IsDeclared};
ghost use Rattle.som_compat.specs.Plainly.{Keeps};
ghost use Rattle.som_model.specs.Ancestors.{Descends};
ghost use Rattle.som_model.specs.Class.{interface_of};
ghost use Rattle.som_model.specs.Classes.{hierarchy};
ghost use Rattle.som_model.specs.Compatible.{Compatible, release_of};
ghost use Rattle.som_model.specs.Conforming.{declared_breach};
ghost use Rattle.som_model.specs.Kernel.{som_class};
ghost use Rattle.som_model.specs.Metaclass.{meta};
ghost use Rattle.som_model.specs.declared.class.ClassDecl.{ClassDecl};
ghost use Rattle.som_model.specs.declared.key.ClassKey.{ClassKey};
ghost use Rattle.som_model.specs.declared.limits.TheConstants.{MAX_LIBRARY_CLASSES};
ghost use Rattle.som_model.specs.declared.program.Interface.{Interface};
ghost use Rattle.som_model.specs.declared.program.Release.{Release};
ghost use Rattle.std.specs.Prelude.{◌≡◌, ◌≤◌, ◌↔◌, ◌⊎◌, All, None, length};

/// Nothing breaks a rule exactly where each rule holds of every class and all of its members.
pub fn compatible_law()
    ensures { (old new : Interface) → Conforms old → Conforms new →
        Compatible old new ↔ Keeps old new }
{}

/// Compatibility goes along: what an interface keeps of one before, a later one that is compatible with it
/// keeps too.
pub fn compatible_along_law()
    ensures { (old mid new : Interface) → Conforms old → Conforms mid → Conforms new →
        Compatible old mid → Compatible mid new → Compatible old new }
{}

/// The metaclass of a class descends from a declared class exactly where SOMClass does, or the metaclass
/// that the class or one of its ancestors declares.
pub fn metaclass_law()
    ensures { (i : Interface) → Conforms i → (x n : ClassKey) → IsDeclared n →
        Descends (hierarchy (release_of i)) (meta (release_of i) x) n ↔
        (Descends (hierarchy (release_of i)) som_class n ⊎ Declares (release_of i) x n) }
{}

/// The interface of a release that breaks no rule of its classes, and is within the counts, may be compared.
pub fn release_law()
    ensures { (r : Release) → declared_breach r ≡ None → length r.classes ≤ MAX_LIBRARY_CLASSES →
        All (λ (d : ClassDecl). IsCounted d.face) r.classes → Conforms (interface_of r) }
{}

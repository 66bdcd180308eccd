//! What a change of modules that leaves the kernel's names does to the kernel's classes, and that the keys of classes are
//! names enough for all that their faces name.

ghost use Rattle.som_model.specs.Class.{Class};
ghost use Rattle.som_model.specs.Implementation.{is_kernel};
ghost use Rattle.som_model.specs.Kernel.{kernel, kernel_interface};
ghost use Rattle.som_model.specs.Lists.{Mem};
ghost use Rattle.som_model.specs.Loads.{IsOrdered};
ghost use Rattle.som_model.specs.declared.class.ClassFace.{ClassFace};
ghost use Rattle.som_model.specs.declared.key.ClassKey.{ClassKey};
ghost use Rattle.som_model.specs.declared.key.Module.TheVariants as modules;
ghost use Rattle.som_rekey_laws.specs.Apart.{AreMetaclassesNamed, AreNamed, AreTargetsNamed, KeepsKernel, Names, is_named, names_of};
ghost use Rattle.som_rekey_laws.specs.Rekeying.{ModuleChange, rekey, rekey_classes};
ghost use Rattle.std.specs.Prelude.{◌≡◌, ◌++◌, List as Seq, true};

/// A class is one of the kernel's under its new key where it was one, and the kernel's classes stay as they
/// are, also before others.
pub fn rekeyed_kernel_law()
    ensures key { (f : ModuleChange) (names : Names) → KeepsKernel f names → (k : ClassKey) →
        is_named names k ≡ true → is_kernel (rekey f k) ≡ is_kernel k }
    ensures classes { (f : ModuleChange) (names : Names) → KeepsKernel f names → rekey_classes f kernel ≡ kernel }
    ensures before { (f : ModuleChange) (names : Names) → KeepsKernel f names → (cs : Seq Class) →
        rekey_classes f (kernel ++ cs) ≡ kernel ++ rekey_classes f cs }
{}

/// Where classes can stand in order after the kernel's, their keys and the kernel's are all that their
/// faces name as parents, metaclasses and targets of moves.
pub fn ordered_names_law()
    ensures named { (cs : Seq Class) → IsOrdered cs → AreNamed (names_of (kernel ++ cs)) (kernel ++ cs) }
    ensures targets { (cs : Seq Class) → IsOrdered cs → AreTargetsNamed (names_of (kernel ++ cs)) (kernel ++ cs) }
    ensures metaclasses { (cs : Seq Class) → IsOrdered cs → AreMetaclassesNamed (names_of (kernel ++ cs)) (kernel ++ cs) }
    ensures kernel { (cs : Seq Class) → IsOrdered cs → (face : ClassFace) → Mem face kernel_interface.classes →
        names_of (kernel ++ cs) modules.Kernel face.name ≡ true }
{}

//! What a change of modules keeps of loading: what can be loaded can be so under new keys, and what was compiled against faces was so.

ghost use Rattle.som_model.specs.Class.{Class};
ghost use Rattle.som_model.specs.Kernel.{kernel};
ghost use Rattle.som_model.specs.Loads.{FacesLoad, IsOrdered, Loads};
ghost use Rattle.som_model.specs.declared.syntax.Block.{Block};
ghost use Rattle.som_rekey_laws.specs.Apart.{IsApart, KeepsKernel, names_of};
ghost use Rattle.som_rekey_laws.specs.Rekeying.{ModuleChange, rekey_block, rekey_classes};
ghost use Rattle.som_rekey_rules.specs.NamesAlone.{AreClassesNamed, AreFacesNamed, IsBlockNamed};
ghost use Rattle.som_release_laws.specs.Releasing.{AreLoadable, IsCompiled};
ghost use Rattle.std.specs.Prelude.{◌++◌, List as Seq};

/// Classes whose faces can stand together after the kernel's name no others; where they can be loaded, or
/// were compiled against others, their bodies name none either, and main names none.
pub fn loaded_names_law()
    ensures faces { (cs : Seq Class) → FacesLoad cs → AreFacesNamed (names_of (kernel ++ cs)) cs }
    ensures classes { (cs : Seq Class) → AreLoadable cs → AreClassesNamed (names_of (kernel ++ cs)) cs }
    ensures main { (cs : Seq Class) (main : Block) → Loads cs main → IsBlockNamed (names_of (kernel ++ cs)) main }
    ensures own { (olds own : Seq Class) (main : Block) → IsCompiled olds own main →
        AreClassesNamed (names_of (kernel ++ (olds ++ own))) own }
    ensures own_main { (olds own : Seq Class) (main : Block) → IsCompiled olds own main →
        IsBlockNamed (names_of (kernel ++ (olds ++ own))) main }
{}

/// Where a change of modules gives no two of the classes one key, and leaves the kernel's: classes that can
/// stand in order, whose faces can stand together, or that can be loaded, can do so under their new keys,
/// and with them the main whose references are the new ones.
pub fn rekeyed_loads_law()
    ensures ordered { (f : ModuleChange) (cs : Seq Class) → KeepsKernel f (names_of (kernel ++ cs)) → IsApart f (names_of (kernel ++ cs)) →
        IsOrdered cs → IsOrdered (rekey_classes f cs) }
    ensures faces { (f : ModuleChange) (cs : Seq Class) → KeepsKernel f (names_of (kernel ++ cs)) → IsApart f (names_of (kernel ++ cs)) →
        FacesLoad cs → FacesLoad (rekey_classes f cs) }
    ensures loadable { (f : ModuleChange) (cs : Seq Class) → KeepsKernel f (names_of (kernel ++ cs)) → IsApart f (names_of (kernel ++ cs)) →
        AreLoadable cs → AreLoadable (rekey_classes f cs) }
    ensures loads { (f : ModuleChange) (cs : Seq Class) → KeepsKernel f (names_of (kernel ++ cs)) → IsApart f (names_of (kernel ++ cs)) →
        (main : Block) → Loads cs main → Loads (rekey_classes f cs) (rekey_block f main) }
{}

/// Classes and a main that were compiled against the faces of others were compiled, under new keys, against
/// these faces under new keys.
pub fn rekeyed_compiled_law()
    ensures { (f : ModuleChange) (olds own : Seq Class) (main : Block) →
        KeepsKernel f (names_of (kernel ++ (olds ++ own))) → IsApart f (names_of (kernel ++ (olds ++ own))) →
        IsCompiled olds own main → IsCompiled (rekey_classes f olds) (rekey_classes f own) (rekey_block f main) }
{}

//! Laws of class hierarchies by keys: places, ancestors, owners of methods, metaclasses.

ghost use Rattle.som_model_laws.specs.Keeping.{ClassesKeep};
ghost use Rattle.som_model.specs.Loads.{FacesLoad, IsOrdered};
ghost use Rattle.som_model_laws.specs.Metaclasses.{Declares, IsDeclared, StandsLow};
ghost use Rattle.som_model_laws.specs.Owning.{Owns};
ghost use Rattle.som_model.specs.Ancestors.{Descends};
ghost use Rattle.som_model.specs.Class.{Class};
ghost use Rattle.som_model.specs.Classes.{ancestors, class_at, hierarchy, is_a};
ghost use Rattle.som_model.specs.Hierarchy.{Falls, Tells};
ghost use Rattle.som_model.specs.Kernel.{kernel, som_class};
ghost use Rattle.som_model.specs.Lists.{Mem};
ghost use Rattle.som_model.specs.Metaclass.{meta, rank};
ghost use Rattle.som_model.specs.Owner.{entry_at, owner};
ghost use Rattle.som_model.specs.declared.key.ClassKey.{ClassKey};
ghost use Rattle.som_model.specs.declared.key.MethodRef.{MethodRef};
ghost use Rattle.std.specs.Prelude.{◌≡◌, ◌≤◌, ◌<◌, ◌+◌, ◌↔◌, ◌⊎◌, ◌++◌, ℕ, true, List as Seq, Some, IsSome, slice_get};

/// Where keys differ and parents stand earlier, each parent is lower than its class, also of classes that
/// are made of others, and the test tells keys apart.
pub fn hierarchy_law()
    ensures lower { (cs : Seq Class) → IsOrdered cs → Falls (hierarchy (kernel ++ cs)) }
    ensures apart { (cs : Seq Class) → IsOrdered cs → Tells (hierarchy (kernel ++ cs)) }
{}

/// A class is found by its key, has the parents of its face, and is as high as its place counted from 1;
/// two classes of one name and two modules are two.
pub fn class_law()
    ensures found { (cs : Seq Class) → IsOrdered cs → (c : Class) → Mem c (kernel ++ cs) →
        class_at (kernel ++ cs) c.key ≡ Some c }
    ensures parents { (cs : Seq Class) → IsOrdered cs → (c : Class) → Mem c (kernel ++ cs) →
        (hierarchy (kernel ++ cs)).parents c.key ≡ c.decl.face.parents }
    ensures height { (cs : Seq Class) → IsOrdered cs → (i : ℕ) (c : Class) →
        slice_get (kernel ++ cs) i ≡ Some c → (hierarchy (kernel ++ cs)).height c.key ≡ i + 1 }
    ensures rank { (cs : Seq Class) → IsOrdered cs → (i : ℕ) (c : Class) →
        slice_get (kernel ++ cs) i ≡ Some c → rank (kernel ++ cs) c.key ≡ i }
{}

/// The ancestors of a class are the classes that it descends from, and the test of descent tells them.
pub fn ancestry_law()
    ensures members { (cs : Seq Class) → IsOrdered cs → (x a : ClassKey) →
        Mem a (ancestors (kernel ++ cs) x) ↔ Descends (hierarchy (kernel ++ cs)) x a }
    ensures test { (cs : Seq Class) → IsOrdered cs → (x a : ClassKey) →
        (is_a (kernel ++ cs) x a ≡ true) ↔ Descends (hierarchy (kernel ++ cs)) x a }
{}

/// The owner of a reference to an entry has the same name, introduces it, and is an ancestor of the class
/// that is referred to, however many moves there are between.
pub fn owner_law()
    ensures { (cs : Seq Class) → FacesLoad cs → (r : MethodRef) →
        IsSome (entry_at (kernel ++ cs) r.class r.name) →
        Owns (kernel ++ cs) (owner (kernel ++ cs) r) r }
{}

/// The metaclass of a class descends from a declared class exactly where SOMClass does and the class stands
/// on one of the kernel's, or where the metaclass that the class or one of its ancestors declares does.
pub fn metaclass_law()
    ensures { (cs : Seq Class) → IsOrdered cs → (x n : ClassKey) → IsDeclared n →
        Descends (hierarchy (kernel ++ cs)) (meta (kernel ++ cs) x) n ↔
        ((Descends (hierarchy (kernel ++ cs)) som_class n × StandsLow (kernel ++ cs) x)
        ⊎ Declares (kernel ++ cs) x n) }
{}

/// The metaclass of a class, also of one that is made of others, descends from the metaclass of each of its
/// parents.
pub fn metaclass_parents_law()
    ensures { (cs : Seq Class) → IsOrdered cs → (x p : ClassKey) →
        Mem p ((hierarchy (kernel ++ cs)).parents x) →
        Descends (hierarchy (kernel ++ cs)) (meta (kernel ++ cs) x) (meta (kernel ++ cs) p) }
{}

/// The metaclass of each class whose rank is that of no class of the kernel is of lower rank, so that every
/// chain of metaclasses ends.
pub fn metaclass_rank_law()
    ensures { (cs : Seq Class) → FacesLoad cs → (x : ClassKey) → 4 ≤ rank (kernel ++ cs) x →
        rank (kernel ++ cs) (meta (kernel ++ cs) x) < rank (kernel ++ cs) x }
{}

/// What a list of classes keeps of one before, a later one that keeps what it promises keeps too, whatever
/// lies between; and each list keeps what it promises itself.
pub fn keeping_law()
    ensures along { (olds mids news : Seq Class) → IsOrdered olds → IsOrdered mids → IsOrdered news →
        ClassesKeep olds mids → ClassesKeep mids news → ClassesKeep olds news }
    ensures itself { (cs : Seq Class) → IsOrdered cs → ClassesKeep cs cs }
{}

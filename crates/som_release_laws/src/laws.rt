//! Laws of releases: which clients of an older release bind to a newer one, and can be loaded with it.

ghost use Rattle.som_model_laws.specs.Keeping.{ClassesKeep};
ghost use Rattle.som_model.specs.Binds.{Binds};
ghost use Rattle.som_model.specs.Class.{Class, interface_of};
ghost use Rattle.som_model.specs.Classes.{client_classes, interface_classes, library_classes};
ghost use Rattle.som_model.specs.Compatible.{Accepted, Compatible, EachNext};
ghost use Rattle.som_model.specs.Conforming.{ProgramOk, ReleaseOk, faces_breach};
ghost use Rattle.som_model.specs.Counts.{ClassCounted, block_counted};
ghost use Rattle.som_model.specs.Kernel.{kernel};
ghost use Rattle.som_model.specs.Lists.{Mem};
ghost use Rattle.som_model.specs.Loads.{FacesLoad, IsOrdered, Loads};
ghost use Rattle.som_model.specs.Owner.{entry_at, owner};
ghost use Rattle.som_model.specs.declared.key.MethodRef.{MethodRef};
ghost use Rattle.som_model.specs.declared.limits.TheConstants.{MAX_LAID_CLASSES};
ghost use Rattle.som_model.specs.declared.program.ClientProgram.{ClientProgram};
ghost use Rattle.som_model.specs.declared.program.Interface.{Interface};
ghost use Rattle.som_model.specs.declared.program.Release.{Release};
ghost use Rattle.som_model.specs.declared.syntax.Block.{Block};
ghost use Rattle.som_release_laws.specs.Growing.{Grows};
ghost use Rattle.som_release_laws.specs.Releasing.{AreKept, AreLoadable, HaveOtherKeys, HaveParents, IsCompiled, IsReleased, IsTower, Level, Once, OwnersAreKept, stacked};
ghost use Rattle.std.specs.Prelude.{◌≡◌, ◌≤◌, [], ◌∷◌, ◌++◌, List as Seq, IsSome, None, length, true};

/// Classes have among those that stand after them what they have alone.
pub fn growing_law()
    ensures { (xs ys : Seq Class) → IsOrdered (xs ++ ys) → Grows (kernel ++ xs) (kernel ++ (xs ++ ys)) }
{}

/// Classes that stand above an older release have above a newer one, which keeps what that promised, all
/// that they had, and their faces can stand together with it.
pub fn exchange_law()
    ensures grows { (olds news own : Seq Class) → FacesLoad (olds ++ own) → FacesLoad news → ClassesKeep olds news →
        ((c d : Class) → Mem c news → Mem d own → c.key ≡ d.key → ⊥) →
        Grows (kernel ++ (olds ++ own)) (kernel ++ (news ++ own)) }
    ensures faces { (olds news own : Seq Class) → FacesLoad (olds ++ own) → FacesLoad news → ClassesKeep olds news →
        ((c d : Class) → Mem c news → Mem d own → c.key ≡ d.key → ⊥) →
        FacesLoad (news ++ own) }
{}

/// Where no two ancestors of a class of a newer release introduce one name, and the release keeps what an
/// older one promised, it keeps the owners of the older one's entries.
pub fn owners_law()
    ensures { (olds news : Seq Class) → FacesLoad olds → FacesLoad news → ClassesKeep olds news →
        Once (kernel ++ news) news → OwnersAreKept olds news }
{}

/// Each list of classes keeps its own owners, and what is kept of owners and of what was promised goes
/// along, from each release of a list to the last.
pub fn owners_along_law()
    ensures itself { (cs : Seq Class) → FacesLoad cs → OwnersAreKept cs cs }
    ensures along { (olds mids news : Seq Class) → FacesLoad olds → FacesLoad mids → FacesLoad news →
        AreKept olds mids → AreKept mids news → OwnersAreKept olds news }
    ensures list { (rs : Seq (Seq Class)) (last olds : Seq Class) →
        ((cs : Seq Class) → Mem cs (rs ++ last ∷ []) → FacesLoad cs) → EachNext AreKept (rs ++ last ∷ []) →
        Mem olds (rs ++ last ∷ []) → AreKept olds last }
{}

/// The classes of a release that keep the rules, typed where the type of a class object is the metaclass
/// that it declares, can be loaded; and so can those with which a main can be loaded.
pub fn released_law()
    ensures released { (news : Seq Class) → IsReleased news → AreLoadable news }
    ensures loaded { (cs : Seq Class) (main : Block) → Loads cs main → AreLoadable cs }
{}

/// Classes and a main that were compiled against an older release can be loaded with a newer one that keeps
/// what it promised and the owners of its entries: overrides and selects are of methods of proper ancestors
/// and of different ones, accessors fit, and all bodies are well typed where the type of a class object is
/// its metaclass. The newer one need not be of one library: so the classes together are again such a release
/// for those above them.
pub fn loading_law()
    ensures loadable { (olds news own : Seq Class) (main : Block) →
        IsCompiled olds own main → AreLoadable news → ClassesKeep olds news → OwnersAreKept olds news →
        HaveOtherKeys news own → AreLoadable (news ++ own) }
    ensures loads { (olds news own : Seq Class) (main : Block) →
        IsCompiled olds own main → AreLoadable news → ClassesKeep olds news → OwnersAreKept olds news →
        HaveOtherKeys news own → length (news ++ own) ≤ MAX_LAID_CLASSES →
        ((c : Class) → Mem c (news ++ own) → ClassCounted c.decl) → block_counted main ≡ true →
        Loads (news ++ own) main }
{}

/// Where each release of a list keeps what the one before it promised, and the owners of its entries, what
/// was compiled against any of them can be loaded with the last.
pub fn loading_along_law()
    ensures { (rs : Seq (Seq Class)) (last olds own : Seq Class) (main : Block) →
        ((cs : Seq Class) → Mem cs (rs ++ last ∷ []) → FacesLoad cs) → EachNext AreKept (rs ++ last ∷ []) →
        Mem olds (rs ++ last ∷ []) → IsCompiled olds own main → AreLoadable last → HaveOtherKeys last own →
        length (last ++ own) ≤ MAX_LAID_CLASSES →
        ((c : Class) → Mem c (last ++ own) → ClassCounted c.decl) → block_counted main ≡ true →
        Loads (last ++ own) main }
{}

/// Libraries one above the other, each compiled against classes that all those below it keep, can be
/// loaded together.
pub fn tower_law()
    ensures { (news : Seq Class) (levels : Seq Level) → AreLoadable news → IsTower news levels →
        AreLoadable (stacked news levels) }
{}

/// A client program that was compiled against an older release binds to a newer one that keeps what it
/// promised and the owners of its entries: the classes that it names are there, the methods stand at the
/// slots that it was compiled to, and its bodies are well typed.
pub fn binding_law()
    ensures { (p : ClientProgram) (r : Release) →
        IsCompiled (interface_classes p.base) (client_classes p) p.main → AreLoadable (library_classes r) →
        ClassesKeep (interface_classes p.base) (library_classes r) →
        OwnersAreKept (interface_classes p.base) (library_classes r) → Binds p r }
{}

/// Compatibility goes along: what an interface keeps of one before, a later one that is compatible with it
/// keeps too; and each is compatible with itself. No count is asked of any.
pub fn compatible_along_law()
    ensures along { (old mid new : Interface) → faces_breach (interface_classes old) ≡ None →
        faces_breach (interface_classes mid) ≡ None → faces_breach (interface_classes new) ≡ None →
        Compatible old mid → Compatible mid new → Compatible old new }
    ensures itself { (i : Interface) → faces_breach (interface_classes i) ≡ None → Compatible i i }
{}

/// A client program that conforms, and whose interface a newer release is compatible with, binds to it, and
/// can be loaded with it. Each class of the program, of its interface and of the release has a parent, which
/// the counts of images ask.
pub fn compatible_client_law()
    ensures { (p : ClientProgram) (r : Release) → ProgramOk p → ReleaseOk r →
        HaveParents (interface_classes p.base ++ client_classes p) → HaveParents (library_classes r) →
        Compatible p.base (interface_of r) →
        Binds p r × (
        length (library_classes r ++ client_classes p) ≤ MAX_LAID_CLASSES →
        ((c : Class) → Mem c (library_classes r ++ client_classes p) → ClassCounted c.decl) →
        block_counted p.main ≡ true →
        Loads (library_classes r ++ client_classes p) p.main) }
{}

/// Where each release of a list was accepted against the one before, a client program that was compiled
/// against any of them binds to the last, and can be loaded with it.
pub fn accepted_law()
    ensures { (rs : Seq Release) (last r : Release) (p : ClientProgram) → Accepted (rs ++ last ∷ []) →
        Mem r (rs ++ last ∷ []) → p.base ≡ interface_of r → ProgramOk p →
        HaveParents (interface_classes p.base ++ client_classes p) → HaveParents (library_classes last) →
        Binds p last × (
        length (library_classes last ++ client_classes p) ≤ MAX_LAID_CLASSES →
        ((c : Class) → Mem c (library_classes last ++ client_classes p) → ClassCounted c.decl) →
        block_counted p.main ≡ true →
        Loads (library_classes last ++ client_classes p) p.main) }
{}

/// Two references that had one owner have one owner among the classes of a newer release that keeps the
/// owners of the older one's entries.
pub fn one_owner_law()
    ensures { (olds news own : Seq Class) → FacesLoad (olds ++ own) → FacesLoad news →
        ClassesKeep olds news → OwnersAreKept olds news → HaveOtherKeys news own → (r s : MethodRef) →
        IsSome (entry_at (kernel ++ (olds ++ own)) r.class r.name) →
        IsSome (entry_at (kernel ++ (olds ++ own)) s.class s.name) →
        owner (kernel ++ (olds ++ own)) r ≡ owner (kernel ++ (olds ++ own)) s →
        owner (kernel ++ (news ++ own)) r ≡ owner (kernel ++ (news ++ own)) s }
{}

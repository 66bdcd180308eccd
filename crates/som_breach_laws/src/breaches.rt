//! Laws of the first breach of compatibility.

ghost use Rattle.som_breach_laws.specs.Breaking.{IntroducesAt, IsFirstBreach, KeepsAll};
ghost use Rattle.som_model.specs.Class.{Class};
ghost use Rattle.som_model.specs.Classes.{interface_classes};
ghost use Rattle.som_model.specs.Compatible.{CompatBreach, Compatible, first_break};
ghost use Rattle.som_model.specs.Conforming.{faces_breach};
ghost use Rattle.som_model.specs.Lists.{Mem};
ghost use Rattle.som_model.specs.declared.program.Interface.{Interface};
ghost use Rattle.std.specs.Prelude.{◌≡◌, ◌≤◌, ◌↔◌, ℕ, List as Seq, IsSome, None, Some};

/// A breach is told exactly where it is the first one: its class is of the old interface, each class before
/// that one keeps all, and it says the lowest rule that its class breaks, with the first member that breaks
/// it. So there is one first breach at most, and there is none exactly where each class keeps all.
pub fn breach_law()
    ensures told { (old new : Interface) (b : CompatBreach) → faces_breach (interface_classes new) ≡ None →
        (first_break old new ≡ Some b) ↔ IsFirstBreach old new b }
    ensures one { (old new : Interface) (a b : CompatBreach) → faces_breach (interface_classes new) ≡ None →
        IsFirstBreach old new a → IsFirstBreach old new b → a ≡ b }
    ensures kept { (old new : Interface) → faces_breach (interface_classes new) ≡ None →
        Compatible old new ↔ ((c : Class) → Mem c (interface_classes old) → KeepsAll old new c) }
{}

/// Where the first breach is of a signature, its class introduces the method at the place that is told: it
/// is never of an entry that was moved.
pub fn signature_breach_law()
    ensures { (old new : Interface) (b : CompatBreach) (name : Seq ℕ) → faces_breach (interface_classes old) ≡ None →
        faces_breach (interface_classes new) ≡ None → (f : IsFirstBreach old new b) → b.rule ≡ 5 →
        b.name ≡ Some name → IntroducesAt f.class b.place name }
{}

/// A first breach of K3 to K6 tells a name: each lost ancestor and metaclass is a class that has one.
pub fn named_breach_law()
    ensures { (old new : Interface) (b : CompatBreach) → faces_breach (interface_classes old) ≡ None →
        IsFirstBreach old new b → 3 ≤ b.rule → IsSome b.name }
{}

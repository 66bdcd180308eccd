//! Laws of levels: newer libraries, one above the other, that are compatible with older ones.

ghost use Rattle.som_level_laws.specs.Levels.{CompatibleLevels, first_level_break, level_classes};
ghost use Rattle.som_model.specs.Classes.{interface_classes};
ghost use Rattle.som_model.specs.Compatible.{Compatible, EachNext};
ghost use Rattle.som_model.specs.Conforming.{faces_breach};
ghost use Rattle.som_model.specs.Lists.{Mem};
ghost use Rattle.som_model.specs.Loads.{FacesLoad, IsOrdered};
ghost use Rattle.som_model.specs.declared.program.Interface.{Interface};
ghost use Rattle.std.specs.Prelude.{◌≡◌, ◌↔◌, [], ◌∷◌, ◌++◌, List as Seq, None, length};

/// No breach is told exactly where the new levels keep each of K1 to K6 of each class of the old ones.
pub fn level_breach_law()
    ensures { (olds news : Seq Interface) → IsOrdered (level_classes olds) → IsOrdered (level_classes news) →
        CompatibleLevels olds news ↔ (first_level_break olds news ≡ None) }
{}

/// Of one level, the library, it is what compatibility of interfaces is: that owners are kept is nothing new
/// where the interfaces break no rule.
pub fn one_level_law()
    ensures { (old new : Interface) → faces_breach (interface_classes old) ≡ None →
        faces_breach (interface_classes new) ≡ None →
        CompatibleLevels (old ∷ []) (new ∷ []) ↔ Compatible old new }
{}

/// Levels are compatible with themselves, and compatibility goes along lists of them to the last.
pub fn level_along_law()
    ensures itself { (is : Seq Interface) → FacesLoad (level_classes is) → CompatibleLevels is is }
    ensures along { (olds mids news : Seq Interface) → FacesLoad (level_classes olds) →
        FacesLoad (level_classes mids) → FacesLoad (level_classes news) →
        CompatibleLevels olds mids → CompatibleLevels mids news → CompatibleLevels olds news }
    ensures list { (rs : Seq (Seq Interface)) (last olds : Seq Interface) →
        ((is : Seq Interface) → Mem is (rs ++ last ∷ []) → FacesLoad (level_classes is)) →
        EachNext CompatibleLevels (rs ++ last ∷ []) → Mem olds (rs ++ last ∷ []) → CompatibleLevels olds last }
{}

/// Levels that stay keep what they promise through the classes of the levels below them, where these become
/// newer ones that are compatible with the old, and they can stand above these.
pub fn level_stays_law()
    ensures kept { (olds news own : Seq Interface) → length olds ≡ length news →
        FacesLoad (level_classes (olds ++ own)) → FacesLoad (level_classes news) →
        CompatibleLevels olds news → CompatibleLevels (olds ++ own) (news ++ own) }
    ensures stands { (olds news own : Seq Interface) → length olds ≡ length news →
        FacesLoad (level_classes (olds ++ own)) → FacesLoad (level_classes news) →
        CompatibleLevels olds news → FacesLoad (level_classes (news ++ own)) }
{}

/// What levels keep, those at their foot keep by themselves, whatever stands above them in both.
pub fn lower_levels_law()
    ensures { (olds above news others : Seq Interface) → length olds ≡ length news →
        FacesLoad (level_classes (olds ++ above)) → IsOrdered (level_classes (news ++ others)) →
        CompatibleLevels (olds ++ above) (news ++ others) → CompatibleLevels olds news }
{}

/// Where each of a list of releases, with the levels below against which it was made, is compatible with the
/// next, and the levels below the last with newer ones, the last above these keeps what each promised.
pub fn newest_levels_law()
    ensures { (rs : Seq (Seq Interface)) (below own news olds : Seq Interface) →
        ((is : Seq Interface) → Mem is (rs ++ (below ++ own) ∷ []) → FacesLoad (level_classes is)) →
        EachNext CompatibleLevels (rs ++ (below ++ own) ∷ []) → length below ≡ length news →
        FacesLoad (level_classes news) → CompatibleLevels below news →
        Mem olds (rs ++ (below ++ own) ∷ []) → CompatibleLevels olds (news ++ own) }
{}

//! A law of what the flat interface breaks.

ghost use Rattle.som_flat.specs.Breaches.{flat_breach};
ghost use Rattle.som_flat_laws.specs.Flat.{flat_interface};
ghost use Rattle.som_level_laws.specs.Levels.{level_classes};
ghost use Rattle.som_model.specs.Classes.{interface_classes};
ghost use Rattle.som_model.specs.Conforming.{faces_breach};
ghost use Rattle.som_model.specs.Loads.{FacesLoad};
ghost use Rattle.som_model.specs.declared.program.Interface.{Interface};
ghost use Rattle.std.specs.Option.{option_map};
ghost use Rattle.std.specs.Prelude.{◌≡◌, List as Seq};

/// What is told with a level is the first breach of the rules S1 to S10 of the flat interface.
pub fn leveled_breach_law()
    ensures { (is : Seq Interface) → FacesLoad (level_classes is) →
        option_map (λ p. p.1) (flat_breach is) ≡ faces_breach (interface_classes (flat_interface is)) }
{}

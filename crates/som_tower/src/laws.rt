//! The law of what libraries one above the other break.

ghost use Rattle.som_level_programs.specs.Towers.{AreStacked};
ghost use Rattle.som_model.specs.Class.{interface_of};
ghost use Rattle.som_model.specs.declared.program.Release.{Release};
ghost use Rattle.som_tower.specs.Towers.{AreLibraries, plain, tower_break};
ghost use Rattle.som_towerimage.specs.declared.level.Level.{Level};
ghost use Rattle.std.specs.Prelude.{◌≡◌, ◌↔◌, [], ◌∷◌, List as Seq, None, map};

/// A library and libraries above it break nothing exactly where each stands above levels that keep what it was compiled against.
pub fn standing_law()
    ensures { (base : Release) (uppers : Seq Level) → AreLibraries base uppers →
        (tower_break (interface_of base ∷ []) (map plain uppers) ≡ None) ↔ AreStacked (interface_of base ∷ []) (map plain uppers) }
{}

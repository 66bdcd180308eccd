//! The law of what texts come to that stand for a level of a tower, or for a client of one.

ghost use Rattle.som_cmd_build.specs.PutEnds.{LeavesFiles};
ghost use Rattle.som_cmd_steps.specs.Outcomes.{EndsAs};
ghost use Rattle.som_cmd_tower_make.specs.TowerMakeAnswer.{IsTowerMade, IsTowerMakeAnswer, has_main};
ghost use Rattle.som_cmd_tower_make.specs.TowerMakeEnds.{HoldsLevelTexts, PutsLevel};
ghost use Rattle.som_model.specs.Bytes.{Files};
ghost use Rattle.som_towerimage.specs.Spelling.{most_below};
ghost use Rattle.som_towerimage.specs.declared.level.Level.{Level};
ghost use Rattle.std.specs.Prelude.{◌≤◌, ◌∷◌, ℕ, List as Seq, Option, length};

/// Where a store holds the images of libraries that conform and stand one on the other, and whose flat interface breaks no rule, and texts that
/// stand for a level above them, a call that ends as its answer says, and leaves the files so, puts the tower image of that level.
pub fn made_level_law()
    ensures { (files : Files) (out first : Seq ℕ) (others names : Seq (Seq ℕ)) (l : Level) (status : ℕ) (new_files : Option Files) (old new : Option (Seq ℕ)) (count now : ℕ) →
        HoldsLevelTexts files first others names l → length (first ∷ others) ≤ most_below (has_main names) →
        EndsAs (IsTowerMakeAnswer out (first ∷ others) names files) status new_files old new →
        LeavesFiles (IsTowerMade files (first ∷ others) names) files out count now status new_files old new →
        PutsLevel files out l status new_files old new }
{}

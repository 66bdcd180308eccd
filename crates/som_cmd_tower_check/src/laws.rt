//! The law on how `tower check` ends of tower images that a store holds.

ghost use Rattle.som_cmd_steps.specs.Outcomes.{EndsAs};
ghost use Rattle.som_cmd_tower_check.specs.TowerCheckAnswer.{IsTowerCheckAnswer, first_lost};
ghost use Rattle.som_cmd_tower_check.specs.TowerCheckEnds.{AreLibrariesUnder, TellsLevelAccepted, TellsLevelBreach};
ghost use Rattle.som_model.specs.Bytes.{Files};
ghost use Rattle.som_model.specs.Compatible.{CompatBreach};
ghost use Rattle.som_towerimage.specs.declared.level.Level.{Level};
ghost use Rattle.std.specs.Prelude.{List as Seq, Option, Some, ℕ, ◌≡◌};

/// Where a store holds the tower images of two libraries that conform and stand above as many levels, a call that ends as its answer says
/// accepts the newer one exactly where it keeps all that the older one promises, and else tells what it doesn't keep first.
pub fn tower_check_law()
    ensures accepted { (old new : Seq ℕ) (files : Files) (status : ℕ) (new_files : Option Files) (before now : Option (Seq ℕ)) →
        EndsAs (IsTowerCheckAnswer old new files) status new_files before now →
        (o n : Level) → AreLibrariesUnder files old new o n → TellsLevelAccepted o n status before now }
    ensures breach { (old new : Seq ℕ) (files : Files) (status : ℕ) (new_files : Option Files) (before now : Option (Seq ℕ)) →
        EndsAs (IsTowerCheckAnswer old new files) status new_files before now →
        (o n : Level) → AreLibrariesUnder files old new o n → (found : ℕ × CompatBreach) → first_lost o n ≡ Some found →
        TellsLevelBreach new found.1 status before now }
{}

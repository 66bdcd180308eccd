//! Laws of tower images that are read, of what is refused, and of breaches.

ghost use Rattle.som_cliimage.specs.Limits.{IsWithinLimits};
ghost use Rattle.som_cmd_levels.specs.LevelImages.{level_in, level_read, upper_read};
ghost use Rattle.som_cmd_levels.specs.Levels.{levels_in, levels_rules_kept};
ghost use Rattle.som_cmd_levels.specs.Refusals.{IsLevelRefusal, IsLevelsRefusal};
ghost use Rattle.som_cmd_levels.specs.StoredLevels.{HoldsLevel};
ghost use Rattle.som_cmd_levels.specs.declared.levels.LevelsBelow.{LevelsBelow};
ghost use Rattle.som_cmd_steps.specs.declared.stop.Refusal.{Refusal};
ghost use Rattle.som_image_fields.specs.declared.fault.ImageFault.TheVariants as faults;
ghost use Rattle.som_level_laws.specs.Levels.{first_level_break};
ghost use Rattle.som_model.specs.Bytes.{Files};
ghost use Rattle.som_model.specs.Compatible.{CompatBreach};
ghost use Rattle.som_model.specs.declared.program.Interface.{Interface};
ghost use Rattle.som_towerimage.specs.Reading.{level_at};
ghost use Rattle.som_towerimage.specs.declared.level.Level.{Level};
ghost use Rattle.std.specs.Prelude.{Bool, Err, List as Seq, Ok, Some, length, ℕ, ◌<◌, ◌≡◌, ◌≤◌};

/// No bytes are read as want of memory, so the line that tells a fault of a tower image has one of the numbers from 1 on.
pub fn tower_fault_law()
    ensures { (bytes : Seq ℕ) → level_at bytes ≡ Err faults.NoMemory → ⊥ }
{}

/// A level whose tower image a store holds is read from it, and an image has room for it.
pub fn stored_level_law()
    ensures read { (files : Files) (name : Seq ℕ) (l : Level) (h : HoldsLevel files name l) → level_in h.bytes ≡ Ok l }
    ensures within { (files : Files) (name : Seq ℕ) (l : Level) → HoldsLevel files name l → IsWithinLimits l.program }
{}

/// What is refused where images of levels are read, or their rules looked at, is told of one of these images.
pub fn level_refusal_law()
    ensures upper { (name bytes : Seq ℕ) (r : Refusal) → upper_read name bytes ≡ Err r → IsLevelRefusal name r }
    ensures level { (below : ℕ) (client : Bool) (name bytes : Seq ℕ) (r : Refusal) → level_read below client name bytes ≡ Err r → IsLevelRefusal name r }
    ensures levels { (names images : Seq (Seq ℕ)) (r : Refusal) → 1 ≤ length names → levels_in names images ≡ Err r → IsLevelsRefusal names r }
    ensures rules { (names : Seq (Seq ℕ)) (below : LevelsBelow) (r : Refusal) → 1 ≤ length names → levels_rules_kept names below ≡ Err r → IsLevelsRefusal names r }
{}

/// A class of which newer levels don't keep all stands at one of the older ones.
pub fn breach_level_law()
    ensures { (olds news : Seq Interface) (found : ℕ × CompatBreach) → first_level_break olds news ≡ Some found → found.0 < length olds }
{}

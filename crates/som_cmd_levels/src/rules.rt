//! The step that asks for the rules of libraries that stand one above the other.

ghost use Rattle.som_cmd_levels.specs.Levels.{AllConform, LevelsConform, level_rules_kept, levels_rules_kept};
ghost use Rattle.som_cmd_steps.specs.Cause.{IsQuiet};
ghost use Rattle.som_cmd_steps.specs.EachImage.{each_passes};
ghost use Rattle.som_cmd_steps.specs.Steps.{Follows};
ghost use Rattle.std.specs.Prelude.{IfOk, length, ◌+◌, ◌≡◌};

use crate::levels::{LevelsBelow, base_name, upper_names};
use som_cmd_steps::{CommandStop, look_at_program, look_at_rules};
use som_model::Text;
use som_towerimage::Level;
use std::alloc::Global;

// Goes on where the program of no level breaks a rule.
fn look_at_uppers(alloc: Global, names: &[Text], uppers: &[Level]) -> Result<(), CommandStop>
    requires { length uppers.now ≡ length names.now }
    ensures follows { Follows result (each_passes level_rules_kept names.now uppers.now) }
    ensures conform { IfOk result (λ _. AllConform uppers.now) }
    ensures quiet { IsQuiet result }
{
    for place in 0..names.len() {
        look_at_program(alloc, &names[place], &uppers[place].program)?;
    }
    Ok(())
}

/// Goes on where none of the libraries breaks a rule, which is asked from the lowest up; else the refusal tells the first that is broken,
/// under the name of the library that breaks it.
#[tactic(auto, using(crate::proofs::Stacking::lowest_broken, crate::proofs::Stacking::then_uppers))]
pub fn look_at_levels(alloc: Global, names: &[Text], below: &LevelsBelow) -> Result<(), CommandStop>
    requires { length below.now.uppers + 1 ≡ length names.now }
    ensures follows { Follows result (levels_rules_kept names.now below.now) }
    ensures conform { IfOk result (λ _. LevelsConform below.now) }
    ensures quiet { IsQuiet result }
{
    look_at_rules(alloc, base_name(names), &below.base)?;
    look_at_uppers(alloc, upper_names(names), below.uppers.as_slice())
}

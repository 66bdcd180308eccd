//! The steps that read the images of a client and of the levels below it, and look at the rules of each.

ghost use Rattle.som_cmd_steps.specs.Cause.{IsQuiet};
ghost use Rattle.som_cmd_levels.specs.Refusals.{IsLevelsRefusal};
ghost use Rattle.som_cmd_steps.specs.Refusing.{RefusesAs};
ghost use Rattle.som_cmd_steps.specs.Steps.{Follows};
ghost use Rattle.som_cmd_tower_run.specs.Steps.{tower_of};
ghost use Rattle.som_tower.specs.Towers.{IsTowerOf};
ghost use Rattle.std.specs.Prelude.{IfOk, length, ◌+◌, ◌∷◌, ◌≡◌, ◌≤◌};

use crate::tower::Tower;
use som_cmd_levels::{level_refusal_law, look_at_levels, read_level, read_levels};
use som_cmd_steps::{CommandStop, look_at_program};
use som_model::{List, Text};
use std::alloc::Global;

/// The tower of a client's bytes and of those of the levels below it, where all can be read, each stands at its place, and
/// none breaks a rule.
#[tactic(auto, using(crate::proofs::Checked::client_unread, crate::proofs::Checked::level_unread, crate::proofs::Checked::level_broken, crate::proofs::Checked::client_broken, crate::proofs::Checked::all_checked, crate::proofs::Refusing::client_refused, crate::proofs::Refusing::level_refused, crate::proofs::Refusing::rule_refused, crate::proofs::Refusing::client_rule_refused))]
pub(crate) fn checked_tower(
    alloc: Global,
    client: &Text,
    below: &[Text],
    client_bytes: &List<u8>,
    images: &[List<u8>],
) -> Result<Tower, CommandStop>
    requires some { 1 ≤ length below.now }
    requires few { length below.now ≤ 8 }
    requires long { length images.now ≡ length below.now }
    ensures follows { Follows result (tower_of client.now below.now client_bytes.now images.now) }
    ensures tower { IfOk result (λ t. IsTowerOf t.levels.base t.levels.uppers t.client) }
    ensures many { IfOk result (λ t. length t.levels.uppers + 1 ≡ length below.now) }
    ensures quiet { IsQuiet result }
    ensures refuses { RefusesAs (IsLevelsRefusal (client.now ∷ below.now)) result }
{
    level_refusal_law();
    let client_level = read_level(alloc, client, client_bytes, below.len(), true)?;
    let levels = read_levels(alloc, below, images)?;
    look_at_levels(alloc, below, &levels)?;
    look_at_program(alloc, client, &client_level.program)?;
    Ok(Tower {
        levels,
        client: client_level,
    })
}

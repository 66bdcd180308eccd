//! The greatest rank among several classes.

ghost use Rattle.som_model.specs.Classes.{greatest};
ghost use Rattle.som_model.specs.Lists.{Mem};
ghost use Rattle.som_class_ids.specs.Positions.{rank_list};
ghost use Rattle.std.specs.Prelude.{◌≡◌, ◌<◌, ℕ, length, map, max, slice_index_or};

use crate::position::{Position, position_of};
use som_tables::ClassNo;

fn rank_at(positions: &[Position], class: ClassNo) -> u32
    requires { class < length positions.now }
    ensures { result ≡ slice_index_or (rank_list positions.now) class 0 }
{
    position_of(positions, class).rank
}

fn greater(a: u32, b: u32) -> u32
    ensures { result ≡ max a b }
{
    if a < b { b } else { a }
}

/// The greatest rank of these classes.
pub(crate) fn greatest_rank(positions: &[Position], classes: &[ClassNo]) -> u32
    requires { (n : ℕ) → Mem n classes.now → n < length positions.now }
    ensures { result ≡ greatest (map (λ n. slice_index_or (rank_list positions.now) n 0) classes.now) }
{
    let mut rank = 0;
    for class in classes {
        rank = greater(rank, rank_at(positions, *class));
    }
    rank
}

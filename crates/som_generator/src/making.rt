//! Makes both generated releases and the client, compiled and compared as the commands do it.

ghost use Rattle.som_generator.specs.Making.{Answers, Makes};
ghost use Rattle.som_generator.specs.declared.limits.TheConstants.{MAX_CLASSES};
ghost use Rattle.std.specs.Prelude.{◌≤◌};

use crate::Edition;
use crate::clients::make_client;
use crate::comparing::compare;
use crate::fault::MakeFault;
use crate::libraries::make_library;
use crate::made::Made;
use std::alloc::Global;

/// Makes the texts of so many classes, and goes with them the way of the commands: both releases are compiled, then the client
/// against the first, and the second is held against the first. What is left is to run the client on the second release: its
/// `client.image` on `second.image`, which were read back already as `client.program` and `second.release`.
#[tactic(auto, using(crate::proofs::MakeLaws::first_fails, crate::proofs::MakeLaws::second_fails, crate::proofs::MakeLaws::client_fails, crate::proofs::MakeLaws::comparing_fails, crate::proofs::MakeLaws::all_made, crate::proofs::MakeLaws::base_made, crate::proofs::MakeLaws::first_compared, crate::proofs::MakeLaws::second_compared))]
pub fn make(alloc: Global, count: u32) -> Result<Made, MakeFault>
    requires { count ≤ MAX_CLASSES }
    ensures { Answers (Makes count) result }
{
    let first = make_library(alloc, Edition::First, count)?;
    let second = make_library(alloc, Edition::Second, count)?;
    let client = make_client(alloc, &first.release, count)?;
    compare(alloc, &first.release, &second.release)?;
    Ok(Made {
        first,
        second,
        client,
    })
}

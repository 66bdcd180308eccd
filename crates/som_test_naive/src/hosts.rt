//! A host of six closures, and what it answers.

ghost use Rattle.som_semantics.specs.Values.{host_number};
ghost use Rattle.std.specs.Prelude.{◌≡◌, IfOk};

use som_host::{host_entry, host_table};
use som_model::{HostCode, NoMemory};
use std::alloc::Global;

/// What a host of these six closures answers.
pub fn answer_of(alloc: Global, code: HostCode, a: i32, b: i32) -> Result<i32, NoMemory>
    ensures { IfOk result (λ number. number ≡ host_number code a b) }
{
    let table = host_table(
        host_entry(HostCode::Min, Box::new(alloc, |x: i32, y: i32| x.min(y))?),
        host_entry(HostCode::Max, Box::new(alloc, |x: i32, y: i32| x.max(y))?),
        host_entry(HostCode::And, Box::new(alloc, |x: i32, y: i32| x & y)?),
        host_entry(HostCode::Or, Box::new(alloc, |x: i32, y: i32| x | y)?),
        host_entry(HostCode::Xor, Box::new(alloc, |x: i32, y: i32| x ^ y)?),
        host_entry(
            HostCode::WrapAdd,
            Box::new(alloc, |x: i32, y: i32| x.wrapping_add(y))?,
        ),
    );
    Ok(table.call(code, a, b))
}

//! The step that puts an image under a name into a store.

ghost use Rattle.som_cmd_steps.specs.Cause.{HasCause, IsQuiet};
ghost use Rattle.som_cmd_steps.specs.Lines.{store_failed};
ghost use Rattle.som_cmd_steps.specs.Putting.{IsSilent, StoredTold};
ghost use Rattle.std.specs.Prelude.{◌≡◌, ◌≤◌};

use crate::line::named_line;
use crate::output::{End, Output};
use crate::stop::CommandStop;
use som_io::{Put, Store};
use som_model::{List, Text};
use std::alloc::Global;

/// Puts an image under a name. The line that says that the put failed is made before it.
pub fn put_image<S: Store>(
    alloc: Global,
    out: &Text,
    image: &List<u8>,
    store: &mut S,
) -> Result<Output, CommandStop>
    ensures stored { StoredTold (S.files store.old) out.now image.now result (S.files store.new) }
    ensures later { S.faults store.old ≤ S.faults store.new }
    ensures cause { HasCause (λ line. line ≡ store_failed out.now) (S.faults store.old) (S.faults store.new) result }
    ensures quiet { S.calm store.old → IsQuiet result }
    ensures silent { IsSilent result }
{
    let line = named_line(alloc, b"store failed ", out)?;
    match store.put(out, image) {
        Put::Done => Ok(Output {
            lines: List::new(alloc),
            end: End::Done,
        }),
        Put::Failed => Err(CommandStop::StoreFailed(line)),
        Put::NoMemory => Err(CommandStop::NoMemory),
    }
}

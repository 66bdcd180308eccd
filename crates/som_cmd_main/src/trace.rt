//! The type of a trace that is asked for: which calls a run shows.

use som_model::Text;

/// Which calls a run shows: none, each, or those of bodies of classes of one name, which is lent.
#[derive(Clone, Copy)]
pub enum Trace<'a> {
    Nothing,
    Every,
    Only(&'a Text),
}

//! Where a run is: main or a body, by numbers and by names.

ghost use Rattle.som_meta.specs.Numbering.{Numbering};
ghost use Rattle.som_trace.specs.Places.{IsPlace, place_of, running_in};
ghost use Rattle.std.specs.Prelude.{◌≡◌, IfOk};

use crate::key_view::ClassKeys;
use crate::name::name_within;
use som_model::{NoMemory, Text};
use som_tables::{ClassNo, MToken};
use std::alloc::Global;

/// Where a run is, by numbers: in main, or in the body of a class for a method.
#[derive(Clone, Copy)]
pub enum Place {
    Main,
    Body { class: ClassNo, method: MToken },
}

/// Where a run is, by names: in main, or in the body of a class of this name for a method of this name.
#[derive(Drop)]
pub enum Running {
    Main,
    Body { class: Text, method: Text },
}

/// Names the place. A name of which the length is no usize counts as want of memory.
pub fn running_at<N: ClassKeys>(
    alloc: Global,
    classes: &N,
    place: Place,
) -> Result<Running, NoMemory>
    requires { IsPlace (N.known classes.now) place }
    ensures { IfOk result (λ running. running ≡ running_in (place_of (N.known classes.now) place)) }
{
    match place {
        Place::Main => Ok(Running::Main),
        Place::Body { class, method } => match name_within(alloc, classes, class, usize::MAX)? {
            None => Err(NoMemory),
            Some(class) => Ok(Running::Body {
                class,
                method: classes.method_name(method).copy(alloc)?,
            }),
        },
    }
}

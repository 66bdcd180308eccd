//! Whether a trace shows the calls of a class's bodies.

ghost use Rattle.som_meta.specs.Numbering.{IsNumbered, key_at};
ghost use Rattle.som_model.specs.ClassNames.{class_name};
ghost use Rattle.som_trace.specs.Choices.{Answers};
ghost use Rattle.som_trace.specs.Filters.{choice_of, shows_of};
ghost use Rattle.som_trace.specs.declared.filter.TraceChoice.TheVariants as choices;
ghost use Rattle.std.specs.Prelude.{◌≡◌, IfOk, true};

use crate::filter::{TraceChoice, TraceFilter};
use crate::key_view::{ClassKeys, KeyView};
use crate::name::is_named;
use som_model::{NoMemory, Text};
use som_tables::ClassNo;
use std::alloc::Global;

/// The filter of a choice, with a closure of the caller's.
pub fn trace_filter(choice: TraceChoice, shows: Box<dyn Fn(&Text) -> bool>) -> TraceFilter
    requires { Answers (pre shows) (post shows) choice }
    ensures { choice_of result ≡ choice }
{
    TraceFilter { choice, shows }
}

/// Whether a made class is shown: its name is looked at only where one name is chosen, and no further than that name goes.
fn is_made_shown<N: ClassKeys>(
    alloc: Global,
    filter: &TraceFilter,
    classes: &N,
    class: ClassNo,
) -> Result<bool, NoMemory>
    requires { IsNumbered (N.known classes.now) class }
    ensures { IfOk result (λ shown. shown ≡ shows_of filter.now (class_name (key_at (N.known classes.now) class))) }
{
    match &filter.choice {
        TraceChoice::Nothing => Ok(false),
        TraceChoice::Every => Ok(true),
        TraceChoice::Only(name) => Ok(
            is_named(alloc, classes, class, name)? && filter.answer(name),
        ),
    }
}

/// Whether calls of the bodies of a class are shown. Where the choice shows none, nothing is asked; else the closure is asked for
/// the name of a declared class, and for that of a made one if it is the chosen name.
pub fn is_shown<N: ClassKeys>(
    alloc: Global,
    filter: &TraceFilter,
    classes: &N,
    class: ClassNo,
) -> Result<bool, NoMemory>
    requires { IsNumbered (N.known classes.now) class }
    ensures { IfOk result (λ shown. shown ≡ shows_of filter.now (class_name (key_at (N.known classes.now) class))) }
{
    if shows_nothing(filter) {
        return Ok(false);
    }
    match classes.key(class) {
        KeyView::Named { name, .. } => Ok(filter.answer(name)),
        KeyView::Derived { .. } => is_made_shown(alloc, filter, classes, class),
        KeyView::Proxy { .. } => is_made_shown(alloc, filter, classes, class),
    }
}

// Whether a filter shows no call.
#[inline(always)]
fn shows_nothing(filter: &TraceFilter) -> bool
    ensures { result ≡ true → choice_of filter.now ≡ choices.Nothing }
{
    matches!(&filter.choice, TraceChoice::Nothing)
}

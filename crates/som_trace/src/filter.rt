//! The filter of a trace: which calls it shows.

ghost use Rattle.som_trace.specs.Choices.{Answers, shown_by};
ghost use Rattle.std.specs.Prelude.{◌≡◌};

use som_model::Text;

/// Which calls a trace shows: none, each, or those of the bodies of classes of one name.
#[derive(Drop)]
pub enum TraceChoice {
    Nothing,
    Every,
    Only(Text),
}

/// A choice, and a closure of which it is known that it answers TRUE for exactly the names that the choice shows.
#[derive(Drop)]
pub struct TraceFilter {
    pub(crate) choice: TraceChoice,
    pub(crate) shows: Box<dyn Fn(&Text) -> bool>,
    ghost answers: { Answers (pre shows) (post shows) choice },
}

impl TraceFilter {
    pub(crate) fn answer(&self, name: &Text) -> bool
        ensures { result ≡ shown_by self.now.choice name.now }
    {
        (self.shows)(name)
    }
}

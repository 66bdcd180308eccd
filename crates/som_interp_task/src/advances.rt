//! The trait of a task to which units are granted and which tells its fault.

ghost use Rattle.som_io.specs.Outside.{Rose, ShowsAll, ShowsFront};
ghost use Rattle.som_interp_loop.specs.Standing.{with_units};
ghost use Rattle.som_semantics.specs.Runs.{Faulted};
ghost use Rattle.som_interp_loop.specs.Scene.{setting_of};
ghost use Rattle.som_interp_state.specs.Own.{IsOwnPlace};
ghost use Rattle.som_interp_state.specs.Standing.{place_shown};
ghost use Rattle.som_trace.specs.Places.{running_in};
ghost use Rattle.som_trace.specs.Told.{end_text};
ghost use Rattle.som_trace.specs.declared.line.Untold.TheVariants as untold;
ghost use Rattle.std.specs.Prelude.{◌≡◌, ◌≢◌, ◌≤◌, ◌<◌, ◌+◌, ◌^◌, Err, IfOk, OnOk, true};

use som_interp_loop::Moves;
use som_model::Fault;
use som_trace::{Place, Running, Untold};

/// A task that goes on step by step, to which units can be granted, and that tells the line of its fault.
pub trait Advances: Moves {
    /// Grants units, which are all that is left: the task is begun.
    fn grant(&mut self, units: u32)
        requires { (Self.scene self.old).task.granted + units < 2 ^ 32 }
        ensures scene { Self.scene self.new ≡ with_units (Self.scene self.old) ((Self.scene self.old).task.granted + units) true units }
        ensures shows { Self.shows self.new ≡ Self.shows self.old }
        ensures prefix { Self.prefix self.new ≡ Self.prefix self.old }
        ensures lent { Self.lent self.new ≡ Self.lent self.old }
        ensures written { Self.written self.new ≡ Self.written self.old }
        ensures counted { Self.counted self.new ≡ Self.counted self.old }
        ensures count { Self.faults self.new ≡ Self.faults self.old }
        ensures calm { Self.calm self.old → Self.calm self.new };

    /// Tells the line of a fault in a place, and names the place.
    fn tell_fault(&mut self, fault: Fault, at: Place) -> Result<Running, Untold>
        requires { IsOwnPlace (setting_of (Self.scene self.old)) (Self.scene self.old).objects at }
        ensures named { IfOk result (λ running. running ≡ running_in (place_shown (setting_of (Self.scene self.old)) at)) }
        ensures tells { OnOk result (ShowsAll (Self.written self.old) (Self.written self.new) (end_text (Self.prefix self.old) (Faulted fault (place_shown (setting_of (Self.scene self.old)) at)))) }
        ensures front { ShowsFront (Self.written self.old) (Self.written self.new) (end_text (Self.prefix self.old) (Faulted fault (place_shown (setting_of (Self.scene self.old)) at))) }
        ensures scene { Self.scene self.new ≡ Self.scene self.old }
        ensures counted { Self.counted self.new ≡ Self.counted self.old }
        ensures lent { Self.lent self.new ≡ Self.lent self.old }

        ensures later { Self.faults self.old ≤ Self.faults self.new }
        ensures cause { result ≡ Err untold.SinkFailed → Rose (Self.faults self.old) (Self.faults self.new) }

        ensures calm_stays { Self.calm self.old → Self.calm self.new }
        ensures calm_count { Self.calm self.old → Self.faults self.new ≡ Self.faults self.old }
        ensures calm_answer { Self.calm self.old → result ≢ Err untold.SinkFailed };
}

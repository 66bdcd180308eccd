//! The instruction that prints the top to the sink.

ghost use Rattle.som_code.specs.declared.instruction.Instruction.TheVariants as ops;
ghost use Rattle.som_interp_ops.specs.Cells.{top_cell};
ghost use Rattle.som_io.specs.Outside.{Rose, ShowsFront};
ghost use Rattle.som_meta.specs.Numbering.{Numbering};
ghost use Rattle.som_model.specs.declared.syntax.Block.{Block};
ghost use Rattle.som_semantics.specs.RunText.{events_lines, with_prefix};
ghost use Rattle.som_semantics.specs.State.{Printed};
ghost use Rattle.som_semantics.specs.Values.{text_of as text_in};
ghost use Rattle.som_model.specs.declared.key.ClassKey.{ClassKey};
ghost use Rattle.som_interp_loop.specs.Moving.{Tells};
ghost use Rattle.som_interp_loop.specs.Scene.{scene, setting_of};
ghost use Rattle.som_interp_loop.specs.declared.stop.Stop.TheVariants as stops;
ghost use Rattle.som_interp_loop.specs.NextInstruction.{IfTold, next_of};
ghost use Rattle.som_interp_body.specs.Obeying.{ComesTo, following};
ghost use Rattle.som_objects.specs.Objects.{Objects};
ghost use Rattle.som_interp_state.specs.Settings.{Linked, shows as shows_cells};
ghost use Rattle.som_interp_state.specs.declared.task.Task.{Task};
ghost use Rattle.som_machine_laws.specs.Needs.{AreClosed};
ghost use Rattle.som_values.specs.Shown.{Showing, shown};
ghost use Rattle.std.specs.List.{concat};
ghost use Rattle.std.specs.Prelude.{◌≡◌, ◌≢◌, ◌≤◌, ◌<◌, ◌+◌, ◌^◌, ◌∷◌, [], ℕ, Bool, Err, List, Some};

use crate::outcome::Outcome;
use som_interp_loop::Stop;
use som_interp_ops::pop;
use som_interp_state::Body;
use som_io::Sink;
use som_model::Text;
use som_trace::tell_printed;
use som_values::text_of;
use std::alloc::Global;

/// The text of the top is printed.
pub(crate) fn print<K: Sink>(
    alloc: Global,
    prefix: &Text,
    out: &mut K,
    body: &mut Body,
) -> Result<Outcome, Stop>
    requires { body.old.at + 1 < 2 ^ 64 }
    ensures comes { (l : Linked) (kn : Numbering) (main : Block) (made : ClassKey → Bool) (os : Objects) (t : Task) (f : ℕ) → AreClosed l.world made → next_of (scene l kn main made os t f) body.old ≡ Some ops.Print
        → ComesTo (scene l kn main made os t f) (scene l kn main made os t f) body.old (following result body.new)
        (Printed (text_in (shown (shows_cells (setting_of (scene l kn main made os t f))) (top_cell body.old.operands.items))) ∷ []) }
    ensures tells { (s : Showing) (shows : List ℕ → Bool) → IfTold (following result body.new)
        (Tells shows prefix.now (K.written out.old) (K.written out.new) (Printed (text_in (shown s (top_cell body.old.operands.items))) ∷ [])) }
    ensures front { (s : Showing) (shows : List ℕ → Bool) → ShowsFront (K.written out.old) (K.written out.new)
        (concat (with_prefix prefix.now (events_lines shows (Printed (text_in (shown s (top_cell body.old.operands.items))) ∷ [])))) }

    ensures later { K.faults out.old ≤ K.faults out.new }
    ensures cause { result ≡ Err stops.SinkFailed → Rose (K.faults out.old) (K.faults out.new) }

    ensures calm_stays { K.calm out.old → K.calm out.new }
    ensures calm_count { K.calm out.old → K.faults out.new ≡ K.faults out.old }
    ensures calm_answer { K.calm out.old → result ≢ Err stops.SinkFailed }
{
    let cell = pop(&mut body.operands);
    let text = text_of(alloc, &cell)?;
    tell_printed(alloc, out, prefix, &text)?;
    body.at += 1;
    Ok(Outcome::GoesOn)
}

//! The laws of a task's state, each the contract of a function without a body.

ghost use Rattle.som_code.specs.declared.instruction.Instruction.{Instruction};
ghost use Rattle.som_machine_laws.specs.CallBodies.{call_bodies, with_held, with_method};
ghost use Rattle.som_machine_laws.specs.Frames as machine;
ghost use Rattle.som_semantics.specs.Calls.{Request};
ghost use Rattle.som_semantics.specs.Expressions.{read};
ghost use Rattle.som_model.specs.Kernel.{after_method, before_method};
ghost use Rattle.som_semantics.specs.Means.{body_class, hooks_of};
ghost use Rattle.som_semantics.specs.State.{After, Before, ClassObject, Heap, Instance, Object, Str, To, freed, write, zeros};
ghost use Rattle.som_semantics.specs.World.{World};
ghost use Rattle.som_model.specs.declared.key.ClassKey.{ClassKey};
ghost use Rattle.som_objects.specs.Objects.{Frees, KeepsKnown, Live, Makes, Objects, Writes, live_at};
ghost use Rattle.som_objects.specs.declared.cell.Cell.{Cell};
ghost use Rattle.som_objects.specs.declared.object_ref.ObjRef.{ObjRef};
ghost use Rattle.som_interp_state.specs.Own.{IsOwn, IsOwnFrames};
ghost use Rattle.som_interp_state.specs.Settings.{IsLinked, Linked};
ghost use Rattle.som_interp_state.specs.Standing.{bodies_left, frames_shown};
ghost use Rattle.som_interp_state.specs.Stored.{AreSerials, HasCome, HoldVariables, HoldsHeap, HoldsStatics, IsInstance, Spares};
ghost use Rattle.som_interp_state.specs.declared.call.Stage.TheVariants as stages;
ghost use Rattle.som_interp_state.specs.declared.frames.Frames.{Frames};
ghost use Rattle.som_interp_state.specs.declared.task.Task.{Task};
ghost use Rattle.som_values.specs.Shown.{IsMade, IsNumbered, key_of, place_of, shown, showing};
ghost use Rattle.std.specs.Option.{option_flatten};
ghost use Rattle.std.specs.Prelude.{◌≡◌, ◌≢◌, ◌≤◌, ◌+◌, ◌++◌, ◌∷◌, [], ℕ, List, None, Ok, Option, Some, false, length, slice_get, slice_set, true};

/// Frames stand for what they stood for, and name what is the task's, where serials and codes are added at the end and the store
/// keeps the references that it knows.
pub fn frames_law()
    ensures same { (k : Linked) (xs ys : List ℕ) (cs ds : List (List Instruction)) (os : Objects) (f : Frames) →
        IsOwnFrames (record { linked = k; serials = xs; codes = cs }) os f →
        frames_shown (record { linked = k; serials = xs ++ ys; codes = cs ++ ds }) f ≡ frames_shown (record { linked = k; serials = xs; codes = cs }) f }
    ensures own { (k : Linked) (xs ys : List ℕ) (cs ds : List (List Instruction)) (os new : Objects) (f : Frames) →
        KeepsKnown os new → IsOwnFrames (record { linked = k; serials = xs; codes = cs }) os f →
        IsOwnFrames (record { linked = k; serials = xs ++ ys; codes = cs ++ ds }) new f }
{}

/// The objects of the heap stay those of the store where an object of the task is made, written or freed in both, and
/// where others' objects change; and what is read of a live one is what its cell stands for, or
/// the zero value where it has no such variable.
pub fn heap_law()
    ensures made { (k : Linked) (xs : List ℕ) (os new : Objects) (h : Heap) (r : ObjRef) (class : ℕ) (cs : List Cell) (t : Instance) (i : Heap) →
        Makes os new r class cs → i.objects ≡ h.objects ++ t ∷ [] → t.live ≡ true → t.class ≡ key_of k.keys class → IsNumbered k.keys class →
        AreSerials xs os → IsInstance k (xs ++ r.serial ∷ []) new (record { key = r.key; class = class; cells = cs }) t →
        HoldsHeap k xs os h → HoldsHeap k (xs ++ r.serial ∷ []) new i }
    ensures written { (k : Linked) (xs : List ℕ) (os new : Objects) (h : Heap) (r : ObjRef) (c : ClassKey) (n p : ℕ) (cell : Cell) (w : Writes os new r p cell) →
        IsLinked k → k.variables w.0.class c n ≡ Some p → IsMade xs r.serial → IsOwn (showing k.keys xs) os cell →
        HoldsHeap k xs os h → HoldsHeap k xs new (write (Object (place_of xs r.serial)) c n (shown (showing k.keys xs) cell) h) }
    ensures freed { (k : Linked) (xs : List ℕ) (os new : Objects) (h : Heap) (r : ObjRef) →
        Frees os new r → IsMade xs r.serial → HoldsHeap k xs os h → HoldsHeap k xs new (freed (Object (place_of xs r.serial)) h) }
    ensures spared { (k : Linked) (xs : List ℕ) (os new : Objects) (h : Heap) → Spares xs os new → HoldsHeap k xs os h → HoldsHeap k xs new h }
    ensures read { (k : Linked) (xs : List ℕ) (os : Objects) (h : Heap) (r : ObjRef) (o : Live) (c : ClassKey) (n p : ℕ) (cell : Cell) →
        live_at os r.serial ≡ Some o → k.variables o.class c n ≡ Some p → slice_get o.cells p ≡ Some cell → IsMade xs r.serial →
        HoldsHeap k xs os h → read c n (To (Object (place_of xs r.serial))) h ≡ Ok (shown (showing k.keys xs) cell) }
    ensures zero { (k : Linked) (xs : List ℕ) (os : Objects) (h : Heap) (r : ObjRef) (o : Live) (c : ClassKey) (n : ℕ) →
        live_at os r.serial ≡ Some o → k.variables o.class c n ≡ None → IsMade xs r.serial →
        HoldsHeap k xs os h → read c n (To (Object (place_of xs r.serial))) h ≡ Ok (zeros k.world c n) }
{}

/// Each object of another that is made, written or freed spares the task's own, and serials stay: with one more where
/// the task makes an object.
pub fn serials_law()
    ensures made { (xs : List ℕ) (os new : Objects) (r : ObjRef) (class : ℕ) (cs : List Cell) → AreSerials xs os → Makes os new r class cs → Spares xs os new }
    ensures written { (xs : List ℕ) (os new : Objects) (r : ObjRef) (p : ℕ) (cell : Cell) → (IsMade xs r.serial → ⊥) → Writes os new r p cell → Spares xs os new }
    ensures freed { (xs : List ℕ) (os new : Objects) (r : ObjRef) → (IsMade xs r.serial → ⊥) → Frees os new r → Spares xs os new }
    ensures spared { (xs : List ℕ) (os new : Objects) → Spares xs os new → AreSerials xs os → AreSerials xs new }
    ensures added { (xs : List ℕ) (os new : Objects) (r : ObjRef) (class : ℕ) (cs : List Cell) → AreSerials xs os → Makes os new r class cs → AreSerials (xs ++ r.serial ∷ []) new }
{}

/// The variables of class objects stay those in their cells where the store and the task's objects change, and where
/// one of them is written.
pub fn statics_law()
    ensures later { (k : Linked) (xs ys : List ℕ) (os new : Objects) (statics : List (Option (List Cell))) (h i : Heap) →
        KeepsKnown os new → ((c : ClassKey) → i.statics c ≡ h.statics c) → HoldsStatics k xs os statics h → HoldsStatics k (xs ++ ys) new statics i }
    ensures written { (k : Linked) (xs : List ℕ) (os : Objects) (old new : List (Option (List Cell))) (h : Heap) (n : ℕ) (c : ClassKey) (m p : ℕ) (cs : List Cell) (cell : Cell) →
        IsLinked k → IsNumbered k.keys n → option_flatten (slice_get new n) ≡ Some (slice_set cs p cell) →
        ((i : ℕ) → i ≢ n → option_flatten (slice_get new i) ≡ option_flatten (slice_get old i)) →
        k.statics n c m ≡ Some p → IsOwn (showing k.keys xs) os cell → HoldVariables k xs os (k.statics n) cs (h.statics (key_of k.keys n)) →
        HoldsStatics k xs os old h → HoldsStatics k xs os new (write (ClassObject (key_of k.keys n)) c m (shown (showing k.keys xs) cell) h) }
{}

/// The bodies of a call, one stage after the other: those of the hooks that have one for the method before, in order,
/// the method's, and those that hooks have for the method after, in reverse order.
pub fn stages_law()
    ensures first { (w : World) (x : ClassKey) (q : Request) → call_bodies w x q ≡ bodies_left w x q (stages.Before 0) }
    ensures before { (w : World) (x : ClassKey) (q : Request) (n : ℕ) (k : ClassKey) → slice_get (hooks_of w x q) n ≡ Some k →
        bodies_left w x q (stages.Before n) ≡ with_held Before before_method (ClassObject x) (To q.self ∷ Str q.method.name ∷ []) false k (w.held k before_method) (bodies_left w x q (stages.Before (n + 1))) }
    ensures past { (w : World) (x : ClassKey) (q : Request) (n : ℕ) → length (hooks_of w x q) ≤ n → bodies_left w x q (stages.Before n) ≡ bodies_left w x q stages.Method }
    ensures method { (w : World) (x : ClassKey) (q : Request) → bodies_left w x q stages.Method ≡ with_method w q (body_class w x q) (bodies_left w x q (stages.After (length (hooks_of w x q)))) }
    ensures after { (w : World) (x : ClassKey) (q : Request) (n : ℕ) (k : ClassKey) → slice_get (hooks_of w x q) n ≡ Some k →
        bodies_left w x q (stages.After (n + 1)) ≡ with_held After after_method (ClassObject x) (To q.self ∷ Str q.method.name ∷ []) false k (w.held k after_method) (bodies_left w x q (stages.After n)) }
    ensures last { (w : World) (x : ClassKey) (q : Request) → bodies_left w x q (stages.After 0) ≡ [] }
{}

/// A task stays where it has come while other tasks change the store.
pub fn task_law()
    ensures { (k : Linked) (os new : Objects) (t : Task) (fs : machine.Frames) (h : Heap) → Spares t.serials os new → HasCome k os t fs h → HasCome k new t fs h }
{}

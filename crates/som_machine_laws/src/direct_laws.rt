//! Where nothing of a run searches for a name: how many steps it counts. Laws of the definitions are the contracts of
//! functions with no body. Proofs of other crates cite its laws, and no code calls it.

ghost use Rattle.som_code.specs.Laid.{lay_body};
ghost use Rattle.som_code.specs.Machine.{On};
ghost use Rattle.som_machine_laws.specs.Counted.{AreWithoutHooks, IsDirectRun, IsSearchFree, looks};
ghost use Rattle.som_machine_laws.specs.Direct.{IsDirect};
ghost use Rattle.som_machine_laws.specs.Searching.{IsDirectCode, IsDirectProgram, IsDirectWorld};
ghost use Rattle.som_machine_laws.specs.Frames.{Frames, Now};
ghost use Rattle.som_machine_laws.specs.Step.{main_frames, step};
ghost use Rattle.som_machine_laws.specs.Tested.{Tests};
ghost use Rattle.som_machine_laws.specs.Weight.{IsNowSound};
ghost use Rattle.som_semantics.specs.Calls.{Request};
ghost use Rattle.som_model.specs.Class.{Class};
ghost use Rattle.som_model.specs.Kernel.{kernel};
ghost use Rattle.som_model.specs.Lists.{Mem, some};
ghost use Rattle.som_model.specs.Loads.{Loads};
ghost use Rattle.som_model.specs.Made.{IsMade, IsWithoutSearch, blocks_of, has_search};
ghost use Rattle.som_semantics.specs.Means.{hooks_of};
ghost use Rattle.som_semantics.specs.RunText.{call_count};
ghost use Rattle.som_semantics.specs.Runs.{Goes, IsPrefix};
ghost use Rattle.som_semantics.specs.State.{Event, State};
ghost use Rattle.som_semantics.specs.World.{World, world};
ghost use Rattle.som_model.specs.declared.key.ClassKey.{ClassKey};
ghost use Rattle.som_model.specs.declared.syntax.Block.{Block};
ghost use Rattle.std.specs.Prelude.{◌≡◌, ◌+◌, ◌*◌, ◌≤◌, ◌++◌, [], ℕ, Bool, List, false, true};

/// Where classes and a main can be loaded, and no block of them has a call by name or calls a method that asks for a name:
/// no code of theirs searches, and no body but those of the methods that ask.
pub fn blocks_law()
    ensures code { (cs : List Class) (main : Block) → Loads cs main → some (has_search (kernel ++ cs)) (blocks_of (kernel ++ cs) main) ≡ false →
        (b : Block) (params : ℕ) → Mem b (blocks_of (kernel ++ cs) main) → IsDirectCode (world (kernel ++ cs)) (lay_body b params) }
    ensures program { (cs : List Class) (main : Block) → Loads cs main → some (has_search (kernel ++ cs)) (blocks_of (kernel ++ cs) main) ≡ false →
        IsDirectProgram (world (kernel ++ cs)) main }
{}

/// Nothing searches of main on frames, if nothing does of the program; and a task of which nothing searches stays so:
/// after each step of the machine of frames that goes on, with whatever tests in front of calls and of bodies.
pub fn frames_law()
    ensures start { (w : World) (main : Block) (levels : ℕ) → IsDirectProgram w main → IsDirect w (main_frames levels main) }
    ensures step { (w : World) (tests : Tests) (fs gs : Frames) (s t : State) → IsDirectWorld w → IsDirect w fs →
        (step w tests fs).does s ≡ Goes (On gs) t → IsDirect w gs }
{}

/// A call on an object of a class that is made has no hooks, where no class that is made has. Where that is so of more
/// classes, it is so of these.
pub fn hooks_law()
    ensures call { (w : World) (made : ClassKey → Bool) (x : ClassKey) (q : Request) → AreWithoutHooks w made →
        made x ≡ true → hooks_of w x q ≡ [] }
    ensures fewer { (w : World) (made more : ClassKey → Bool) → ((k : ClassKey) → made k ≡ true → more k ≡ true) →
        AreWithoutHooks w more → AreWithoutHooks w made }
{}

/// A run needs no search, among classes that can be loaded, where no block has one and no class that is made by its end
/// has hooks. It is enough that no class has hooks which is made for a run.
pub fn runs_law()
    ensures direct { (cs : List Class) (main : Block) (made : ClassKey → Bool) → Loads cs main →
        IsSearchFree (kernel ++ cs) main made → IsDirectRun (world (kernel ++ cs)) main made }
    ensures free { (cs : List Class) (main : Block) (made : ClassKey → Bool) → IsWithoutSearch cs main →
        ((k : ClassKey) → made k ≡ true → IsMade cs main k) → IsSearchFree cs main made }
{}

/// A step that goes on takes as many steps to look up what is next as its call events allow, which is two for each; any
/// step takes two at most. The call events of two lists of events are those of both, and a front of events has no more.
pub fn counts_law()
    ensures goes { (w : World) (tests : Tests) (fs gs : Frames) (s t : State) (es : List Event) → IsNowSound fs.now →
        (step w tests fs).does s ≡ Goes (On gs) t → t.events ≡ s.events ++ es → looks fs.now ≡ 2 * call_count es }
    ensures most { (now : Now) → looks now ≤ 2 }
    ensures both { (es fs : List Event) → call_count (es ++ fs) ≡ call_count es + call_count fs }
    ensures front { (es fs : List Event) → IsPrefix es fs → call_count es ≤ call_count fs }
{}

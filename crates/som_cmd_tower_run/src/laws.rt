//! Laws of runs of towers whose images a store holds, whatever call ends as the answer says.

ghost use Rattle.som_cmd_run.specs.RunEnds.{RunsAs, TellsNotKept};
ghost use Rattle.som_cmd_steps.specs.Getting.{FailsGetting};
ghost use Rattle.som_cmd_steps.specs.Outcomes.{EndsAs, ShowsSome, StoreFails};
ghost use Rattle.som_cmd_tower_run.specs.TowerNewest.{HoldsNewestTower, RunsOnNewestTower};
ghost use Rattle.som_cmd_tower_run.specs.TowerRunAnswer.{IsTowerRunAnswer, tower_means};
ghost use Rattle.som_cmd_tower_run.specs.TowerRunEnds.{IsTowerUnder, RunsTowerAs, TellsLevelNotKept};
ghost use Rattle.som_flat_laws.specs.Flat.{flat_interface};
ghost use Rattle.som_io.specs.Outside.{Rose};
ghost use Rattle.som_model.specs.Bytes.{Files};
ghost use Rattle.som_model.specs.Class.{interface_of};
ghost use Rattle.som_model.specs.Compatible.{CompatBreach, Compatible, first_break};
ghost use Rattle.som_model.specs.Conforming.{ReleaseOk};
ghost use Rattle.som_model.specs.declared.program.Release.{Release};
ghost use Rattle.som_semantics.specs.Means.{means};
ghost use Rattle.som_semantics.specs.RunText.{no_trace};
ghost use Rattle.som_sources.specs.declared.source.Source.{Source};
ghost use Rattle.som_tower.specs.Towers.{IsTowerOf, programs_above, tower_break};
ghost use Rattle.som_towerimage.specs.declared.level.Level.{Level};
ghost use Rattle.std.specs.Option.{option_map};
ghost use Rattle.std.specs.Prelude.{◌≡◌, ◌≢◌, ◌≤◌, ◌↔◌, ◌⊎◌, ℕ, [], ◌∷◌, List as Seq, None, Option, Some, length, true};

/// A call that ends as the answer says runs a client that conforms on levels that conform and stand one above the other: what is
/// printed is the text of what it means among their classes, and the status is that meaning's, where nothing is broken; else the
/// first thing is told that a level doesn't keep.
pub fn tower_end_law()
    ensures means { (files : Files) (client : Seq ℕ) (below : Seq (Seq ℕ)) (base : Release) (uppers : Seq Level) (c : Level) (fuel status : ℕ) (left : Option Files) (before after : Option (Seq ℕ)) →
        IsTowerUnder files client below base uppers c → tower_break (interface_of base ∷ []) (programs_above uppers c) ≡ None →
        EndsAs (IsTowerRunAnswer client below fuel files) status left before after → RunsTowerAs base uppers c fuel status before after }
    ensures unkept { (files : Files) (client : Seq ℕ) (below : Seq (Seq ℕ)) (base : Release) (uppers : Seq Level) (c : Level) (fuel status : ℕ) (left : Option Files) (before after : Option (Seq ℕ)) (level : ℕ) (b : CompatBreach) →
        IsTowerUnder files client below base uppers c → tower_break (interface_of base ∷ []) (programs_above uppers c) ≡ Some (level, b) →
        EndsAs (IsTowerRunAnswer client below fuel files) status left before after → TellsLevelNotKept below level b status before after }
{}

/// A client of a tower that was compiled from texts against any releases of an accepted tower, one of each list, runs on the newest
/// of each list, whose images a store holds: these conform and break nothing, so any call with the clauses of `run_tower` prints
/// exactly the text of what the client means among their classes and ends with that meaning's status, unless the store or the sink
/// failed or memory ran out. And the metaclass of each of these classes descends from that of each of its parents.
pub fn tower_newest_law()
    ensures under { (files : Files) (client : Seq ℕ) (below : Seq (Seq ℕ)) (earlier : Seq Release) (base : Release) (lists : Seq (Seq Level)) (newest : Seq Level) (texts : Seq Source) (c : Level) →
        HoldsNewestTower files client below earlier base lists newest texts c → length below ≤ 8 → IsTowerUnder files client below base newest c }
    ensures unbroken { (files : Files) (client : Seq ℕ) (below : Seq (Seq ℕ)) (earlier : Seq Release) (base : Release) (lists : Seq (Seq Level)) (newest : Seq Level) (texts : Seq Source) (c : Level) →
        HoldsNewestTower files client below earlier base lists newest texts c → length below ≤ 8 → tower_break (interface_of base ∷ []) (programs_above newest c) ≡ None }
    ensures runs { (files : Files) (client : Seq ℕ) (below : Seq (Seq ℕ)) (earlier : Seq Release) (base : Release) (lists : Seq (Seq Level)) (newest : Seq Level) (texts : Seq Source) (c : Level) →
        HoldsNewestTower files client below earlier base lists newest texts c → length below ≤ 8 →
        (fuel store_before store_now sink_before sink_now status : ℕ) (left : Option Files) (before after : Option (Seq ℕ)) →
        (status ≢ 6 → status ≢ 8 → status ≢ 10 → EndsAs (IsTowerRunAnswer client below fuel files) status left before after) →
        (status ≡ 6 → StoreFails (FailsGetting (Some files) (client ∷ below)) store_before store_now before after) → (status ≡ 8 → Rose sink_before sink_now) →
        ((status ≡ 8) ⊎ (status ≡ 10) → ShowsSome (IsTowerRunAnswer client below fuel) (FailsGetting (Some files) (client ∷ below)) (Some files) store_before store_now before after) →
        RunsOnNewestTower base newest c fuel (FailsGetting (Some files) (client ∷ below)) store_before store_now sink_before sink_now status before after }
{}

/// With one level a tower is its library with the client, as they are without a tower. Texts are compiled against the interface of the
/// library. The client means what it means as a client of the library. What is broken first is what the library doesn't keep first of
/// what the client was compiled against, by the same rule at the same class and member, at level 0; so nothing is broken exactly where
/// the library is compatible with that. And a call that ends as the answer says prints what `run` prints of the library and the client.
pub fn one_level_law()
    ensures flat { (base : Release) → ReleaseOk base → flat_interface (interface_of base ∷ []) ≡ interface_of base }
    ensures means { (base : Release) (c : Level) (fuel : ℕ) → c.client ≡ true → length c.sizes ≡ 1 →
        tower_means base [] c fuel ≡ means base c.program fuel }
    ensures breach { (base : Release) (c : Level) → IsTowerOf base [] c →
        tower_break (interface_of base ∷ []) (programs_above [] c) ≡
        option_map (λ (b : CompatBreach). (0, b)) (first_break c.program.base (interface_of base)) }
    ensures compatible { (base : Release) (c : Level) → IsTowerOf base [] c →
        (tower_break (interface_of base ∷ []) (programs_above [] c) ≡ None) ↔ Compatible c.program.base (interface_of base) }
    ensures runs { (files : Files) (client library : Seq ℕ) (base : Release) (c : Level) (fuel status : ℕ) (left : Option Files) (before after : Option (Seq ℕ)) →
        IsTowerUnder files client (library ∷ []) base [] c → Compatible c.program.base (interface_of base) →
        EndsAs (IsTowerRunAnswer client (library ∷ []) fuel files) status left before after → RunsAs c.program base fuel no_trace status before after }
    ensures unkept { (files : Files) (client library : Seq ℕ) (base : Release) (c : Level) (fuel status : ℕ) (left : Option Files) (before after : Option (Seq ℕ)) (b : CompatBreach) →
        IsTowerUnder files client (library ∷ []) base [] c → first_break c.program.base (interface_of base) ≡ Some b →
        EndsAs (IsTowerRunAnswer client (library ∷ []) fuel files) status left before after → TellsNotKept library b status before after }
{}

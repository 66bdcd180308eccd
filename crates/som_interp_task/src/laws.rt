//! What a task that stands keeps, the contract of a function without a body.

ghost use Rattle.som_interp_task.specs.Stands.{Stands};
ghost use Rattle.som_model.specs.declared.key.ClassKey.{ClassKey};
ghost use Rattle.som_interp_loop.specs.Scene.{Scene};
ghost use Rattle.som_objects.specs.Objects.{Objects};
ghost use Rattle.som_interp_state.specs.Stored.{Spares};
ghost use Rattle.std.specs.Prelude.{◌≡◌, Bool, true};

/// A task stands as it stood while others change the store, as long as they spare its objects, and when more classes are
/// made.
pub fn standing_law()
    ensures spared { (c : Scene) (new : Objects) → Spares c.task.serials c.objects new → Stands c → Stands (record c { objects = new }) }
    ensures more { (c : Scene) (made : ClassKey → Bool) → ((k : ClassKey) → c.made k ≡ true → made k ≡ true) → Stands c → Stands (record c { made = made }) }
{}

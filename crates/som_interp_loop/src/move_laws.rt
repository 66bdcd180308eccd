//! What a task's codes name is there, the contract of a function without a body.

ghost use Rattle.som_code_cache.specs.Coded.{AreCodes, Coded, IsNumberOf, codes_of, key_of as body_of};
ghost use Rattle.som_meta.specs.Numbering.{Numbering};
ghost use Rattle.som_semantics.specs.World.{World};
ghost use Rattle.som_model.specs.declared.key.ClassKey.{ClassKey};
ghost use Rattle.som_model.specs.declared.syntax.Block.{Block};
ghost use Rattle.som_interp_loop.specs.Scene.{AreFine, WritesOwn};
ghost use Rattle.som_interp_state.specs.Asked.{Agree, CanLoad, HaveNumbers};
ghost use Rattle.som_interp_state.specs.Settings.{Linked, code_at};
ghost use Rattle.som_values.specs.Shown.{key_of};
ghost use Rattle.std.specs.Prelude.{ℕ, Bool, List};

/// Among the classes of a kernel, each code of a task is fine, the code of a body writes only variables that its class has,
/// and main's, which is the first, writes none.
pub fn codes_law()
    ensures fine { (ks : List ClassKey) (w : World) (k : Numbering) (l : Linked) (main : Block) (made : ClassKey → Bool) (cs : List Coded) →
        Agree ks w k l → CanLoad k.classes main → HaveNumbers ks k.classes main made → AreCodes k main cs → AreFine ks w k.classes (codes_of cs) }
    ensures body { (ks : List ClassKey) (w : World) (k : Numbering) (l : Linked) (main : Block) (cs : List Coded) (class : ℕ) (method : ℕ × ℕ) (params n : ℕ) →
        Agree ks w k l → CanLoad k.classes main → AreCodes k main cs → IsNumberOf cs (body_of class method params) n → WritesOwn w (key_of ks class) (code_at (codes_of cs) n) }
    ensures main { (ks : List ClassKey) (w : World) (k : Numbering) (l : Linked) (main : Block) (cs : List Coded) (key : ClassKey) →
        Agree ks w k l → CanLoad k.classes main → AreCodes k main cs → WritesOwn w key (code_at (codes_of cs) 0) }
{}

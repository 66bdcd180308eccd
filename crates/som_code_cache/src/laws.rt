//! What a task's codes name is there, each the contract of a function without a body.

ghost use Rattle.som_code.specs.Sound.{IsSound};
ghost use Rattle.som_machine_laws.specs.Having.{AreOfClass, AreOfMain};
ghost use Rattle.som_machine_laws.specs.Naming.{AreNaming, AreSigned};
ghost use Rattle.som_code_cache.specs.Coded.{AreCodes, Coded};
ghost use Rattle.som_code_cache.specs.declared.body_key.BodyKey.{BodyKey as Body};
ghost use Rattle.som_code.specs.declared.instruction.Instruction.{Instruction};
ghost use Rattle.som_meta.specs.Numbering.{Numbering, key_at};
ghost use Rattle.som_model.specs.Class.{Class};
ghost use Rattle.som_model.specs.Kernel.{kernel};
ghost use Rattle.som_model.specs.Loads.{Loads};
ghost use Rattle.som_semantics.specs.World.{world};
ghost use Rattle.som_model.specs.declared.syntax.Block.{Block};
ghost use Rattle.std.specs.Prelude.{◌≡◌, ◌++◌, ℕ, List, None, Some, slice_get};

/// Where the classes can be loaded with this main, each code of a task names only what is there, calls only methods that
/// have a signature, and is sound; that of a body needs only what the body's class has; and main's needs no self.
pub fn codes_law()
    ensures naming { (k : Numbering) (others : List Class) (main : Block) (cs : List Coded) (n : ℕ) (c : Coded) →
        k.classes ≡ kernel ++ others → Loads others main → AreCodes k main cs → slice_get cs n ≡ Some c → AreNaming k.classes c.code }
    ensures signed { (k : Numbering) (others : List Class) (main : Block) (cs : List Coded) (n : ℕ) (c : Coded) →
        k.classes ≡ kernel ++ others → Loads others main → AreCodes k main cs → slice_get cs n ≡ Some c → AreSigned (world k.classes) c.code }
    ensures own { (k : Numbering) (others : List Class) (main : Block) (cs : List Coded) (n : ℕ) (b : Body) (code : List Instruction) →
        k.classes ≡ kernel ++ others → Loads others main → AreCodes k main cs → slice_get cs n ≡ Some (record { body = Some b; code = code }) →
        AreOfClass (world k.classes) (key_at k b.class) code }
    ensures main { (k : Numbering) (others : List Class) (main : Block) (cs : List Coded) (n : ℕ) (code : List Instruction) →
        k.classes ≡ kernel ++ others → Loads others main → AreCodes k main cs → slice_get cs n ≡ Some (record { body = None; code = code }) → AreOfMain code }
    ensures sound { (k : Numbering) (main : Block) (cs : List Coded) (n : ℕ) (c : Coded) → AreCodes k main cs → slice_get cs n ≡ Some c → IsSound c.code }
{}

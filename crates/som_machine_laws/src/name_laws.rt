//! What the code of classes that can be loaded names is there. Laws of the definitions are the contracts of functions
//! with no body. Proofs of other crates cite its laws, and no code calls it.

ghost use Rattle.som_code.specs.Laid.{lay_body};
ghost use Rattle.som_code.specs.Sound.{IsSound};
ghost use Rattle.som_code.specs.declared.instruction.Instruction.TheVariants as ops;
ghost use Rattle.som_machine_laws.specs.Having.{AreOfClass, AreOfMain, HasVariable};
ghost use Rattle.som_machine_laws.specs.Naming.{AreNaming, AreSigned, HasEntry, HasSignature, kernel_calls};
ghost use Rattle.som_model.specs.Class.{Class};
ghost use Rattle.som_model.specs.Implementation.{Set, User, held};
ghost use Rattle.som_model.specs.Kernel.{kernel};
ghost use Rattle.som_model.specs.Lists.{Mem};
ghost use Rattle.som_model.specs.Loads.{Loads, keys_of};
ghost use Rattle.som_model.specs.Made.{all_roots, blocks_of, blocks_of_class};
ghost use Rattle.som_model.specs.Owner.{owner};
ghost use Rattle.som_semantics.specs.World.{world};
ghost use Rattle.som_model.specs.declared.key.ClassKey.TheVariants as keys;
ghost use Rattle.som_model.specs.declared.key.ClassKey.{ClassKey};
ghost use Rattle.som_model.specs.declared.key.MethodRef.{MethodRef};
ghost use Rattle.som_model.specs.declared.syntax.Block.{Block};
ghost use Rattle.std.specs.Prelude.{◌≡◌, ◌++◌, ℕ, List, Some, slice_get};

/// Where classes and a main can be loaded, each instruction of the code of each block that may run names only what is
/// there, whatever number of parameters the code is laid for: classes that are declared, proxies of such classes,
/// methods that have an entry in the class that they are named by, and results whose class is declared.
pub fn names_law()
    ensures { (cs : List Class) (main : Block) → Loads cs main → (b : Block) (params : ℕ) →
        Mem b (blocks_of (kernel ++ cs) main) → AreNaming (kernel ++ cs) (lay_body b params) }
{}

/// The kernel's methods that a run calls by itself have an entry there too, and are their own owners.
pub fn kernel_calls_law()
    ensures entry { (cs : List Class) (main : Block) → Loads cs main → (r : MethodRef) →
        Mem r kernel_calls → HasEntry (kernel ++ cs) r }
    ensures owner { (cs : List Class) (main : Block) → Loads cs main → (r : MethodRef) →
        Mem r kernel_calls → owner (kernel ++ cs) r ≡ r }
{}

/// Each method that such code calls, and each that a run calls by itself, has a signature.
pub fn signatures_law()
    ensures named { (cs : List Class) (main : Block) → Loads cs main → (b : Block) (params : ℕ) →
        Mem b (blocks_of (kernel ++ cs) main) → AreSigned (world (kernel ++ cs)) (lay_body b params) }
    ensures kernel { (cs : List Class) (main : Block) → Loads cs main → (r : MethodRef) →
        Mem r kernel_calls → HasSignature (world (kernel ++ cs)) r }
{}

/// The code of a class's blocks reads and writes only variables that the class has, and calls only bodies of parents that
/// it has; a body that writes a variable by itself writes one that its class has; and main's code needs no self.
pub fn variables_law()
    ensures class { (cs : List Class) (main : Block) → Loads cs main → (c : Class) (b : Block) (params : ℕ) →
        Mem c (kernel ++ cs) → Mem b (blocks_of_class c) → AreOfClass (world (kernel ++ cs)) c.key (lay_body b params) }
    ensures held { (cs : List Class) (main : Block) → Loads cs main → (k : ClassKey) (r : MethodRef) (b : Block) (params : ℕ) →
        (world (kernel ++ cs)).held k r ≡ Some (User b) → AreOfClass (world (kernel ++ cs)) k (lay_body b params) }
    ensures writer { (cs : List Class) (main : Block) → Loads cs main → (k : ClassKey) (r : MethodRef) (n : ℕ) →
        (world (kernel ++ cs)).held k r ≡ Some (Set n) → HasVariable (world (kernel ++ cs)) k n }
    ensures main { (cs : List Class) (main : Block) → Loads cs main → (params : ℕ) → AreOfMain (lay_body main params) }
{}

/// A block that a class has as a body of its own is one of the blocks that may run, and so is one that the world of a
/// run has for a class and a method.
pub fn held_law()
    ensures declared { (cs : List Class) (main : Block) (k : ClassKey) (r : MethodRef) (b : Block) →
        held cs k r ≡ Some (User b) → Mem b (blocks_of cs main) }
    ensures world { (cs : List Class) (main : Block) (k : ClassKey) (r : MethodRef) (b : Block) →
        (world cs).held k r ≡ Some (User b) → Mem b (blocks_of cs main) }
{}

/// A proxy that the code of a block which may run names is among the classes with which the made ones begin, so it is
/// made and has a number; and so is each class.
pub fn proxies_law()
    ensures named { (cs : List Class) (main : Block) (b : Block) (params n : ℕ) (k : ClassKey) → Mem b (blocks_of cs main) →
        slice_get (lay_body b params) n ≡ Some (ops.Proxy k) → Mem (keys.Proxy k) (all_roots cs main) }
    ensures declared { (cs : List Class) (main : Block) (k : ClassKey) → Mem k (keys_of cs) → Mem k (all_roots cs main) }
{}

/// Code that is laid ends by a return, and control leads only to places in it, and back only to a turn.
pub fn codes_law()
    ensures { (b : Block) (params : ℕ) → IsSound (lay_body b params) }
{}

//! How many classes may ever have numbers: declared ones, metaclasses and classes of proxies.

ghost use Rattle.som_class_count_laws.specs.Counting.{AreMadeOnce};
ghost use Rattle.som_model.specs.Class.{Class};
ghost use Rattle.som_model.specs.Kernel.{kernel};
ghost use Rattle.som_model.specs.Loads.{Loads};
ghost use Rattle.som_model.specs.declared.key.ClassKey.{ClassKey};
ghost use Rattle.som_model.specs.declared.syntax.Block.{Block};
ghost use Rattle.std.specs.Prelude.{◌≤◌, ◌<◌, ◌+◌, ◌*◌, ◌^◌, ◌++◌, List as Seq, length};

/// Of n classes that can be loaded, the kernel's among them, no run makes more than n · n + n: each other one is
/// the class of the proxies of one of these, or stands in the chain of metaclasses of one, which has fewer
/// than n members. So a number of 32 bits is enough for each.
pub fn class_count_law()
    ensures count { (cs : Seq Class) (main : Block) → Loads cs main → (ks : Seq ClassKey) → AreMadeOnce (kernel ++ cs) main ks →
        length ks ≤ length (kernel ++ cs) * length (kernel ++ cs) + length (kernel ++ cs) }
    ensures fits { (cs : Seq Class) (main : Block) → Loads cs main → (ks : Seq ClassKey) → AreMadeOnce (kernel ++ cs) main ks →
        length ks < 2 ^ 27 }
{}

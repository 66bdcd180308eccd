//! The law that each class of which a proxy is named is declared, where classes can be loaded.

ghost use Rattle.som_model.specs.Class.{Class};
ghost use Rattle.som_model.specs.Kernel.{kernel};
ghost use Rattle.som_model.specs.Lists.{Mem};
ghost use Rattle.som_model.specs.Loads.{Loads, keys_of};
ghost use Rattle.som_model.specs.Made.{blocks_of, proxies_in};
ghost use Rattle.som_model.specs.declared.key.ClassKey.TheVariants as keys;
ghost use Rattle.som_model.specs.declared.key.ClassKey.{ClassKey};
ghost use Rattle.som_model.specs.declared.syntax.Block.{Block};
ghost use Rattle.som_proxy_uses.specs.Proxied.{decl_proxies, declarations, proxies_of};
ghost use Rattle.std.specs.Prelude.{◌≡◌, ◌++◌, List as Seq, flat_map};

/// Where classes and a main can be loaded, each class of which a block of theirs names a proxy is one of them or one of the
/// kernel's, so that it has a number; and so is each class of a list whose proxies are those that all blocks name. The
/// blocks of the kernel's classes and these are those of these alone. All blocks name what the classes and then main name.
pub fn proxied_law()
    ensures block { (cs : Seq Class) (main : Block) → Loads cs main → (b : Block) → Mem b (blocks_of (kernel ++ cs) main) →
        (k : ClassKey) → Mem (keys.Proxy k) (proxies_in b) → Mem k (keys_of (kernel ++ cs)) }
    ensures declared { (cs : Seq Class) (main : Block) → Loads cs main → (ks : Seq ClassKey) →
        proxies_of ks ≡ flat_map proxies_in (blocks_of (kernel ++ cs) main) → (k : ClassKey) → Mem k ks → Mem k (keys_of (kernel ++ cs)) }
    ensures kernel { (cs : Seq Class) (main : Block) → blocks_of (kernel ++ cs) main ≡ blocks_of cs main }
    ensures parts { (cs : Seq Class) (main : Block) →
        flat_map proxies_in (blocks_of cs main) ≡ flat_map decl_proxies (declarations cs) ++ proxies_in main }
{}

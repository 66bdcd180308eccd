//! Laws of the client that shows a breach, by what the compiler and linking say of it.

ghost use Rattle.som_model.specs.Class.{interface_of};
ghost use Rattle.som_model.specs.Compatible.{CompatBreach, first_break};
ghost use Rattle.som_model.specs.Conforming.{ReleaseOk};
ghost use Rattle.som_model.specs.Counts.{FaceCounted};
ghost use Rattle.som_model.specs.Lists.{Mem};
ghost use Rattle.som_model.specs.declared.class.ClassFace.{ClassFace};
ghost use Rattle.som_model.specs.declared.key.MethodRef.{MethodRef};
ghost use Rattle.som_model.specs.declared.program.Interface.{Interface};
ghost use Rattle.som_model.specs.declared.program.Release.{Release};
ghost use Rattle.som_libimage.specs.Limits.{IsWithinLimits};
ghost use Rattle.som_witness.specs.Program.{witness_program};
ghost use Rattle.som_witness.specs.Wording.{witness_texts};
ghost use Rattle.som_witness.specs.declared.verdict.Texts.{Texts};
ghost use Rattle.som_witness_texts.specs.Files.{FewParameters, files_of};
ghost use Rattle.som_witness_laws.specs.Clients.{AreCompiledTo, IsRefused};
ghost use Rattle.std.specs.Prelude.{◌≡◌, ◌≢◌, Some};

/// Where a release isn't compatible with an older one and that shows in texts, these are compiled against the older one to the
/// image of the client that shows it.
pub fn recompiled_law()
    ensures { (o n : Release) (b : CompatBreach) (t : Texts) → ReleaseOk o → IsWithinLimits o → ReleaseOk n → IsWithinLimits n →
        first_break (interface_of o) (interface_of n) ≡ Some b → b.rule ≢ 2 → witness_texts (interface_of o) (interface_of n) b ≡ Some t →
        AreCompiledTo (interface_of o) (files_of t) (witness_program (interface_of o) (interface_of n) b) }
{}

/// With texts and without, linking that client with any release that has the newer interface is refused for this very breach.
pub fn refused_run_law()
    ensures { (o n r : Release) (b : CompatBreach) → ReleaseOk o → IsWithinLimits o → ReleaseOk r → IsWithinLimits r → interface_of r ≡ interface_of n →
        first_break (interface_of o) (interface_of n) ≡ Some b → b.rule ≢ 2 → IsRefused (witness_program (interface_of o) (interface_of n) b) r b }
{}

/// In an interface that is within the counts of an image no method has more parameters than a list of the code may have values.
pub fn few_law()
    ensures { (i : Interface) (m : MethodRef) → ((f : ClassFace) → Mem f i.classes → FaceCounted f) → FewParameters i m }
{}

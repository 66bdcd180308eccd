//! The law of the texts of a client that shows a breach.

ghost use Rattle.som_model.specs.Classes.{interface_classes};
ghost use Rattle.som_model.specs.Compatible.{CompatBreach};
ghost use Rattle.som_model.specs.Conforming.{faces_breach};
ghost use Rattle.som_model.specs.declared.key.MethodRef.{MethodRef};
ghost use Rattle.som_model.specs.declared.program.Interface.{Interface};
ghost use Rattle.som_sources.specs.Reading.{ReadsAll};
ghost use Rattle.som_witness.specs.Program.{w_name};
ghost use Rattle.som_witness.specs.Showings.{showing_of, told_method};
ghost use Rattle.som_witness.specs.Wording.{witness_texts};
ghost use Rattle.som_witness.specs.declared.verdict.Texts.{Texts};
ghost use Rattle.som_witness_texts.specs.Files.{FewParameters, IntroducesFew, files_of, trees_of};
ghost use Rattle.std.specs.Prelude.{◌≡◌, ◌<◌, ◌^◌, length, None, Ok, Some};

/// Where the client that shows a breach has texts, they are read, each as what the name of its file says, and these are their
/// trees.
pub fn texts_read_law()
    ensures { (old new : Interface) (b : CompatBreach) (t : Texts) → length old.classes < 2 ^ 64 → faces_breach (interface_classes old) ≡ None → FewParameters old (told_method b) →
        witness_texts old new b ≡ Some t → ReadsAll (files_of t) (Ok (trees_of (w_name old) (told_method b) (showing_of old new b))) }
{}

/// A method has few parameters where those that the old interface introduces have, since those of the kernel have.
pub fn few_parameters_law()
    ensures { (old : Interface) (m : MethodRef) → faces_breach (interface_classes old) ≡ None → IntroducesFew old → FewParameters old m }
{}

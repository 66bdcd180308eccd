//! Laws of the trees of the client that shows a breach.

ghost use Rattle.som_model.specs.Classes.{interface_classes};
ghost use Rattle.som_model.specs.Compatible.{CompatBreach, first_break};
ghost use Rattle.som_model.specs.Conforming.{faces_breach};
ghost use Rattle.som_model.specs.declared.program.Interface.{Interface};
ghost use Rattle.som_witness.specs.Showings.{told_method};
ghost use Rattle.som_witness.specs.Wording.{witness_texts};
ghost use Rattle.som_witness.specs.declared.verdict.Texts.{Texts};
ghost use Rattle.som_witness_texts.specs.Files.{FewParameters};
ghost use Rattle.som_witness_elab.specs.Standing.{StandForWitness, WitnessConforms};
ghost use Rattle.std.specs.Prelude.{◌≡◌, ◌≢◌, ◌<◌, ◌^◌, length, None, Some};

/// Where the client that shows a breach has texts, what these are the trees of stands for that very client, compiled against
/// the old interface.
pub fn texts_program_law()
    ensures { (old new : Interface) (b : CompatBreach) (t : Texts) → length old.classes < 2 ^ 64 → FewParameters old (told_method b) →
        faces_breach (interface_classes old) ≡ None → faces_breach (interface_classes new) ≡ None → first_break old new ≡ Some b → b.rule ≢ 2 →
        witness_texts old new b ≡ Some t → StandForWitness old new b }
{}

/// And it conforms: it breaks no rule of texts and passes no limit.
pub fn texts_conform_law()
    ensures { (old new : Interface) (b : CompatBreach) (t : Texts) → length old.classes < 2 ^ 64 → FewParameters old (told_method b) →
        faces_breach (interface_classes old) ≡ None → faces_breach (interface_classes new) ≡ None → first_break old new ≡ Some b → b.rule ≢ 2 →
        witness_texts old new b ≡ Some t → WitnessConforms old new b }
{}

//! States that a release or client program conforms exactly where each rule holds of every class and member.

ghost use Rattle.som_model.specs.Classes.{interface_classes};
ghost use Rattle.som_model.specs.Conforming.{ProgramOk, ReleaseOk, declared_breach, declared_program_breach, faces_breach, program_breach, release_breach};
ghost use Rattle.som_model.specs.declared.program.ClientProgram.{ClientProgram};
ghost use Rattle.som_model.specs.declared.program.Release.{Release};
ghost use Rattle.som_verify_classes.specs.Plainly.{ProgramHolds, RulesHold};
ghost use Rattle.std.specs.Prelude.{◌≡◌, ◌↔◌, None};

/// A release breaks no rule exactly where each rule holds of every class and all of its members.
pub fn rules_law()
    ensures { (r : Release) → (declared_breach r ≡ None) ↔ RulesHold r }
{}

/// A client program breaks no rule that looks at no block exactly where each such rule holds of every class and
/// all of its members.
pub fn program_law()
    ensures { (p : ClientProgram) → (declared_program_breach p ≡ None) ↔ ProgramHolds p }
{}

/// Where a client program breaks no rule that looks at no block, the faces that it was compiled against break none
/// by themselves, so that they may be compared with others.
pub fn base_law()
    ensures { (p : ClientProgram) → declared_program_breach p ≡ None → faces_breach (interface_classes p.base) ≡ None }
{}

/// A release conforms exactly where it has no breach.
pub fn release_law()
    ensures { (r : Release) → ReleaseOk r ↔ (release_breach r ≡ None) }
{}

/// A client program conforms exactly where it has no breach.
pub fn client_law()
    ensures { (p : ClientProgram) → ProgramOk p ↔ (program_breach p ≡ None) }
{}

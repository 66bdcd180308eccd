//! States what the absence of a breach says of each class and member, and that parents are lower.

ghost use Rattle.som_model.specs.Class.{Class};
ghost use Rattle.som_model.specs.Classes.{hierarchy};
ghost use Rattle.som_model.specs.Hierarchy.{Falls};
ghost use Rattle.som_model.specs.declared.class.ClassDecl.{ClassDecl as Decl};
ghost use Rattle.som_verify_classes.specs.Faces.{faces_breach};
ghost use Rattle.som_verify_classes.specs.Modules.{AreDeclared};
ghost use Rattle.som_verify_classes.specs.Places.{all_classes, with_kernel};
ghost use Rattle.som_verify_classes.specs.Plainly.{FacesHold, NamesApart, NamesDiffer, ParentsBefore, ParentsStand};
ghost use Rattle.som_verify_classes.specs.Told.{of_release};
ghost use Rattle.std.specs.Prelude.{◌≡◌, ◌↔◌, List as Seq, None};

/// The rules S1 to S10 have no breach exactly where each holds of every class and all of its members.
pub fn faces_law()
    ensures { (ds : Seq Decl) → (faces_breach (of_release ds) ≡ None) ↔ FacesHold ds }
{}

/// Where parents stand before their classes, each parent is lower than its class, also of the classes that
/// are made of others.
pub fn parents_lower_law()
    ensures { (ds : Seq Decl) → NamesDiffer ds → ParentsStand ds → Falls (hierarchy (all_classes ds)) }
{}

/// Where the parents of classes in any modules stand before these, each parent is lower than its class.
pub fn declared_lower_law()
    ensures { (cs : Seq Class) → AreDeclared cs → NamesApart cs → ParentsBefore cs → Falls (hierarchy (with_kernel cs)) }
{}

//! The law by which loaded classes are declared, named, and can be laid.

ghost use Rattle.som_class_table.specs.Loaded.{AreLoaded};
ghost use Rattle.som_class_methods.specs.Members.{AreNamed, CanLay};
ghost use Rattle.som_meta.specs.Numbering.{Numbering};
ghost use Rattle.som_model.specs.declared.key.ClassKey.TheVariants as keys;
ghost use Rattle.som_model.specs.declared.key.ClassKey.{ClassKey};
ghost use Rattle.som_class_ids.specs.Classes.{AreDeclared};
ghost use Rattle.som_class_ids.specs.Numbers.{with_key};
ghost use Rattle.som_class_methods.specs.Owners.{AreFaces};
ghost use Rattle.std.specs.Prelude.{List as Seq};

/// Classes that are loaded are declared, their faces stand together, all that they override and select has an entry, and with what their numbers stand
/// for they can be laid.
pub fn loaded_law()
    ensures declared { (k : Numbering) → AreLoaded k → AreDeclared k.classes }
    ensures faces { (k : Numbering) → AreLoaded k → AreFaces k.classes }
    ensures named { (k : Numbering) → AreLoaded k → AreNamed k.classes }
    ensures laid { (k : Numbering) → AreLoaded k → CanLay k }
{}

//! The law by which tokens of members stay, as one class more gets a number.

ghost use Rattle.som_class_methods.specs.Own.{IsMembers};
ghost use Rattle.som_class_methods.specs.declared.members.Members.{Members as Kept};
ghost use Rattle.som_meta.specs.Numbering.{Numbering};
ghost use Rattle.som_model.specs.declared.key.ClassKey.{ClassKey};
ghost use Rattle.som_class_ids.specs.Numbers.{with_key};
ghost use Rattle.som_class_methods.specs.Tokens.{IsOwners};
ghost use Rattle.som_class_methods.specs.declared.owners.Owners.{Owners as Owning};

/// Tokens stay those of the owners, where one class more has a number.
pub fn growing_law()
    ensures owners { (k : Numbering) (key : ClassKey) (o : Owning) → IsOwners k o → IsOwners (with_key k key) o }
    ensures members { (k : Numbering) (key : ClassKey) (m : Kept) → IsMembers k m → IsMembers (with_key k key) m }
{}

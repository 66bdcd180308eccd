//! Laws of the rules on texts: what each says, and what declarations of such texts keep.

ghost use Rattle.som_ast.specs.declared.interface.IdlInterface.{IdlInterface};
ghost use Rattle.som_model.specs.Class.{Class};
ghost use Rattle.som_model.specs.Classes.{hierarchy, interface_classes};
ghost use Rattle.som_model.specs.Hierarchy.{Falls};
ghost use Rattle.som_model.specs.Lists.{first};
ghost use Rattle.som_model.specs.declared.key.Module.TheVariants as modules;
ghost use Rattle.som_model.specs.declared.key.Module.{Module};
ghost use Rattle.som_model.specs.declared.program.Interface.{Interface};
ghost use Rattle.som_verify_classes.specs.Faces.{classes_breach, faces_breach};
ghost use Rattle.som_verify_classes.specs.Told.{of_release};
ghost use Rattle.som_verify_classes.specs.Plainly.{SelectsInherited};
ghost use Rattle.som_sema_decls.specs.Known.{after_base};
ghost use Rattle.som_sema.specs.Building.{declarations, selecting_declarations, texts_breach};
ghost use Rattle.som_sema_drafts.specs.Drafts.{InterfaceDraft};
ghost use Rattle.som_sema.specs.PlainTexts.{BasesStand, ItemsDiffer, MetaclassesDescend, ModifiersStand, NamesDiffer, ReplacedInherited};
ghost use Rattle.som_sema_local.specs.OwnRules.{text_s11, text_s12, text_s6};
ghost use Rattle.som_sema.specs.TextRules.{text_s10_from, text_s2_from, text_s4};
ghost use Rattle.std.specs.Prelude.{◌≡◌, ◌↔◌, ℕ, List as Seq, [], flat_map, length, None};

/// The rules that texts have in a form of their own have no breach exactly where each holds of every interface and of
/// all that it says. Each parent is lower than its class where parents stand before their classes.
pub fn text_rules_law()
    ensures bases { (module_of : Seq ℕ → Module) (cs : Seq Class) (n : ℕ) (ds : Seq InterfaceDraft) →
        (first (text_s2_from module_of cs n ds) ≡ None) ↔ BasesStand module_of cs n ds }
    ensures metaclasses { (module_of : Seq ℕ → Module) (cs : Seq Class) → Falls (hierarchy cs) → (ds : Seq InterfaceDraft) →
        (first (flat_map (text_s4 module_of cs) ds) ≡ None) ↔ MetaclassesDescend module_of cs ds }
    ensures names { (ds : Seq InterfaceDraft) → (first (flat_map text_s6 ds) ≡ None) ↔ NamesDiffer ds }
    ensures inherited { (module_of : Seq ℕ → Module) (cs : Seq Class) → Falls (hierarchy cs) → (n : ℕ) (ds : Seq InterfaceDraft) →
        (first (text_s10_from module_of cs n ds) ≡ None) ↔ ReplacedInherited module_of cs n ds }
    ensures modifiers { (ds : Seq InterfaceDraft) → (first (flat_map text_s11 ds) ≡ None) ↔ ModifiersStand ds }
    ensures items { (ds : Seq InterfaceDraft) → (first (flat_map text_s12 ds) ≡ None) ↔ ItemsDiffer ds }
{}

/// Texts that break none of the rules S1 to S12 declare classes that break none of the rules S1 to S10 as images have them: over
/// a base whose faces break none, where the types of the base name no class that the texts declare, and over none at all. And
/// with what the texts select, each select is of a method that a proper ancestor introduces, and of a parent that has it.
pub fn declarations_law()
    ensures over_base { (m : Module) (base : Interface) (texts : Seq IdlInterface) →
        faces_breach (interface_classes base) ≡ None → texts_breach m base texts ≡ None →
        classes_breach (length base.classes) (after_base m (interface_classes base) (declarations m base texts)) ≡ None }
    ensures selects { (m : Module) (base : Interface) (texts : Seq IdlInterface) →
        faces_breach (interface_classes base) ≡ None → texts_breach m base texts ≡ None →
        SelectsInherited (after_base m (interface_classes base) (selecting_declarations m base texts)) }
    ensures alone { (texts : Seq IdlInterface) → texts_breach modules.Library (record { classes = [] }) texts ≡ None →
        faces_breach (of_release (declarations modules.Library (record { classes = [] }) texts)) ≡ None }
{}

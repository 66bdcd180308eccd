//! What is answered of an older and a newer interface.

ghost use Rattle.som_compat.specs.Told.{told};
ghost use Rattle.som_model.specs.Classes.{ancestors, class_at, interface_classes};
ghost use Rattle.som_model.specs.Conforming.{faces_breach};
ghost use Rattle.som_model.specs.Class.{bare};
ghost use Rattle.som_model.specs.declared.program.Interface.{Interface as Faces};
ghost use Rattle.som_model.specs.Compatible.{signature};
ghost use Rattle.som_model.specs.Owner.{introduces};
ghost use Rattle.som_model.specs.declared.class.Sig.{Sig as Signature};
ghost use Rattle.som_model.specs.declared.limits.TheConstants.{MAX_PARAMETERS};
ghost use Rattle.som_verify_classes.specs.Modules.{classes_of};
ghost use Rattle.som_verify_classes.specs.Places.{with_kernel};
ghost use Rattle.som_witness.specs.Showings as ways;
ghost use Rattle.som_witness.specs.Showings.{changed_showing, metaclass_in, showing_of, told_method};
ghost use Rattle.som_model.specs.declared.key.ClassKey.TheVariants as keys;
ghost use Rattle.som_model.specs.declared.key.Module.TheVariants as modules;
ghost use Rattle.som_verify_types.specs.Bodies.{AreParts};
ghost use Rattle.som_witness.specs.Verdicts.{verdict_of, verdict_on};
ghost use Rattle.som_witness_programs.specs.Conditions.{AreFew, MayBeCompared};
ghost use Rattle.som_witness_programs.specs.Made.{IsClient, IsMade};
ghost use Rattle.som_witness_programs.specs.Lent.{IsOf, shown};
ghost use Rattle.som_verify_forms.specs.Knowing.{IsKnowledge, all_of};
ghost use Rattle.std.specs.Prelude.{◌≡◌, ◌≢◌, ◌≤◌, ◌==◌, List as Seq, ℕ, IfOk, None, Some, length, map, option_copied, slice_get, unwrap_or};

use crate::choosing::{changed_showing, signature_in, slot_showing};
use crate::class::w_class;
use crate::keys::{ancestor_at, metaclass_of, told_method};
use crate::naming::w_name;
use crate::saying::texts;
use crate::showing::Showing;
use som_compat::{Breach, compatible};
use som_model::{
    Block, ClassDecl, ClientProgram, Interface, List, MethodRef, Module, NoMemory, Sig, Text,
};
use som_verify_classes::Declared;
use som_verify_forms::{Knowledge, know};
use som_verify_parents::{bare_classes, declare};
use som_verify_types::{Parts, parts_of};
use som_witness::{Texts, Verdict};
use std::alloc::Global;

/// The client's one class, and the texts, if there are some.
#[derive(Drop)]
struct Client {
    texts: Option<Texts>,
    classes: List<ClassDecl>,
}

/// What is answered of an older and a newer interface: whether the newer one keeps all, and if not, a client
/// that shows it, with the texts that say the client. Want of memory says nothing.
pub fn witness(alloc: Global, old: &Interface, new: &Interface) -> Result<Verdict, NoMemory>
    requires old { MayBeCompared old.now }
    requires new { MayBeCompared new.now }
    ensures { IfOk result (λ verdict. verdict ≡ verdict_of old.now new.now) }
{
    match compatible(old, new) {
        Ok(_) => Ok(Verdict::Accepted),
        Err(breach) => verdict_on(alloc, old, new, &breach),
    }
}

fn verdict_on(
    alloc: Global,
    old: &Interface,
    new: &Interface,
    breach: &Breach,
) -> Result<Verdict, NoMemory>
    requires old { MayBeCompared old.now }
    requires new { MayBeCompared new.now }
    ensures { IfOk result (λ verdict. verdict ≡ verdict_on old.now new.now (told breach.now)) }
{
    if breach.rule == 2 {
        Ok(Verdict::VersionOnly {
            class: breach.class.copy(alloc)?,
        })
    } else {
        shown(alloc, old, new, breach)
    }
}

// The client that shows the breach.
fn shown(
    alloc: Global,
    old: &Interface,
    new: &Interface,
    breach: &Breach,
) -> Result<Verdict, NoMemory>
    requires old { MayBeCompared old.now }
    requires new { MayBeCompared new.now }
    requires rule { breach.now.rule ≢ 2 }
    ensures { IfOk result (λ verdict. verdict ≡ verdict_on old.now new.now (told breach.now)) }
{
    let class = breach.class.copy(alloc)?;
    let name = name_of(alloc, breach)?;
    let base = old.copy(alloc)?;
    let client = client_of(alloc, old, new, breach)?;
    Ok(Verdict::Shown {
        rule: breach.rule,
        class,
        name,
        place: breach.place,
        program: ClientProgram {
            base,
            classes: client.classes,
            main: Block {
                statements: List::new(alloc),
            },
        },
        texts: client.texts,
    })
}

fn name_of(alloc: Global, breach: &Breach) -> Result<Option<Text>, NoMemory>
    ensures { IfOk result (λ name. name ≡ (told breach.now).name) }
{
    match breach.name {
        Some(name) => Ok(Some(name.copy(alloc)?)),
        None => Ok(None),
    }
}

// The class and the texts, by the classes of both interfaces, of which the faces alone are known.
fn client_of(
    alloc: Global,
    old: &Interface,
    new: &Interface,
    breach: &Breach,
) -> Result<Client, NoMemory>
    requires old { MayBeCompared old.now }
    requires new { MayBeCompared new.now }
    ensures { IfOk result (IsClient old.now new.now (told breach.now)) }
{
    let olds = bare_classes(alloc, old.classes.as_slice())?;
    let news = bare_classes(alloc, new.classes.as_slice())?;
    client_among(alloc, olds.as_slice(), news.as_slice(), breach)
}

fn client_among(
    alloc: Global,
    olds: &[ClassDecl],
    news: &[ClassDecl],
    breach: &Breach,
) -> Result<Client, NoMemory>
    requires old { (i : Faces) × MayBeCompared i × (olds.now ≡ map bare i.classes) }
    requires new { (i : Faces) × MayBeCompared i × (news.now ≡ map bare i.classes) }
    ensures { (old new : Faces) → MayBeCompared old → olds.now ≡ map bare old.classes → news.now ≡ map bare new.classes →
        IfOk result (IsClient old new (told breach.now)) }
{
    let old_declared = declare(Vec::new(alloc), Module::Library, olds)?;
    let new_declared = declare(Vec::new(alloc), Module::Library, news)?;
    client_declared(
        alloc,
        old_declared.as_slice(),
        new_declared.as_slice(),
        breach,
    )
}

fn client_declared(
    alloc: Global,
    olds: &[Declared],
    news: &[Declared],
    breach: &Breach,
) -> Result<Client, NoMemory>
    requires old { faces_breach (classes_of olds.now) ≡ None }
    requires new { faces_breach (classes_of news.now) ≡ None }
    requires few { AreFew (with_kernel (classes_of olds.now)) }
    ensures { (old new : Faces) → MayBeCompared old → classes_of olds.now ≡ interface_classes old → classes_of news.now ≡ interface_classes new →
        IfOk result (IsClient old new (told breach.now)) }
{
    let old_parts = parts(alloc, olds)?;
    let new_parts = parts(alloc, news)?;
    client_by(alloc, &old_parts, &new_parts, olds, news, breach)
}

fn parts<'a>(alloc: Global, classes: &[Declared<'a>]) -> Result<Parts<'a>, NoMemory>
    requires { faces_breach (classes_of classes.now) ≡ None }
    ensures { IfOk result (AreParts (classes_of classes.now)) }
{
    match parts_of(alloc, classes) {
        Ok(parts) => Ok(parts),
        Err(_) => Err(NoMemory),
    }
}

fn client_by(
    alloc: Global,
    old_parts: &Parts,
    new_parts: &Parts,
    olds: &[Declared],
    news: &[Declared],
    breach: &Breach,
) -> Result<Client, NoMemory>
    requires old { faces_breach (classes_of olds.now) ≡ None }
    requires new { faces_breach (classes_of news.now) ≡ None }
    requires few { AreFew (with_kernel (classes_of olds.now)) }
    requires old_parts { AreParts (classes_of olds.now) old_parts.now }
    requires new_parts { AreParts (classes_of news.now) new_parts.now }
    ensures { (old new : Faces) → MayBeCompared old → classes_of olds.now ≡ interface_classes old → classes_of news.now ≡ interface_classes new →
        IfOk result (IsClient old new (told breach.now)) }
{
    let old_known = know(
        &old_parts.table,
        old_parts.kernel.classes.as_slice(),
        olds,
        old_parts.lists.as_slice(),
    );
    let new_known = know(
        &new_parts.table,
        new_parts.kernel.classes.as_slice(),
        news,
        new_parts.lists.as_slice(),
    );
    client_known(alloc, &old_known, &new_known, breach)
}

fn client_known(
    alloc: Global,
    olds: &Knowledge,
    news: &Knowledge,
    breach: &Breach,
) -> Result<Client, NoMemory>
    requires old { IsKnowledge olds.now }
    requires new { IsKnowledge news.now }
    requires few { AreFew (all_of olds.now) }
    ensures { (old new : Faces) → IsOf old olds.now → IsOf new news.now → IfOk result (IsClient old new (told breach.now)) }
{
    let w = w_name(alloc, olds)?;
    let method = told_method(alloc, breach)?;
    client_named(alloc, olds, news, &w, &method, breach)
}

// The class of this name and the texts, for the told method, by the rule that is broken.
fn client_named(
    alloc: Global,
    olds: &Knowledge,
    news: &Knowledge,
    w: &Text,
    method: &MethodRef,
    breach: &Breach,
) -> Result<Client, NoMemory>
    requires old { IsKnowledge olds.now }
    requires new { IsKnowledge news.now }
    requires few { AreFew (all_of olds.now) }
    requires method { method.now ≡ told_method (told breach.now) }
    ensures { (old new : Faces) → IsOf old olds.now → IsOf new news.now → IfOk result (IsMade old w.now method.now (showing_of old new (told breach.now))) }
{
    if is_of(breach, 1) {
        made(alloc, olds, w, method, &Showing::StandsBelow)
    } else if is_of(breach, 3) {
        made_of_ancestor(alloc, olds, w, method, breach.place)
    } else if is_of(breach, 4) {
        made_of_slot(alloc, olds, w, method)
    } else if is_of(breach, 5) {
        let before = signature_in(olds, method);
        made_of_change(alloc, olds, news, w, method, before)
    } else {
        made_of_metaclass(alloc, olds, w, method)
    }
}

// Whether a breach is of this rule.
fn is_of(breach: &Breach, rule: u8) -> bool
    ensures { result ≡ (breach.now.rule == rule) }
{
    breach.rule == rule
}

// The class and the texts, where the slot of the method is lost.
fn made_of_slot(
    alloc: Global,
    olds: &Knowledge,
    w: &Text,
    method: &MethodRef,
) -> Result<Client, NoMemory>
    requires { IsKnowledge olds.now }
    ensures { (i : Faces) → IsOf i olds.now →
        IfOk result (IsMade i w.now method.now (ways.slot_showing (introduces (all_of olds.now) method.now.name method.now.class)
        (ways.params_of (signature (all_of olds.now) method.now.class method.now.name)))) }
{
    made(alloc, olds, w, method, &slot_showing(olds, method))
}

// The class and the texts, where the ancestor at this place is lost.
fn made_of_ancestor(
    alloc: Global,
    olds: &Knowledge,
    w: &Text,
    method: &MethodRef,
    place: u32,
) -> Result<Client, NoMemory>
    requires known { IsKnowledge olds.now }
    requires library { (name : Seq ℕ) × (method.now.class ≡ keys.Named modules.Library name) }
    ensures { (i : Faces) → IsOf i olds.now →
        IfOk result (IsMade i w.now method.now (ways.KeepsObject (unwrap_or (slice_get (ancestors (all_of olds.now) method.now.class) place) method.now.class))) }
{
    let ancestor = ancestor_at(alloc, olds, &method.class, place as usize)?;
    made(alloc, olds, w, method, &Showing::KeepsObject(&ancestor))
}

// The class and the texts, where the metaclass is lost.
fn made_of_metaclass(
    alloc: Global,
    olds: &Knowledge,
    w: &Text,
    method: &MethodRef,
) -> Result<Client, NoMemory>
    requires { IsKnowledge olds.now }
    ensures { (i : Faces) → IsOf i olds.now →
        IfOk result (IsMade i w.now method.now (ways.ReturnsClass (metaclass_in (class_at (all_of olds.now) method.now.class)))) }
{
    let metaclass = metaclass_of(alloc, olds, &method.class)?;
    made(alloc, olds, w, method, &Showing::ReturnsClass(&metaclass))
}

// The class and the texts, where the method has another signature than this one.
fn made_of_change(
    alloc: Global,
    olds: &Knowledge,
    news: &Knowledge,
    w: &Text,
    method: &MethodRef,
    before: Option<&Sig>,
) -> Result<Client, NoMemory>
    requires old { IsKnowledge olds.now }
    requires new { IsKnowledge news.now }
    requires few { (s : Signature) → option_copied before ≡ Some s → length s.params ≤ MAX_PARAMETERS }
    ensures { (i : Faces) → IsOf i olds.now →
        IfOk result (IsMade i w.now method.now (changed_showing (all_of news.now) (option_copied before.entry) (signature (all_of news.now) method.now.class method.now.name))) }
{
    let after = signature_in(news, method);
    made(
        alloc,
        olds,
        w,
        method,
        &changed_showing(news, before, after),
    )
}

fn made(
    alloc: Global,
    olds: &Knowledge,
    w: &Text,
    method: &MethodRef,
    showing: &Showing,
) -> Result<Client, NoMemory>
    requires { IsKnowledge olds.now }
    ensures { (i : Faces) → IsOf i olds.now → IfOk result (IsMade i w.now method.now (shown showing.now)) }
{
    let texts = texts(alloc, olds, w, method, showing)?;
    let mut classes = List::with_room(alloc, 1)?;
    classes.push(w_class(alloc, w, method, showing)?)?;
    Ok(Client { texts, classes })
}

//! Checks that a class of a newer interface keeps the ancestors of the older one (K3).

ghost use Rattle.som_compat.specs.Conditions.{Conforms};
ghost use Rattle.som_compat.specs.Marks.{AreAbove, IsFront, Marked, lost_from};
ghost use Rattle.som_compat.specs.Told.{told_by};
ghost use Rattle.som_compat.specs.Views.{IsShown, IsView, classes_of, interface, shown};
ghost use Rattle.som_model.specs.Classes.{ancestors, is_a};
ghost use Rattle.som_model.specs.Compatible.{k3};
ghost use Rattle.som_model.specs.Keys.{same_key};
ghost use Rattle.som_model.specs.Lists.{Mem, first, joined};
ghost use Rattle.som_model.specs.declared.key.ClassKey.{ClassKey as Key};
ghost use Rattle.som_model.specs.declared.limits.TheConstants.{MAX_PARENTS};
ghost use Rattle.som_verify_classes.specs.Places.{class_of_place, face_at, key_at};
ghost use Rattle.som_verify_classes.specs.Plainly.{IsAmong};
ghost use Rattle.som_model_laws.specs.Once.{adds};
ghost use Rattle.std.specs.Prelude.{◌≡◌, ◌↔◌, ◌+◌, ◌<◌, ◌≤◌, ◌⊎◌, ◌∷◌, [], ℕ, IfSome, length, map};

use crate::breach::{Breach, declared_text};
use crate::lookup::{KERNEL_CLASSES, Lookup};
use crate::marks::{count_marks, is_marked, mark_reached};
use crate::view::{MOST_CLASSES, View};
use som_model::{ClassFace, ClassKey};

// Whether a class descends from the one of a key, by the marks of its ancestors.
fn is_above(lookup: &Lookup, marks: &[bool], key: &ClassKey) -> bool
    requires { Conforms (interface lookup.now.faces.now) }
    ensures { (x : Key) → IsAmong (classes_of lookup.now.faces.now) x → AreAbove (classes_of lookup.now.faces.now) x marks.now →
        result ≡ is_a (classes_of lookup.now.faces.now) x key.now }
{
    match lookup.place(key) {
        Some(place) => is_marked(marks, place),
        None => false,
    }
}

// The number of the first of these from which a class doesn't descend, by the marks of its ancestors.
fn first_lost(lookup: &Lookup, marks: &[bool], parents: &[ClassKey]) -> Option<usize>
    requires conforms { Conforms (interface lookup.now.faces.now) }
    requires few { length parents.now ≤ MAX_PARENTS }
    ensures within { IfSome result (λ number. number < length parents.now) }
    ensures first { (x : Key) → IsAmong (classes_of lookup.now.faces.now) x → AreAbove (classes_of lookup.now.faces.now) x marks.now →
        result ≡ lost_from (classes_of lookup.now.faces.now) x 0 parents.now }
{
    let mut rest = parents;
    let mut number = 0usize;
    while let [parent, later @ ..] = rest {
        if !is_above(lookup, marks, parent) {
            return Some(number);
        }
        number += 1;
        rest = later;
    }
    None
}

/// K3: each old ancestor of a class is one in the new, where this holds for the class's parents. The marks
/// are those of the class's ancestors in the new.
pub fn keeps_ancestors<'a>(
    old: &View,
    new: &Lookup,
    marks: &[bool],
    place: usize,
    class: &'a ClassFace,
) -> Result<(), Breach<'a>>
    requires old { IsView old.now }
    requires new { Conforms (interface new.now.faces.now) }
    requires place { place + 4 < length (classes_of old.now.lookup.faces.now) }
    requires class { class_of_place (classes_of old.now.lookup.faces.now) (place + 4) ≡ shown class.now }
    requires few { length class.now.parents ≤ MAX_PARENTS }
    requires known { IsAmong (classes_of new.now.faces.now) (shown class.now).key }
    requires marks { AreAbove (classes_of new.now.faces.now) (shown class.now).key marks.now }
    requires earlier { (p a : Key) → Mem p class.now.parents → Mem a (ancestors (classes_of old.now.lookup.faces.now) p) →
        Mem a (ancestors (classes_of new.now.faces.now) p) }
    ensures { told_by result ≡ first (k3 (classes_of old.now.lookup.faces.now) (classes_of new.now.faces.now) (shown class.now)) }
{
    let parents = class.parents.as_slice();
    match first_lost(new, marks, parents) {
        None => Ok(()),
        Some(number) => Err(Breach {
            rule: 3,
            class: &class.name,
            name: declared_text(&parents[number]),
            place: count_before(old, &parents[..number], place + KERNEL_CLASSES) as u32,
        }),
    }
}

// How many ancestors stand before those of the parents that follow these: the class itself, and the
// ancestors of these parents, each once.
fn count_before(view: &View, front: &[ClassKey], own: usize) -> usize
    requires view { IsView view.now }
    requires own { own < length (classes_of view.now.lookup.faces.now) }
    requires front { (k : Key) → Mem k front.now → Mem k (face_at (classes_of view.now.lookup.faces.now) own).parents }
    ensures is { result ≡ length (adds same_key (key_at (classes_of view.now.lookup.faces.now) own ∷ []) (joined (map (ancestors (classes_of view.now.lookup.faces.now)) front.now))) }
    ensures few { result ≤ 4100 }
{
    let mut marks = [false; MOST_CLASSES];
    mark_before(view, front, own, &mut marks);
    count_marks(&marks)
}

fn mark_before(view: &View, front: &[ClassKey], own: usize, marks: &mut [bool])
    requires view { IsView view.now }
    requires own { own < length (classes_of view.now.lookup.faces.now) }
    requires front { (k : Key) → Mem k front.now → Mem k (face_at (classes_of view.now.lookup.faces.now) own).parents }
    requires long { length marks.old ≡ 4100 }
    requires clear { (k : ℕ) → Marked marks.old k → ⊥ }
    ensures { IsFront (classes_of view.now.lookup.faces.now) own front.now marks.new }
{
    mark_keys(&view.lookup, front, marks);
    mark_reached(view.rows, own, marks);
    marks[own] = true;
}

fn mark_keys(lookup: &Lookup, keys: &[ClassKey], marks: &mut [bool])
    requires conforms { Conforms (interface lookup.now.faces.now) }
    requires known { (k : Key) → Mem k keys.now → IsAmong (classes_of lookup.now.faces.now) k }
    requires long { length marks.old ≡ 4100 }
    ensures within { (q : ℕ) → q < length (classes_of lookup.now.faces.now) →
        Marked marks.new q ↔ (Marked marks.old q ⊎ Mem (key_at (classes_of lookup.now.faces.now) q) keys.now) }
    ensures past { (q : ℕ) → length (classes_of lookup.now.faces.now) ≤ q → Marked marks.new q → Marked marks.old q }
{
    for key in keys {
        marks[lookup.known_place(key)] = true;
    }
}

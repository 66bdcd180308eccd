//! The class of a name, sought in the client, then level by level, in the library and in the kernel.

ghost use Rattle.som_model.specs.Lists.{first_some};
ghost use Rattle.som_model.specs.Loads.{keys_of};
ghost use Rattle.som_semantics.specs.World.{named_class};
ghost use Rattle.som_model.specs.declared.key.ClassKey.{out-ClassKey};
ghost use Rattle.som_class_ids.specs.Classes.{AreDeclared, classes_of};
ghost use Rattle.som_class_ids.specs.Levels.{found_in, highest_of, level_in, level_of, levels_down};
ghost use Rattle.som_class_ids.specs.Names.{AreNoted, face_names};
ghost use Rattle.som_class_ids.specs.Numbers.{at};
ghost use Rattle.std.specs.Option.{option_map};
ghost use Rattle.std.specs.Prelude.{◌≡◌, ◌<◌, IfSome, length, max};

use crate::keyed::Keyed;
use crate::names::{Names, find_named};
use som_model::{ClassKey, Module, Text};
use som_tables::ClassNo;

fn level_of_module(home: Module) -> u8
    ensures { result ≡ level_of home }
{
    match home {
        Module::Upper(level) => level,
        Module::Kernel => 0,
        Module::Library => 0,
        Module::Client => 0,
    }
}

fn level_of_class(class: &Keyed) -> u8
    ensures { result ≡ level_in (out-ClassKey class.now.key) }
{
    match &class.key {
        ClassKey::Named { module: home, .. } => level_of_module(*home),
        ClassKey::Derived { .. } => 0,
        ClassKey::Proxy { .. } => 0,
    }
}

fn higher(a: u8, b: u8) -> u8
    ensures { result ≡ max a b }
{
    if a < b { b } else { a }
}

/// The highest level at which one of the classes stands.
pub(crate) fn highest_level(classes: &[Keyed]) -> u8
    ensures { result ≡ highest_of (classes_of classes.now) }
{
    let mut highest = 0;
    for class in classes {
        highest = higher(highest, level_of_class(class));
    }
    highest
}

/// The class of a name in a module.
fn find_in(names: &Names, classes: &[Keyed], home: Module, name: &Text) -> Option<ClassNo>
    requires noted { AreNoted (face_names classes.now) names.now }
    requires declared { AreDeclared (classes_of classes.now) }
    ensures within { IfSome result (λ n. n < length classes.now) }
    ensures key { option_map (at (keys_of (classes_of classes.now))) result ≡ found_in (classes_of classes.now) name.now home }
{
    find_named(names, classes, home, name)
}

/// The class of a name at this level or one below it, the highest first.
fn find_in_levels(names: &Names, classes: &[Keyed], name: &Text, level: u8) -> Option<ClassNo>
    requires noted { AreNoted (face_names classes.now) names.now }
    requires declared { AreDeclared (classes_of classes.now) }
    ensures within { IfSome result (λ n. n < length classes.now) }
    ensures key { option_map (at (keys_of (classes_of classes.now))) result ≡ first_some (found_in (classes_of classes.now) name.now) (levels_down level) }
{
    if level == 0 {
        return None;
    }
    match find_in(names, classes, Module::Upper(level), name) {
        Some(class) => Some(class),
        None => find_in_levels(names, classes, name, level - 1),
    }
}

/// The class of a name: in the client, in the levels from the highest down, in the library, or in the kernel.
pub(crate) fn class_named(
    names: &Names,
    classes: &[Keyed],
    highest: u8,
    name: &Text,
) -> Option<ClassNo>
    requires noted { AreNoted (face_names classes.now) names.now }
    requires declared { AreDeclared (classes_of classes.now) }
    requires highest { highest ≡ highest_of (classes_of classes.now) }
    ensures within { IfSome result (λ n. n < length classes.now) }
    ensures key { option_map (at (keys_of (classes_of classes.now))) result ≡ named_class (classes_of classes.now) name.now }
{
    let client = find_in(names, classes, Module::Client, name);
    if client.is_some() {
        return client;
    }
    let upper = find_in_levels(names, classes, name, highest);
    if upper.is_some() {
        return upper;
    }
    let library = find_in(names, classes, Module::Library, name);
    if library.is_some() {
        return library;
    }
    find_in(names, classes, Module::Kernel, name)
}

//! The faces of SOMObject, SOMClass, SOMClassMgr and SOMMBeforeAfter, method by method.

ghost use Rattle.som_model.specs.Kernel.{
  kernel_key,
  method,
  kernel_face,
  object_face,
  class_face,
  class_mgr_face,
  before_after_face,
  kernel_interface,
  a_class,
  an_object,
};
ghost use Rattle.std.specs.Prelude.{◌≡◌, IfOk, OnOk, OnErr, [], ◌∷◌, ◌++◌, ℕ, codes};

use som_model::{
    ClassFace, ClassKey, Entry, Interface, List, Module, NoMemory, Sig, Text, ValueType, Way,
};
use std::alloc::Global;

// The key of a class of the kernel.
fn key(alloc: Global, name: &[u8]) -> Result<ClassKey, NoMemory>
    ensures { IfOk result (λ k. k ≡ kernel_key name.now) }
{
    Ok(ClassKey::Named {
        module: Module::Kernel,
        name: Text::from_slice(alloc, name)?,
    })
}

fn class_type(alloc: Global) -> Result<ValueType, NoMemory>
    ensures { IfOk result (λ kind. kind ≡ a_class) }
{
    Ok(ValueType::Class(key(alloc, b"SOMClass")?))
}

fn object_type(alloc: Global) -> Result<ValueType, NoMemory>
    ensures { IfOk result (λ kind. kind ≡ an_object) }
{
    Ok(ValueType::Class(key(alloc, b"SOMObject")?))
}

fn one(alloc: Global, kind: ValueType) -> Result<List<ValueType>, NoMemory>
    ensures { IfOk result (λ kinds. kinds ≡ kind ∷ []) }
{
    let mut kinds = List::new(alloc);
    kinds.push(kind)?;
    Ok(kinds)
}

fn two(alloc: Global, first: ValueType, second: ValueType) -> Result<List<ValueType>, NoMemory>
    ensures { IfOk result (λ kinds. kinds ≡ first ∷ second ∷ []) }
{
    let mut kinds = one(alloc, first)?;
    kinds.push(second)?;
    Ok(kinds)
}

// Adds a method that is called by offset.
fn add(
    alloc: Global,
    entries: &mut List<Entry>,
    name: &[u8],
    answer: ValueType,
    params: List<ValueType>,
) -> Result<(), NoMemory>
    ensures { OnOk result (entries.new ≡ entries.old ++ method name.now answer params ∷ []) }
{
    let entry = Entry::Introduced {
        name: Text::from_slice(alloc, name)?,
        sig: Sig {
            result: answer,
            params,
        },
        way: Way::Offset,
    };
    entries.push(entry)
}

// Adds a method without parameters.
fn add_plain(
    alloc: Global,
    entries: &mut List<Entry>,
    name: &[u8],
    answer: ValueType,
) -> Result<(), NoMemory>
    ensures { OnOk result (entries.new ≡ entries.old ++ method name.now answer [] ∷ []) }
{
    add(alloc, entries, name, answer, List::new(alloc))
}

// Adds a method with one parameter.
fn add_with(
    alloc: Global,
    entries: &mut List<Entry>,
    name: &[u8],
    answer: ValueType,
    kind: ValueType,
) -> Result<(), NoMemory>
    ensures { OnOk result (entries.new ≡ entries.old ++ method name.now answer (kind ∷ []) ∷ []) }
{
    let params = one(alloc, kind)?;
    add(alloc, entries, name, answer, params)
}

// Adds a method with two parameters.
fn add_two(
    alloc: Global,
    entries: &mut List<Entry>,
    name: &[u8],
    answer: ValueType,
    first: ValueType,
    second: ValueType,
) -> Result<(), NoMemory>
    ensures { OnOk result (entries.new ≡ entries.old ++ method name.now answer (first ∷ second ∷ []) ∷ []) }
{
    let params = two(alloc, first, second)?;
    add(alloc, entries, name, answer, params)
}

fn face(
    alloc: Global,
    name: &[u8],
    parents: List<ClassKey>,
    entries: List<Entry>,
) -> Result<ClassFace, NoMemory>
    ensures { IfOk result (λ f. f ≡ kernel_face name.now parents entries) }
{
    Ok(ClassFace {
        name: Text::from_slice(alloc, name)?,
        major: 0,
        minor: 0,
        parents,
        metaclass: None,
        entries,
    })
}

fn parent(alloc: Global, name: &[u8]) -> Result<List<ClassKey>, NoMemory>
    ensures { IfOk result (λ keys. keys ≡ kernel_key name.now ∷ []) }
{
    let mut parents = List::new(alloc);
    parents.push(key(alloc, name)?)?;
    Ok(parents)
}

// The methods of an object's life.
fn add_life(alloc: Global, all: &mut List<Entry>) -> Result<(), NoMemory>
    ensures { OnOk result (all.new ≡ all.old
        ++ method (codes "somInit") ValueType.Void [] ∷ []
        ++ method (codes "somUninit") ValueType.Void [] ∷ []
        ++ method (codes "somFree") ValueType.Void [] ∷ []) }
{
    add_plain(alloc, all, b"somInit", ValueType::Void)?;
    add_plain(alloc, all, b"somUninit", ValueType::Void)?;
    add_plain(alloc, all, b"somFree", ValueType::Void)
}

// The methods that tell an object's class.
fn add_class_of(alloc: Global, all: &mut List<Entry>) -> Result<(), NoMemory>
    ensures { OnOk result (all.new ≡ all.old
        ++ method (codes "somGetClass") a_class [] ∷ []
        ++ method (codes "somGetClassName") ValueType.Str [] ∷ []) }
{
    add_plain(alloc, all, b"somGetClass", class_type(alloc)?)?;
    add_plain(alloc, all, b"somGetClassName", ValueType::Str)
}

// The methods that ask what an object is.
fn add_is(alloc: Global, all: &mut List<Entry>) -> Result<(), NoMemory>
    ensures { OnOk result (all.new ≡ all.old
        ++ method (codes "somIsA") ValueType.Boolean (a_class ∷ []) ∷ []
        ++ method (codes "somIsInstanceOf") ValueType.Boolean (a_class ∷ []) ∷ []) }
{
    let class = class_type(alloc)?;
    add_with(alloc, all, b"somIsA", ValueType::Boolean, class)?;
    let class = class_type(alloc)?;
    add_with(alloc, all, b"somIsInstanceOf", ValueType::Boolean, class)
}

// The methods that take the name of a method.
fn add_by_name(alloc: Global, all: &mut List<Entry>) -> Result<(), NoMemory>
    ensures { OnOk result (all.new ≡ all.old
        ++ method (codes "somRespondsTo") ValueType.Boolean (ValueType.Str ∷ []) ∷ []
        ++ method (codes "somDispatchName") ValueType.Str (ValueType.Str ∷ []) ∷ []) }
{
    add_with(
        alloc,
        all,
        b"somRespondsTo",
        ValueType::Boolean,
        ValueType::Str,
    )?;
    add_with(
        alloc,
        all,
        b"somDispatchName",
        ValueType::Str,
        ValueType::Str,
    )
}

fn object(alloc: Global) -> Result<ClassFace, NoMemory>
    ensures { IfOk result (λ f. f ≡ object_face) }
{
    let mut all = List::new(alloc);
    add_life(alloc, &mut all)?;
    add_class_of(alloc, &mut all)?;
    add_is(alloc, &mut all)?;
    add_by_name(alloc, &mut all)?;
    face(alloc, b"SOMObject", List::new(alloc), all)
}

// The methods that make an object.
fn add_makers(alloc: Global, all: &mut List<Entry>) -> Result<(), NoMemory>
    ensures { OnOk result (all.new ≡ all.old
        ++ method (codes "somNew") an_object [] ∷ []
        ++ method (codes "somNewNoInit") an_object [] ∷ []) }
{
    add_plain(alloc, all, b"somNew", object_type(alloc)?)?;
    add_plain(alloc, all, b"somNewNoInit", object_type(alloc)?)
}

// The methods that ask about a class.
fn add_class_tests(alloc: Global, all: &mut List<Entry>) -> Result<(), NoMemory>
    ensures { OnOk result (all.new ≡ all.old
        ++ method (codes "somGetName") ValueType.Str [] ∷ []
        ++ method (codes "somDescendedFrom") ValueType.Boolean (a_class ∷ []) ∷ []
        ++ method (codes "somSupportsMethod") ValueType.Boolean (ValueType.Str ∷ []) ∷ []
        ++ method (codes "somCheckVersion") ValueType.Boolean (ValueType.Long ∷ ValueType.Long ∷ []) ∷ []) }
{
    add_plain(alloc, all, b"somGetName", ValueType::Str)?;
    let class = class_type(alloc)?;
    add_with(alloc, all, b"somDescendedFrom", ValueType::Boolean, class)?;
    let method = ValueType::Str;
    add_with(alloc, all, b"somSupportsMethod", ValueType::Boolean, method)?;
    let (major, minor) = (ValueType::Long, ValueType::Long);
    add_two(
        alloc,
        all,
        b"somCheckVersion",
        ValueType::Boolean,
        major,
        minor,
    )
}

fn class(alloc: Global) -> Result<ClassFace, NoMemory>
    ensures { IfOk result (λ f. f ≡ class_face) }
{
    let mut all = List::new(alloc);
    add_makers(alloc, &mut all)?;
    add_class_tests(alloc, &mut all)?;
    face(alloc, b"SOMClass", parent(alloc, b"SOMObject")?, all)
}

fn class_manager(alloc: Global) -> Result<ClassFace, NoMemory>
    ensures { IfOk result (λ f. f ≡ class_mgr_face) }
{
    let mut all = List::new(alloc);
    let mut name_and_version = two(alloc, ValueType::Str, ValueType::Long)?;
    name_and_version.push(ValueType::Long)?;
    add(
        alloc,
        &mut all,
        b"somFindClass",
        class_type(alloc)?,
        name_and_version,
    )?;
    face(alloc, b"SOMClassMgr", parent(alloc, b"SOMObject")?, all)
}

// Adds a method that a hook calls, on an object and a name.
fn add_hook(alloc: Global, entries: &mut List<Entry>, name: &[u8]) -> Result<(), NoMemory>
    ensures { OnOk result (entries.new ≡ entries.old ++ method name.now ValueType.Void (an_object ∷ ValueType.Str ∷ []) ∷ []) }
{
    let object = object_type(alloc)?;
    add_two(
        alloc,
        entries,
        name,
        ValueType::Void,
        object,
        ValueType::Str,
    )
}

fn before_after(alloc: Global) -> Result<ClassFace, NoMemory>
    ensures { IfOk result (λ f. f ≡ before_after_face) }
{
    let mut all = List::new(alloc);
    add_hook(alloc, &mut all, b"sommBeforeMethod")?;
    add_hook(alloc, &mut all, b"sommAfterMethod")?;
    face(alloc, b"SOMMBeforeAfter", parent(alloc, b"SOMClass")?, all)
}

/// The kernel's classes, in the order of their numbers: SOMObject, SOMClass, SOMClassMgr, SOMMBeforeAfter.
pub fn kernel_faces(alloc: Global) -> Result<Interface, NoMemory>
    ensures { IfOk result (λ kernel. kernel ≡ kernel_interface) }
{
    let mut classes = List::new(alloc);
    classes.push(object(alloc)?)?;
    classes.push(class(alloc)?)?;
    classes.push(class_manager(alloc)?)?;
    classes.push(before_after(alloc)?)?;
    Ok(Interface { classes })
}

//! Writes the interface file of the client for each way in which it shows a breach.

ghost use Rattle.som_witness.specs.Wording.{g_interface, g_text, idl_text, in_c, interface_text, override_interface, override_text, section_text, type_text, variable_text};
ghost use Rattle.som_witness_programs.specs.Lent.{shown};
ghost use Rattle.som_model.specs.declared.key.ValueType.TheVariants as types;
ghost use Rattle.std.specs.Prelude.{◌≡◌, ◌++◌, [], IfOk, codes};

use crate::showing::Showing;
use crate::words::{class_text, type_text};
use som_model::{ClassKey, MethodRef, NoMemory, Text, ValueType};
use std::alloc::Global;

fn interface_text(
    alloc: Global,
    w: &Text,
    parent: &[u8],
    members: &[u8],
) -> Result<Vec<u8>, NoMemory>
    ensures { IfOk result (λ text. text.items ≡ interface_text w.now parent.now members.now) }
{
    let mut text = Vec::new(alloc);
    text.extend_from_slice(b"interface ")?;
    text.extend_from_slice(w.as_slice())?;
    text.extend_from_slice(b" : ")?;
    text.extend_from_slice(parent)?;
    text.extend_from_slice(b" {")?;
    text.extend_from_slice(members)?;
    text.extend_from_slice(b" };")?;
    Ok(text)
}

// The method g, with a result and parameters.
fn g_text(alloc: Global, answer: &[u8], params: &[u8]) -> Result<Vec<u8>, NoMemory>
    ensures { IfOk result (λ text. text.items ≡ g_text answer.now params.now) }
{
    let mut text = Vec::new(alloc);
    text.push(b' ')?;
    text.extend_from_slice(answer)?;
    text.extend_from_slice(b" g(")?;
    text.extend_from_slice(params)?;
    text.extend_from_slice(b");")?;
    Ok(text)
}

fn in_c(alloc: Global, class: &ClassKey) -> Result<Vec<u8>, NoMemory>
    ensures { IfOk result (λ text. text.items ≡ in_c class.now) }
{
    let mut text = Vec::new(alloc);
    text.extend_from_slice(b"in ")?;
    text.extend_from_slice(class_text(class))?;
    text.extend_from_slice(b" c")?;
    Ok(text)
}

// The parameter c, and x of this type.
fn in_c_and_x(alloc: Global, class: &ClassKey, kind: &ValueType) -> Result<Vec<u8>, NoMemory>
    ensures { IfOk result (λ text. text.items ≡ in_c class.now ++ codes ", in " ++ type_text kind.now ++ codes " x") }
{
    let mut text = in_c(alloc, class)?;
    text.extend_from_slice(b", in ")?;
    text.extend_from_slice(type_text(kind))?;
    text.extend_from_slice(b" x")?;
    Ok(text)
}

fn section_text(alloc: Global, items: &[u8]) -> Result<Vec<u8>, NoMemory>
    ensures { IfOk result (λ text. text.items ≡ section_text items.now) }
{
    let mut text = Vec::new(alloc);
    text.extend_from_slice(b" implementation {")?;
    text.extend_from_slice(items)?;
    text.extend_from_slice(b" };")?;
    Ok(text)
}

fn override_text(alloc: Global, method: &Text) -> Result<Vec<u8>, NoMemory>
    ensures { IfOk result (λ text. text.items ≡ override_text method.now) }
{
    let mut text = Vec::new(alloc);
    text.push(b' ')?;
    text.extend_from_slice(method.as_slice())?;
    text.extend_from_slice(b": override;")?;
    Ok(text)
}

// The variable v of a type that is spelled so.
fn variable_text(alloc: Global, kind: &[u8]) -> Result<Vec<u8>, NoMemory>
    ensures { IfOk result (λ text. text.items ≡ codes " " ++ kind.now ++ codes " v;") }
{
    let mut text = Vec::new(alloc);
    text.push(b' ')?;
    text.extend_from_slice(kind)?;
    text.extend_from_slice(b" v;")?;
    Ok(text)
}

// A class below that of the method, which overrides it.
fn override_interface(
    alloc: Global,
    w: &Text,
    method: &MethodRef,
    variables: &[u8],
) -> Result<Vec<u8>, NoMemory>
    ensures { IfOk result (λ text. text.items ≡ override_interface w.now method.now variables.now) }
{
    let mut items = override_text(alloc, &method.name)?;
    items.extend_from_slice(variables)?;
    let section = section_text(alloc, items.as_slice())?;
    interface_text(alloc, w, class_text(&method.class), section.as_slice())
}

// The same with a variable of this type.
fn override_with_variable(
    alloc: Global,
    w: &Text,
    method: &MethodRef,
    kind: &ValueType,
) -> Result<Vec<u8>, NoMemory>
    ensures { IfOk result (λ text. text.items ≡ override_interface w.now method.now (variable_text kind.now)) }
{
    let variables = variable_text(alloc, type_text(kind))?;
    override_interface(alloc, w, method, variables.as_slice())
}

// A class below SOMObject with the method g.
fn g_interface(
    alloc: Global,
    w: &Text,
    answer: &[u8],
    params: &[u8],
    section: &[u8],
) -> Result<Vec<u8>, NoMemory>
    ensures { IfOk result (λ text. text.items ≡ g_interface w.now answer.now params.now section.now) }
{
    let mut members = g_text(alloc, answer, params)?;
    members.extend_from_slice(section)?;
    interface_text(alloc, w, b"SOMObject", members.as_slice())
}

// The method g with the parameter c.
fn g_on_c(alloc: Global, w: &Text, answer: &[u8], class: &ClassKey) -> Result<Vec<u8>, NoMemory>
    ensures { IfOk result (λ text. text.items ≡ g_interface w.now answer.now (in_c class.now) []) }
{
    let params = in_c(alloc, class)?;
    g_interface(alloc, w, answer, params.as_slice(), b"")
}

// The variable v of a class.
fn class_variable(alloc: Global, class: &ClassKey) -> Result<Vec<u8>, NoMemory>
    ensures { IfOk result (λ text. text.items ≡ variable_text (types.Class class.now)) }
{
    variable_text(alloc, class_text(class))
}

// The section with a variable of a class.
fn variable_section(alloc: Global, class: &ClassKey) -> Result<Vec<u8>, NoMemory>
    ensures { IfOk result (λ text. text.items ≡ section_text (variable_text (types.Class class.now))) }
{
    let variables = class_variable(alloc, class)?;
    section_text(alloc, variables.as_slice())
}

// The method g with the parameter c, and a variable of a class.
fn g_with_variable(
    alloc: Global,
    w: &Text,
    class: &ClassKey,
    ancestor: &ClassKey,
) -> Result<Vec<u8>, NoMemory>
    ensures { IfOk result (λ text. text.items ≡ g_interface w.now (codes "void") (in_c class.now) (section_text (variable_text (types.Class ancestor.now)))) }
{
    let params = in_c(alloc, class)?;
    let section = variable_section(alloc, ancestor)?;
    g_interface(alloc, w, b"void", params.as_slice(), section.as_slice())
}

// The method g with the parameters c and x.
fn g_with_x(
    alloc: Global,
    w: &Text,
    class: &ClassKey,
    kind: &ValueType,
) -> Result<Vec<u8>, NoMemory>
    ensures { IfOk result (λ text. text.items ≡ g_interface w.now (codes "void") (in_c class.now ++ codes ", in " ++ type_text kind.now ++ codes " x") []) }
{
    let params = in_c_and_x(alloc, class, kind)?;
    g_interface(alloc, w, b"void", params.as_slice(), b"")
}

/// The interface file of the client.
pub fn idl_text(
    alloc: Global,
    w: &Text,
    method: &MethodRef,
    showing: &Showing,
) -> Result<Vec<u8>, NoMemory>
    ensures { IfOk result (λ text. text.items ≡ idl_text w.now method.now (shown showing.now)) }
{
    let class = &method.class;
    match showing {
        Showing::StandsBelow => interface_text(alloc, w, class_text(class), b""),
        Showing::KeepsObject(ancestor) => g_with_variable(alloc, w, class, ancestor),
        Showing::Overrides(_) => override_interface(alloc, w, method, b""),
        Showing::CallsSlot(_) => g_on_c(alloc, w, b"void", class),
        Showing::Calls(_) => g_on_c(alloc, w, b"void", class),
        Showing::Passes { kind, .. } => g_with_x(alloc, w, class, kind),
        Showing::KeepsParameter { kind, .. } => override_with_variable(alloc, w, method, kind),
        Showing::ReturnsNothing(_) => override_interface(alloc, w, method, b""),
        Showing::ReturnsVariable { kind, .. } => override_with_variable(alloc, w, method, kind),
        Showing::ReturnsAnswer { kind, .. } => g_on_c(alloc, w, type_text(kind), class),
        Showing::ReturnsClass(metaclass) => {
            g_interface(alloc, w, class_text(metaclass), b"", b"")
        }
    }
}

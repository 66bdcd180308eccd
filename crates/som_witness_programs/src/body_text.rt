//! Writes the bodies of the client for each way in which it shows a breach.

ghost use Rattle.som_witness.specs.Wording.{bodies_text, body_text, call_text, class_text, override_body, zero_texts, zero_texts_with};
ghost use Rattle.std.specs.Fmt.{decimal};
ghost use Rattle.som_witness_programs.specs.Lent.{shown};
ghost use Rattle.std.specs.Prelude.{◌≡◌, ◌++◌, [], IfOk, codes};

use crate::lists::{listed, parameters, zero_texts, zero_texts_with};
use crate::showing::Showing;
use crate::words::{add_number, class_text};
use som_model::{ClassKey, MethodRef, NoMemory, Text, ValueType};
use std::alloc::Global;

fn body_text(
    alloc: Global,
    w: &Text,
    method: &[u8],
    params: &[u8],
    statements: &[u8],
) -> Result<Vec<u8>, NoMemory>
    ensures { IfOk result (λ text. text.items ≡ body_text w.now method.now params.now statements.now) }
{
    let mut text = Vec::new(alloc);
    text.extend_from_slice(w.as_slice())?;
    text.extend_from_slice(b"::")?;
    text.extend_from_slice(method)?;
    text.push(b'(')?;
    text.extend_from_slice(params)?;
    text.extend_from_slice(b") {")?;
    text.extend_from_slice(statements)?;
    text.extend_from_slice(b" }")?;
    Ok(text)
}

// The call of the method on c, after these words.
fn call_text(alloc: Global, front: &[u8], method: &Text, args: &[Text]) -> Result<Vec<u8>, NoMemory>
    ensures { IfOk result (λ text. text.items ≡ front.now ++ call_text method.now args.now) }
{
    let list = listed(alloc, args)?;
    let mut text = Vec::from_slice(alloc, front)?;
    text.extend_from_slice(b"c.")?;
    text.extend_from_slice(method.as_slice())?;
    text.push(b'(')?;
    text.extend_from_slice(list.as_slice())?;
    text.extend_from_slice(b");")?;
    Ok(text)
}

// The body of the method, whose parameters have these types.
fn override_body(
    alloc: Global,
    w: &Text,
    method: &MethodRef,
    params: &[ValueType],
    statements: &[u8],
) -> Result<Vec<u8>, NoMemory>
    ensures { IfOk result (λ text. text.items ≡ override_body w.now method.now params.now statements.now) }
{
    let names = parameters(alloc, params)?;
    let list = listed(alloc, names.as_slice())?;
    body_text(
        alloc,
        w,
        method.name.as_slice(),
        list.as_slice(),
        statements,
    )
}

// The body of g that calls the method with zero values, after these words.
fn calling_body(
    alloc: Global,
    w: &Text,
    front: &[u8],
    method: &Text,
    params: &[ValueType],
) -> Result<Vec<u8>, NoMemory>
    ensures { IfOk result (λ text. text.items ≡ body_text w.now (codes "g") (codes "c") (front.now ++ call_text method.now (zero_texts params.now))) }
{
    let args = zero_texts(alloc, params)?;
    let call = call_text(alloc, front, method, args.as_slice())?;
    body_text(alloc, w, b"g", b"c", call.as_slice())
}

// The body of g that calls the method with x at this place.
fn passing_body(
    alloc: Global,
    w: &Text,
    method: &Text,
    params: &[ValueType],
    place: u16,
) -> Result<Vec<u8>, NoMemory>
    ensures { IfOk result (λ text. text.items ≡ body_text w.now (codes "g") (codes "c, x") (codes " " ++ call_text method.now (zero_texts_with place params.now))) }
{
    let args = zero_texts_with(alloc, place, params)?;
    let call = call_text(alloc, b" ", method, args.as_slice())?;
    body_text(alloc, w, b"g", b"c, x", call.as_slice())
}

// The body of the method that keeps the parameter at this place.
fn keeping_body(
    alloc: Global,
    w: &Text,
    method: &MethodRef,
    params: &[ValueType],
    place: u16,
) -> Result<Vec<u8>, NoMemory>
    ensures { IfOk result (λ text. text.items ≡ override_body w.now method.now params.now (codes " somThis.v = p" ++ decimal place ++ codes ";")) }
{
    let mut statement = Vec::from_slice(alloc, b" somThis.v = p")?;
    add_number(&mut statement, place as u64)?;
    statement.push(b';')?;
    override_body(alloc, w, method, params, statement.as_slice())
}

// The statement that returns the class object of a class.
fn class_statement(alloc: Global, class: &ClassKey) -> Result<Vec<u8>, NoMemory>
    ensures { IfOk result (λ text. text.items ≡ codes " return class " ++ class_text class.now ++ codes ";") }
{
    let mut statement = Vec::from_slice(alloc, b" return class ")?;
    statement.extend_from_slice(class_text(class))?;
    statement.push(b';')?;
    Ok(statement)
}

// The body of g that returns the class object of a class.
fn class_body(alloc: Global, w: &Text, class: &ClassKey) -> Result<Vec<u8>, NoMemory>
    ensures { IfOk result (λ text. text.items ≡ body_text w.now (codes "g") [] (codes " return class " ++ class_text class.now ++ codes ";")) }
{
    let statement = class_statement(alloc, class)?;
    body_text(alloc, w, b"g", b"", statement.as_slice())
}

/// The bodies of the client.
pub fn bodies_text(
    alloc: Global,
    w: &Text,
    method: &MethodRef,
    showing: &Showing,
) -> Result<Vec<u8>, NoMemory>
    ensures { IfOk result (λ text. text.items ≡ bodies_text w.now method.now (shown showing.now)) }
{
    let name = &method.name;
    match showing {
        Showing::StandsBelow => Ok(Vec::new(alloc)),
        Showing::KeepsObject(_) => body_text(alloc, w, b"g", b"c", b" somThis.v = c;"),
        Showing::Overrides(params) => override_body(alloc, w, method, params, b""),
        Showing::CallsSlot(_) => Ok(Vec::new(alloc)),
        Showing::Calls(params) => calling_body(alloc, w, b" ", name, params),
        Showing::Passes { params, place, .. } => passing_body(alloc, w, name, params, *place),
        Showing::KeepsParameter { params, place, .. } => {
            keeping_body(alloc, w, method, params, *place)
        }
        Showing::ReturnsNothing(params) => override_body(alloc, w, method, params, b" return;"),
        Showing::ReturnsVariable { params, .. } => {
            override_body(alloc, w, method, params, b" return somThis.v;")
        }
        Showing::ReturnsAnswer { params, .. } => calling_body(alloc, w, b" return ", name, params),
        Showing::ReturnsClass(_) => class_body(alloc, w, &method.class),
    }
}

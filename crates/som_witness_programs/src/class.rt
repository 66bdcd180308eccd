//! Makes the client's class for each way in which it shows a breach.

ghost use Rattle.som_model.specs.declared.class.Body.TheVariants as bodies;
ghost use Rattle.som_model.specs.declared.class.Entry.TheVariants as entries;
ghost use Rattle.som_model.specs.declared.class.Way.TheVariants as calls;
ghost use Rattle.som_model.specs.declared.syntax.Expr.TheVariants as exprs;
ghost use Rattle.som_model.specs.declared.key.ValueType.TheVariants as types;
ghost use Rattle.som_model.specs.declared.syntax.Stmt.TheVariants as stmts;
ghost use Rattle.som_witness.specs.Showings as ways;
ghost use Rattle.som_witness.specs.Program.{sig_g, variable_v, w_class, w_face, with_g, with_override, plain_below};
ghost use Rattle.som_witness_programs.specs.Lent.{shown};
ghost use Rattle.std.specs.Prelude.{◌≡◌, ◌∷◌, [], IfOk, codes};

use crate::expressions::{call_on_c, only, zero_values, zero_values_with};
use crate::keys::kernel_key;
use crate::showing::Showing;
use som_model::{
    Block, Body, Boxed, ClassDecl, ClassFace, ClassKey, Entry, Expr, List, MethodRef, NoMemory,
    Override, Sig, Stmt, Text, ValueType, Variable, Way,
};
use std::alloc::Global;

// A face of version 0.0 with one parent and no metaclass.
fn face(
    alloc: Global,
    name: &Text,
    parent: ClassKey,
    entries: List<Entry>,
) -> Result<ClassFace, NoMemory>
    ensures { IfOk result (λ face. face ≡ w_face name.now parent entries) }
{
    let mut parents = List::new(alloc);
    parents.push(parent)?;
    Ok(ClassFace {
        name: name.copy(alloc)?,
        major: 0,
        minor: 0,
        parents,
        metaclass: None,
        entries,
    })
}

// The variable v.
fn variable(alloc: Global, kind: ValueType) -> Result<List<Variable>, NoMemory>
    ensures { IfOk result (λ variables. variables ≡ variable_v kind) }
{
    let mut variables = List::new(alloc);
    variables.push(Variable {
        name: Text::from_slice(alloc, b"v")?,
        kind,
    })?;
    Ok(variables)
}

// A class below this one, and no more.
fn plain_below(alloc: Global, name: &Text, parent: &ClassKey) -> Result<ClassDecl, NoMemory>
    ensures { IfOk result (λ class. class ≡ plain_below name.now parent.now) }
{
    Ok(ClassDecl {
        face: face(alloc, name, parent.copy(alloc)?, List::new(alloc))?,
        variables: List::new(alloc),
        bodies: List::new(alloc),
        overrides: List::new(alloc),
        selects: List::new(alloc),
    })
}

// The method g as the one entry.
fn entry_g(alloc: Global, sig: Sig) -> Result<List<Entry>, NoMemory>
    ensures { IfOk result (λ es. es ≡ entries.Introduced (codes "g") sig calls.Offset ∷ []) }
{
    let mut entries = List::new(alloc);
    entries.push(Entry::Introduced {
        name: Text::from_slice(alloc, b"g")?,
        sig,
        way: Way::Offset,
    })?;
    Ok(entries)
}

// One body of these statements.
fn user_body(alloc: Global, statements: List<Stmt>) -> Result<List<Body>, NoMemory>
    ensures { IfOk result (λ bs. bs ≡ bodies.User (record { statements = statements }) ∷ []) }
{
    let mut bodies = List::new(alloc);
    bodies.push(Body::User(Block { statements }))?;
    Ok(bodies)
}

// A class below SOMObject that introduces the method g.
fn with_g(
    alloc: Global,
    name: &Text,
    sig: Sig,
    variables: List<Variable>,
    body: List<Stmt>,
) -> Result<ClassDecl, NoMemory>
    ensures { IfOk result (λ class. class ≡ with_g name.now sig variables body) }
{
    let entries = entry_g(alloc, sig)?;
    let bodies = user_body(alloc, body)?;
    let face = face(alloc, name, kernel_key(alloc, b"SOMObject")?, entries)?;
    Ok(ClassDecl {
        face,
        variables,
        bodies,
        overrides: List::new(alloc),
        selects: List::new(alloc),
    })
}

// The body for the method.
fn override_of(
    alloc: Global,
    method: &MethodRef,
    statements: List<Stmt>,
) -> Result<List<Override>, NoMemory>
    ensures { IfOk result (λ os. os ≡ record { method = method.now; block = record { statements = statements } } ∷ []) }
{
    let mut overrides = List::new(alloc);
    overrides.push(Override {
        method: method.copy(alloc)?,
        block: Block { statements },
    })?;
    Ok(overrides)
}

// A class below that of the method, which overrides it.
fn with_override(
    alloc: Global,
    name: &Text,
    method: &MethodRef,
    variables: List<Variable>,
    body: List<Stmt>,
) -> Result<ClassDecl, NoMemory>
    ensures { IfOk result (λ class. class ≡ with_override name.now method.now variables body) }
{
    let overrides = override_of(alloc, method, body)?;
    let face = face(alloc, name, method.class.copy(alloc)?, List::new(alloc))?;
    Ok(ClassDecl {
        face,
        variables,
        bodies: List::new(alloc),
        overrides,
        selects: List::new(alloc),
    })
}

// The parameter c of this class.
fn param_c(alloc: Global, class: &ClassKey) -> Result<List<ValueType>, NoMemory>
    ensures { IfOk result (λ params. params ≡ types.Class class.now ∷ []) }
{
    let mut params = List::new(alloc);
    params.push(ValueType::Class(class.copy(alloc)?))?;
    Ok(params)
}

// A method with this body, which answers nothing.
fn doing(
    alloc: Global,
    name: &Text,
    params: List<ValueType>,
    variables: List<Variable>,
    statement: Stmt,
) -> Result<ClassDecl, NoMemory>
    ensures { IfOk result (λ class. class ≡ with_g name.now (sig_g types.Void params) variables (statement ∷ [])) }
{
    let body = only(alloc, statement)?;
    let sig = Sig {
        result: ValueType::Void,
        params,
    };
    with_g(alloc, name, sig, variables, body)
}

// A method that answers a value.
fn answering(
    alloc: Global,
    name: &Text,
    sig: Sig,
    value: Boxed<Expr>,
) -> Result<ClassDecl, NoMemory>
    ensures { IfOk result (λ class. class ≡ with_g name.now sig [] (stmts.ReturnValue value ∷ [])) }
{
    let body = only(alloc, Stmt::ReturnValue { value })?;
    with_g(alloc, name, sig, List::new(alloc), body)
}

// It keeps an object of the class of the method.
fn keeping_object(
    alloc: Global,
    name: &Text,
    method: &MethodRef,
    ancestor: &ClassKey,
) -> Result<ClassDecl, NoMemory>
    ensures { IfOk result (λ class. class ≡ w_class name.now method.now (ways.KeepsObject ancestor.now)) }
{
    let params = param_c(alloc, &method.class)?;
    let variables = variable(alloc, ValueType::Class(ancestor.copy(alloc)?))?;
    let statement = Stmt::SetVariable {
        variable: 0,
        value: Boxed::new(alloc, Expr::Local(0))?,
    };
    doing(alloc, name, params, variables, statement)
}

// It calls the method with zero values.
fn calling(
    alloc: Global,
    name: &Text,
    method: &MethodRef,
    params: &[ValueType],
) -> Result<ClassDecl, NoMemory>
    ensures { IfOk result (λ class. class ≡ w_class name.now method.now (ways.Calls params.now)) }
{
    let args = zero_values(alloc, params)?;
    let own = param_c(alloc, &method.class)?;
    let call = call_on_c(alloc, method, args)?;
    doing(alloc, name, own, List::new(alloc), Stmt::Call { call })
}

// It calls the method with a value of this type at this place.
fn passing(
    alloc: Global,
    name: &Text,
    method: &MethodRef,
    params: &[ValueType],
    place: u16,
    kind: &ValueType,
) -> Result<ClassDecl, NoMemory>
    ensures { IfOk result (λ class. class ≡ w_class name.now method.now (ways.Passes params.now place kind.now)) }
{
    let args = zero_values_with(alloc, place, params)?;
    let mut own = param_c(alloc, &method.class)?;
    own.push(kind.copy(alloc)?)?;
    let call = call_on_c(alloc, method, args)?;
    doing(alloc, name, own, List::new(alloc), Stmt::Call { call })
}

// It keeps the parameter at this place.
fn keeping_parameter(
    alloc: Global,
    name: &Text,
    method: &MethodRef,
    place: u16,
    kind: &ValueType,
) -> Result<ClassDecl, NoMemory>
    ensures { IfOk result (λ class. class ≡ with_override name.now method.now (variable_v kind.now) (stmts.SetVariable 0 (exprs.Local place) ∷ [])) }
{
    let variables = variable(alloc, kind.copy(alloc)?)?;
    let statement = Stmt::SetVariable {
        variable: 0,
        value: Boxed::new(alloc, Expr::Local(place))?,
    };
    let body = only(alloc, statement)?;
    with_override(alloc, name, method, variables, body)
}

// It overrides the method, and returns a variable of this type.
fn returning_variable(
    alloc: Global,
    name: &Text,
    method: &MethodRef,
    kind: &ValueType,
) -> Result<ClassDecl, NoMemory>
    ensures { IfOk result (λ class. class ≡ with_override name.now method.now (variable_v kind.now) (stmts.ReturnValue (exprs.Variable 0) ∷ [])) }
{
    let variables = variable(alloc, kind.copy(alloc)?)?;
    let statement = Stmt::ReturnValue {
        value: Boxed::new(alloc, Expr::Variable(0))?,
    };
    let body = only(alloc, statement)?;
    with_override(alloc, name, method, variables, body)
}

// It calls the method with zero values, and returns what that answers.
fn returning_answer(
    alloc: Global,
    name: &Text,
    method: &MethodRef,
    params: &[ValueType],
    kind: &ValueType,
) -> Result<ClassDecl, NoMemory>
    ensures { IfOk result (λ class. class ≡ w_class name.now method.now (ways.ReturnsAnswer params.now kind.now)) }
{
    let args = zero_values(alloc, params)?;
    let sig = Sig {
        params: param_c(alloc, &method.class)?,
        result: kind.copy(alloc)?,
    };
    let call = call_on_c(alloc, method, args)?;
    answering(alloc, name, sig, call)
}

// It returns the class object of the class of the method.
fn returning_class(
    alloc: Global,
    name: &Text,
    method: &MethodRef,
    metaclass: &ClassKey,
) -> Result<ClassDecl, NoMemory>
    ensures { IfOk result (λ class. class ≡ w_class name.now method.now (ways.ReturnsClass metaclass.now)) }
{
    let class = method.class.copy_boxed(alloc)?;
    let value = Boxed::new(alloc, Expr::Class(class))?;
    let sig = Sig {
        params: List::new(alloc),
        result: ValueType::Class(metaclass.copy(alloc)?),
    };
    answering(alloc, name, sig, value)
}

// It overrides the method, with this body.
fn overriding(
    alloc: Global,
    name: &Text,
    method: &MethodRef,
    body: List<Stmt>,
) -> Result<ClassDecl, NoMemory>
    ensures { IfOk result (λ class. class ≡ with_override name.now method.now [] body) }
{
    with_override(alloc, name, method, List::new(alloc), body)
}

/// The client's class of this name, for the told method and its class.
pub fn w_class(
    alloc: Global,
    name: &Text,
    method: &MethodRef,
    showing: &Showing,
) -> Result<ClassDecl, NoMemory>
    ensures { IfOk result (λ class. class ≡ w_class name.now method.now (shown showing.now)) }
{
    match showing {
        Showing::StandsBelow => plain_below(alloc, name, &method.class),
        Showing::KeepsObject(ancestor) => keeping_object(alloc, name, method, ancestor),
        Showing::Overrides(_) => overriding(alloc, name, method, List::new(alloc)),
        Showing::CallsSlot(params) => calling(alloc, name, method, params),
        Showing::Calls(params) => calling(alloc, name, method, params),
        Showing::Passes {
            params,
            place,
            kind,
        } => passing(alloc, name, method, params, *place, kind),
        Showing::KeepsParameter { place, kind, .. } => {
            keeping_parameter(alloc, name, method, *place, kind)
        }
        Showing::ReturnsNothing(_) => {
            overriding(alloc, name, method, only(alloc, Stmt::Return)?)
        }
        Showing::ReturnsVariable { kind, .. } => returning_variable(alloc, name, method, kind),
        Showing::ReturnsAnswer { params, kind } => {
            returning_answer(alloc, name, method, params, kind)
        }
        Showing::ReturnsClass(metaclass) => returning_class(alloc, name, method, metaclass),
    }
}

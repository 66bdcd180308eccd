//! Types the forms of expressions by what came of their parts, a kind or a fault.

ghost use Rattle.som_model.specs.Class.{Class};
ghost use Rattle.som_model.specs.Typing as typing;
ghost use Rattle.som_model.specs.Typing.{ExprType, Ruled, Typed};
ghost use Rattle.som_model.specs.declared.key.ValueType.{ValueType as Wanted};
ghost use Rattle.som_verify_forms.specs.Kinds.{AllStand, AreTyped, Comes, Fails, Names, Stands, Types, as_type, kind_at, then};
ghost use Rattle.som_verify_types.specs.Codes.{IsCode, classes_in, facts_in, place_in};
ghost use Rattle.std.specs.Prelude.{List as Seq, IfErr, IfOk};

use crate::expressions::Code;
use som_model::{Boxed, ClassKey, MethodRef, ValueType};
use som_verify_forms::{
    Kind, TypeFault, binary_kind, cast_kind, host_kind, isa_kind, named_call_kind,
    offset_call_kind, parent_call_kind, parents_call_kind, proxy_kind, unary_kind,
};

/// A rule that is broken is a fault.
pub fn ruled(found: Result<Kind, u8>) -> Result<Kind, TypeFault>
    ensures { (cs : Seq Class) (typed : Typed) → Comes cs typed found → Types cs typed result }
{
    Ok(found?)
}

/// A rule that looking up a type breaks is a fault.
pub fn named(found: Result<Kind, u8>) -> Result<Kind, TypeFault>
    ensures { (cs : Seq Class) (ruled : Ruled Wanted) → Names cs ruled found → Types cs (as_type ruled) result }
{
    Ok(found?)
}

/// An operator of one operand, if that is of a type.
pub fn unary(op: u8, part: Result<Kind, TypeFault>) -> Result<Kind, TypeFault>
    ensures { (cs : Seq Class) (typed : Typed) → Types cs typed part → Types cs (then typed (typing.unary_type op)) result }
{
    match part {
        Ok(kind) => ruled(unary_kind(op, kind)),
        Err(fault) => Err(fault),
    }
}

/// An operator of two operands, of which the first is of a type.
pub fn binary(op: u8, left: Kind, right: Result<Kind, TypeFault>) -> Result<Kind, TypeFault>
    ensures { (cs : Seq Class) (typed : Typed) → Types cs typed right →
        Types cs (then typed (typing.binary_type op (kind_at cs left))) result }
{
    match right {
        Ok(kind) => ruled(binary_kind(op, left, kind)),
        Err(fault) => Err(fault),
    }
}

/// A call of a procedure of the host, where the first argument is of a type.
pub fn host(left: Kind, right: Result<Kind, TypeFault>) -> Result<Kind, TypeFault>
    ensures { (cs : Seq Class) (typed : Typed) → Types cs typed right →
        Types cs (then typed (typing.host_type (kind_at cs left))) result }
{
    match right {
        Ok(kind) => ruled(host_kind(left, kind)),
        Err(fault) => Err(fault),
    }
}

/// A cast, if its operand is of a type.
pub fn cast(
    code: &Code,
    class: &Boxed<ClassKey>,
    part: Result<Kind, TypeFault>,
) -> Result<Kind, TypeFault>
    requires code { IsCode code.now }
    requires part { IfOk part (Stands (classes_in code.now)) }
    ensures { (typed : Typed) → Types (classes_in code.now) typed part →
        Types (classes_in code.now) (then typed (typing.cast_type (facts_in code.now) class.now)) result }
{
    match part {
        Ok(kind) => ruled(cast_kind(&code.known, class.get(), kind)),
        Err(fault) => Err(fault),
    }
}

/// Whether an operand is of a class, if it is of a type.
pub fn isa(
    code: &Code,
    class: &Boxed<ClassKey>,
    part: Result<Kind, TypeFault>,
) -> Result<Kind, TypeFault>
    requires code { IsCode code.now }
    requires part { IfOk part (Stands (classes_in code.now)) }
    ensures { (typed : Typed) → Types (classes_in code.now) typed part →
        Types (classes_in code.now) (then typed (typing.isa_type (facts_in code.now) class.now)) result }
{
    match part {
        Ok(kind) => ruled(isa_kind(&code.known, class.get(), kind)),
        Err(fault) => Err(fault),
    }
}

/// A proxy of an operand, if that is of a type.
pub fn proxy(
    code: &Code,
    class: &Boxed<ClassKey>,
    part: Result<Kind, TypeFault>,
) -> Result<Kind, TypeFault>
    requires code { IsCode code.now }
    requires part { IfOk part (Stands (classes_in code.now)) }
    ensures { (typed : Typed) → Types (classes_in code.now) typed part →
        Types (classes_in code.now) (then typed (typing.proxy_type (facts_in code.now) class.now)) result }
{
    match part {
        Ok(kind) => ruled(proxy_kind(&code.known, class.get(), kind)),
        Err(fault) => Err(fault),
    }
}

/// A call by offset, if its arguments are of types.
pub fn offset_call(
    code: &Code,
    method: &Boxed<MethodRef>,
    receiver: Kind,
    args: Result<Vec<Kind>, TypeFault>,
) -> Result<Kind, TypeFault>
    requires code { IsCode code.now }
    requires receiver { Stands (classes_in code.now) receiver }
    requires args { IfOk args (λ kinds. AllStand (classes_in code.now) kinds.items) }
    ensures { (typed : Ruled (Seq ExprType)) → IfOk args (λ kinds. AreTyped (classes_in code.now) typed kinds.items) → IfErr args (Fails typed) →
        Types (classes_in code.now) (then typed (typing.offset_call_type (facts_in code.now) method.now (kind_at (classes_in code.now) receiver))) result }
{
    match args {
        Ok(args) => ruled(offset_call_kind(&code.known, method.get(), receiver, &args)),
        Err(fault) => Err(fault),
    }
}

/// A call by name, if its arguments are of types.
pub fn named_call(
    code: &Code,
    answer: &Boxed<ValueType>,
    receiver: Kind,
    args: Result<Vec<Kind>, TypeFault>,
) -> Result<Kind, TypeFault>
    requires code { IsCode code.now }
    requires receiver { Stands (classes_in code.now) receiver }
    ensures { (typed : Ruled (Seq ExprType)) → IfOk args (λ kinds. AreTyped (classes_in code.now) typed kinds.items) → IfErr args (Fails typed) →
        Types (classes_in code.now) (then typed (typing.named_call_type (facts_in code.now) answer.now (kind_at (classes_in code.now) receiver))) result }
{
    match args {
        Ok(args) => ruled(named_call_kind(&code.known, answer.get(), receiver, &args)),
        Err(fault) => Err(fault),
    }
}

/// A call of a parent's method, if its arguments are of types.
pub fn parent_call(
    code: &Code,
    parent: usize,
    method: &Boxed<MethodRef>,
    args: Result<Vec<Kind>, TypeFault>,
) -> Result<Kind, TypeFault>
    requires code { IsCode code.now }
    requires args { IfOk args (λ kinds. AllStand (classes_in code.now) kinds.items) }
    ensures { (typed : Ruled (Seq ExprType)) → IfOk args (λ kinds. AreTyped (classes_in code.now) typed kinds.items) → IfErr args (Fails typed) →
        Types (classes_in code.now) (then typed (typing.parent_call_type (facts_in code.now) (place_in code.now) parent method.now)) result }
{
    match args {
        Ok(args) => ruled(parent_call_kind(&code.known, &code.at, parent, method.get(), &args)),
        Err(fault) => Err(fault),
    }
}

/// A call of the method of all parents, if its arguments are of types.
pub fn parents_call(
    code: &Code,
    method: &Boxed<MethodRef>,
    args: Result<Vec<Kind>, TypeFault>,
) -> Result<Kind, TypeFault>
    requires code { IsCode code.now }
    requires args { IfOk args (λ kinds. AllStand (classes_in code.now) kinds.items) }
    ensures { (typed : Ruled (Seq ExprType)) → IfOk args (λ kinds. AreTyped (classes_in code.now) typed kinds.items) → IfErr args (Fails typed) →
        Types (classes_in code.now) (then typed (typing.parents_call_type (facts_in code.now) (place_in code.now) method.now)) result }
{
    match args {
        Ok(args) => ruled(parents_call_kind(&code.known, &code.at, method.get(), &args)),
        Err(fault) => Err(fault),
    }
}

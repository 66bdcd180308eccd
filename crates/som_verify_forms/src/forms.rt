//! Types operators, host calls and locals, which need nothing of classes, and tells kinds of values apart.

ghost use Rattle.som_model.specs.Blocks.{is_call as calls};
ghost use Rattle.som_model.specs.Class.{Class};
ghost use Rattle.som_model.specs.Typing as typing;
ghost use Rattle.som_verify_forms.specs.Kinds.{AreTypes, Comes, Names, Stands, kind_at, type_at};
ghost use Rattle.std.specs.Prelude.{◌≡◌, ◌&&◌, List as Seq, map, slice_get, if◌then◌else◌, Ok, Err};

use crate::kind::Kind;
use som_model::Expr;

/// Whether nothing is answered.
pub fn is_nothing(kind: Kind) -> bool
    ensures { (cs : Seq Class) → result ≡ typing.is_nothing (kind_at cs kind) }
{
    match kind {
        Kind::Void => true,
        _ => false,
    }
}

pub fn is_long(kind: Kind) -> bool
    ensures { (cs : Seq Class) → result ≡ typing.is_long (kind_at cs kind) }
{
    match kind {
        Kind::Long => true,
        _ => false,
    }
}

pub fn is_boolean(kind: Kind) -> bool
    ensures { (cs : Seq Class) → result ≡ typing.is_boolean (kind_at cs kind) }
{
    match kind {
        Kind::Boolean => true,
        _ => false,
    }
}

pub fn is_string(kind: Kind) -> bool
    ensures { (cs : Seq Class) → result ≡ typing.is_string (kind_at cs kind) }
{
    match kind {
        Kind::Str => true,
        _ => false,
    }
}

/// Whether the kind is that of an object, which plain nil's is not.
pub fn is_object(kind: Kind) -> bool
    ensures { (cs : Seq Class) → result ≡ typing.is_class (kind_at cs kind) }
{
    match kind {
        Kind::Class(_) => true,
        _ => false,
    }
}

/// Whether the kind is that of an object or of nil.
pub fn is_reference(kind: Kind) -> bool
    ensures { (cs : Seq Class) → result ≡ typing.is_reference (kind_at cs kind) }
{
    match kind {
        Kind::Class(_) => true,
        Kind::Nil => true,
        _ => false,
    }
}

/// Whether a value of the kind can be printed.
pub fn has_text(kind: Kind) -> bool
    ensures { (cs : Seq Class) → result ≡ typing.has_text (kind_at cs kind) }
{
    is_long(kind) || (is_boolean(kind) || is_string(kind))
}

/// Whether values of these kinds can be compared.
pub fn are_alike(left: Kind, right: Kind) -> bool
    ensures { (cs : Seq Class) → result ≡ typing.are_alike (kind_at cs left) (kind_at cs right) }
{
    match left {
        Kind::Void => false,
        Kind::Long => is_long(right),
        Kind::Boolean => is_boolean(right),
        Kind::Str => is_string(right),
        Kind::Nil => is_reference(right),
        Kind::Class(_) => is_reference(right),
    }
}

/// A part of a larger expression has a value, or S20 is broken.
pub fn value(kind: Kind) -> Result<Kind, u8>
    ensures { (cs : Seq Class) → Stands cs kind → Comes cs (typing.value_of (kind_at cs kind)) result }
{
    if is_nothing(kind) { Err(20) } else { Ok(kind) }
}

/// What an operator gives where it takes its operands; S17 is broken where it doesn't.
pub fn gives(takes: bool, kind: Kind) -> Result<Kind, u8>
    ensures { result ≡ (if takes then Ok kind else Err 17) }
{
    if takes { Ok(kind) } else { Err(17) }
}

/// An operator of one operand, by its number; S17 is broken where it doesn't take it.
pub fn unary_kind(op: u8, kind: Kind) -> Result<Kind, u8>
    ensures { (cs : Seq Class) → Comes cs (typing.unary_type op (kind_at cs kind)) result }
{
    if op == 0 {
        gives(is_long(kind), Kind::Long)
    } else if op == 1 {
        gives(is_boolean(kind), Kind::Boolean)
    } else if op == 2 {
        gives(is_string(kind), Kind::Long)
    } else if op == 3 {
        gives(has_text(kind), Kind::Str)
    } else {
        Err(17)
    }
}

/// An operator of two operands, by its number; S17 is broken where it doesn't take them.
pub fn binary_kind(op: u8, left: Kind, right: Kind) -> Result<Kind, u8>
    ensures { (cs : Seq Class) → Comes cs (typing.binary_type op (kind_at cs left) (kind_at cs right)) result }
{
    if op < 5 {
        gives(are_long(left, right), Kind::Long)
    } else if op < 7 {
        gives(are_alike(left, right), Kind::Boolean)
    } else if op < 11 {
        gives(are_long(left, right), Kind::Boolean)
    } else if op < 13 {
        gives(is_boolean(left) && is_boolean(right), Kind::Boolean)
    } else if op == 13 {
        gives(is_string(left) && is_string(right), Kind::Str)
    } else {
        Err(17)
    }
}

fn are_long(left: Kind, right: Kind) -> bool
    ensures { (cs : Seq Class) → result ≡ (typing.is_long (kind_at cs left) && typing.is_long (kind_at cs right)) }
{
    is_long(left) && is_long(right)
}

/// A procedure of the host takes two longs and answers one.
pub fn host_kind(left: Kind, right: Kind) -> Result<Kind, u8>
    ensures { (cs : Seq Class) → Comes cs (typing.host_type (kind_at cs left) (kind_at cs right)) result }
{
    gives(are_long(left, right), Kind::Long)
}

/// A parameter or local, by its place among those in scope; S16 is broken where there is none.
pub fn local_kind(scope: &[Kind], place: usize) -> Result<Kind, u8>
    ensures { (cs : Seq Class) → AreTypes cs scope.now → Names cs (typing.there 16 (slice_get (map (type_at cs) scope.now) place)) result }
{
    if place < scope.len() {
        Ok(scope[place])
    } else {
        Err(16)
    }
}

/// Whether an expression is a call.
pub fn is_call(call: &Expr) -> bool
    ensures { result ≡ calls call.now }
{
    match call {
        Expr::OffsetCall { .. } => true,
        Expr::Lookup { .. } => true,
        Expr::Dispatch { .. } => true,
        Expr::ParentCall { .. } => true,
        Expr::ParentsCall { .. } => true,
        _ => false,
    }
}

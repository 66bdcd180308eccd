//! Answers for a runner: zero values of variables, and the class of a target's proxies.

ghost use Rattle.som_classmgr.specs.Asking.{kind_at};
ghost use Rattle.som_meta.specs.Numbering.{IsNumbered, key_at};
ghost use Rattle.som_model.specs.Classes.{variable_type};
ghost use Rattle.som_semantics.specs.State.{zero_of};
ghost use Rattle.som_model.specs.declared.key.ClassKey.TheVariants as made_of;
ghost use Rattle.som_class_variables.specs.Variables.{own_variables};
ghost use Rattle.som_interp_state.specs.Standing.{zero_shown};
ghost use Rattle.std.specs.Prelude.{◌≡◌, ℕ, length};

use som_class_table::Classes;
use som_interp_state::Zero;
use som_model::{ValueType, Variable};
use som_tables::ClassNo;

/// The zero value of a type.
fn zero_of_kind(kind: &ValueType) -> Zero
    ensures { zero_shown result ≡ zero_of kind.now }
{
    match kind {
        ValueType::Void => Zero::Nil,
        ValueType::Long => Zero::Long,
        ValueType::Boolean => Zero::Boolean,
        ValueType::Str => Zero::Text,
        ValueType::Class(_) => Zero::Nil,
    }
}

/// How many variables of its own a class has.
pub(crate) fn own_count(classes: &Classes, class: ClassNo) -> usize
    requires { IsNumbered classes.now class }
    ensures { result ≡ length (own_variables classes.now.classes (key_at classes.now class)) }
{
    let _count = classes.count();
    if class.number() < classes.declared_count() {
        classes.declared(class).decl.variables.len()
    } else {
        0
    }
}

/// The zero value of the variable at a place, and nil where there is none.
#[tactic(auto, using(crate::proofs::Asking::zero_there, crate::proofs::Asking::zero_past))]
fn zero_at(variables: &[Variable], place: usize) -> Zero
    ensures { zero_shown result ≡ zero_of (kind_at variables.now place) }
{
    if place < variables.len() {
        zero_of_kind(&variables[place].kind)
    } else {
        Zero::Nil
    }
}

/// The zero value of a variable of a class's own, and nil where it has no such variable.
pub(crate) fn zero_in(classes: &Classes, class: ClassNo, variable: u8) -> Zero
    requires { IsNumbered classes.now class }
    ensures { zero_shown result ≡ zero_of (variable_type classes.now.classes (key_at classes.now class) variable) }
{
    let _count = classes.count();
    if class.number() < classes.declared_count() {
        let variables = classes.declared(class).decl.variables.as_slice();
        zero_at(variables, usize::from(variable))
    } else {
        Zero::Nil
    }
}

/// The class of the proxies of a target, which has a number.
pub(crate) fn proxy_number(classes: &Classes, target: ClassNo) -> ClassNo
    requires target { IsNumbered classes.now target }
    requires there { (n : ℕ) × IsNumbered classes.now n × (key_at classes.now n ≡ made_of.Proxy (key_at classes.now target)) }
    ensures numbered { IsNumbered classes.now result }
    ensures key { key_at classes.now result ≡ made_of.Proxy (key_at classes.now target) }
{
    match classes.proxy_of(target) {
        Some(class) => class,
        None => unreachable!(),
    }
}

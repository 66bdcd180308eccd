//! Answers whether a type is known among the first classes, and whether it is that of a value.

ghost use Rattle.som_model.specs.Rules.{is_known, is_value_type};
ghost use Rattle.som_order.specs.Names.{texts};
ghost use Rattle.som_verify_classes.specs.Modules.{classes_of};
ghost use Rattle.som_verify_classes.specs.Places.{IsTable, with_kernel};
ghost use Rattle.std.specs.Prelude.{◌≡◌, take};

use indexmap::IndexSet;
use som_model::ValueType;
use som_verify_classes::{Declared, find_class};

/// Whether a type is of no class, or of one among the first `number` classes, the kernel's counted.
pub fn type_is_known(
    table: &IndexSet<&[u8]>,
    classes: &[Declared],
    number: usize,
    kind: &ValueType,
) -> bool
    requires { IsTable (classes_of classes.now) (texts table.now.keys) }
    ensures { result ≡ is_known (take number (with_kernel (classes_of classes.now))) kind.now }
{
    match kind {
        ValueType::Class(key) => find_class(table, classes, key, number).is_some(),
        ValueType::Void => true,
        ValueType::Long => true,
        ValueType::Boolean => true,
        ValueType::Str => true,
    }
}

/// Whether a type is of a value: known, and not void.
pub fn type_is_of_value(
    table: &IndexSet<&[u8]>,
    classes: &[Declared],
    number: usize,
    kind: &ValueType,
) -> bool
    requires { IsTable (classes_of classes.now) (texts table.now.keys) }
    ensures { result ≡ is_value_type (take number (with_kernel (classes_of classes.now))) kind.now }
{
    match kind {
        ValueType::Void => false,
        other => type_is_known(table, classes, number, other),
    }
}

//! Questions on variables: their types and places.

ghost use Rattle.som_class_kernel.specs.Linked.{IsMadeIn};
ghost use Rattle.som_meta.specs.Numbering.{IsNumbered};

use crate::lines::{first_word, number_of};
use crate::making::{class_called, made_called};
use crate::methods::tell_types;
use crate::telling::{told, told_number};
use crate::unasked::Unasked;
use som_classmgr::{Kernel, Linked};
use som_model::List;
use som_tables::ClassNo;
use std::alloc::Global;

/// Tells the types of the variables of a class's objects, by their places.
pub fn tell_variables(
    alloc: Global,
    kernel: &Kernel<Linked>,
    rest: &[u8],
    out: &mut List<u8>,
) -> Result<(), Unasked> {
    let class = made_called(alloc, kernel, rest)?;
    let types = kernel.variables(class).list(alloc)?;
    tell_types(types.as_slice(), out)?;
    Ok(())
}

// The place of a class's own variable in the objects of a class below it.
fn place(kernel: &Kernel<Linked>, object: ClassNo, class: ClassNo, variable: u8) -> Option<u32>
    requires made { IsMadeIn kernel.now object }
    requires object { IsNumbered kernel.now.classes object }
    requires class { IsNumbered kernel.now.classes class }
{
    kernel.know();
    if usize::from(variable) < kernel.variable_count(class) && kernel.is_a(object, class) {
        Some(kernel.data_place(object, kernel.data_token(class, variable)))
    } else {
        None
    }
}

/// Tells the place of a class's own variable in the objects of a class that is made.
pub fn tell_place(
    alloc: Global,
    kernel: &Kernel<Linked>,
    rest: &[u8],
    out: &mut List<u8>,
) -> Result<(), Unasked> {
    let (object, rest) = first_word(rest);
    let (class, variable) = first_word(rest);
    let object = made_called(alloc, kernel, object)?;
    let class = class_called(alloc, kernel, class)?;
    let variable = u8::try_from(number_of(variable)?)?;
    match place(kernel, object, class, variable) {
        Some(place) => told_number(out, place)?,
        None => told(out, b"none")?,
    }
    Ok(())
}

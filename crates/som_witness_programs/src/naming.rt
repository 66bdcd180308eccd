//! Names the client's class: W with the least number with which no class of the older interface has the name.

ghost use Rattle.som_model.specs.Lists.{among};
ghost use Rattle.som_model.specs.declared.program.Interface.{Interface};
ghost use Rattle.som_verify_forms.specs.Knowing.{IsKnowledge};
ghost use Rattle.som_witness.specs.Program.{class_names, numbered_w, w_name};
ghost use Rattle.som_witness_programs.specs.Lent.{IsOf};
ghost use Rattle.std.specs.Prelude.{◌≡◌, IfOk};

use crate::words::add_number;
use som_model::{NoMemory, Text};
use som_order::find_name;
use som_verify_forms::Knowledge;
use std::alloc::Global;

// W with a number.
fn numbered_w(alloc: Global, number: usize) -> Result<Text, NoMemory>
    ensures { IfOk result (λ name. name ≡ numbered_w number) }
{
    let mut name = Vec::new(alloc);
    name.push(b'W')?;
    add_number(&mut name, number as u64)?;
    Ok(Text::from_vec(name))
}

// Whether a class has the name W with this number.
fn is_taken(olds: &Knowledge, number: usize, name: &Text) -> bool
    requires { name.now ≡ numbered_w number }
    ensures { (i : Interface) → IsOf i olds.now → result ≡ among (numbered_w number) (class_names i) }
{
    find_name(olds.table, name.as_slice()).is_some()
}

/// The name of the client's class.
pub fn w_name(alloc: Global, olds: &Knowledge) -> Result<Text, NoMemory>
    requires { IsKnowledge olds.now }
    ensures { (i : Interface) → IsOf i olds.now → IfOk result (λ name. name ≡ w_name i) }
{
    for number in 0..olds.classes.len() {
        let name = numbered_w(alloc, number)?;
        if !is_taken(olds, number, &name) {
            return Ok(name);
        }
    }
    numbered_w(alloc, olds.classes.len())
}

//! Instructions put at the end of code, or changed at a place.

ghost use Rattle.som_code.specs.Laid.{set_local};
ghost use Rattle.std.specs.Prelude.{◌≡◌, ◌<◌, ◌++◌, ◌∷◌, [], length, slice_set, OnOk};

use crate::{Constant, Instruction};
use som_model::{NoMemory, Text};
use std::alloc::Global;
use std::mem;

// One instruction more.
pub(crate) fn emit(code: &mut Vec<Instruction>, instruction: Instruction) -> Result<(), NoMemory>
    ensures { OnOk result (code.new.items ≡ code.old.items ++ instruction ∷ []) }
{
    code.push(instruction)?;
    Ok(())
}

// Another instruction at a place.
pub(crate) fn patch(code: &mut Vec<Instruction>, place: usize, instruction: Instruction)
    requires { place < length code.old.items }
    ensures { code.new.items ≡ slice_set code.old.items place instruction }
{
    drop(mem::replace(&mut code[place], instruction));
}

pub(crate) fn emit_text(
    alloc: Global,
    code: &mut Vec<Instruction>,
    text: &Text,
) -> Result<(), NoMemory>
    ensures { OnOk result (code.new.items ≡ code.old.items ++ Instruction.Push (Constant.Str text.now) ∷ []) }
{
    let text = text.copy(alloc)?;
    emit(code, Instruction::Push(Constant::Str(text)))
}

// The top goes to a local, where that is visible.
pub(crate) fn emit_set(
    code: &mut Vec<Instruction>,
    local: usize,
    locals: usize,
) -> Result<(), NoMemory>
    ensures { OnOk result (code.new.items ≡ code.old.items ++ set_local local locals ∷ []) }
{
    if local < locals {
        emit(code, Instruction::Set(local))
    } else {
        emit(code, Instruction::Drop)
    }
}

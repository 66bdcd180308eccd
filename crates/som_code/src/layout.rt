//! A block laid out as the code of a body.

ghost use Rattle.som_code.specs.Laid.{lay_body};
ghost use Rattle.som_code.specs.Same.{HasEffect};
ghost use Rattle.som_code.specs.Sound.{is_return};
ghost use Rattle.std.specs.Prelude.{◌≡◌, ◌<◌, ◌^◌, ◌-◌, length, slice_get, true, IfOk};

use crate::emit::emit;
use crate::statements::emit_block;
use crate::{Code, Instruction};
use som_model::{Block, NoMemory};
use std::alloc::Global;

/// Lays out a block as a body of so many parameters. Its code takes one place for each leaf and each operator of
/// the block, and a few for each statement.
pub fn lay_out(alloc: Global, block: &Block, params: u8) -> Result<Code, NoMemory>
    ensures effect { IfOk result (λ code. HasEffect code block.now params) }
    ensures ends { IfOk result (λ code. is_return (slice_get code (length code - 1)) ≡ true) }
    ensures laid { IfOk result (λ code. code ≡ lay_body block.now params) }
{
    lay_out_for(alloc, block, params as usize)
}

/// Lays out a block as a body of any number of parameters.
pub fn lay_out_for(alloc: Global, block: &Block, params: usize) -> Result<Code, NoMemory>
    requires { params < 2 ^ 63 }
    ensures effect { IfOk result (λ code. HasEffect code block.now params) }
    ensures ends { IfOk result (λ code. is_return (slice_get code (length code - 1)) ≡ true) }
    ensures laid { IfOk result (λ code. code ≡ lay_body block.now params) }
{
    let mut code = Vec::new(alloc);
    emit_block(alloc, &mut code, params, block)?;
    emit(&mut code, Instruction::Return)?;
    Ok(Code::from_vec(code))
}

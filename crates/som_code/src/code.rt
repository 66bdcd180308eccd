//! The code of a body, in which each jump leads to an instruction.

ghost use Rattle.som_code.specs.Sound.{IsSound, is_led};
ghost use Rattle.std.specs.Prelude.{◌≡◌, ◌<◌, length, slice_get, Some, true};

use crate::Instruction;
use std::marker::Model;

/// The code of a body, which contracts see as its instructions. Wherever a run of it stands there is an
/// instruction, and each jump leads on, or back to a `Turn`.
pub struct Code {
    instructions: Vec<Instruction>,
}

impl Drop for Code {
    fn drop(self) {
        let Code { instructions } = self;
        drop(instructions);
    }
}

impl Model for Code {
    ghost use Rattle.som_code.specs.Sound.{IsSound};
    ghost use Rattle.som_code.specs.declared.instruction.Instruction.{Instruction};
    ghost use Rattle.som_model.specs.contracts.key.ClassKey as key;
    ghost use Rattle.std.specs.Coded.{codes};
    ghost use Rattle.std.specs.Prelude.{List};

    ghost Value = { List Instruction };

    ghost coded = { Prim.hlevel (codes, key.the_row.coded) };

    ghost view = { λ c. c.instructions.items };

    ghost invariant = { λ c. IsSound c.instructions.items };
}

impl Code {
    /// The code of these instructions.
    pub(crate) fn from_vec(instructions: Vec<Instruction>) -> Code
        requires { IsSound instructions.items }
        ensures { result ≡ instructions.items }
    {
        Code { instructions }
    }

    /// How many instructions there are.
    pub fn len(&self) -> usize
        ensures value { result ≡ length self.now }
        ensures some { 0 < result }
    {
        self.instructions.len()
    }

    /// The instruction at a place.
    pub fn at(&self, place: usize) -> &Instruction
        requires { place < length self.now }
        ensures value { slice_get self.now place ≡ Some result.now }
        ensures led { is_led self.now place result.now ≡ true }
    {
        &self.instructions[place]
    }
}

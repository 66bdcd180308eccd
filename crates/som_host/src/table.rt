//! The table of the host's six procedures, called by their codes.

ghost use Rattle.som_host.specs.Closures.{Answers};
ghost use Rattle.som_host.specs.Entries.{code_of};
ghost use Rattle.som_model.specs.declared.syntax.HostCode.TheVariants as codes;
ghost use Rattle.som_semantics.specs.Values.{host_number};
ghost use Rattle.std.specs.Prelude.{◌≡◌};

use crate::HostEntry;
use som_model::HostCode;

/// The entry of a code, with a closure of the caller's.
pub fn host_entry(code: HostCode, f: Box<dyn Fn(i32, i32) -> i32>) -> HostEntry
    requires { Answers (pre f) (post f) code }
    ensures { code_of result ≡ code }
{
    HostEntry { code, f }
}

/// The host's six procedures, each in the place of its code.
#[derive(Drop)]
pub struct HostTable {
    min: HostEntry,
    max: HostEntry,
    and: HostEntry,
    or: HostEntry,
    xor: HostEntry,
    wrap_add: HostEntry,
    ghost min_code: { code_of min ≡ codes.Min },
    ghost max_code: { code_of max ≡ codes.Max },
    ghost and_code: { code_of and ≡ codes.And },
    ghost or_code: { code_of or ≡ codes.Or },
    ghost xor_code: { code_of xor ≡ codes.Xor },
    ghost wrap_add_code: { code_of wrap_add ≡ codes.WrapAdd },
}

/// The table of these six entries.
pub fn host_table(
    min: HostEntry,
    max: HostEntry,
    and: HostEntry,
    or: HostEntry,
    xor: HostEntry,
    wrap_add: HostEntry,
) -> HostTable
    requires min { code_of min ≡ codes.Min }
    requires max { code_of max ≡ codes.Max }
    requires and { code_of and ≡ codes.And }
    requires or { code_of or ≡ codes.Or }
    requires xor { code_of xor ≡ codes.Xor }
    requires wrap_add { code_of wrap_add ≡ codes.WrapAdd }
{
    HostTable {
        min,
        max,
        and,
        or,
        xor,
        wrap_add,
    }
}

impl HostTable {
    /// What a procedure answers for two numbers.
    pub fn call(&self, code: HostCode, a: i32, b: i32) -> i32
        ensures { result ≡ host_number code a b }
    {
        match code {
            HostCode::Min => self.min.answer(a, b),
            HostCode::Max => self.max.answer(a, b),
            HostCode::And => self.and.answer(a, b),
            HostCode::Or => self.or.answer(a, b),
            HostCode::Xor => self.xor.answer(a, b),
            HostCode::WrapAdd => self.wrap_add.answer(a, b),
        }
    }
}

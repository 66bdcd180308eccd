//! Decodes a counted row of fields by a closure that decodes one.

ghost use Rattle.std.specs.Prelude.{ℕ, ◌≤◌, length, IfOk};
ghost use Rattle.som_image_fields.specs.Fields.{Gives, many_at};

use crate::{ImageFault, Read};
use som_model::List;
use std::alloc::Global;

/// Reads so many fields, one after the other, each by the closure at its place.
pub fn read_many<T: Drop, F: Fn(usize) -> Result<Read<T>, ImageFault>>(
    alloc: Global,
    bytes: &List<u8>,
    count: u32,
    place: usize,
    read: F,
) -> Result<Read<List<T>>, ImageFault>
    requires place { place ≤ length bytes.now }
    requires callable { (p : ℕ) → p ≤ length bytes.now → F.pre read p }
    requires within { (p : ℕ) (r : _) → p ≤ length bytes.now → F.post read p r →
        IfOk r (λ x. x.next ≤ length bytes.now) }
    ensures exact { (one : _) → ((p : ℕ) (r : _) → p ≤ length bytes.now → F.post read p r → Gives r (one p)) →
        Gives result (many_at one count place) }
    ensures next { IfOk result (λ r. r.next ≤ length bytes.now) }
{
    let mut value = List::new(alloc);
    let mut next = place;
    for _ in 0..count {
        let one = read(next)?;
        value.push(one.value)?;
        next = one.next;
    }
    Ok(Read { value, next })
}

//! Decodes and encodes the selects of classes, under class numbers that ascend.

ghost use Rattle.som_image_fields.specs.Fitting.{FitsOwnSelects, FitsSelect, FitsSelects, FitsSomeSelects};
ghost use Rattle.som_wire.specs.Reading.{
  ascending_at,
  class_from_at,
  class_selects_at,
  own_selects_at,
  select_at,
  selects_at,
};
ghost use Rattle.som_image_fields.specs.SyntaxSpelling.{class_selects, select, selects};
ghost use Rattle.som_image_fields.specs.Fields.{Gives, Stands, done};
ghost use Rattle.som_image_fields.specs.Spelling.{AreShort, FitsMethod, FitsSomeRanges};
ghost use Rattle.std.specs.List.{flat_map};
ghost use Rattle.std.specs.Prelude.{◌≡◌, ◌-◌, ◌<◌, ◌≤◌, ◌^◌, ◌++◌, ℕ, length, slice_index, All, IfOk, OnOk, OnErr};

use som_image_fields::{
    ImageFault, Ranges, Read, WireSelect, WireSelects, read_many, read_method, read_u8, read_u16,
    write_method, write_u8, write_u16,
};
use som_model::{List, MAX_SELECTS, NoMemory};
use std::alloc::Global;

#[tactic(auto, unfolding(crate::specs::Reading::select_at))]
fn read_select(
    bytes: &List<u8>,
    place: usize,
    ranges: &Ranges,
) -> Result<Read<WireSelect>, ImageFault>
    requires place { place ≤ length bytes.now }
    requires entries { length ranges.now.entries ≡ ranges.now.classes }
    ensures exact { Gives result (select_at ranges.now bytes.now place) }
    ensures next { IfOk result (λ r. r.next ≤ length bytes.now) }
{
    let method = read_method(bytes, place, ranges)?;
    let parent = read_u8(bytes, method.next)?;
    Ok(Read {
        value: WireSelect {
            method: method.value,
            parent: parent.value,
        },
        next: parent.next,
    })
}

fn read_own_selects(
    alloc: Global,
    bytes: &List<u8>,
    place: usize,
    ranges: &Ranges,
) -> Result<Read<List<WireSelect>>, ImageFault>
    requires place { place ≤ length bytes.now }
    requires entries { length ranges.now.entries ≡ ranges.now.classes }
    ensures exact { Gives result (own_selects_at ranges.now bytes.now place) }
    ensures next { IfOk result (λ r. r.next ≤ length bytes.now) }
{
    let count = read_u16(bytes, place)?;
    let selects = u32::from(count.value);
    if selects < 1 || selects > MAX_SELECTS {
        return Err(ImageFault::Number { offset: place });
    }
    read_many(
        alloc,
        bytes,
        selects,
        count.next,
        |p: usize| -> Result<Read<WireSelect>, ImageFault>
            requires place { p ≤ length bytes.now }
            requires entries { length ranges.now.entries ≡ ranges.now.classes }
            ensures exact { Gives result (select_at ranges.entry.now bytes.entry.now p) }
            ensures next { IfOk result (λ r. r.next ≤ length bytes.entry.now) }
        { read_select(bytes, p, ranges) },
    )
}

// The number of a class that is this one or a later one.
#[tactic(auto, unfolding(crate::specs::Reading::class_from_at))]
fn read_class_from(
    bytes: &List<u8>,
    place: usize,
    least: u16,
    classes: u16,
) -> Result<Read<u16>, ImageFault>
    requires { place ≤ length bytes.now }
    ensures exact { result ≡ class_from_at least classes bytes.now place }
    ensures below { IfOk result (λ r. r.value < 2 ^ 16 - 1) }
    ensures next { IfOk result (λ r. r.next ≤ length bytes.now) }
{
    let number = read_u16(bytes, place)?;
    if least <= number.value && number.value < classes {
        Ok(number)
    } else {
        Err(ImageFault::Number { offset: place })
    }
}

#[tactic(auto, unfolding(crate::specs::Reading::class_selects_at))]
fn read_class_selects(
    alloc: Global,
    bytes: &List<u8>,
    place: usize,
    ranges: &Ranges,
    least: u16,
) -> Result<Read<WireSelects>, ImageFault>
    requires place { place ≤ length bytes.now }
    requires entries { length ranges.now.entries ≡ ranges.now.classes }
    ensures exact { Gives result (class_selects_at ranges.now least bytes.now place) }
    ensures below { IfOk result (λ r. r.value.class < 2 ^ 16 - 1) }
    ensures next { IfOk result (λ r. r.next ≤ length bytes.now) }
{
    let class = read_class_from(bytes, place, least, ranges.classes)?;
    let selects = read_own_selects(alloc, bytes, class.next, ranges)?;
    Ok(Read {
        value: WireSelects {
            class: class.value,
            selects: selects.value,
        },
        next: selects.next,
    })
}

// The selects of so many classes, each with a greater number than the one before.
fn read_ascending(
    alloc: Global,
    bytes: &List<u8>,
    place: usize,
    ranges: &Ranges,
    first: u16,
    count: u16,
) -> Result<Read<List<WireSelects>>, ImageFault>
    requires place { place ≤ length bytes.now }
    requires entries { length ranges.now.entries ≡ ranges.now.classes }
    ensures exact { Gives result (ascending_at ranges.now count first bytes.now place) }
    ensures next { IfOk result (λ r. r.next ≤ length bytes.now) }
{
    let mut value = List::new(alloc);
    let mut next = place;
    let mut least = first;
    for _ in 0..count {
        let one = read_class_selects(alloc, bytes, next, ranges, least)?;
        least = one.value.class + 1;
        next = one.next;
        value.push(one.value)?;
    }
    Ok(Read { value, next })
}

#[tactic(auto, unfolding(crate::specs::Reading::selects_at))]
fn read_counted_classes(
    alloc: Global,
    bytes: &List<u8>,
    place: usize,
    ranges: &Ranges,
    first: u16,
) -> Result<Read<List<WireSelects>>, ImageFault>
    requires place { place ≤ length bytes.now }
    requires entries { length ranges.now.entries ≡ ranges.now.classes }
    ensures exact { Gives result (selects_at ranges.now first bytes.now place) }
    ensures next { IfOk result (λ r. r.next ≤ length bytes.now) }
{
    let count = read_u16(bytes, place)?;
    let most = ranges.classes.saturating_sub(first);
    if count.value < 1 || count.value > most {
        return Err(ImageFault::Number { offset: place });
    }
    read_ascending(alloc, bytes, count.next, ranges, first, count.value)
}

/// Reads the selects of classes at a place: how many classes have some, and each of these with its number. The classes that
/// may have some are those with the numbers from `first` on.
pub fn read_selects(
    alloc: Global,
    bytes: &List<u8>,
    place: usize,
    ranges: &Ranges,
    first: u16,
) -> Result<Read<List<WireSelects>>, ImageFault>
    requires place { place ≤ length bytes.now }
    requires entries { length ranges.now.entries ≡ ranges.now.classes }
    ensures found { IfOk result (λ r. Stands bytes.now place (selects r.value) r.next ×
        FitsSelects ranges.now.classes (FitsMethod ranges.now) first r.value) }
    ensures only { (cs : _) (next : ℕ) → Stands bytes.now place (selects cs) next →
        FitsSelects ranges.now.classes (FitsMethod ranges.now) first cs → Gives result (done cs next) }
    ensures exact { Gives result (selects_at ranges.now first bytes.now place) }
{
    let _all = bytes.as_bytes();
    know_ranges(ranges);
    read_counted_classes(alloc, bytes, place, ranges, first)
}

// The ranges are numbers of 2 bytes, which a reference and a list alone don't tell a proof.
fn know_ranges(ranges: &Ranges)
    ensures { AreShort ranges.now }
{
    let _classes = ranges.classes;
    know_numbers(ranges.entries.as_slice());
}

fn know_numbers(numbers: &[u16])
    ensures { (i : ℕ) → slice_index numbers.now i < 2 ^ 16 }
{
    let _len = numbers.len();
}

/// Appends the selects of classes. They are spelled in a list of their own first, so that want of memory leaves `out` as it
/// was.
pub fn write_selects(
    alloc: Global,
    out: &mut List<u8>,
    value: &List<WireSelects>,
) -> Result<(), NoMemory>
    requires { FitsSomeSelects value.now }
    ensures ok { OnOk result (out.new ≡ out.old ++ selects value.now) }
    ensures err { OnErr result (out.new ≡ out.old) }
{
    let mut spelling = List::new(alloc);
    append_counted(&mut spelling, value)?;
    out.extend_from_slice(spelling.as_slice())
}

// After an error a part of them may have been appended.
fn append_counted(out: &mut List<u8>, classes: &List<WireSelects>) -> Result<(), NoMemory>
    requires few { length classes.now < 2 ^ 16 }
    requires each { All (FitsOwnSelects FitsSomeRanges) classes.now }
    ensures { OnOk result (out.new ≡ out.old ++ selects classes.now) }
{
    write_u16(out, classes.len() as u16)?;
    append_classes(out, classes)
}

fn append_classes(out: &mut List<u8>, classes: &List<WireSelects>) -> Result<(), NoMemory>
    requires { All (FitsOwnSelects FitsSomeRanges) classes.now }
    ensures { OnOk result (out.new ≡ out.old ++ flat_map class_selects classes.now) }
{
    for class in classes.as_slice() {
        append_class_selects(out, class)?;
    }
    Ok(())
}

fn append_class_selects(out: &mut List<u8>, class: &WireSelects) -> Result<(), NoMemory>
    requires { FitsOwnSelects FitsSomeRanges class.now }
    ensures { OnOk result (out.new ≡ out.old ++ class_selects class.now) }
{
    write_u16(out, class.class)?;
    write_u16(out, class.selects.len() as u16)?;
    append_selects(out, &class.selects)
}

fn append_selects(out: &mut List<u8>, selects: &List<WireSelect>) -> Result<(), NoMemory>
    requires { All (FitsSelect FitsSomeRanges) selects.now }
    ensures { OnOk result (out.new ≡ out.old ++ flat_map select selects.now) }
{
    for one in selects.as_slice() {
        append_select(out, one)?;
    }
    Ok(())
}

fn append_select(out: &mut List<u8>, one: &WireSelect) -> Result<(), NoMemory>
    requires { FitsSelect FitsSomeRanges one.now }
    ensures { OnOk result (out.new ≡ out.old ++ select one.now) }
{
    write_method(out, &one.method)?;
    write_u8(out, one.parent)
}

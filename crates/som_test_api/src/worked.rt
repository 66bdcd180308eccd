//! The sample hierarchy and an index of names, worked out.

ghost use Rattle.som_test_examples.specs.Names.{IsIndex};
ghost use Rattle.std.specs.Prelude.{◌≡◌, ◌<◌};

use crate::memory::out_of_memory;
use som_names::NameIndex;
use som_tables::Steps;
use som_test_examples::{
    Sample, diamond, find, forwards_of_lowest, hooks_of_both, metaclass_of_both, metaclass_of_one,
};
use std::alloc::Global;
use std::marker::Brand;
use std::sync::ledger::{Blank, Ledger};
use std::test::Fail;

// What comes out stands in the clauses of these calls, but not that they have memory.
#[test]
fn the_sample_is_worked_out(rt: HostRuntime) -> Result<(), Fail> {
    let alloc = rt.alloc();
    let sample = Sample::new(alloc).map_err(out_of_memory)?;
    assert!(rt; metaclass_of_both(alloc, &sample).is_ok());
    assert!(rt; metaclass_of_one(alloc, &sample).is_ok());
    assert!(rt; hooks_of_both(alloc, &sample).is_ok());
    assert!(rt; forwards_of_lowest(alloc, &sample).is_ok());
    Ok(())
}

// Whether a name of one letter is looked for in the lowest class of a diamond.
fn is_sought<L: Ledger>(alloc: Global, index: &NameIndex, letter: u8, blank: Blank) -> bool
    requires index { IsIndex index.now }
    requires name { blank.name ≡ L.name }
    requires parts { blank.parts ≡ L.parts }
    requires some { 0 < blank.parts }
{
    let mut steps: Steps<L> = Steps::new(blank);
    find(alloc, index, letter, &mut steps).is_ok()
}

#[test]
fn a_name_is_sought(rt: HostRuntime) -> Result<(), Fail> {
    let index = diamond(rt.alloc()).map_err(out_of_memory)?;
    assert!(rt; is_sought::<Brand>(rt.alloc(), &index, b'c', Blank::new(1)));
    Ok(())
}

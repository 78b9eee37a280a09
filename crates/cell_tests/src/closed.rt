//! Heaps of boxes that are closed as soon as they are open.
//!
//! The heaps of whole runs are counted in the rows of examples/rows.
ghost use Rattle.dlg_core.specs.FirstRows.{are_first_rows};
ghost use Rattle.heap_rule.specs.Opening.{FirstTerms};
ghost use Rattle.std.specs.Prelude.{IsTrue, None, length, ◌≤◌};

use cell_heap::{ColSeat, Image, NoMemory};
use cell_words::{Field, Row};
use heap_census::images::{census, image_text};
use heap_rule::NoRule;
use std::alloc::Global;
use std::test::Fail;

/// A closed heap of 64 cells, of which the first have these rows, none of them a record's.
fn closed(alloc: Global, first: &[Row]) -> Result<Image, NoMemory>
    requires few { length first.now ≤ 64 }
    requires rows { IsTrue (are_first_rows first.now) }
    requires boxes { FirstTerms first.now (λ cell. None) }
{
    let (heap, collector) = ColSeat::<NoRule>::open(alloc, 64, 0, 0, first)?;
    let (image, _) = collector.close(heap);
    Ok(image)
}

/// A heap whose anchor names itself.
fn named_anchor(alloc: Global) -> Result<Image, NoMemory> {
    let null = Field::Null;
    let anchor = [Field::Cell(0), null, null, null, null, Field::Num(2)];
    closed(alloc, &[anchor])
}

/// A heap with a version whose root is itself.
fn version_as_root(alloc: Global) -> Result<Image, NoMemory> {
    let null = Field::Null;
    let anchor = [Field::Cell(1), null, null, null, null, Field::Num(2)];
    let root = Field::Cell(1);
    let version = [Field::Num(0), root, null, null, null, Field::Num(2)];
    closed(alloc, &[anchor, version])
}

#[test]
fn a_cell_with_two_roles_has_no_census(rt: HostRuntime) -> Result<(), Fail> {
    let alloc = rt.alloc();
    assert_eq!(rt; census(alloc, &named_anchor(alloc)?)?, None);
    assert_eq!(rt; census(alloc, &version_as_root(alloc)?)?, None);
    Ok(())
}

#[test]
fn a_heap_without_a_census_is_written_all_the_same(rt: HostRuntime) -> Result<(), Fail> {
    let alloc = rt.alloc();
    let text = image_text(alloc, &version_as_root(alloc)?)?;
    let lines = "image 1 64\n0 white @1 - - - - =2\n1 white =0 @1 - - - =2\nend\n";
    assert_eq!(rt; text.as_slice(), lines.as_bytes());
    Ok(())
}

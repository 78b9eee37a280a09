//! What a scan in one call leaves, which was worked out by hand.

use crate::scanning::{first_scan, open_family};
use crate::unlinked::close_one;
use cell_heap::NoMemory;
use cell_words::Colour;
use std::alloc::Global;
use std::test::Fail;

/// The children that a scan gives, by field, and the colours of the cells after it.
type Scanned = (Option<[Option<u32>; 5]>, [Colour; 3]);

fn scanned(alloc: Global) -> Result<Scanned, NoMemory> {
    let (heap, mut collector, mutator) = open_family(alloc)?;
    let children = first_scan(&heap, &mut collector);
    let image = close_one(heap, collector, mutator);
    Ok((
        children,
        [image.colour(0), image.colour(1), image.colour(2)],
    ))
}

#[test]
fn a_scan_gives_the_children_by_field_and_shades_them(rt: HostRuntime) -> Result<(), Fail> {
    let children = [Some(2), None, Some(1), None, Some(2)];
    let colours = [Colour::Black, Colour::Gray, Colour::Gray];
    assert_eq!(rt; scanned(rt.alloc())?, (Some(children), colours));
    Ok(())
}

use crate::comparing::{area_of, histogram_of, list_of, perimeter_of};
use quilt_blocks::LeafList;
use quilt_plain::{Dice, colour_of, drawn, plain_area, plain_histogram, plain_perimeter};
use std::alloc::Global;

/// Whether each colour has as many pixels and edges as it should.
fn is_measured(a: &LeafList, colours: &[u16], side: u32) -> bool {
    for number in 0..5 {
        let c = colour_of(number);
        if area_of(a, c) != plain_area(colours, c)
            || perimeter_of(a, c) != plain_perimeter(colours, side, c)
        {
            return false;
        }
    }
    true
}

/// Whether the colours and the leaves of a drawn map are measured as they should.
fn are_measured(alloc: Global, dice: &mut Dice, level: u8) -> Option<bool> {
    let side = 1_u32 << level.min(12);
    let colours = drawn(alloc, dice, side).ok()?;
    let a = list_of(alloc, level, &colours)?;
    Some(is_measured(&a, &colours, side) && histogram_of(&a) == plain_histogram(&colours, side))
}

/// Twice 200 maps of levels 1 to 5: how many pixels each colour has, and how many edges, and how many leaves each side has.
#[test]
fn measures_of_drawn_maps(rt: HostRuntime) {
    let (mut dice, mut other) = (Dice::new(6), Dice::new(7));
    for turn in 0..200_u8 {
        assert!(rt; are_measured(rt.alloc(), &mut dice, turn % 5 + 1) == Some(true));
        assert!(rt; are_measured(rt.alloc(), &mut other, turn % 5 + 1) == Some(true));
    }
}

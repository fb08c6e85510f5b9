use crate::meeting::Meeting;
use quilt_blocks::LeafList;
use quilt_par::{NoGate, few_leaves_of_par, leaves_of_par};
use quilt_plain::{Dice, drawn, plain_histogram};
use quilt_raster::leaves_of;
use quilt_types::{Colour, Pixel};
use std::alloc::Global;
use std::test::Fail;
use std::thread::Threads;

/// Whether the lists have the same leaves in the same order.
fn are_same(a: &LeafList, b: &LeafList) -> bool {
    for i in 0..a.len() {
        if i >= b.len() || a.leaf(i) != b.leaf(i) {
            return false;
        }
    }
    a.len() == b.len()
}

/// Four quadrants of one pixel each, which are one leaf in the end.
#[test]
fn quadrants_at_once(rt: HostRuntime) -> Result<(), Fail> {
    let meeting = Meeting::new();
    let list = leaves_of_par(&rt, &meeting, rt.alloc(), &[1, 2, 1, 2, 1, 2, 1, 2], 1)?;
    assert!(rt; meeting.is_kept());
    assert_eq!(rt; list.len(), 1);
    assert_eq!(rt; list.leaf(0).block.side, 2);
    assert_eq!(rt; list.leaf(0).colour, Colour(258));
    Ok(())
}

/// A raster of level 3: colour 1 in the right half and 0 in the left one, but 265 in the first pixel.
fn two_halves() -> [u8; 128] {
    let mut colours = [0_u8; 128];
    for place in 0..64_usize {
        colours[2 * place + 1] = (place / 4 % 2) as u8;
    }
    colours[0] = 1;
    colours[1] = 9;
    colours
}

/// Four pixels and three blocks of side 2 in the first quadrant, and the three other quadrants.
#[test]
fn the_list_of_one_thread(rt: HostRuntime) -> Result<(), Fail> {
    let colours = two_halves();
    let list = leaves_of_par(&rt, &NoGate, rt.alloc(), &colours, 3)?;
    assert_eq!(rt; list.len(), 10);
    assert_eq!(rt; list.colour_at(Pixel { x: 0, y: 0 }), Colour(265));
    assert!(rt; are_same(&list, &leaves_of(rt.alloc(), &colours, 3)?));
    Ok(())
}

/// A raster of one colour is one leaf, though each of its quadrants is one too.
#[test]
fn one_leaf_at_most(rt: HostRuntime) -> Result<(), Fail> {
    let colours = [1, 2, 1, 2, 1, 2, 1, 2];
    let one = few_leaves_of_par(&rt, &NoGate, rt.alloc(), &colours, 1, 1)?;
    assert_eq!(rt; one.map(|list| list.len()), Some(1));
    let none = few_leaves_of_par(&rt, &NoGate, rt.alloc(), &colours, 1, 0)?;
    assert!(rt; none.is_none());
    Ok(())
}

/// How many leaves the list of a drawn raster of level 4 has, or None where it has more than the most.
fn count_within<R: Threads + Sync>(
    rt: &R,
    alloc: Global,
    colours: &[u16],
    most: u32,
) -> Result<Option<usize>, Fail> {
    let mut bytes = Vec::new(alloc);
    for c in colours {
        bytes.push((c / 256) as u8)?;
        bytes.push((c % 256) as u8)?;
    }
    if bytes.len() != 512 {
        return Err(Fail::from("a number of bytes"));
    }
    let found = few_leaves_of_par(rt, &NoGate, alloc, &bytes, 4, most)?;
    Ok(found.map(|list| list.len()))
}

/// Drawn rasters with a most that is just their number of leaves, and with one that is one less.
#[test]
fn as_many_as_there_may_be(rt: HostRuntime) -> Result<(), Fail> {
    let mut dice = Dice::new(4);
    for _ in 0..20_u32 {
        let colours = drawn(rt.alloc(), &mut dice, 16)?;
        let mut count = 0_u32;
        for blocks in plain_histogram(&colours, 16) {
            count = count.wrapping_add(blocks);
        }
        assert_eq!(rt;
            count_within(&rt, rt.alloc(), &colours, count)?,
            Some(count as usize)
        );
        assert_eq!(rt;
            count_within(&rt, rt.alloc(), &colours, count.wrapping_sub(1))?,
            None
        );
    }
    Ok(())
}

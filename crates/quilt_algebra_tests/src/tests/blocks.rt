use crate::comparing::{count_of, has_leaves};
use quilt_blocks::{LeafList, Maker};
use quilt_loc::{block_at, code_of, covers, end_of, parent, pixel_of, quarters};
use quilt_types::{Block, Colour, Pixel};
use std::alloc::{AllocError, Global};
use std::test::Fail;

/// A pixel, and the block of four pixels around it.
const PIXEL: Pixel = Pixel { x: 5, y: 2 };

const FOUR: Block = Block {
    x: 4,
    y: 2,
    side: 2,
};

/// Whether their codes are as they should.
fn have_codes() -> bool {
    // 1 + 8 + 16: the bits of x at 0 and 4, and of y at 3.
    code_of(PIXEL) == 25 && pixel_of(25) == PIXEL && end_of(FOUR) == 28
}

#[test]
fn codes_of_a_pixel(rt: HostRuntime) {
    assert!(rt; have_codes());
}

/// The block around that one at level 3, and its second quarter.
const AROUND: Block = Block {
    x: 4,
    y: 0,
    side: 4,
};

const RIGHT: Block = Block {
    x: 6,
    y: 0,
    side: 2,
};

/// All of level 3.
const ALL: Block = Block {
    x: 0,
    y: 0,
    side: 8,
};

/// Whether the blocks around a pixel are as they should.
fn are_around() -> bool {
    let block = block_at(PIXEL, 2);
    let [_, right, below, _] = quarters(AROUND);
    block == FOUR
        && covers(block, Pixel { x: 5, y: 3 })
        && parent(FOUR, 3) == Some(AROUND)
        && parent(ALL, 3).is_none()
        && right == RIGHT
        && below == FOUR
}

#[test]
fn blocks_around_a_pixel(rt: HostRuntime) {
    assert!(rt; are_around());
}

/// A list of level 1 that is one leaf.
fn whole(alloc: Global) -> Result<LeafList, AllocError> {
    let mut maker = Maker::new(alloc, 1);
    maker.push(
        Block {
            x: 0,
            y: 0,
            side: 2,
        },
        Colour(258),
    )?;
    Ok(maker.finish())
}

/// Whether the list has that leaf alone.
fn is_whole(list: &LeafList) -> bool {
    list.level() == 1 && count_of(list) == 1 && has_leaves(list, &[(0, 0, 2, 258)])
}

#[test]
fn one_leaf(rt: HostRuntime) -> Result<(), Fail> {
    assert!(rt; is_whole(&whole(rt.alloc())?));
    Ok(())
}

use crate::layer::{DAMAGED, Layer};
use crate::plans::is_plan;
use quilt_lines::first_record;
use quilt_record::{Record, pair_record, segment_record};
use quilt_types::{Block, Pixel, Seg, Stop};
use std::alloc::Global;
use std::test::Fail;

/// A line layer of the number 1 and the threshold 1 in a map of this level.
fn planted(alloc: Global, level: u8, records: &[Record]) -> Result<Layer, Stop> {
    Layer::new(alloc, 1, level, 1, records)
}

/// Whether these are all segments under their ids.
fn scans(alloc: Global, layer: &mut Layer, expected: &[(u32, Seg)]) -> bool {
    match layer.scan(alloc) {
        Err(_) => false,
        Ok(segs) => segs.items() == expected,
    }
}

/// Whether the segments cannot be listed, as the layer is damaged.
fn is_scan_damaged(alloc: Global, layer: &mut Layer) -> bool {
    layer.scan(alloc).err() == Some(DAMAGED)
}

/// The quarters of the square of level 3, in the order of their codes.
const TOP_LEFT: Block = Block {
    x: 0,
    y: 0,
    side: 4,
};

const TOP_RIGHT: Block = Block {
    x: 4,
    y: 0,
    side: 4,
};

const BOTTOM_LEFT: Block = Block {
    x: 0,
    y: 4,
    side: 4,
};

const BOTTOM_RIGHT: Block = Block {
    x: 4,
    y: 4,
    side: 4,
};

/// A segment along the upper border of the square of level 3.
const BORDER: Seg = Seg {
    x1: 0,
    y1: 0,
    x2: 7,
    y2: 0,
};

/// A segment of one pixel, the last of that square.
const CORNER: Seg = Seg {
    x1: 7,
    y1: 7,
    x2: 7,
    y2: 7,
};

/// The records of the border under the id 5 and of the corner under the id 9.
fn two_segments() -> [Record; 6] {
    [
        pair_record(1, TOP_LEFT, 3, Some(5)),
        pair_record(1, TOP_RIGHT, 3, Some(5)),
        pair_record(1, BOTTOM_LEFT, 3, None),
        pair_record(1, BOTTOM_RIGHT, 3, Some(9)),
        segment_record(1, 5, BORDER),
        segment_record(1, 9, CORNER),
    ]
}

/// Whether a layer of another number in a tree of these records has no segment.
fn is_without(alloc: Global, records: &[Record]) -> Result<bool, Stop> {
    let mut layer = Layer::new(alloc, 2, 3, 1, records)?;
    Ok(layer.segment(5)?.is_none())
}

#[test]
fn segments_and_the_nearest(rt: HostRuntime) -> Result<(), Fail> {
    let records = two_segments();
    assert!(rt; is_without(rt.alloc(), &records) == Ok(true));
    let mut layer = planted(rt.alloc(), 3, &records)?;
    assert!(rt; layer.segment(5) == Ok(Some(BORDER)));
    assert!(rt; layer.segment(6) == Ok(None));
    assert!(rt; scans(rt.alloc(), &mut layer, &[(5, BORDER), (9, CORNER)]));
    let left = Pixel { x: 1, y: 5 };
    assert!(rt; layer.nearest(rt.alloc(), left) == Ok(Some((5, 25))));
    let right = Pixel { x: 5, y: 7 };
    assert!(rt; layer.nearest(rt.alloc(), right) == Ok(Some((9, 4))));
    Ok(())
}

/// Whether a layer whose one block holds a segment that has no record is damaged to a look for the nearest.
fn is_unnamed(alloc: Global, at: Pixel) -> Result<bool, Stop> {
    let whole = Block {
        x: 0,
        y: 0,
        side: 8,
    };
    let mut layer = planted(alloc, 3, &[pair_record(1, whole, 3, Some(5))])?;
    Ok(layer.nearest(alloc, at) == Err(DAMAGED))
}

#[test]
fn damaged_layers(rt: HostRuntime) -> Result<(), Fail> {
    let at = Pixel { x: 1, y: 1 };
    assert!(rt; is_unnamed(rt.alloc(), at) == Ok(true));
    let far = segment_record(1, 5, Seg { x2: 8, ..BORDER });
    let mut outside = planted(rt.alloc(), 3, &[far])?;
    assert!(rt; outside.segment(5) == Err(DAMAGED));
    assert!(rt; is_scan_damaged(rt.alloc(), &mut outside));
    assert!(rt; outside.nearest(rt.alloc(), at) == Err(DAMAGED));
    assert!(rt; outside.nearest_under(rt.alloc(), 256, at) == Err(DAMAGED));
    Ok(())
}

/// The whole square of level 2 and its quarters.
const SQUARE: Block = Block {
    x: 0,
    y: 0,
    side: 4,
};

const QUARTERS: [Block; 4] = [
    Block {
        x: 0,
        y: 0,
        side: 2,
    },
    Block {
        x: 2,
        y: 0,
        side: 2,
    },
    Block {
        x: 0,
        y: 2,
        side: 2,
    },
    Block {
        x: 2,
        y: 2,
        side: 2,
    },
];

/// The diagonals of that square: the second meets three of its quarters alone.
const FIRST: Seg = Seg {
    x1: 0,
    y1: 0,
    x2: 3,
    y2: 3,
};

const SECOND: Seg = Seg {
    x1: 0,
    y1: 3,
    x2: 3,
    y2: 0,
};

/// The records that the second segment brings beside the first, at a threshold of 1.
fn second_records() -> [Record; 8] {
    [
        pair_record(1, QUARTERS[0], 2, Some(1)),
        pair_record(1, QUARTERS[0], 2, Some(2)),
        pair_record(1, QUARTERS[1], 2, Some(1)),
        pair_record(1, QUARTERS[1], 2, Some(2)),
        pair_record(1, QUARTERS[2], 2, Some(1)),
        pair_record(1, QUARTERS[2], 2, Some(2)),
        pair_record(1, QUARTERS[3], 2, Some(1)),
        segment_record(1, 2, SECOND),
    ]
}

/// The records of the first segment alone.
fn first_records() -> [Record; 2] {
    [
        pair_record(1, SQUARE, 2, Some(1)),
        segment_record(1, 1, FIRST),
    ]
}

/// The records of both segments.
fn both_records() -> [Record; 9] {
    let [a, b, c, d, e, f, g, second] = second_records();
    let first = segment_record(1, 1, FIRST);
    [a, b, c, d, e, f, g, first, second]
}

/// Whether the plan of the segment that comes takes these records out of the layer and puts those in.
fn comes(
    alloc: Global,
    layer: &mut Layer,
    (id, s): (u32, Seg),
    removed: &[Record],
    added: &[Record],
) -> bool {
    match layer.plan_add(alloc, id, s) {
        Ok(Some(plan)) => is_plan(&plan, removed, added),
        _ => false,
    }
}

/// Whether the plan of the segment that goes takes these records out of the layer and puts those in.
fn goes(alloc: Global, layer: &mut Layer, id: u32, removed: &[Record], added: &[Record]) -> bool {
    match layer.plan_remove(alloc, id) {
        Ok(Some(plan)) => is_plan(&plan, removed, added),
        _ => false,
    }
}

/// Whether an addition under this id answers that the id is there.
fn is_there(alloc: Global, layer: &mut Layer, id: u32, s: Seg) -> bool {
    matches!(layer.plan_add(alloc, id, s), Ok(None))
}

/// Whether a removal under this id answers that the id is free.
fn is_free(alloc: Global, layer: &mut Layer, id: u32) -> bool {
    matches!(layer.plan_remove(alloc, id), Ok(None))
}

#[test]
fn a_first_segment(rt: HostRuntime) -> Result<(), Fail> {
    let empty = [first_record(1, 2, 1)];
    let mut layer = planted(rt.alloc(), 2, &empty)?;
    assert!(rt; layer.line_counts() == Ok([0, 0, 1, 0, 0, 0, 0, 0, 0, 0, 0, 0, 0]));
    assert!(rt; comes(rt.alloc(), &mut layer, (1, FIRST), &empty, &first_records()));
    Ok(())
}

/// How many blocks of each side a layer of these records has.
fn counts(alloc: Global, records: &[Record]) -> Result<[u32; 13], Stop> {
    planted(alloc, 2, records)?.line_counts()
}

#[test]
fn a_block_that_is_split(rt: HostRuntime) -> Result<(), Fail> {
    let second = second_records();
    assert!(rt; counts(rt.alloc(), &second) == Ok([0, 4, 0, 0, 0, 0, 0, 0, 0, 0, 0, 0, 0]));
    let first = first_records();
    let mut layer = planted(rt.alloc(), 2, &first)?;
    assert!(rt; is_there(rt.alloc(), &mut layer, 1, SECOND));
    assert!(rt; comes(rt.alloc(), &mut layer, (2, SECOND), &first[..1], &second));
    Ok(())
}

#[test]
fn quarters_that_merge(rt: HostRuntime) -> Result<(), Fail> {
    let mut layer = planted(rt.alloc(), 2, &both_records())?;
    assert!(rt; is_free(rt.alloc(), &mut layer, 3));
    assert!(rt;
        goes(
            rt.alloc(),
            &mut layer,
            2,
            &second_records(),
            &first_records()[..1]
        )
    );
    Ok(())
}

#[test]
fn a_last_segment(rt: HostRuntime) -> Result<(), Fail> {
    let first = first_records();
    let mut layer = planted(rt.alloc(), 2, &first)?;
    assert!(rt; goes(rt.alloc(), &mut layer, 1, &first, &[first_record(1, 2, 1)]));
    Ok(())
}

use crate::layer::{DAMAGED, Layer};
use crate::plans::{added, adds_bytes, is_plan, replaces};
use quilt_record::{Edits, Record, point_record};
use quilt_types::{Block, Pixel, Point, PointList, Stop, Window};
use std::alloc::Global;
use std::test::Fail;

/// The whole square of level 3.
const WHOLE: Block = Block {
    x: 0,
    y: 0,
    side: 8,
};

/// A point at the first pixel, and one beside it.
const FIRST: Point = Point {
    at: Pixel { x: 0, y: 0 },
    label: 5,
};

const SECOND: Point = Point {
    at: Pixel { x: 1, y: 0 },
    label: 6,
};

/// A point layer of the number 1 in a map of level 3.
fn planted(alloc: Global, limit: u8, records: &[Record]) -> Result<Layer, Stop> {
    Layer::new(alloc, 1, 3, limit, records)
}

/// The record of a layer of the first point alone, whose blocks hold at most one.
fn first_record() -> Record {
    point_record(1, WHOLE, 3, 1, Some(FIRST))
}

/// Whether these are the labels at the pixels.
fn finds(layer: &mut Layer, labels: &[(Pixel, Option<u32>)]) -> bool {
    for (at, label) in labels {
        if layer.find(*at) != Ok(*label) {
            return false;
        }
    }
    true
}

/// Whether these are the points in the window.
fn has_within(alloc: Global, layer: &mut Layer, w: Window, expected: &[Point]) -> bool {
    match layer.within(alloc, w) {
        Err(_) => false,
        Ok(points) => points.items() == expected,
    }
}

/// Whether an addition answers that a point is at its pixel.
fn is_taken(alloc: Global, layer: &mut Layer, p: Point) -> bool {
    matches!(layer.plan_put(alloc, p), Ok(None))
}

/// Whether a removal answers that no point is at the pixel.
fn is_free(alloc: Global, layer: &mut Layer, at: Pixel) -> bool {
    matches!(layer.plan_del(alloc, at), Ok(None))
}

/// A point that comes to a layer of none, and the bytes of the record that comes with it.
const NEW: Point = Point {
    at: Pixel { x: 5, y: 2 },
    label: 7,
};

static KEY: [u8; 12] = *b"\0\x01\x02\0\0\0\0\0\0\0\0\x1a";

static VALUE: [u8; 16] = *b"\x01\0\x05\0\x02\0\0\0\x07\0\0\0\0\0\0\0";

/// Whether the point takes the place of this record.
fn comes(alloc: Global, layer: &mut Layer, empty: Record) -> Result<bool, Stop> {
    match layer.plan_put(alloc, NEW)? {
        None => Ok(false),
        Some(plan) => Ok(replaces(&plan, &[empty], 1) && adds_bytes(&plan, 0, &KEY, &VALUE)),
    }
}

#[test]
fn a_first_point(rt: HostRuntime) -> Result<(), Fail> {
    let empty = point_record(1, WHOLE, 3, 2, None);
    let mut layer = planted(rt.alloc(), 2, &[empty])?;
    assert!(rt; layer.find(NEW.at) == Ok(None));
    assert!(rt; is_free(rt.alloc(), &mut layer, NEW.at));
    assert!(rt; comes(rt.alloc(), &mut layer, empty) == Ok(true));
    Ok(())
}

/// The labels at pixels of a layer of the first point and the second.
static LABELS: [(Pixel, Option<u32>); 3] = [
    (Pixel { x: 0, y: 0 }, Some(5)),
    (Pixel { x: 1, y: 0 }, Some(6)),
    (Pixel { x: 7, y: 7 }, None),
];

/// The window of both.
const ROW: Window = Window {
    x: 0,
    y: 0,
    w: 2,
    h: 1,
};

/// Whether the layer of these records has both points, and the first alone once the second goes.
fn goes_back(alloc: Global, records: &[Record]) -> Result<bool, Stop> {
    let mut layer = planted(alloc, 1, records)?;
    let has_both = finds(&mut layer, &LABELS)
        && has_within(alloc, &mut layer, ROW, &[FIRST, SECOND]);
    match layer.plan_del(alloc, SECOND.at)? {
        None => Ok(false),
        Some(plan) => Ok(has_both && is_plan(&plan, records, &[first_record()])),
    }
}

/// Whether the second point comes to a layer of the first, and goes again.
fn comes_and_goes(alloc: Global, layer: &mut Layer) -> Result<bool, Stop> {
    match layer.plan_put(alloc, SECOND)? {
        None => Ok(false),
        Some(plan) => {
            Ok(replaces(&plan, &[first_record()], 10) && goes_back(alloc, added(&plan))?)
        }
    }
}

#[test]
fn a_second_point_and_back(rt: HostRuntime) -> Result<(), Fail> {
    let mut layer = planted(rt.alloc(), 1, &[first_record()])?;
    assert!(rt; is_taken(rt.alloc(), &mut layer, Point { label: 9, ..FIRST }));
    assert!(rt; comes_and_goes(rt.alloc(), &mut layer) == Ok(true));
    Ok(())
}

/// Whether calls of the layer with this number say that it is damaged, where the tree has the record of a quarter alone.
fn is_damaged(alloc: Global, number: u8) -> Result<bool, Stop> {
    let small = Block {
        x: 4,
        y: 4,
        side: 4,
    };
    let record = point_record(1, small, 3, 1, None);
    let mut layer = Layer::new(alloc, number, 3, 1, &[record])?;
    let finds = layer.find(FIRST.at) == Err(DAMAGED);
    Ok(finds && layer.plan_put(alloc, FIRST).err() == Some(DAMAGED))
}

#[test]
fn a_damaged_layer(rt: HostRuntime) {
    assert!(rt; is_damaged(rt.alloc(), 1) == Ok(true));
    assert!(rt; is_damaged(rt.alloc(), 2) == Ok(true));
}

/// Points in two other quarters of the square.
const FAR: Point = Point {
    at: Pixel { x: 7, y: 7 },
    label: 8,
};

const NEAR: Point = Point {
    at: Pixel { x: 4, y: 0 },
    label: 9,
};

/// Points of which two share a pixel.
static TWICE: [Point; 3] = [FAR, NEAR, Point { label: 1, ..FAR }];

/// These points in a list.
fn list_of(alloc: Global, points: &[Point]) -> Option<PointList> {
    let mut list = PointList::new(alloc);
    for p in points {
        list.push(*p).ok()?;
    }
    Some(list)
}

/// What changes when these points come at once: nothing where two share a pixel or a point is at one of them.
fn scatter(alloc: Global, layer: &mut Layer, points: &[Point]) -> Result<Option<Edits>, Stop> {
    let list = list_of(alloc, points).ok_or(Stop::Memory)?;
    layer.plan_scatter(alloc, &list)
}

/// Whether the points are refused.
fn is_refused(alloc: Global, layer: &mut Layer, points: &[Point]) -> bool {
    matches!(scatter(alloc, layer, points), Ok(None))
}

/// Whether the layer of these records has four quarters, and a point in the second.
fn has_quarters(alloc: Global, records: &[Record]) -> Result<bool, Stop> {
    let mut layer = planted(alloc, 1, records)?;
    let counts = layer.point_counts()?;
    Ok(counts == [0, 0, 4, 0, 0, 0, 0, 0, 0, 0, 0, 0, 0] && layer.find(NEAR.at) == Ok(Some(9)))
}

/// Whether two points that come to a layer of the first at once part its block.
fn come(alloc: Global, layer: &mut Layer) -> Result<bool, Stop> {
    match scatter(alloc, layer, &[FAR, NEAR])? {
        None => Ok(false),
        Some(plan) => {
            Ok(replaces(&plan, &[first_record()], 4) && has_quarters(alloc, added(&plan))?)
        }
    }
}

#[test]
fn three_points_at_once(rt: HostRuntime) -> Result<(), Fail> {
    let mut layer = planted(rt.alloc(), 1, &[first_record()])?;
    assert!(rt; come(rt.alloc(), &mut layer) == Ok(true));
    assert!(rt; is_refused(rt.alloc(), &mut layer, &TWICE));
    assert!(rt; is_refused(rt.alloc(), &mut layer, &[NEAR, FIRST]));
    Ok(())
}

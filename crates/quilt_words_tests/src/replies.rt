use crate::comparing::is_text;
use quilt_raster::leaves_of;
use quilt_record::{Catalog, Entry};
use quilt_replies::{
    Reply, blocks_text, done_text, edition_text, layers_text, leaves_text, number_text,
    points_text, records_text, show_text,
};
use quilt_types::{Code, Kind, Name, Pixel, Point, PointList, Window};
use std::alloc::{AllocError, Global};
use std::test::Fail;

/// Whether each reply of one line is as it should.
fn are_lines(alloc: Global) -> bool {
    is_text(done_text(alloc), b"ok\n")
        && is_text(number_text(alloc, 0), b"0\nok\n")
        && is_text(number_text(alloc, 65535), b"65535\nok\n")
        && is_text(edition_text(alloc, 1), b"edition 1\nok\n")
        && is_text(records_text(alloc, 257, 512), b"257 of 512\nok\n")
        && is_text(Reply::No(Code::Outside).into_text(alloc), b"no 8 outside\n")
}

#[test]
fn replies_of_one_line(rt: HostRuntime) {
    assert!(rt; are_lines(rt.alloc()));
}

/// A catalog of one entry, or an empty one where the name is none.
fn alone(number: u8, name: &str, kind: Kind) -> Catalog {
    let mut catalog = Catalog::new();
    if let Some(name) = Name::of(name) {
        catalog.insert(Entry { number, name, kind });
    }
    catalog
}

/// The number, name and kind of a layer, and how a list of it alone is told.
static LAYERS: [(u8, &str, Kind, &[u8]); 4] = [
    (1, "a", Kind::Region, b"a region\nok\n"),
    (2, "l", Kind::Lines { threshold: 4 }, b"l lines 4\nok\n"),
    (3, "p", Kind::Points { bucket: 2 }, b"p points 2\nok\n"),
    (4, "q", Kind::Points { bucket: 1 }, b"q points\nok\n"),
];

/// Whether the lists of these layers, each alone, are as they should.
fn are_listed(alloc: Global, layers: &[(u8, &str, Kind, &[u8])]) -> bool {
    for (number, name, kind, text) in layers {
        let catalog = alone(*number, name, *kind);
        if !is_text(layers_text(alloc, catalog.entries()), text) {
            return false;
        }
    }
    true
}

#[test]
fn layers_by_kind(rt: HostRuntime) {
    assert!(rt; are_listed(rt.alloc(), &LAYERS));
}

/// A raster of level 2, with colour 2 at the pixel (1, 1) and 0 elsewhere.
static DOTTED: [u8; 32] = *b"\0\0\0\0\0\0\0\0\0\0\0\x02\0\0\0\0\0\0\0\0\0\0\0\0\0\0\0\0\0\0\0\0";

/// The window of two by two pixels from (1, 0) on.
const UPPER: Window = Window {
    x: 1,
    y: 0,
    w: 2,
    h: 2,
};

/// The leaves of that raster.
static LEAVES: &[u8] = b"0 0 1 0\n1 0 1 0\n2 0 2 0\n0 1 1 0\n1 1 1 2\n0 2 2 0\n2 2 2 0\nok\n";

/// How many leaves of each side it has: four of one pixel and three of two by two.
static COUNTS: [u32; 13] = [4, 3, 0, 0, 0, 0, 0, 0, 0, 0, 0, 0, 0];

/// Whether the leaves, the counts and a window of that raster are told as they should.
fn is_told(alloc: Global) -> Result<bool, AllocError> {
    let list = leaves_of(alloc, &DOTTED, 2)?;
    Ok(
        is_text(leaves_text(alloc, &list), LEAVES)
            && is_text(blocks_text(alloc, 2, &COUNTS), b"2 3\n1 4\nok\n")
            && is_text(show_text(alloc, &list, UPPER, 1), b"0000\n0200\nok\n"),
    )
}

#[test]
fn regions_row_by_row(rt: HostRuntime) -> Result<(), Fail> {
    assert!(rt; is_told(rt.alloc())?);
    Ok(())
}

static POINTS: [Point; 2] = [
    Point {
        at: Pixel { x: 3, y: 0 },
        label: 70000,
    },
    Point {
        at: Pixel { x: 1, y: 2 },
        label: 0,
    },
];

/// A list of these points.
fn list_of(alloc: Global, points: &[Point]) -> Result<PointList, AllocError> {
    let mut list = PointList::new(alloc);
    for point in points {
        list.push(*point)?;
    }
    Ok(list)
}

#[test]
fn points_line_by_line(rt: HostRuntime) -> Result<(), Fail> {
    let points = list_of(rt.alloc(), &POINTS)?;
    assert!(rt; is_text(points_text(rt.alloc(), &points), b"3 0 70000\n1 2 0\nok\n"));
    Ok(())
}

use quilt_types::{Code, Corner, Name, Pixel, Point, PointList, RingList, Stop, Text};
use std::alloc::{AllocError, Global};
use std::test::Fail;

/// The words for three ways in which a run stops.
fn told(alloc: Global) -> Result<String, AllocError> {
    format!(in alloc;
        "{}, {}, {}",
        Stop::Device,
        Stop::Memory,
        Stop::Damaged { page: 17 }
    )
}

#[test]
fn stops_are_told_in_words(rt: HostRuntime) -> Result<(), Fail> {
    let text = told(rt.alloc())?;
    assert!(rt; text.as_str() == "device fault, out of memory, damaged page 17");
    Ok(())
}

/// Whether the text is a name, which is copied with it.
fn is_name(text: &str) -> bool {
    match Name::of(text) {
        Some(name) => name.copy().text() == text,
        None => false,
    }
}

/// Whether both texts are names, and the first is below the second.
fn are_in_order(first: &str, second: &str) -> bool {
    match (Name::of(first), Name::of(second)) {
        (Some(first), Some(second)) => first < second,
        _ => false,
    }
}

#[test]
fn names_are_told_apart(rt: HostRuntime) {
    assert!(rt; is_name("river_2"));
    assert!(rt; Name::of("2nd").is_none());
    assert!(rt; Name::of("a_name_of_thirteen").is_none());
    assert!(rt; are_in_order("river_2", "road"));
}

/// The text of these pieces, one behind another.
fn joined(alloc: Global, pieces: &[&[u8]]) -> Result<Text, AllocError> {
    let mut text = Text::new(alloc);
    for piece in pieces {
        text.push(piece)?;
    }
    Ok(text)
}

/// How many points a list has once one was put into it.
fn listed(alloc: Global, point: Point) -> Result<usize, AllocError> {
    let mut points = PointList::new(alloc);
    points.push(point)?;
    Ok(points.items().len())
}

#[test]
fn lists_grow(rt: HostRuntime) -> Result<(), Fail> {
    let point = Point {
        at: Pixel { y: 2, x: 1 },
        label: 7,
    };
    assert!(rt; listed(rt.alloc(), point)? == 1);
    let text = joined(rt.alloc(), &[b"no ", Code::Editions.word().as_bytes()])?;
    assert!(rt; text.bytes() == b"no editions".as_slice());
    Ok(())
}

#[test]
fn codes_have_numbers_and_words(rt: HostRuntime) {
    assert!(rt; Code::Editions.number() == 16);
    assert!(rt; Code::Format.number() == 15);
    assert!(rt; Code::Many.word() == "many");
}

/// Puts a ring of these corners behind the others.
fn put_ring(rings: &mut RingList, corners: &[Corner]) -> Result<(), AllocError> {
    rings.begin_ring()?;
    for corner in corners {
        if rings.len() > 0 {
            rings.push(*corner)?;
        }
    }
    Ok(())
}

/// A list of these two rings.
fn two_rings(alloc: Global, first: &[Corner], second: &[Corner]) -> Result<RingList, AllocError> {
    let mut rings = RingList::new(alloc);
    put_ring(&mut rings, first)?;
    put_ring(&mut rings, second)?;
    Ok(rings)
}

/// Whether a ring has these corners.
fn is_ring(rings: &RingList, i: usize, corners: &[Corner]) -> bool {
    i < rings.len() && rings.corners(i) == corners
}

/// A ring of two corners, and one of the greatest number.
static FIRST: [Corner; 2] = [Corner { x: 0, y: 0 }, Corner { x: 8, y: 0 }];

static SECOND: [Corner; 1] = [Corner { x: 1, y: 65535 }];

#[test]
fn rings_grow(rt: HostRuntime) -> Result<(), Fail> {
    let rings = two_rings(rt.alloc(), &FIRST, &SECOND)?;
    assert!(rt; rings.len() == 2);
    assert!(rt; is_ring(&rings, 0, &FIRST));
    assert!(rt; is_ring(&rings, 1, &SECOND));
    Ok(())
}

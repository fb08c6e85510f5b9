use crate::drawing::below;
use crate::layer::{DAMAGED, Layer};
use crate::plans::{added, adds_bytes, is_plan, replaces};
use quilt_blocks::LeafList;
use quilt_raster::leaves_of;
use quilt_record::{Edits, Record, key_bytes};
use quilt_region::{first_key, last_key, layer_laws, plan_new, plan_replace, region_laws};
use quilt_types::{Colour, Pixel, Stop, Window};
use std::alloc::Global;
use std::test::Fail;

/// A region layer of the number 1 in a map of this level.
fn planted(alloc: Global, level: u8, records: &[Record]) -> Result<Layer, Stop> {
    Layer::new(alloc, 1, level, 1, records)
}

/// The map of level 3 that a raster says.
fn small_map(alloc: Global, raster: &[u8; 128]) -> Result<LeafList, Stop> {
    leaves_of(alloc, raster, 3).ok().ok_or(Stop::Memory)
}

/// The map of level 6 that a raster says.
fn large_map(alloc: Global, raster: &[u8; 8192]) -> Result<LeafList, Stop> {
    leaves_of(alloc, raster, 6).ok().ok_or(Stop::Memory)
}

/// The plan of a new layer of the number 1.
fn fresh_plan(alloc: Global, map: &LeafList) -> Result<Edits, Stop> {
    plan_new(alloc, 1, map).ok().ok_or(Stop::Memory)
}

/// The layer of a map.
fn layer_of(alloc: Global, map: &LeafList) -> Result<Layer, Stop> {
    let plan = fresh_plan(alloc, map)?;
    planted(alloc, map.level(), added(&plan))
}

/// The plan that turns one map into another, both of the number 1 and of one level.
fn changes(alloc: Global, old: &LeafList, new: &LeafList) -> Result<Edits, Stop> {
    if old.level() != new.level() {
        return Err(Stop::Device);
    }
    plan_replace(alloc, 1, old, new).ok().ok_or(Stop::Memory)
}

/// Gives a pixel of a raster of this many pixels a side a colour below 256.
fn set(raster: &mut [u8], side: u16, x: u16, y: u16, colour: u16) {
    let row = usize::from(side).wrapping_mul(usize::from(y));
    let place = row.wrapping_add(usize::from(x)).wrapping_mul(2);
    if let Some(low) = raster.get_mut(place.wrapping_add(1)) {
        *low = (colour & 255) as u8;
    }
}

/// A raster of level 3 of one colour, 0.
static BLANK: [u8; 128] = [0; 128];

/// The same in which a pixel has colour 7.
fn dotted() -> [u8; 128] {
    let mut raster = BLANK;
    set(&mut raster, 8, 5, 2, 7);
    raster
}

/// That pixel.
const PIXEL: Window = Window {
    x: 5,
    y: 2,
    w: 1,
    h: 1,
};

/// Its record.
static KEY: [u8; 12] = *b"\0\x01\x01\0\0\0\x19\x03\0\0\0\0";

static VALUE: [u8; 16] = *b"\x07\0\0\0\0\0\0\0\0\0\0\0\0\0\0\0";

/// Whether ten records take the place of the blank map's, one of them that of the pixel, and this one theirs on the way back.
fn leads_there_and_back(alloc: Global, blank: &LeafList, dotted: &LeafList) -> Result<bool, Stop> {
    let fresh = fresh_plan(alloc, blank)?;
    let there = changes(alloc, blank, dotted)?;
    let back = changes(alloc, dotted, blank)?;
    let is_there = replaces(&there, added(&fresh), 10) && adds_bytes(&there, 4, &KEY, &VALUE);
    Ok(replaces(&fresh, &[], 1) && is_there && is_plan(&back, added(&there), added(&fresh)))
}

#[test]
fn plans_of_one_pixel_and_back(rt: HostRuntime) -> Result<(), Fail> {
    let blank = small_map(rt.alloc(), &BLANK)?;
    let dotted = small_map(rt.alloc(), &dotted())?;
    assert!(rt; leads_there_and_back(rt.alloc(), &blank, &dotted) == Ok(true));
    Ok(())
}

/// How many leaves the layer has.
fn leaf_count(alloc: Global, layer: &mut Layer) -> Result<usize, Stop> {
    Ok(layer.leaves(alloc)?.len())
}

/// Whether the pixel's colour 0 leads from the dotted map to one record.
fn is_cleared(alloc: Global, layer: &mut Layer, dotted: &LeafList) -> Result<bool, Stop> {
    let fresh = fresh_plan(alloc, dotted)?;
    let plan = layer.plan_rect(alloc, PIXEL, Colour(0))?;
    Ok(replaces(&plan, added(&fresh), 1))
}

#[test]
fn a_layer_in_a_store(rt: HostRuntime) -> Result<(), Fail> {
    let map = small_map(rt.alloc(), &dotted())?;
    let mut layer = layer_of(rt.alloc(), &map)?;
    assert!(rt; leaf_count(rt.alloc(), &mut layer) == Ok(10));
    assert!(rt; layer.leaf_counts() == Ok([4, 3, 3, 0, 0, 0, 0, 0, 0, 0, 0, 0, 0]));
    assert!(rt; layer.colour_at(Pixel { x: 5, y: 2 }) == Ok(Colour(7)));
    assert!(rt; layer.colour_at(Pixel { x: 5, y: 1 }) == Ok(Colour(0)));
    assert!(rt; layer.colour_at(Pixel { x: 7, y: 7 }) == Ok(Colour(0)));
    assert!(rt; is_cleared(rt.alloc(), &mut layer, &map) == Ok(true));
    Ok(())
}

/// A window across the middle of the square of level 3.
const ACROSS: Window = Window {
    x: 3,
    y: 3,
    w: 2,
    h: 2,
};

/// Windows of a blank layer that get a colour, whether the record of the square goes, and how many come.
static PAINTED: [(Window, Colour, bool, usize); 3] = [
    (PIXEL, Colour(7), true, 10),
    (PIXEL, Colour(0), false, 0),
    (ACROSS, Colour(7), true, 28),
];

/// Whether the plans of the windows in a layer of one record are those of the table.
fn are_painted(alloc: Global, layer: &mut Layer, whole: &[Record]) -> Result<bool, Stop> {
    for (w, colour, goes, count) in &PAINTED {
        let plan = layer.plan_rect(alloc, *w, *colour)?;
        if !replaces(&plan, if *goes { whole } else { &[] }, *count) {
            return Ok(false);
        }
    }
    Ok(true)
}

#[test]
fn plans_of_windows_in_a_store(rt: HostRuntime) -> Result<(), Fail> {
    let plan = fresh_plan(rt.alloc(), &small_map(rt.alloc(), &BLANK)?)?;
    let mut layer = planted(rt.alloc(), 3, added(&plan))?;
    assert!(rt; are_painted(rt.alloc(), &mut layer, added(&plan)) == Ok(true));
    Ok(())
}

/// Gives the pixels of a window of a raster of level 6 a colour.
fn paint(raster: &mut [u8; 8192], w: Window, colour: u16) {
    for dy in 0..w.h {
        for dx in 0..w.w {
            let (x, y) = (w.x.wrapping_add(dx), w.y.wrapping_add(dy));
            set(raster, 64, x, y, colour);
        }
    }
}

/// A raster of level 6: each block of 16 pixels a side has one colour, and around the middle each pixel.
fn drawn(state: &mut u32) -> [u8; 8192] {
    let mut raster = [0; 8192];
    for i in 0..16_u16 {
        let block = Window {
            x: (i & 3) << 4,
            y: (i >> 2) << 4,
            w: 16,
            h: 16,
        };
        paint(&mut raster, block, below(state, 3));
    }
    for i in 0..64_u16 {
        set(
            &mut raster,
            64,
            28 + (i & 7),
            28 + (i >> 3),
            below(state, 3),
        );
    }
    raster
}

/// A window around the middle of a square of level 6, at most 8 pixels a side.
fn around_middle(state: &mut u32) -> Window {
    Window {
        x: below(state, 8).wrapping_add(26),
        y: below(state, 8).wrapping_add(26),
        w: below(state, 8).wrapping_add(1),
        h: below(state, 8).wrapping_add(1),
    }
}

/// Whether the plan of a window in the layer of a map is that which leads to the other map.
fn is_same_plan(
    alloc: Global,
    (old, new): (&LeafList, &LeafList),
    w: Window,
    colour: u16,
) -> Result<bool, Stop> {
    let plan = layer_of(alloc, old)?.plan_rect(alloc, w, Colour(colour))?;
    let whole = changes(alloc, old, new)?;
    Ok(is_plan(&plan, whole.remove.records(), added(&whole)))
}

/// Compares the plan of a drawn window with that of the plain colours before and after.
fn tries_window(alloc: Global, state: &mut u32) -> Result<bool, Stop> {
    let mut raster = drawn(state);
    let old = large_map(alloc, &raster)?;
    let w = around_middle(state);
    let colour = below(state, 3);
    paint(&mut raster, w, colour);
    let new = large_map(alloc, &raster)?;
    is_same_plan(alloc, (&old, &new), w, colour)
}

/// Plans of windows around the middle of drawn maps are those of the plain colours before and after.
#[test]
fn windows_across_the_middle(rt: HostRuntime) {
    let mut state = 1;
    for _ in 0..40 {
        assert!(rt; tries_window(rt.alloc(), &mut state) == Ok(true));
    }
}

#[test]
fn keys_around_a_layer(rt: HostRuntime) {
    layer_laws();
    region_laws();
    let first = key_bytes(&first_key(9));
    assert!(rt; first == *b"\0\x09\0\0\0\0\0\0\0\0\0\0");
    let last = key_bytes(&last_key(9));
    assert!(rt; last == *b"\0\x09\xff\xff\xff\xff\xff\xff\xff\xff\xff\xff");
}

/// A raster of level 6 in which no two neighbours have one colour, so that the records of its layer take many leaves of a tree.
fn chequered() -> [u8; 8192] {
    let mut raster = [0; 8192];
    for y in 0..64_u16 {
        for x in 0..64_u16 {
            set(&mut raster, 64, x, y, (x ^ y) & 1);
        }
    }
    raster
}

#[test]
fn leaves_of_each_side(rt: HostRuntime) -> Result<(), Fail> {
    let mut blank = layer_of(rt.alloc(), &small_map(rt.alloc(), &BLANK)?)?;
    assert!(rt; blank.leaf_counts() == Ok([0, 0, 0, 1, 0, 0, 0, 0, 0, 0, 0, 0, 0]));
    let mut full = layer_of(rt.alloc(), &large_map(rt.alloc(), &chequered())?)?;
    assert!(rt; full.leaf_counts() == Ok([4096, 0, 0, 0, 0, 0, 0, 0, 0, 0, 0, 0, 0]));
    Ok(())
}

/// Whether the leaves of the layer can be neither listed nor counted, as it is damaged.
fn is_damaged(alloc: Global, layer: &mut Layer) -> bool {
    leaf_count(alloc, layer) == Err(DAMAGED) && layer.leaf_counts() == Err(DAMAGED)
}

/// The last record of the layer that a raster says.
fn last_record(alloc: Global, raster: &[u8; 128]) -> Result<Record, Stop> {
    let plan = fresh_plan(alloc, &small_map(alloc, raster)?)?;
    added(&plan).last().copied().ok_or(Stop::Device)
}

/// A leaf that covers the square, and behind it one that lies in it.
#[test]
fn a_leaf_behind_the_last(rt: HostRuntime) -> Result<(), Fail> {
    let whole = last_record(rt.alloc(), &BLANK)?;
    let part = last_record(rt.alloc(), &dotted())?;
    let mut layer = planted(rt.alloc(), 3, &[whole, part])?;
    assert!(rt; is_damaged(rt.alloc(), &mut layer));
    Ok(())
}

/// Numbers and levels of a layer that is none, in a tree of records of the number 1 and level 3 without the first of them.
static GAPS: [(u8, u8); 3] = [(1, 3), (1, 4), (2, 3)];

/// Whether the layer of this number and level is damaged, at its first pixel too.
fn has_gap(alloc: Global, number: u8, level: u8, records: &[Record]) -> Result<bool, Stop> {
    let mut layer = Layer::new(alloc, number, level, 1, records)?;
    let corner = layer.colour_at(Pixel { x: 0, y: 0 });
    Ok(corner == Err(DAMAGED) && is_damaged(alloc, &mut layer))
}

#[test]
fn damaged_layers(rt: HostRuntime) -> Result<(), Fail> {
    let plan = fresh_plan(rt.alloc(), &small_map(rt.alloc(), &dotted())?)?;
    let records = added(&plan).get(1..).ok_or("records")?;
    for (number, level) in &GAPS {
        assert!(rt; has_gap(rt.alloc(), *number, *level, records) == Ok(true));
    }
    Ok(())
}

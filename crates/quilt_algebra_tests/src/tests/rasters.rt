use crate::comparing::{Square, colour_in, count_of, has_leaves, is_shown, list_of_bytes, rows_of};
use quilt_blocks::{Cursor, Leaf, LeafList};
use quilt_types::{Block, Colour, Window};
use std::alloc::Global;
use std::test::Fail;
use std::time::Instant;

/// Fills the bytes with zeros and, for one in four, ones: both bytes of a colour.
fn paint(seed: &mut u32, bytes: &mut [u8]) {
    for c in bytes {
        *seed = seed.wrapping_mul(1664525).wrapping_add(1013904223);
        *c = (*seed >> 30) as u8 / 3;
    }
}

/// Both bytes at a place of a list of pairs, as a number.
fn pair_at(bytes: &[u8], place: usize) -> Option<u16> {
    let first = place.wrapping_mul(2);
    let high = bytes.get(first).copied()?;
    let low = bytes.get(first.wrapping_add(1)).copied()?;
    Some(u16::from_be_bytes([high, low]))
}

/// The colour of a pixel of a raster with rows of this length.
fn colour(bytes: &[u8], row: u32, x: u32, y: u32) -> Option<u16> {
    pair_at(bytes, y.wrapping_mul(row).wrapping_add(x) as usize)
}

/// Whether all pixels from (x, y) on, as many in a row as rows, have the colour of the first.
fn has_one_colour(colours: &[u8], row: u32, x: u32, y: u32, size: u32) -> bool {
    let first = colour(colours, row, x, y);
    for dy in 0..size {
        for dx in 0..size {
            if colour(colours, row, x.wrapping_add(dx), y.wrapping_add(dy)) != first {
                return false;
            }
        }
    }
    true
}

/// Whether the block is of one colour and the block around it is not, or there is none.
fn is_maximal(colours: &[u8], row: u32, x: u32, y: u32, size: u32) -> bool {
    let twice = size.wrapping_mul(2);
    let left = x.wrapping_sub(x.checked_rem(twice).unwrap_or(0));
    let top = y.wrapping_sub(y.checked_rem(twice).unwrap_or(0));
    has_one_colour(colours, row, x, y, size)
        && (size == row || !has_one_colour(colours, row, left, top, twice))
}

/// How many maximal blocks the raster has, by a search of all blocks.
fn count_maximal(colours: &[u8], row: u32) -> usize {
    let mut count = 0_usize;
    for size in [1, 2, 4, 8, 16] {
        for y in 0..row {
            for x in 0..row {
                let on = x.checked_rem(size) == Some(0) && y.checked_rem(size) == Some(0);
                if size <= row && on && is_maximal(colours, row, x, y, size) {
                    count = count.wrapping_add(1);
                }
            }
        }
    }
    count
}

/// Whether the leaf is a maximal block of the raster.
fn is_leaf(colours: &[u8], row: u32, leaf: &Leaf) -> bool {
    let (x, y) = (u32::from(leaf.block.x), u32::from(leaf.block.y));
    is_maximal(colours, row, x, y, u32::from(leaf.block.side))
        && colour(colours, row, x, y) == Some(leaf.colour.0)
}

/// Whether all leaves are maximal blocks of the raster.
fn are_leaves(list: &LeafList, colours: &[u8], row: u32) -> bool {
    let mut leaves = Cursor::new(list);
    for _ in 0..list.len() {
        match leaves.next() {
            Some(leaf) => if !is_leaf(colours, row, &leaf) {
                return false;
            }
            None => return false,
        }
    }
    true
}

/// Whether the leaves of a raster are those that a plain search finds.
fn is_raster(alloc: Global, level: u8, colours: &[u8]) -> bool {
    let row = 1_u32.wrapping_shl(u32::from(level));
    match list_of_bytes(alloc, level, colours) {
        Some(list) => {
            are_leaves(&list, colours, row) && count_of(&list) == count_maximal(colours, row)
        }
        None => false,
    }
}

/// Rasters of level 1 and their leaves.
static RASTERS: [([u8; 8], &[Square]); 4] = [
    ([0, 3, 0, 3, 0, 3, 0, 3], &[(0, 0, 2, 3)]),
    (
        [0, 0, 0, 1, 0, 1, 0, 0],
        &[(0, 0, 1, 0), (1, 0, 1, 1), (0, 1, 1, 1), (1, 1, 1, 0)],
    ),
    // Colours of two bytes, and two colours with one low byte.
    ([1, 2, 1, 2, 1, 2, 1, 2], &[(0, 0, 2, 258)]),
    (
        [0, 2, 1, 2, 0, 2, 1, 2],
        &[(0, 0, 1, 2), (1, 0, 1, 258), (0, 1, 1, 2), (1, 1, 1, 258)],
    ),
];

#[test]
fn worked_rasters(rt: HostRuntime) -> Result<(), Fail> {
    for (bytes, leaves) in &RASTERS {
        let list = list_of_bytes(rt.alloc(), 1, bytes).ok_or("no list")?;
        assert!(rt; has_leaves(&list, leaves));
    }
    Ok(())
}

/// The raster of four of three colours, by its number.
fn small(a: u8) -> [u8; 8] {
    let (b, c, d, e) = (a % 3, a / 3 % 3, a / 9 % 3, a / 27);
    [e, b, b, c, c, d, d, e]
}

/// Whether the leaves of a drawn raster of this level are as they should.
fn is_drawn(alloc: Global, seed: &mut u32, level: u8, bytes: &mut [u8]) -> bool {
    paint(seed, bytes);
    is_raster(alloc, level, bytes)
}

#[test]
fn small_and_random_rasters(rt: HostRuntime) {
    for a in 0..81_u8 {
        assert!(rt; is_raster(rt.alloc(), 1, &small(a)));
    }
    let mut seed = 12345_u32;
    for _ in 0..250_u8 {
        assert!(rt; is_drawn(rt.alloc(), &mut seed, 3, &mut [0; 128]));
        assert!(rt; is_drawn(rt.alloc(), &mut seed, 4, &mut [0; 512]));
    }
}

/// The colours of the square of a list of level 1 and of its second quarter, where it has one.
fn uniform(list: &LeafList) -> Option<(Option<Colour>, Option<Colour>)> {
    if list.level() != 1 {
        return None;
    }
    let whole = list.uniform_in(Block {
        x: 0,
        y: 0,
        side: 2,
    });
    let quarter = list.uniform_in(Block {
        x: 1,
        y: 0,
        side: 1,
    });
    Some((whole, quarter))
}

/// The colours of the square of these bytes.
fn uniform_of(alloc: Global, bytes: &[u8]) -> Option<(Option<Colour>, Option<Colour>)> {
    uniform(&list_of_bytes(alloc, 1, bytes)?)
}

/// Rasters of level 1 that are not of one colour, and the colour of their second quarter.
static MIXED: [([u8; 8], u16); 2] = [
    ([0, 0, 0, 1, 0, 1, 0, 0], 1),
    ([0, 0, 1, 1, 0, 1, 0, 0], 257),
];

#[test]
fn blocks_of_one_colour(rt: HostRuntime) {
    for (bytes, c) in &MIXED {
        assert!(rt; uniform_of(rt.alloc(), bytes) == Some((None, Some(Colour(*c)))));
    }
}

/// The colour of a pixel of a chessboard in squares of 32, in each of which one pixel has a colour of its own.
fn chess_colour(x: u32, y: u32) -> u16 {
    if x % 32 == 5 && y % 32 == 7 {
        512
    } else {
        ((x / 32).wrapping_add(y / 32) % 2) as u16
    }
}

/// Such a chessboard of 1024 by 1024 pixels.
fn chessboard(alloc: Global) -> Option<Vec<u8>> {
    let mut bytes = Vec::new(alloc);
    for i in 0..1048576_u32 {
        let colour = chess_colour(i % 1024, i / 1024);
        bytes.extend_from_slice(&colour.to_be_bytes()).ok()?;
    }
    Some(bytes)
}

/// The window of all pixels of that raster.
const ALL: Window = Window {
    x: 0,
    y: 0,
    w: 1024,
    h: 1024,
};

/// A raster of level 10. The times are only printed.
#[test]
fn large_raster(rt: HostRuntime) -> Result<(), Fail> {
    let colours = chessboard(rt.alloc()).ok_or("no memory")?;
    let start = Instant::now(&rt)?;
    let list = list_of_bytes(rt.alloc(), 10, &colours).ok_or("no list")?;
    let made = start.elapsed(&rt)?;
    let rows = rows_of(rt.alloc(), &list, ALL, 2).ok_or("no rows")?;
    let both = start.elapsed(&rt)?;
    assert!(rt; count_of(&list) == 16384 && rows.bytes().len() == 4195328);
    println!(rt; "1048576 pixels, 16384 leaves: {made:?} to read, {both:?} to read and show")?;
    Ok(())
}

/// The window of all four pixels at level 1.
const FOUR: Window = Window {
    x: 0,
    y: 0,
    w: 2,
    h: 2,
};

/// Rasters of level 1, formats, and their rows as they are shown.
static SHOWN: [([u8; 8], u8, &[u8]); 4] = [
    ([0, 0, 0, 1, 0, 171, 0, 16], 1, b"0001\nab10\n"),
    ([0, 0, 0, 1, 0, 171, 0, 16], 2, b"00000001\n00ab0010\n"),
    // Colours of two bytes.
    ([0, 0, 1, 0, 1, 2, 254, 220], 2, b"00000100\n0102fedc\n"),
    ([0, 0, 1, 0, 1, 2, 254, 220], 1, b"0000\n02dc\n"),
];

/// Whether the raster is shown by this text, and its third pixel has the colour of its bytes.
fn shows(alloc: Global, bytes: &[u8; 8], format: u8, text: &[u8]) -> bool {
    match list_of_bytes(alloc, 1, bytes) {
        Some(list) => {
            is_shown(alloc, &list, FOUR, format, text)
                && colour_in(&list, 0, 1) == pair_at(bytes, 2)
        }
        None => false,
    }
}

#[test]
fn shown_rows(rt: HostRuntime) {
    for (bytes, format, text) in &SHOWN {
        assert!(rt; shows(rt.alloc(), bytes, *format, text));
    }
}

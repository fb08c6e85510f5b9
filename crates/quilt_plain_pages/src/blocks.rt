use quilt_record::Key;
use std::alloc::{AllocError, Global};

/// A block by the code at which it begins and the exponent of its side.
#[derive(Clone, Copy, PartialEq, Eq)]
pub struct Span {
    pub code: u32,
    pub k: u8,
}

/// How many pixels a block has whose side is 2 to this power, which is below 16.
pub fn size(k: u8) -> u32 {
    1_u32.wrapping_shl(2 * u32::from(k % 16))
}

/// The block of the record's key in a map of the level, if the key is one of a block of this part, and the block lies in the
/// square.
pub fn span_of(k: &Key, part: u8, level: u8) -> Option<Span> {
    if k.part != part || k.depth > level {
        return None;
    }
    let span = Span {
        code: k.code,
        k: level - k.depth,
    };
    let is_there = k.code < size(level) && k.code.checked_rem(size(span.k)) == Some(0);
    is_there.then_some(span)
}

/// The pixel of a code: its x and its y.
pub fn place_of(code: u32) -> (u16, u16) {
    let mut x = 0_u16;
    let mut y = 0_u16;
    for i in 0..12_u32 {
        let bits = code.wrapping_shr(2 * i);
        if bits % 2 == 1 {
            x |= 1_u16.wrapping_shl(i);
        }
        if bits / 2 % 2 == 1 {
            y |= 1_u16.wrapping_shl(i);
        }
    }
    (x, y)
}

/// The code of a pixel, where its coordinates are below 4096.
pub fn code_of(x: u16, y: u16) -> Option<u32> {
    if x >= 4096 || y >= 4096 {
        return None;
    }
    let mut code = 0;
    for i in 0..12_u32 {
        if x.wrapping_shr(i) % 2 == 1 {
            code |= 1_u32.wrapping_shl(2 * i);
        }
        if y.wrapping_shr(i) % 2 == 1 {
            code |= 2_u32.wrapping_shl(2 * i);
        }
    }
    Some(code)
}

/// As many cells as a map of the level has pixels, in the order of their codes.
pub fn blank<T: Copy>(alloc: Global, level: u8, with: T) -> Result<Vec<T>, AllocError> {
    let mut cells = Vec::new(alloc);
    for _ in 0..size(level) {
        cells.push(with)?;
    }
    Ok(cells)
}

/// Writes a number into the cells of a block, and tells whether all were there and empty.
pub fn paint(cells: &mut [Option<u16>], b: Span, with: u16) -> bool {
    for code in b.code..b.code.saturating_add(size(b.k)) {
        match cells.get_mut(code as usize) {
            Some(cell) if cell.is_none() => *cell = Some(with),
            _ => return false,
        }
    }
    true
}

use quilt_record::{Key, Record};

/// The bytes of a page.
pub type Page = [u8; 4096];

/// The byte at a place of a page.
pub fn byte(page: &Page, at: usize) -> u8 {
    page.get(at).copied().unwrap_or(0)
}

/// The place of the i-th of things of one size, from a place on.
pub fn offset(from: usize, i: usize, size: usize) -> usize {
    from.wrapping_add(i.wrapping_mul(size))
}

/// The number of two bytes.
pub fn short(page: &Page, at: usize) -> u16 {
    u16::from_be_bytes([byte(page, at), byte(page, at.wrapping_add(1))])
}

/// The number of four bytes.
pub fn word(page: &Page, at: usize) -> u32 {
    u32::from_be_bytes([
        byte(page, at),
        byte(page, at.wrapping_add(1)),
        byte(page, at.wrapping_add(2)),
        byte(page, at.wrapping_add(3)),
    ])
}

/// The key of twelve bytes.
pub fn key(page: &Page, at: usize) -> Key {
    Key {
        layer: short(page, at),
        part: byte(page, at.wrapping_add(2)),
        code: word(page, at.wrapping_add(3)),
        depth: byte(page, at.wrapping_add(7)),
        item: word(page, at.wrapping_add(8)),
    }
}

/// The record of 28 bytes.
pub fn record(page: &Page, at: usize) -> Record {
    let mut value = [0; 16];
    for i in 0..16_usize {
        value[i] = byte(page, at.wrapping_add(12).wrapping_add(i));
    }
    Record {
        key: key(page, at),
        value,
    }
}

/// Whether the bytes from one place up to another are zero.
pub fn is_zero(page: &Page, from: usize, to: usize) -> bool {
    (from..to).all(|at| byte(page, at) == 0)
}

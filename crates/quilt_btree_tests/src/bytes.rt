//! Pages of the tree, laid byte by byte.

/// Puts another byte at a place of a page, and gives the one that was there. A place behind the page is left alone.
pub fn swap(page: &mut [u8; 4096], at: usize, byte: u8) -> u8 {
    match page.get_mut(at) {
        Some(cell) => {
            let old = *cell;
            *cell = byte;
            old
        }
        None => byte,
    }
}

/// Puts bytes into a page, from a place on.
pub fn lay(page: &mut [u8; 4096], at: usize, bytes: &[u8]) {
    let mut place = at;
    for byte in bytes {
        swap(page, place, *byte);
        place = place.wrapping_add(1);
    }
}

/// A page of zeros but for these bytes at their places.
pub fn laid(bytes: &[(usize, u8)]) -> [u8; 4096] {
    let mut page = [0; 4096];
    for (at, byte) in bytes {
        swap(&mut page, *at, *byte);
    }
    page
}

/// The leaf of the `n` records whose items are `step` from each other, from `first` on.
pub fn leaf(first: u32, step: u32, n: u8) -> [u8; 4096] {
    let mut page = laid(&[(0, 1), (1, 1), (3, n)]);
    let mut item = first;
    for i in 0..n {
        let at = 64 + 28 * usize::from(i);
        lay(&mut page, at, &[0, 1, 4]);
        lay(&mut page, at + 8, &item.to_be_bytes());
        lay(&mut page, at + 12, &[7; 16]);
        item = item.wrapping_add(step);
    }
    page
}

/// The inner page of the `n` children from the page `child` on, whose keys are `span` from each other, the first of them
/// `span` above `first`.
pub fn inner(height: u8, child: u32, n: u8, first: u32, span: u32) -> [u8; 4096] {
    let mut page = laid(&[(0, 2), (1, height), (3, n)]);
    let mut child = child;
    let mut item = first;
    for i in 0..n {
        let place = usize::from(i);
        lay(&mut page, 8 + 4 * place, &child.to_be_bytes());
        if place > 0 {
            lay(&mut page, 1012 + 12 * place, &[0, 1, 4]);
            lay(&mut page, 1020 + 12 * place, &item.to_be_bytes());
        }
        child = child.wrapping_add(1);
        item = item.wrapping_add(span);
    }
    page
}

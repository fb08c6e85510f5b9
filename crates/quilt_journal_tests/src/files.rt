use quilt_world::Image;
use std::alloc::{AllocError, Global};

/// Replaces a page of a file. A page behind the file is left alone.
pub fn put_page(file: &mut Image, page: u32, bytes: &[u8; 4096]) {
    if page < file.pages() {
        file.set_page(page, bytes);
    }
}

/// A page of this byte that begins with these bytes.
fn page_of(byte: u8, front: &[u8]) -> [u8; 4096] {
    let mut page = [byte; 4096];
    let mut place = 0_usize;
    for byte in front {
        if let Some(there) = page.get_mut(place) {
            *there = *byte;
        }
        place = place.wrapping_add(1);
    }
    page
}

/// A map file of 16 home pages, of which page i is filled with the byte i.
pub fn map_file(alloc: Global) -> Result<Image, AllocError> {
    let mut image = Image::new(alloc, 35)?;
    put_page(&mut image, 0, &page_of(0, b"QUILT MAP FILE\n"));
    for i in 0..16_u8 {
        put_page(&mut image, 3 + u32::from(i), &[i; 4096]);
    }
    Ok(image)
}

/// The map file with this byte all over its gate, a directory that begins with this byte and lists pages beyond the home
/// pages, and a slot of page 0 that is filled with 77.
pub fn foreign_file(alloc: Global, gate: u8, listed: u8) -> Result<Image, AllocError> {
    let mut image = map_file(alloc)?;
    put_page(&mut image, 1, &[gate; 4096]);
    put_page(&mut image, 2, &page_of(255, &[listed, 0]));
    put_page(&mut image, 19, &[77; 4096]);
    Ok(image)
}

//! Files that are laid byte by byte.
use quilt_world::Image;
use std::alloc::Global;

/// A page, a place in it, and the bytes that stand there.
pub type Piece = (u32, usize, &'static [u8]);

/// Puts bytes into a page, from a place on.
fn put_into(page: &mut [u8; 4096], at: usize, bytes: &[u8]) {
    let mut place = at;
    for byte in bytes {
        if let Some(cell) = page.get_mut(place) {
            *cell = *byte;
        }
        place = place.wrapping_add(1);
    }
}

/// Lets these bytes stand at a place of a page.
pub fn lay(file: &mut Image, page: u32, place: usize, bytes: &[u8]) -> Option<()> {
    if page >= file.pages() {
        return None;
    }
    let mut content = *file.page(page);
    put_into(&mut content, place, bytes);
    file.set_page(page, &content);
    Some(())
}

/// Lets each piece stand in the file.
pub fn lay_all(file: &mut Image, pieces: &[Piece]) -> Option<()> {
    for (page, place, bytes) in pieces {
        lay(file, *page, *place, bytes)?;
    }
    Some(())
}

/// A file of so many pages with these pieces, and else zero.
pub fn laid(alloc: Global, pages: u32, pieces: &[Piece]) -> Option<Image> {
    let mut file = Image::new(alloc, pages).ok()?;
    lay_all(&mut file, pieces)?;
    Some(file)
}

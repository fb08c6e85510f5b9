use quilt_world::Image;
use std::alloc::{AllocError, Global};

/// Puts bytes into a page, from a place on.
fn lay(page: &mut [u8; 4096], at: usize, bytes: &[u8]) {
    let mut place = at;
    for byte in bytes {
        if let Some(there) = page.get_mut(place) {
            *there = *byte;
        }
        place = place.wrapping_add(1);
    }
}

/// The bytes of a home page that was written as this version of the page.
pub fn page_bytes(page: u32, version: u8) -> [u8; 4096] {
    let number = page.to_be_bytes();
    let mut bytes = [version; 4096];
    lay(&mut bytes, 0, &number);
    lay(&mut bytes, 4092, &number);
    bytes
}

/// What a page of a file is made.
#[derive(Clone, Copy)]
pub enum Content {
    /// This byte all over.
    Filled(u8),
    /// Zeros behind the label of a map file.
    Label,
    /// The header of edition 6 in format 1 with no records, of a square of level 3.
    Header,
    /// A home page in a version.
    Home(u32, u8),
    /// What it was, but for a byte at a place.
    Changed(usize, u8),
}

/// What one page of a file is made.
pub type Change = (u32, Content);

/// The bytes of a page that were these before.
fn bytes_of(content: Content, before: &[u8; 4096]) -> [u8; 4096] {
    let mut bytes = [0; 4096];
    match content {
        Content::Filled(byte) => return [byte; 4096],
        Content::Home(page, version) => return page_bytes(page, version),
        Content::Label => lay(&mut bytes, 0, b"QUILT MAP FILE\n"),
        Content::Header => lay(&mut bytes, 0, b"QHDR\0\0\0\x01\0\0\0\x06\x03"),
        Content::Changed(at, byte) => {
            bytes = *before;
            lay(&mut bytes, at, &[byte]);
        }
    }
    bytes
}

/// Makes a page of a file what is said. A page behind the file is left alone.
pub fn put_page(file: &mut Image, page: u32, content: Content) {
    if page < file.pages() {
        let bytes = bytes_of(content, file.page(page));
        file.set_page(page, &bytes);
    }
}

/// Changes pages of a file.
pub fn change(file: &mut Image, changes: &[Change]) {
    for (page, content) in changes {
        put_page(file, *page, *content);
    }
}

/// A map file of 48 home pages: edition 6 in format 1, each page from 1 on in its version 1.
pub fn map_file(alloc: Global) -> Result<Image, AllocError> {
    let mut image = Image::new(alloc, 99)?;
    put_page(&mut image, 0, Content::Label);
    put_page(&mut image, 3, Content::Header);
    for page in 1..48_u32 {
        put_page(&mut image, page.wrapping_add(3), Content::Home(page, 1));
    }
    Ok(image)
}

/// The middle of a publish of edition 7, which has version 2 of the pages 1 and 8: the slots and the directory are written.
static PUBLISHED: [Change; 6] = [
    (2, Content::Changed(0, 0b11)),
    (2, Content::Changed(1, 0b1)),
    (51, Content::Header),
    (51, Content::Changed(11, 7)),
    (52, Content::Home(1, 2)),
    (59, Content::Home(8, 2)),
];

/// The home pages of that publish are torn.
static TORN: [Change; 3] = [
    (3, Content::Filled(170)),
    (4, Content::Filled(170)),
    (11, Content::Filled(170)),
];

/// The map file in the middle of that publish. The gate has this byte all over, and the home pages are torn where `torn` says so.
pub fn foreign_file(alloc: Global, gate: u8, torn: bool) -> Result<Image, AllocError> {
    let mut image = map_file(alloc)?;
    put_page(&mut image, 1, Content::Filled(gate));
    change(&mut image, &PUBLISHED);
    if torn {
        change(&mut image, &TORN);
    }
    Ok(image)
}

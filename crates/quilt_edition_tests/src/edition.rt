use crate::files::page_bytes;
use quilt_desk::Desk;
use quilt_edition::Book;
use quilt_store::{PageStore, StoreErr};
use quilt_types::Stop;

/// What a map file of 48 home pages is compared by: two numbers of its header, and the version of each page from 1 on.
#[derive(Clone, Copy, PartialEq)]
pub struct Edition {
    pub format: u8,
    pub number: u32,
    /// 0 for page 0, and for a page that is no version of itself.
    pub versions: [u8; 48],
}

/// The edition of this number in format 1, in which the first so many pages have this version, and all others version 1.
pub fn wanted_edition(number: u32, count: u32, version: u8) -> Edition {
    let mut versions = [1; 48];
    versions[0] = 0;
    for i in 0..count {
        if let Some(there) = versions.get_mut(nth_page(i) as usize) {
            *there = version;
        }
    }
    Edition {
        format: 1,
        number,
        versions,
    }
}

/// One of the pages from 1 on. The first 47 are distinct.
pub fn nth_page(i: u32) -> u32 {
    i % 47 * 7 % 47 + 1
}

/// What a store answers, with its causes told as those of a stop.
pub fn stopped(answer: Result<(), StoreErr>) -> Result<(), Stop> {
    match answer {
        Ok(()) => Ok(()),
        Err(StoreErr::Device) => Err(Stop::Device),
        Err(StoreErr::Memory) => Err(Stop::Memory),
    }
}

/// The version of a page of the work.
fn version_of(book: &mut Book<Desk>, page: u32) -> Result<u8, Stop> {
    let mut bytes = [0; 4096];
    if page == 0 || book.pages() <= page {
        return Ok(0);
    }
    stopped(book.read(page, &mut bytes))?;
    let version = bytes[4];
    if page_bytes(page, version) == bytes {
        Ok(version)
    } else {
        Ok(0)
    }
}

/// What the pages of the work are, under the header of the last edition.
pub fn edition_of(book: &mut Book<Desk>) -> Result<Edition, Stop> {
    let head = book.head();
    let mut versions = [0; 48];
    let mut page = 0_u32;
    for version in &mut versions {
        *version = version_of(book, page)?;
        page = page.wrapping_add(1);
    }
    Ok(Edition {
        format: head.format,
        number: head.edition,
        versions,
    })
}

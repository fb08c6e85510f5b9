use quilt_desk::Desk;
use quilt_world::{Disk, Event, Fault, Image, World};
use std::alloc::AllocError;

/// The number of pages of the file.
pub fn pages_of<D: Disk>(disk: &D) -> u32 {
    disk.pages()
}

/// Fills a page with this byte.
pub fn fill<D: Disk>(disk: &mut D, page: u32, byte: u8) -> Result<(), Fault> {
    if disk.pages() <= page {
        return Err(Fault);
    }
    disk.write_page(page, &[byte; 4096])
}

/// Reads a page.
fn read<D: Disk>(disk: &mut D, page: u32, into: &mut [u8; 4096]) -> Result<(), Fault> {
    if disk.pages() <= page {
        return Err(Fault);
    }
    disk.read_page(page, into)
}

/// Makes sure that all writes so far are on the disk.
pub fn sync<D: Disk>(disk: &mut D) -> Result<(), Fault> {
    if disk.pages() == 0 {
        return Err(Fault);
    }
    disk.sync()
}

/// Takes the next bytes of the input, where a file is open.
fn take<W: World>(world: &mut W, into: &mut [u8; 3]) -> Result<usize, Fault> {
    if world.pages() == 0 {
        return Err(Fault);
    }
    world.take(into)
}

/// Puts a front of the bytes to the output, where a file is open.
pub fn put<W: World>(world: &mut W, bytes: &[u8; 3]) -> Result<usize, Fault> {
    if world.pages() == 0 {
        return Err(Fault);
    }
    world.put(bytes)
}

/// Whether a page that is filled with this byte reads so once all writes are on the disk.
pub fn keeps<D: Disk>(disk: &mut D, page: u32, byte: u8) -> bool {
    let mut bytes = [0; 4096];
    let is_done = fill(disk, page, byte).is_ok() && sync(disk).is_ok();
    is_done && read(disk, page, &mut bytes).is_ok() && bytes == [byte; 4096]
}

/// Whether the input gives so many of these bytes, where the others are zeros.
pub fn gives<W: World>(world: &mut W, count: usize, wanted: &[u8; 3]) -> bool {
    let mut bytes = [0; 3];
    take(world, &mut bytes) == Ok(count) && bytes == *wanted
}

/// All bytes that were put.
pub fn output_of(desk: &Desk) -> &[u8] {
    desk.output()
}

/// The number of events of a desk.
pub fn events_of(desk: &Desk) -> usize {
    desk.log().len()
}

/// An event of a desk.
pub fn event_of(desk: &Desk, i: usize) -> Option<&Event> {
    desk.log().get(i)
}

/// The number of pages of the file as it reads, if there is one.
pub fn image_pages_of(desk: &Desk) -> Option<u32> {
    match desk.image() {
        Some(image) => Some(image.pages()),
        None => None,
    }
}

/// The file that a stop after so many events leaves, where there are as many choices as pages.
pub fn crashed(desk: &Desk, events: usize, choice: &[u8]) -> Result<Option<Image>, AllocError> {
    let pages = desk.pages() as usize;
    if pages == 0 || choice.len() != pages || desk.log().len() < events {
        return Ok(None);
    }
    Ok(Some(desk.crash(events, choice)?))
}

/// Whether a write of a page has failed, which leaves the page torn.
pub fn is_torn(desk: &Desk) -> bool {
    desk.log()
        .iter()
        .any(|event| matches!(event, Event::Tore { .. }))
}

/// Whether all bytes of a page of a file are this one.
pub fn is_filled(file: &Image, page: u32, byte: u8) -> bool {
    page < file.pages() && *file.page(page) == [byte; 4096]
}

/// Whether a stop right behind so many events leaves a page with the bytes that are chosen for it.
fn is_left_as_chosen(
    desk: &Desk,
    events: usize,
    choice: &[u8],
    page: u32,
) -> Result<bool, AllocError> {
    let byte = choice.get(page as usize).copied().unwrap_or(0);
    match crashed(desk, events, choice)? {
        Some(file) => Ok(is_filled(&file, page, byte)),
        None => Ok(false),
    }
}

/// The page that an event has written whole.
fn page_written(event: &Event) -> Option<u32> {
    match event {
        Event::Wrote { page, .. } => Some(*page),
        _ => None,
    }
}

/// How many writes leave the page with the bytes that are chosen for it where the desk is stopped right behind them.
pub fn torn_writes(desk: &Desk, choice: &[u8]) -> Result<u32, AllocError> {
    let mut events = 0_usize;
    let mut torn = 0_u32;
    for event in desk.log() {
        events = events.saturating_add(1);
        if let Some(page) = page_written(event) {
            let is_left = is_left_as_chosen(desk, events, choice, page)?;
            torn = torn.saturating_add(u32::from(is_left));
        }
    }
    Ok(torn)
}

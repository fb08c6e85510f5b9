use crate::calls::{
    crashed, event_of, events_of, fill, gives, image_pages_of, is_filled, keeps, output_of,
    pages_of, put, sync,
};
use quilt_desk::Desk;
use quilt_world::{Attached, Event, Fault, Image, Made, World};
use std::alloc::{AllocError, Global};
use std::process::Abort;
use std::test::Fail;

/// A desk that takes and puts at most so many bytes a call, and of which the call of this number fails, and what it answers to making
/// a file of so many pages.
fn made(
    alloc: Global,
    input: &[u8],
    pages: u32,
    most: usize,
    failing: u64,
) -> Result<(Result<Made, Fault>, Desk), AllocError> {
    let mut desk = Desk::new(alloc, "m", None, input)?;
    desk.piece(most.max(1));
    desk.fail_at(failing)?;
    let answer = desk.make("m", pages);
    Ok((answer, desk))
}

/// Each call on a file of three pages and the input `ab`, of which each handles at most two bytes.
fn serves(rt: &impl Abort, desk: &mut Desk) {
    assert!(rt; keeps(desk, 1, 5));
    assert!(rt; gives(desk, 2, b"ab\0"));
    assert!(rt; gives(desk, 0, b"\0\0\0"));
    assert!(rt; put(desk, b"xyz") == Ok(2));
}

/// What a desk tells of these calls.
fn tells(rt: &impl Abort, desk: &Desk) {
    assert!(rt; output_of(desk) == b"xy".as_slice());
    assert!(rt; events_of(desk) == 4);
    assert!(rt; is_whole_write(event_of(desk, 0), 1));
    assert!(rt; is_sync(event_of(desk, 1)));
    assert!(rt; is_taken(event_of(desk, 2), b"ab"));
    assert!(rt; is_put(event_of(desk, 3), b"xy"));
    assert!(rt; image_pages_of(desk) == Some(3));
}

#[test]
fn tells_each_call(rt: HostRuntime) -> Result<(), Fail> {
    let (answer, mut desk) = made(rt.alloc(), b"ab", 3, 2, 0)?;
    assert!(rt; answer == Ok(Made::Ready));
    serves(&rt, &mut desk);
    tells(&rt, &desk);
    Ok(())
}

/// Whether all 4096 bytes of a page were written.
fn is_whole_write(event: Option<&Event>, at: u32) -> bool {
    match event {
        Some(Event::Wrote { page, bytes }) => *page == at && bytes.bytes().len() == 4096,
        _ => false,
    }
}

/// Whether all writes so far were made sure of.
fn is_sync(event: Option<&Event>) -> bool {
    matches!(event, Some(Event::Synced))
}

/// Whether these bytes were taken.
fn is_taken(event: Option<&Event>, wanted: &[u8]) -> bool {
    match event {
        Some(Event::Took(bytes)) => bytes.bytes() == wanted,
        _ => false,
    }
}

/// Whether these bytes were put.
fn is_put(event: Option<&Event>, wanted: &[u8]) -> bool {
    match event {
        Some(Event::Put(bytes)) => bytes.bytes() == wanted,
        _ => false,
    }
}

/// Whether a desk opens its file of two pages under this path, and the number of its pages then.
fn opens(alloc: Global, path: &str) -> Result<(bool, u32), AllocError> {
    let file = Image::new(alloc, 2)?;
    let mut desk = Desk::new(alloc, "m", Some(file), b"")?;
    let is_ready = desk.attach(path) == Ok(Attached::Ready);
    Ok((is_ready, pages_of(&desk)))
}

#[test]
fn opens_its_file_alone(rt: HostRuntime) -> Result<(), Fail> {
    assert!(rt; opens(rt.alloc(), "m")? == (true, 2));
    assert!(rt; opens(rt.alloc(), "k")? == (false, 0));
    Ok(())
}

/// After so many events a stop by these choices leaves two pages, which are filled with these bytes.
static STOPS: [(usize, [u8; 2], u8, u8); 5] = [
    (2, [7, 7], 5, 0),
    (3, [0, 7], 5, 0),
    (3, [1, 7], 6, 0),
    (4, [7, 1], 7, 0),
    (4, [7, 9], 7, 9),
];

/// The fifth call fails, which tears its page.
fn fails(rt: &impl Abort, desk: &mut Desk) {
    assert!(rt; fill(desk, 0, 5).is_ok());
    assert!(rt; sync(desk).is_ok());
    assert!(rt; fill(desk, 0, 6).is_ok());
    assert!(rt; fill(desk, 1, 8).is_err());
    assert!(rt; events_of(desk) == 4);
}

/// Whether a stop after so many events leaves two pages, which are filled with these bytes.
fn leaves(
    desk: &Desk,
    events: usize,
    choice: &[u8; 2],
    first: u8,
    second: u8,
) -> Result<bool, AllocError> {
    match crashed(desk, events, choice)? {
        Some(file) => {
            Ok(file.pages() == 2 && is_filled(&file, 0, first) && is_filled(&file, 1, second))
        }
        None => Ok(false),
    }
}

/// A stop leaves what its choices say.
fn crashes(rt: &impl Abort, desk: &Desk) -> Result<(), AllocError> {
    for (events, choice, first, second) in &STOPS {
        assert!(rt;
            leaves(desk, *events, choice, *first, *second)?,
            "{first} and {second} after {events}"
        );
    }
    Ok(())
}

#[test]
fn fails_and_crashes(rt: HostRuntime) -> Result<(), Fail> {
    let (answer, mut desk) = made(rt.alloc(), b"", 2, usize::MAX, 5)?;
    assert!(rt; answer == Ok(Made::Ready));
    fails(&rt, &mut desk);
    crashes(&rt, &desk)?;
    Ok(())
}

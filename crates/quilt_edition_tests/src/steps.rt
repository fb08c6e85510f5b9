use crate::edition::{Edition, edition_of, nth_page, stopped, wanted_edition};
use crate::files::page_bytes;
use quilt_desk::{Desk, choices};
use quilt_edition::{Book, Started};
use quilt_store::PageStore;
use quilt_types::Stop;
use quilt_world::{Disk, Image};
use std::alloc::{AllocError, Global};
use std::test::Fail;

/// What opening a file, and the work on its book, comes to.
#[derive(Clone, Copy, PartialEq)]
pub enum Outcome {
    Read(Edition),
    Published(u32),
    NotMap,
    Stopped(Stop),
}

/// The work on a book.
#[derive(Clone, Copy)]
pub enum Work {
    /// Its pages are read.
    Read,
    /// The first so many pages are written in version 2, and published.
    First(u32),
    /// So are these pages, but the second of them is given back before.
    Given(u32),
    /// The first 20 pages are written in version 2 and read back, and so in version 3, and published.
    Twice,
}

/// Work on the book of a file over a pool of so many pages, where the call of this number fails.
#[derive(Clone, Copy)]
pub struct Trial {
    pub pool: u32,
    pub failing: u64,
    pub work: Work,
}

/// No call fails, and the pool has eight pages.
pub fn plain_trial(work: Work) -> Trial {
    Trial {
        pool: 8,
        failing: 0,
        work,
    }
}

/// What opening this file as a book gives, over a pool of so many pages, where the call of this number fails.
#[tactic(auto, using(quilt_journal::proofs::Begins::none_free_fresh))]
fn started(
    alloc: Global,
    file: Image,
    pool: u32,
    failing: u64,
) -> Result<Option<Started<Desk>>, AllocError> {
    if pool < 8 || 4096 < pool {
        return Ok(None);
    }
    match Desk::opened(alloc, file, failing)? {
        Some(desk) => Ok(Some(Book::begin(alloc, desk, pool))),
        None => Ok(None),
    }
}

/// The number of events of a desk.
pub fn events_of(desk: &Desk) -> usize {
    desk.log().len()
}

/// Writes this version of a page.
fn write_page(book: &mut Book<Desk>, page: u32, version: u8) -> Result<(), Stop> {
    if page < 1 || book.pages() <= page || book.is_free(page) {
        return Err(Stop::Memory);
    }
    stopped(book.write(page, &page_bytes(page, version)))
}

/// Writes this version of the first so many pages.
fn write_first(book: &mut Book<Desk>, count: u32, version: u8) -> Result<(), Stop> {
    for i in 0..count {
        write_page(book, nth_page(i), version)?;
    }
    Ok(())
}

/// Gives a page back that is there and in use.
fn give_page(book: &mut Book<Desk>, page: u32) -> Result<(), Stop> {
    if page < 1 || book.pages() <= page || book.is_free(page) {
        return Err(Stop::Memory);
    }
    book.give_page(page);
    Ok(())
}

/// Writes this version of the first 20 pages, more than a pool of 8 holds, and reads them back.
fn write_twenty(book: &mut Book<Desk>, version: u8) -> Result<(), Stop> {
    write_first(book, 20, version)?;
    if edition_of(book)? == wanted_edition(6, 20, version) {
        Ok(())
    } else {
        Err(Stop::Memory)
    }
}

/// Publishes the work.
fn publish(book: &mut Book<Desk>) -> Result<u32, Stop> {
    if !book.is_ready() || book.head().edition == u32::MAX {
        return Err(Stop::Memory);
    }
    match book.publish() {
        Ok(number) => Ok(number),
        Err(_) => Err(Stop::Device),
    }
}

/// Does the work.
fn does(book: &mut Book<Desk>, work: Work) -> Result<Outcome, Stop> {
    match work {
        Work::Read => return Ok(Outcome::Read(edition_of(book)?)),
        Work::First(count) => write_first(book, count, 2)?,
        Work::Given(count) => {
            write_first(book, count, 2)?;
            give_page(book, nth_page(1))?;
        }
        Work::Twice => {
            write_twenty(book, 2)?;
            write_twenty(book, 3)?;
        }
    }
    Ok(Outcome::Published(publish(book)?))
}

/// Opens a file and does the work. It gives what that comes to, and the desk as it leaves it.
pub fn opened(alloc: Global, file: Image, trial: Trial) -> Result<(Outcome, Desk), Fail> {
    match started(alloc, file, trial.pool, trial.failing)? {
        Some(Started::Ready(mut book)) => {
            let outcome = match does(&mut book, trial.work) {
                Ok(outcome) => outcome,
                Err(stop) => Outcome::Stopped(stop),
            };
            Ok((outcome, book.into_world()))
        }
        Some(Started::NotMap(desk)) => Ok((Outcome::NotMap, desk)),
        Some(Started::Stopped(desk, stop)) => Ok((Outcome::Stopped(stop), desk)),
        None => Err(Fail::from("no desk")),
    }
}

/// What opening a file comes to.
pub fn reopened(alloc: Global, file: Image) -> Result<Outcome, Fail> {
    let (outcome, _) = opened(alloc, file, plain_trial(Work::Read))?;
    Ok(outcome)
}

/// What opening the file of a desk comes to, as the file now reads.
pub fn reopened_now(alloc: Global, desk: &Desk) -> Result<Outcome, Fail> {
    match desk.image() {
        Some(file) => reopened(alloc, file.copy()?),
        None => Err(Fail::from("no file")),
    }
}

/// The file of 99 pages that a stop after so many events leaves, by the choice of this number.
fn crashed(desk: &Desk, events: usize, choice: u8) -> Result<Option<Image>, AllocError> {
    if desk.pages() != 99 || desk.log().len() < events {
        return Ok(None);
    }
    let choice: [u8; 99] = choices(choice);
    Ok(Some(desk.crash(events, &choice)?))
}

/// The file that a stop after so many events leaves, by the choice of this number.
pub fn left(desk: &Desk, events: usize, choice: u8) -> Result<Image, Fail> {
    match crashed(desk, events, choice)? {
        Some(file) => Ok(file),
        None => Err(Fail::from("no stop")),
    }
}

ghost use Rattle.std.specs.Prelude.{◌≡◌, ◌⊎◌, true, length};
ghost use Rattle.quilt_world.specs.declared.disk.Door.TheVariants as doors;

use crate::run::Run;
use quilt_desk::Desk;
use quilt_world::{Disk, Event, Image};
use std::alloc::Global;
use std::thread::Threads;

/// The desk of a run over this file, however it ended, or None for want of memory.
fn desk_after<R: Threads + Sync>(
    rt: &R,
    alloc: Global,
    run: Run,
    file: Option<Image>,
) -> Option<Desk> {
    match run.over(rt, alloc, file) {
        Ok((_, desk)) => Some(desk),
        Err(_) => None,
    }
}

/// The file that `new m PAGES LEVEL` makes, or None for want of memory.
pub fn file_of<R: Threads + Sync>(
    rt: &R,
    alloc: Global,
    pages: &str,
    level: &str,
) -> Option<Image> {
    let words = ["new", "m", pages, level];
    file_after(&desk_after(rt, alloc, Run::of(&words, b""), None)?)
}

/// All bytes that the desk has put.
pub(crate) fn put_by(desk: &Desk) -> &[u8] {
    desk.output()
}

/// The file of a desk after a run, or None where there is none, or for want of memory.
pub fn file_after(desk: &Desk) -> Option<Image> {
    desk.image()?.copy().ok()
}

/// Whether the desk has a file of so many pages, which are some.
fn has_pages(desk: &Desk, count: usize) -> bool
    ensures open { result ≡ true → (⟦<Desk as Disk>⟧.door desk.now ≡ doors.Ready) ⊎ (⟦<Desk as Disk>⟧.door desk.now ≡ doors.Made) }
    ensures size { result ≡ true → ⟦<Desk as Disk>⟧.size desk.now ≡ count }
{
    let pages = desk.pages();
    pages > 0 && pages as usize == count
}

/// The file that a stop leaves after so many events, with a byte of choice for each page, or None where the desk has no such file or fewer
/// events, or for want of memory.
pub fn stopped(desk: &Desk, events: usize, choice: &[u8]) -> Option<Image> {
    if has_pages(desk, choice.len()) && events <= desk.log().len() {
        return desk.crash(events, choice).ok();
    }
    None
}

/// What the first six pages of a file are left by a stop: the bytes at the last sync, those of the last write, other bytes, and three
/// mixtures of these.
static CHOICES: [[u8; 6]; 6] = [
    [0, 0, 0, 0, 0, 0],
    [1, 1, 1, 1, 1, 1],
    [7, 7, 7, 7, 7, 7],
    [0, 1, 0, 1, 0, 1],
    [0, 1, 2, 0, 1, 2],
    [1, 7, 7, 1, 7, 7],
];

/// The bytes of choice for a file of 35 pages, of six kinds by this number.
pub fn choice(number: usize) -> [u8; 35] {
    let pattern = CHOICES[number % 6];
    let mut bytes = [0; 35];
    for (page, byte) in bytes.iter_mut().enumerate() {
        *byte = pattern[page % 6];
    }
    bytes
}

/// The number in the reply to `edition`.
fn number_in(output: &[u8]) -> Option<u32> {
    let said = str::from_utf8(output).ok()?;
    let number = said.strip_prefix("edition ")?.strip_suffix("\nok\n")?;
    number.parse().ok()
}

/// The number of the edition that the file opens to, or None where it opens to none, or for want of memory.
pub fn edition_of<R: Threads + Sync>(rt: &R, alloc: Global, file: Image) -> Option<u32> {
    let desk = desk_after(rt, alloc, Run::text(b"edition\n"), Some(file))?;
    number_in(put_by(&desk))
}

/// How many bytes the first so many events of a run put.
pub fn put_within(desk: &Desk, events: usize) -> usize {
    let mut count = 0_usize;
    for event in desk.log().iter().take(events) {
        if let Event::Put(text) = event {
            count = count.saturating_add(text.bytes().len());
        }
    }
    count
}

//! Runs over a file in memory, and what their desks tell of them. What is None is not as it has to be, or for want of memory.
use quilt_desk::Desk;
use quilt_map::settled_replies;
use quilt_scripts::{Run, file_of, stopped};
use quilt_top::End;
use quilt_world::{Event, Image};
use std::alloc::Global;
use std::thread::Threads;

/// The words of a run over the smallest pool.
pub static WORDS: [&str; 4] = ["run", "m", "--pool", "8"];

/// The file that `new m 16 3` makes.
pub fn file_of_level_3<R: Threads + Sync>(rt: &R, alloc: Global) -> Option<Image> {
    file_of(rt, alloc, "16", "3")
}

/// How a run ended, and its desk.
pub type Ran = (End, Desk);

/// Does the run over a desk with this file.
pub fn done<R: Threads + Sync>(
    rt: &R,
    alloc: Global,
    run: Run,
    file: Option<Image>,
) -> Option<Ran> {
    run.over(rt, alloc, file).ok()
}

/// All bytes that the desk has put.
pub fn put_by(desk: &Desk) -> &[u8] {
    desk.output()
}

/// What the desk tells of the outside.
pub fn log_of(desk: &Desk) -> &[Event] {
    desk.log()
}

/// Whether a page was written.
pub fn is_write(event: &Event) -> bool {
    matches!(event, Event::Wrote { .. })
}

/// How many pages were written.
pub fn writes_of(desk: &Desk) -> usize {
    log_of(desk).iter().filter(|event| is_write(event)).count()
}

/// Whether a write of a page has failed, which leaves the page torn.
pub fn is_torn(desk: &Desk) -> bool {
    log_of(desk)
        .iter()
        .any(|event| matches!(event, Event::Tore { .. }))
}

/// Whether a stop right behind so many events leaves a page torn: it has the bytes that are chosen for torn pages then.
fn is_left_torn(desk: &Desk, events: usize, page: u32) -> bool {
    match stopped(desk, events, &[7; 35]) {
        Some(file) => page < file.pages() && *file.page(page) == [7; 4096],
        None => false,
    }
}

/// How many writes to a file of 35 pages leave their page torn where the run is stopped right behind them.
pub fn torn_writes(desk: &Desk) -> usize {
    let mut events = 0_usize;
    let mut torn = 0_usize;
    for event in log_of(desk) {
        events = events.saturating_add(1);
        if let Event::Wrote { page, .. } = event {
            torn = torn.saturating_add(usize::from(is_left_torn(desk, events, *page)));
        }
    }
    torn
}

/// Whether a run ended so, and put this.
pub fn has_ended(ran: &Ran, end: End, output: &[u8]) -> bool {
    ran.0 == end && put_by(&ran.1) == output
}

/// Whether the run over a desk with this file ends so, and puts this.
pub fn ends<R: Threads + Sync>(
    rt: &R,
    alloc: Global,
    run: Run,
    file: Option<Image>,
    end: End,
    output: &[u8],
) -> bool {
    match done(rt, alloc, run, file) {
        Some(ran) => has_ended(&ran, end, output),
        None => false,
    }
}

/// How many replies to the text stand, whatever follows it.
pub fn settled(alloc: Global, level: u8, text: &[u8]) -> Option<usize> {
    settled_replies(alloc, level, text).ok()
}

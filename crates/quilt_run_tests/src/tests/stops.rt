//! One script over all kinds of layers: stopped at each event, with each call failing in turn, and cut after each byte.
use crate::cases::{Case, Left, leaves_edition};
use crate::runs::{
    Ran, WORDS, done, file_of_level_3, has_ended, log_of, put_by, settled, torn_writes, writes_of,
};
use quilt_scripts::{Run, put_within};
use quilt_top::End;
use std::alloc::Global;
use std::thread::Threads;

const SCRIPT: &[u8] = b"region a 0\nrect a 1 1 5 5 3\npublish\npoints p\nput p 2 2 9\nlines l 1\n\
    line l 1 0 0 7 7\nline l 2 0 7 7 0\npublish\nshift a 1 1 b\nunline l 1\nrevert\nedition\n";

/// How many pages a run of the script writes.
const WRITES: usize = 14;

const REPLIES: &str =
    "ok\nok\nedition 1\nok\nok\nok\nok\nok\nok\nedition 2\nok\nok\nok\nok\nedition 2\nok\n";

/// The fronts of the replies that end in those to a publish.
static PUBLISHED: [&[u8]; 2] = [
    b"ok\nok\nedition 1\nok\n",
    b"ok\nok\nedition 1\nok\nok\nok\nok\nok\nok\nedition 2\nok\n",
];

/// Whether the run has ended with all replies, and a stop right behind each of its writes leaves the page torn.
fn is_whole(ran: &Ran) -> bool {
    has_ended(ran, End::Done, REPLIES.as_bytes())
        && writes_of(&ran.1) == WRITES
        && torn_writes(&ran.1) == WRITES
}

/// Stops the run at each event, where it is whole.
fn stops_at_each_event<R: Threads + Sync>(rt: &R, alloc: Global, ran: &Ran) -> Option<()> {
    if !is_whole(ran) {
        return None;
    }
    let desk = &ran.1;
    let put = put_by(desk);
    for events in 0..=log_of(desk).len() {
        let front = put.get(..put_within(desk, events))?;
        leaves_edition(rt, alloc, desk, events, front, &PUBLISHED)?;
    }
    Some(())
}

/// Does the script over the smallest pool, and stops the run at each event.
fn stops_script<R: Threads + Sync>(rt: &R, alloc: Global) -> Option<()> {
    let file = file_of_level_3(rt, alloc);
    let ran = done(rt, alloc, Run::of(&WORDS, SCRIPT), file)?;
    stops_at_each_event(rt, alloc, &ran)
}

#[test]
fn a_stop_at_each_event(rt: HostRuntime) {
    assert!(rt; stops_script(&rt, rt.alloc()).is_some());
}

/// Does the script with each call failing in turn, of which there are more than 30: how many pages were torn.
fn torn_in_turn<R: Threads + Sync>(rt: &R, alloc: Global) -> Option<usize> {
    let file = file_of_level_3(rt, alloc)?;
    let case = Case {
        run: Run::of(&WORDS, SCRIPT),
        file: &file,
        end: End::Done,
        output: REPLIES.as_bytes(),
        left: Left::Edition(&PUBLISHED),
    };
    let (calls, torn) = case.fails_from(rt, alloc, 1)?;
    (calls > 30).then_some(torn)
}

#[test]
fn each_call_fails_in_turn(rt: HostRuntime) {
    assert!(rt; torn_in_turn(&rt, rt.alloc()) == Some(WRITES));
}

/// How many bytes the replies to the first so many commands of the script have.
fn length_of_replies(commands: usize) -> usize {
    let mut length = 0_usize;
    for reply in REPLIES.split_inclusive("ok\n").take(commands) {
        length = length.saturating_add(reply.len());
    }
    length
}

/// The replies to the whole lines of a front of the script, where they stand whatever follows it.
fn settled_replies_to(alloc: Global, front: &[u8]) -> Option<&'static [u8]> {
    let lines = front.iter().filter(|b| **b == b'\n').count();
    if settled(alloc, 3, front)? != lines {
        return None;
    }
    REPLIES.as_bytes().get(..length_of_replies(lines))
}

/// Whether these replies are what a run of a front of the script of so many bytes puts first.
fn stands<R: Threads + Sync>(rt: &R, alloc: Global, length: usize) -> Option<bool> {
    let front = SCRIPT.get(..length)?;
    let replies = settled_replies_to(alloc, front)?;
    let ran = done(rt, alloc, Run::text(front), file_of_level_3(rt, alloc))?;
    Some(put_by(&ran.1).starts_with(replies))
}

#[test]
fn the_script_is_cut_after_each_byte(rt: HostRuntime) {
    for length in 0..=SCRIPT.len() {
        assert!(rt; stands(&rt, rt.alloc(), length) == Some(true));
    }
    assert!(rt; settled(rt.alloc(), 3, b"edition\n# none\nfrob") == Some(1));
}

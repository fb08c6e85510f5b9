//! Stops right behind the write of the journal's gate, and within what the next run does then.
use crate::runs::{Ran, done, file_of_level_3, has_ended, is_write, log_of, torn_writes};
use quilt_desk::Desk;
use quilt_scripts::{Run, choice, stopped};
use quilt_top::End;
use quilt_world::{Event, Image};
use std::alloc::Global;
use std::thread::Threads;

/// How many pages are written where the journal is carried home: the header, the one page of the tree, and the gate.
const WRITES: usize = 3;

/// What a text is answered over a file, and the status of the run.
#[derive(Clone, Copy)]
struct Answer {
    text: &'static [u8],
    output: &'static [u8],
    status: u8,
}

/// Texts that publish, each with the answers of the edition before it and of that behind it.
static PUBLISHES: [(&[u8], Answer, Answer); 2] = [
    (
        b"region a 4\nset a 5 2 9\npublish\n",
        Answer {
            text: b"edition\nlayers\nat a 5 2\n",
            output: b"edition 0\nok\nok\nno 5 unknown\n",
            status: 1,
        },
        Answer {
            text: b"edition\nlayers\nat a 5 2\n",
            output: b"edition 1\nok\na region\nok\n9\nok\n",
            status: 0,
        },
    ),
    (
        b"region a 4\nupgrade\n",
        Answer {
            text: b"edition\nregion b 256\nupgrade\n",
            output: b"edition 0\nok\nno 3 number\nedition 1\nok\n",
            status: 1,
        },
        Answer {
            text: b"edition\nregion b 256\nupgrade\n",
            output: b"edition 1\nok\nok\nno 15 format\n",
            status: 1,
        },
    ),
];

/// Stops a run after so many events: the file that is left has to give this answer.
fn leaves<R: Threads + Sync>(
    rt: &R,
    alloc: Global,
    desk: &Desk,
    events: usize,
    choice: &[u8; 35],
    answer: Answer,
) -> Option<()> {
    let file = stopped(desk, events, choice)?;
    let left = Run::text(answer.text).answers(rt, alloc, file, answer.output, answer.status);
    left.is_some().then_some(())
}

/// Stops a run after so many events with each kind of choice.
fn leaves_in_each_way<R: Threads + Sync>(
    rt: &R,
    alloc: Global,
    desk: &Desk,
    events: usize,
    answer: Answer,
) -> Option<()> {
    for number in 0..6 {
        leaves(rt, alloc, desk, events, &choice(number), answer)?;
    }
    Some(())
}

/// Stops a run that carries the journal home, of five events or more, at each of them. Right behind each write a stop leaves the page torn.
fn leaves_at_each_event<R: Threads + Sync>(
    rt: &R,
    alloc: Global,
    ran: &Ran,
    answer: Answer,
) -> Option<()> {
    let desk = &ran.1;
    let last = log_of(desk).len();
    if !has_ended(ran, End::Done, b"") || last < 5 || torn_writes(desk) != WRITES {
        return None;
    }
    for events in 0..=last {
        leaves_in_each_way(rt, alloc, desk, events, answer)?;
    }
    Some(())
}

/// Whether the event opens the gate.
fn opens_gate(event: &Event) -> bool {
    match event {
        Event::Wrote { page: 1, bytes } => bytes.bytes().starts_with(&[1]),
        _ => false,
    }
}

/// The file that a stop right behind the write of the gate leaves, where that write and all others since the last sync reached it.
fn left_at_gate<R: Threads + Sync>(
    rt: &R,
    alloc: Global,
    ran: &Ran,
    old: Answer,
    new: Answer,
) -> Option<Image> {
    let (end, desk) = ran;
    let events = log_of(desk).iter().position(opens_gate)?.saturating_add(1);
    leaves(rt, alloc, desk, events, &[0; 35], old)?;
    leaves(rt, alloc, desk, events, &[7; 35], old)?;
    leaves(rt, alloc, desk, events, &[1; 35], new)?;
    if *end != End::Done {
        return None;
    }
    stopped(desk, events, &[1; 35])
}

/// Runs nothing over a file whose gate is open, and stops the run at each event.
fn carries_home<R: Threads + Sync>(
    rt: &R,
    alloc: Global,
    file: Option<Image>,
    answer: Answer,
) -> Option<()> {
    let ran = done(rt, alloc, Run::text(b""), file)?;
    leaves_at_each_event(rt, alloc, &ran, answer)
}

/// Stops the run of a text right behind the write of the gate: with other bytes there the file gives the answer of the old edition, and
/// with those that were written that of the new one. So it does where the run that carries the journal home then is stopped too.
fn stops_at_gate<R: Threads + Sync>(
    rt: &R,
    alloc: Global,
    text: &[u8],
    old: Answer,
    new: Answer,
) -> Option<()> {
    let ran = done(rt, alloc, Run::text(text), file_of_level_3(rt, alloc))?;
    carries_home(rt, alloc, left_at_gate(rt, alloc, &ran, old, new), new)
}

#[test]
fn a_stop_behind_the_gate(rt: HostRuntime) {
    for (text, old, new) in &PUBLISHES {
        assert!(rt; stops_at_gate(&rt, rt.alloc(), text, *old, *new).is_some());
    }
}

/// The answer of the edition before the first publish.
const OLD: Answer = Answer {
    text: b"edition\n",
    output: b"edition 0\nok\n",
    status: 0,
};

/// Whether the write of the directory has failed, as it has to: it is the third write, the run has ended in a device fault, and each stop
/// leaves the old edition.
fn leaves_old<R: Threads + Sync>(rt: &R, alloc: Global, ran: &Ran) -> Option<bool> {
    let log = log_of(&ran.1);
    let Some(place) = log
        .iter()
        .position(|event| matches!(event, Event::Tore { page: 2 }))
    else {
        return Some(false);
    };
    let writes = log
        .iter()
        .take(place)
        .filter(|event| is_write(event))
        .count();
    if writes != 2 || !has_ended(ran, End::Device, b"ok\n") {
        return None;
    }
    leaves_in_each_way(rt, alloc, &ran.1, log.len(), OLD)?;
    Some(true)
}

/// Publishes a layer with this call failing.
fn fails_at<R: Threads + Sync>(rt: &R, alloc: Global, call: u64) -> Option<bool> {
    let run = Run::text(b"region a 0\npublish\n").failing_at(call);
    let ran = done(rt, alloc, run, file_of_level_3(rt, alloc))?;
    leaves_old(rt, alloc, &ran)
}

#[test]
fn the_third_write_of_a_publish_fails(rt: HostRuntime) {
    let mut found = Some(false);
    for call in 1..200_u64 {
        if found == Some(false) {
            found = fails_at(&rt, rt.alloc(), call);
        }
    }
    assert!(rt; found == Some(true));
}

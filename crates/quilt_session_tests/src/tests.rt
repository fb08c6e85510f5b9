use crate::meeting::Meeting;
use crate::opening::{begun, replied};
use quilt_desk::Calm;
use quilt_map::{Reply, Session};
use quilt_types::Pixel;
use std::alloc::Global;
use std::process::Abort;
use std::thread::Threads;

/// Applies a command over a gate, and compares the lines of its reply.
fn says<R: Threads + Sync + Abort>(
    rt: &R,
    alloc: Global,
    session: &mut Session<Calm>,
    gate: &Meeting,
    text: &[u8],
    lines: &[u8],
) {
    match replied(rt, alloc, gate, session, text) {
        Some(Reply::Ok(text)) => assert!(rt; text.bytes() == lines),
        _ => panic!(rt; "a reply that is no refusal"),
    }
}

/// No quadrant passes until a raster comes, and with it quadrants 0 and 3 wait for one another.
#[test]
fn a_session_hands_its_gate_to_a_raster(rt: HostRuntime) {
    let alloc = rt.alloc();
    let mut session = begun(alloc).expect(&rt, "a session");
    let meeting = Meeting::new();
    says(&rt, alloc, &mut session, &meeting, b"region a 0\n", b"ok\n");
    says(
        &rt,
        alloc,
        &mut session,
        &meeting,
        b"rect a 1 1 3 3 9\n",
        b"ok\n",
    );
    says(
        &rt,
        alloc,
        &mut session,
        &meeting,
        b"buffer a 1 b\n",
        b"ok\n",
    );
    assert!(rt; !meeting.is_begun());
    let raster =
        b"raster a\n0000000000000007\n0000000000000000\n0000000000000000\n0000000000000000\n\
        0000000000000000\n0000000000000000\n0000000000000000\n0100000000000000\n";
    says(&rt, alloc, &mut session, &meeting, raster, b"ok\n");
    assert!(rt; meeting.is_kept());
    says(
        &rt,
        alloc,
        &mut session,
        &meeting,
        b"area a 7\n",
        b"1\nok\n",
    );
    says(
        &rt,
        alloc,
        &mut session,
        &meeting,
        b"at a 0 7\n",
        b"1\nok\n",
    );
}

/// Commands with the lines of their replies, and how many records the work has then removed and added since the last publish: one for a
/// layer, one for each block, and none where a pixel has its colour already.
static COUNTED: [(&[u8], &[u8], u64); 6] = [
    (b"region a 0\n", b"ok\n", 2),
    (b"set a 0 0 0\n", b"ok\n", 2),
    (b"set a 5 2 7\n", b"ok\n", 13),
    (b"publish\n", b"edition 1\nok\n", 0),
    (b"set a 0 0 0\n", b"ok\n", 0),
    (b"at a 5 2\n", b"7\nok\n", 0),
];

/// Compares the number of records that were removed and added.
fn counts(rt: &impl Abort, session: &Session<Calm>, changes: u64) {
    assert_eq!(rt; session.changes(), changes);
}

/// Compares the layer and the pixel of the last command, which has to be an `at`.
fn was_asked(rt: &impl Abort, session: &Session<Calm>, layer: &str, pixel: Pixel) {
    match session.warm() {
        Some((name, at)) => assert!(rt; name.text() == layer && at == pixel),
        None => panic!(rt; "the last command was another"),
    }
}

#[test]
fn a_session_counts_changes_and_knows_the_last_pixel(rt: HostRuntime) {
    let alloc = rt.alloc();
    let mut session = begun(alloc).expect(&rt, "a session");
    let gate = Meeting::new();
    for (text, lines, changes) in &COUNTED {
        says(&rt, alloc, &mut session, &gate, text, lines);
        counts(&rt, &session, *changes);
    }
    was_asked(&rt, &session, "a", Pixel { x: 5, y: 2 });
}

use crate::runs::{CALM, Left, Weather, desk_made, desk_ran, made, ran};
use quilt_trial::trial_text;
use std::alloc::{AllocError, Global};
use std::process::Abort;
use std::thread::Threads;

/// The bytes of a drawn text.
fn drawn(alloc: Global, seed: u64, count: u32) -> Result<Vec<u8>, AllocError> {
    let text = trial_text(alloc, seed, count, 3)?;
    Vec::from_slice(alloc, text.bytes())
}

/// A drawn text of a few commands, with publishes.
fn drawn_text(rt: &impl Abort, alloc: Global, seed: u64) -> Vec<u8> {
    let count = u32::try_from(seed % 12).unwrap_or(0);
    drawn(alloc, seed, count).expect(rt, "memory")
}

/// Drawn pieces and signals.
fn rough(seed: u64) -> Weather {
    Weather {
        piece: (seed.wrapping_mul(37) % 5000) as usize + 50,
        every: seed % 5 + 2,
        ..CALM
    }
}

/// Compares what two runs leave.
fn is_same(rt: &impl Abort, left: &Left, wanted: &Left, seed: u64) {
    assert_eq!(rt; left.status, wanted.status, "at {seed}");
    assert!(rt;
        left.output.as_slice() == wanted.output.as_slice(),
        "at {seed}"
    );
    assert!(rt; left.file.as_slice() == wanted.file.as_slice(), "at {seed}");
}

/// Compares what two runs leave that ended well and published.
fn compares(rt: &impl Abort, left: &Left, wanted: &Left, seed: u64) {
    assert!(rt; wanted.status < 2 && editions_in(rt, &wanted.output) > 0);
    is_same(rt, left, wanted, seed);
}

/// Runs a drawn text over a new file in this weather: it leaves what it leaves over a desk.
fn plays_drawn_text<R: Threads + Sync + Abort>(
    rt: &R,
    alloc: Global,
    file: &[u8],
    seed: u64,
    weather: Weather,
) {
    let text = drawn_text(rt, alloc, seed);
    let wanted = desk_ran(rt, alloc, &text);
    let left = ran(rt, alloc, file, &text, weather);
    compares(rt, &left, &wanted, seed);
}

#[test]
fn drawn_texts_are_answered_as_over_a_desk(rt: HostRuntime) {
    let alloc = rt.alloc();
    let file = made(&rt, alloc, CALM).file;
    for seed in 0..1000_u64 {
        plays_drawn_text(&rt, alloc, &file, seed, rough(seed));
    }
}

/// Makes a new file in short pieces and with signals: it is what it is over a desk.
fn makes_file<R: Threads + Sync + Abort>(rt: &R, alloc: Global, wanted: &Left, seed: u64) {
    is_same(rt, &made(rt, alloc, rough(seed)), wanted, seed);
}

#[test]
fn a_new_file_is_that_of_a_desk(rt: HostRuntime) {
    let alloc = rt.alloc();
    let wanted = desk_made(&rt, alloc);
    for seed in 0..20_u64 {
        makes_file(&rt, alloc, &wanted, seed);
    }
}

/// How many lines of the text tell an edition.
fn editions_in(rt: &impl Abort, text: &[u8]) -> u32 {
    let mut count = 0_u32;
    for line in str::from_utf8(text).expect(rt, "text").lines() {
        if line.starts_with("edition ") {
            count = count.saturating_add(1);
        }
    }
    count
}

/// Whether this is what the edition of this number is told as.
fn is_told(rt: &impl Abort, alloc: Global, text: &[u8], number: u32) -> bool {
    let told = format!(in alloc; "edition {number}\nok\n").expect(rt, "memory");
    told.as_bytes() == text
}

/// The edition of this number is told, or the one behind it.
fn tells(rt: &impl Abort, alloc: Global, told: &Left, number: u32, call: u64) {
    assert_eq!(rt; told.status, 0, "where call {call} fails");
    assert!(rt;
        is_told(rt, alloc, &told.output, number)
            || is_told(rt, alloc, &told.output, number.saturating_add(1)),
        "where call {call} fails"
    );
}

/// The file opens to the last edition that is answered in the output, or to the one behind it.
fn opens_whole<R: Threads + Sync + Abort>(rt: &R, alloc: Global, left: &Left, call: u64) {
    let told = ran(rt, alloc, &left.file, b"edition\n", CALM);
    tells(rt, alloc, &told, editions_in(rt, &left.output), call);
}

/// Whether the text begins with these bytes.
fn begins_with(text: &[u8], front: &[u8]) -> bool {
    text.starts_with(front)
}

/// Whether a run whose call of this number failed left what is wanted. Else it is a device fault, put a front of the replies, and left
/// a whole edition.
fn is_whole<R: Threads + Sync + Abort>(
    rt: &R,
    alloc: Global,
    left: &Left,
    wanted: &Left,
    call: u64,
) -> bool {
    if left.status == wanted.status {
        compares(rt, left, wanted, call);
        return true;
    }
    assert_eq!(rt; left.status, 3, "where call {call} fails");
    assert!(rt;
        begins_with(&wanted.output, &left.output),
        "where call {call} fails"
    );
    opens_whole(rt, alloc, left, call);
    false
}

/// Runs the text with this call failing: whether it leaves what is wanted.
fn runs_whole<R: Threads + Sync + Abort>(
    rt: &R,
    alloc: Global,
    file: &[u8],
    text: &[u8],
    wanted: &Left,
    call: u64,
) -> bool {
    let weather = Weather {
        piece: 3000,
        every: 4,
        failing: call,
        ..CALM
    };
    is_whole(
        rt,
        alloc,
        &ran(rt, alloc, file, text, weather),
        wanted,
        call,
    )
}

/// Lets each of the first 300 calls of a run of a drawn text fail in turn: how many of these runs met a fault. The others leave what is
/// wanted, since there were fewer calls, or the call asked which file a stream is.
fn fails_in_turn<R: Threads + Sync + Abort>(rt: &R, alloc: Global, file: &[u8], seed: u64) -> u32 {
    let text = drawn_text(rt, alloc, seed);
    let wanted = desk_ran(rt, alloc, &text);
    let mut faults = 0_u32;
    for call in 1..301_u64 {
        if !runs_whole(rt, alloc, file, &text, &wanted, call) {
            faults = faults.saturating_add(1);
        }
    }
    faults
}

#[test]
fn each_call_that_fails_is_a_device_fault(rt: HostRuntime) {
    let alloc = rt.alloc();
    let file = made(&rt, alloc, CALM).file;
    for seed in 0..6_u64 {
        let faults = fails_in_turn(&rt, alloc, &file, seed);
        assert!(rt; faults > 40, "{faults} faults at {seed}");
    }
}

/// A disk with room for so many pages.
fn disk_of(pages: usize) -> Weather {
    Weather {
        room: pages.saturating_mul(4096),
        ..CALM
    }
}

/// Whether `new` on a disk with room for so many pages, which are too few, is a device fault and leaves no file.
fn is_refused<R: Threads + Sync + Abort>(rt: &R, alloc: Global, pages: usize) -> bool {
    let left = made(rt, alloc, disk_of(pages));
    left.status == 3 && left.file.is_empty()
}

#[test]
fn a_full_disk_is_told_at_once_and_never_later(rt: HostRuntime) {
    let alloc = rt.alloc();
    for pages in 0..35_usize {
        assert!(rt; is_refused(&rt, alloc, pages), "{pages} pages");
    }
    let file = made(&rt, alloc, disk_of(35)).file;
    for seed in 0..100_u64 {
        plays_drawn_text(&rt, alloc, &file, seed, disk_of(35));
    }
}

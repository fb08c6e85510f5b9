ghost use Rattle.std.specs.Prelude.{◌≡◌};
ghost use Rattle.quilt_world.specs.declared.disk.Door.TheVariants as doors;

use crate::cases::{Case, Left};
use crate::runs::{ends, file_of_level_3};
use quilt_desk::Calm;
use quilt_scripts::Run;
use quilt_top::{End, run_quilt};
use quilt_world::Disk;
use std::alloc::Global;
use std::thread::Threads;

/// What `new m 16 3` puts.
const LINE: &[u8] = b"new 16 pages level 3\n";

/// Whether a file is made with each byte put by a call of its own and this call failing, so that so many bytes of the line are put.
fn makes_up_to<R: Threads + Sync>(rt: &R, alloc: Global, call: u64, end: End, put: usize) -> bool {
    let words = ["new", "m", "16", "3"];
    let run = Run::of(&words, b"").in_pieces(1).failing_at(call);
    match LINE.get(..put) {
        Some(front) => ends(rt, alloc, run, None, end, front),
        None => false,
    }
}

#[test]
fn ends_at_each_fault(rt: HostRuntime) {
    // One call makes the file, two writes and two syncs fill it, and each byte of the line is put by a call.
    for call in 1..27_u64 {
        let put = call.saturating_sub(6) as usize;
        assert!(rt; makes_up_to(&rt, rt.alloc(), call, End::Device, put));
    }
    assert!(rt; makes_up_to(&rt, rt.alloc(), 27, End::Done, LINE.len()));
}

/// Does what the input says over a world that tells nothing: how many bytes are put, and the end.
fn ran<R: Threads + Sync>(rt: &R, alloc: Global, calm: Calm) -> (u64, End)
    requires { ⟦<Calm as Disk>⟧.door calm ≡ doors.Shut }
{
    let (end, calm) = run_quilt(rt, alloc, &["run", "m"], calm);
    (calm.written(), end)
}

/// Does it over a world with this input.
fn counted<R: Threads + Sync>(rt: &R, alloc: Global, input: &[u8]) -> Option<(u64, End)> {
    let file = file_of_level_3(rt, alloc)?;
    Some(ran(rt, alloc, Calm::new(alloc, "m", Some(file), 0, input).ok()?))
}

#[test]
fn counts_over_a_world_that_tells_nothing(rt: HostRuntime) {
    let alloc = rt.alloc();
    assert!(rt; counted(&rt, alloc, b"") == Some((0, End::Done)));
    assert!(rt; counted(&rt, alloc, b"edition\nrecords\n") == Some((25, End::Done)));
}

/// Does it over a world whose input has no end.
fn counted_without_end<R: Threads + Sync>(rt: &R, alloc: Global) -> Option<(u64, End)> {
    let file = file_of_level_3(rt, alloc)?;
    Some(ran(rt, alloc, Calm::endless(alloc, "m", Some(file), b'#').ok()?))
}

#[test]
fn ends_an_input_without_end(rt: HostRuntime) {
    assert!(rt; counted_without_end(&rt, rt.alloc()) == Some((0, End::TooMuch)));
}

/// A run over the file of level 3: its words, its input, how it ends without a fault, and what it puts then.
struct Whole {
    words: &'static [&'static str],
    input: &'static [u8],
    end: End,
    output: &'static [u8],
}

/// A text with refusals.
static TEXT: Whole = Whole {
    words: &["run", "m"],
    input: b"region a 4\nset a 1 0 255\nat a 1 0\nshow a 0 0 3 1\nset a 8 0 1\n\
        region a 0\nat b 0 0\nregion b 0\nshow b 7 7 1 1\nedition\n",
    end: End::Refused,
    output: b"ok\nok\n255\nok\n04ff04\nok\nno 8 outside\n\
        no 7 exists\nno 5 unknown\nok\n00\nok\nedition 0\nok\n",
};

static TRIAL: Whole = Whole {
    words: &["trial", "m", "0", "1"],
    input: b"",
    end: End::Done,
    output: b"ok 6\nno 0\nrecords 8\nedition 1\n",
};

/// Whether the run meets faults, with at most so many bytes in a call, where the first call fails, the second, and so on, until none does.
fn meets_faults<R: Threads + Sync>(rt: &R, alloc: Global, whole: &Whole, most: usize) -> bool {
    let Some(file) = file_of_level_3(rt, alloc) else {
        return false;
    };
    let case = Case {
        run: Run::of(whole.words, whole.input).in_pieces(most),
        file: &file,
        end: whole.end,
        output: whole.output,
        left: Left::Any,
    };
    match case.fails_from(rt, alloc, 1) {
        Some((calls, _)) => calls > 1,
        None => false,
    }
}

/// Whether the run meets faults, byte by byte and whole.
fn fails_in_turn<R: Threads + Sync>(rt: &R, alloc: Global, whole: &Whole) -> bool {
    meets_faults(rt, alloc, whole, 1) && meets_faults(rt, alloc, whole, usize::MAX)
}

#[test]
fn ends_a_text_at_each_fault(rt: HostRuntime) {
    assert!(rt; fails_in_turn(&rt, rt.alloc(), &TEXT));
}

#[test]
fn ends_a_trial_at_each_fault(rt: HostRuntime) {
    assert!(rt; fails_in_turn(&rt, rt.alloc(), &TRIAL));
}

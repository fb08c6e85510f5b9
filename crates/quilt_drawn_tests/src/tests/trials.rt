//! Trials, whose texts are drawn by the program.
use quilt_desk::Desk;
use quilt_scripts::{Run, edition_of, file_of};
use quilt_top::End;
use quilt_world::Image;
use std::alloc::Global;
use std::process::Abort;
use std::thread::Threads;

/// Tries one line over the file: what is put and the status have to be these. Gives the file as it is then.
fn tries_one_line<R: Threads + Sync + Abort>(
    rt: &R,
    alloc: Global,
    file: Image,
    output: &[u8],
    status: u8,
) -> Image {
    let words = ["trial", "m", "0", "1"];
    Run::of(&words, b"edition\n")
        .answers(rt, alloc, file, output, status)
        .expect(rt, "this summary and this status")
}

#[test]
fn tries_one_line_twice(rt: HostRuntime) {
    let alloc = rt.alloc();
    let file = file_of(&rt, alloc, "16", "3").expect(&rt, "a file");
    let first = b"ok 6\nno 0\nrecords 8\nedition 1\n";
    let file = tries_one_line(&rt, alloc, file, first, 0);
    let second = b"ok 2\nno 4\nrecords 8\nedition 2\n";
    let file = tries_one_line(&rt, alloc, file, second, 1);
    assert_eq!(rt; edition_of(&rt, alloc, file), Some(2));
}

#[test]
fn tries_no_file_that_is_not_there(rt: HostRuntime) {
    let words = ["trial", "m", "0", "1"];
    let run = Run::of(&words, b"");
    let (end, desk) = run.over(&rt, rt.alloc(), None).expect(&rt, "memory");
    assert_eq!(rt; end, End::Missing);
    assert!(rt; desk.output().is_empty());
}

/// The number behind this word in a line of its own.
fn number_behind(rt: &impl Abort, lines: &str, word: &str) -> u64 {
    for line in lines.lines() {
        if let Some((first, number)) = line.split_once(' ') {
            if first == word {
                return number.parse().expect(rt, "a number");
            }
        }
    }
    panic!(rt; "the word is in no line");
}

/// The summary of a trial of 2000 lines over a new file.
fn trial_of_2000<R: Threads + Sync + Abort>(rt: &R, alloc: Global) -> Desk {
    let file = file_of(rt, alloc, "2000", "8");
    let words = ["trial", "m", "1", "2000"];
    let run = Run::of(&words, b"");
    let (end, desk) = run.over(rt, alloc, file).expect(rt, "memory");
    assert_eq!(rt; end, End::Refused);
    desk
}

/// Compares the summary of a trial of 2000 lines: 4 more commands make the layers, and 32 publish.
fn compares_summary(rt: &impl Abort, lines: &str) {
    let done = number_behind(rt, lines, "ok");
    let refused = number_behind(rt, lines, "no");
    assert_eq!(rt; done.checked_add(refused), Some(2036));
    assert_eq!(rt; number_behind(rt, lines, "edition"), 32);
    assert!(rt; lines.ends_with("\nedition 32\n"));
}

#[test]
fn tries_many_lines_alike(rt: HostRuntime) {
    let first = trial_of_2000(&rt, rt.alloc());
    let second = trial_of_2000(&rt, rt.alloc());
    assert!(rt; first.output() == second.output());
    let lines = str::from_utf8(first.output()).expect(&rt, "text");
    compares_summary(&rt, lines);
}

//! Drawn texts are answered alike with any pool and in any pieces.
use quilt_desk::Desk;
use quilt_plain::Dice;
use quilt_scripts::{Run, file_of};
use quilt_top::End;
use quilt_trial::trial_text;
use std::alloc::{AllocError, Global};
use std::process::Abort;
use std::thread::Threads;

/// Adds commands that set pixels of a square of 64 by 64.
fn add_sets(alloc: Global, text: &mut Vec<u8>, count: u32) -> Result<(), AllocError> {
    let mut dice = Dice::new(1);
    for _ in 0..count {
        let (x, y, colour) = (dice.below(64), dice.below(64), dice.below(256));
        let line = format!(in alloc; "set a {x} {y} {colour}\n")?;
        text.extend_from_slice(line.as_bytes())?;
    }
    Ok(())
}

/// Two hundred commands, whose tree outgrows a pool of 8 pages.
fn text_of_200(alloc: Global) -> Result<Vec<u8>, AllocError> {
    let mut text = Vec::from_slice(alloc, b"region a 0\n")?;
    add_sets(alloc, &mut text, 195)?;
    text.extend_from_slice(b"publish\nleaves a\nrecords\nedition\n")?;
    Ok(text)
}

/// Runs the text as the words say over a file of this size, in pieces of so many bytes. The run has to come to this end.
fn done<R: Threads + Sync + Abort>(
    rt: &R,
    alloc: Global,
    size: [&str; 2],
    run: Run,
    end: End,
) -> Desk {
    let file = file_of(rt, alloc, size[0], size[1]);
    let (found, desk) = run.over(rt, alloc, file).expect(rt, "memory");
    assert_eq!(rt; found, end);
    desk
}

/// Runs a text with these words, whole and byte by byte: what is put has to be this.
fn puts_alike<R: Threads + Sync + Abort>(
    rt: &R,
    alloc: Global,
    size: [&str; 2],
    run: Run,
    end: End,
    output: &[u8],
) {
    for piece in [1, 4096] {
        let desk = done(rt, alloc, size, run.in_pieces(piece), end);
        assert!(rt; desk.output() == output);
    }
}

#[test]
fn answers_alike_with_any_pool(rt: HostRuntime) {
    let alloc = rt.alloc();
    let text = text_of_200(alloc).expect(&rt, "a text");
    let first = done(&rt, alloc, ["64", "6"], Run::text(&text), End::Done);
    assert!(rt; first.output().ends_with(b"edition 1\nok\n"));
    assert!(rt; first.output().len() > 10_000);
    let with_pools: [&[&str]; 4] = [
        &["--pool", "8", "run", "m"],
        &["run", "--pool=8", "m"],
        &["run", "m", "--pool", "4096"],
        &["--pool=4096", "--", "run", "m"],
    ];
    for words in with_pools {
        let run = Run::of(words, &text);
        puts_alike(&rt, alloc, ["64", "6"], run, End::Done, first.output());
    }
}

/// The 200 commands of a trial of 192 lines, over layers of all kinds, of which some are refused.
#[test]
fn answers_a_drawn_text_alike_with_any_pool(rt: HostRuntime) -> Result<(), AllocError> {
    let alloc = rt.alloc();
    let text = trial_text(alloc, 7, 192, 6)?;
    let run = Run::text(text.bytes());
    let first = done(&rt, alloc, ["2000", "6"], run, End::Refused);
    assert!(rt; first.output().ends_with(b"edition 4\nok\n"));
    for pool in ["8", "4096"] {
        let words = ["run", "m", "--pool", pool];
        let run = Run::of(&words, text.bytes());
        puts_alike(&rt, alloc, ["2000", "6"], run, End::Refused, first.output());
    }
    Ok(())
}

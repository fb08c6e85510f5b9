//! Every command over a map that is larger than the pool, with each call of the world failing in turn.
use super::commands::{ALGEBRA, EDITIONS, LAYERS, LINES, MAP, PAINTING, POINTS};
use crate::cases::{Case, Left, surveyed};
use crate::runs::{Ran, WORDS, done, put_by, writes_of};
use quilt_scripts::{Run, Turns, file_after, file_of};
use quilt_top::End;
use quilt_world::Image;
use std::alloc::Global;
use std::process::Abort;
use std::thread::Threads;

/// What each text begins with: a change of one page.
const FRONT: &str = "rect b 0 0 2 2 9";

/// The file behind a run in which no command was refused.
fn file_behind(ran: &Ran) -> Option<Image> {
    if ran.0 != End::Done {
        return None;
    }
    file_after(&ran.1)
}

/// The file of the map.
fn file_of_map<R: Threads + Sync>(rt: &R, alloc: Global) -> Option<Image> {
    let file = file_of(rt, alloc, "64", "4");
    file_behind(&done(rt, alloc, Run::of(&WORDS, MAP), file)?)
}

/// A run over a file, whose last command alone may publish, and how it goes without a fault.
#[derive(Clone, Copy)]
struct Publish<'a> {
    run: Run<'a>,
    file: &'a Image,
    whole: &'a Ran,
}

impl<'a> Publish<'a> {
    /// Lets each call fail in turn, from this one on, where the survey has these answers before it and behind it: the number of the first
    /// call that is behind the run's end, and how many pages were torn, which are as many as the run without a fault has written.
    fn fails_between<'b, R: Threads + Sync>(
        &self,
        rt: &R,
        alloc: Global,
        first: u64,
        before: &'b [u8],
        after: &'b [u8],
    ) -> Option<(u64, usize)> {
        let case = Case {
            run: self.run,
            file: self.file,
            end: End::Done,
            output: put_by(&self.whole.1),
            left: Left::Answer(before, after),
        };
        let (end, torn) = case.fails_from(rt, alloc, first)?;
        (torn == writes_of(&self.whole.1)).then_some((end, torn))
    }

    /// The same, where it has these answers before.
    fn fails_behind<R: Threads + Sync>(
        &self,
        rt: &R,
        alloc: Global,
        first: u64,
        before: &[u8],
    ) -> Option<(u64, usize)> {
        let after = surveyed(rt, alloc, file_behind(self.whole))?;
        self.fails_between(rt, alloc, first, before, put_by(&after.1))
    }

    /// Lets each call fail in turn, from this one on.
    fn fails_from<R: Threads + Sync>(
        &self,
        rt: &R,
        alloc: Global,
        first: u64,
    ) -> Option<(u64, usize)> {
        let before = surveyed(rt, alloc, self.file.copy().ok())?;
        self.fails_behind(rt, alloc, first, put_by(&before.1))
    }
}

/// Runs a text over the file with each call failing in turn, from this one on.
fn text_fails<'x, R: Threads + Sync>(
    rt: &R,
    alloc: Global,
    file: &'x Image,
    first: u64,
    text: &'x [u8],
) -> Option<(u64, usize)> {
    let run = Run::of(&WORDS, text);
    let whole = done(rt, alloc, run, file.copy().ok())?;
    Publish {
        run,
        file,
        whole: &whole,
    }
    .fails_from(rt, alloc, first)
}

/// The front, and these commands.
fn text_of(alloc: Global, commands: &str) -> Option<Turns> {
    let mut turns = Turns::new(alloc);
    turns.says(FRONT, "").ok()?;
    turns.says(commands, "").ok()?;
    Some(turns)
}

/// Runs these commands behind the front with each call failing in turn, from this one on: the number of the first that is behind the run's
/// end, and how many pages were torn.
fn fails_from<R: Threads + Sync>(
    rt: &R,
    alloc: Global,
    file: &Image,
    first: u64,
    commands: &str,
) -> Option<(u64, usize)> {
    let turns = text_of(alloc, commands)?;
    text_fails(rt, alloc, file, first, &turns.input)
}

/// Does so with each of these commands, where the calls of the front have failed once: how many pages were torn. The commands are told
/// where it does not go as it has to.
fn fail_in_turn<R: Threads + Sync + Abort>(rt: &R, alloc: Global, rows: &[&str]) -> Option<usize> {
    let file = file_of_map(rt, alloc)?;
    let (end, mut all) = fails_from(rt, alloc, &file, 1, "")?;
    for commands in rows {
        let found = fails_from(rt, alloc, &file, end.saturating_sub(1), commands);
        assert!(rt; found.is_some(), "{commands}");
        all = all.saturating_add(found?.1);
    }
    Some(all)
}

#[test]
fn each_call_of_a_command_on_layers_fails(rt: HostRuntime) {
    assert!(rt; fail_in_turn(&rt, rt.alloc(), &LAYERS) == Some(90));
}

#[test]
fn each_call_of_a_command_that_paints_fails(rt: HostRuntime) {
    assert!(rt; fail_in_turn(&rt, rt.alloc(), &PAINTING) == Some(103));
}

#[test]
fn each_call_of_a_command_on_points_fails(rt: HostRuntime) {
    assert!(rt; fail_in_turn(&rt, rt.alloc(), &POINTS) == Some(90));
}

#[test]
fn each_call_of_a_command_on_lines_fails(rt: HostRuntime) {
    assert!(rt; fail_in_turn(&rt, rt.alloc(), &LINES) == Some(133));
}

#[test]
fn each_call_of_map_algebra_fails(rt: HostRuntime) {
    assert!(rt; fail_in_turn(&rt, rt.alloc(), &ALGEBRA) == Some(167));
}

#[test]
fn each_call_of_a_command_on_editions_fails(rt: HostRuntime) {
    assert!(rt; fail_in_turn(&rt, rt.alloc(), &EDITIONS) == Some(44));
}

//! Runs that are done again with each of their calls failing in turn. What is None is not as it has to be, or for want of memory.
use crate::runs::{Ran, WORDS, done, is_torn, log_of, put_by};
use quilt_desk::Desk;
use quilt_scripts::{Run, choice, edition_of, stopped};
use quilt_top::End;
use quilt_world::{Disk, Image};
use std::alloc::Global;
use std::thread::Threads;

/// What is asked of a file that is left, whose answers tell one edition from another.
const SURVEY: &[u8] =
    b"edition\nlayers\nrecords\nshow a 0 0 16 16\nshow b 0 0 16 16\nblocks c\nshow c 0 0 16 16\n\
    within p 0 0 16 16\ncross l 0 0 16 16\n";

/// How many bytes the reply to a publish has.
const PUBLISHED: usize = b"edition 2\nok\n".len();

/// What a stop behind the call that fails has to leave.
#[derive(Clone, Copy)]
pub enum Left<'a> {
    /// Anything.
    Any,
    /// An edition, by the fronts of the output that end in the replies to a publish.
    Edition(&'a [&'a [u8]]),
    /// An edition that gives the first of these answers to the survey, or that gives the second.
    Answer(&'a [u8], &'a [u8]),
}

/// A run over a file, how it ends without a fault, what it puts then, and what a stop leaves.
#[derive(Clone, Copy)]
pub struct Case<'a, 'f> {
    pub run: Run<'a>,
    pub file: &'f Image,
    pub end: End,
    pub output: &'a [u8],
    pub left: Left<'a>,
}

/// What is told of a file of 64 home pages.
pub fn surveyed<R: Threads + Sync>(rt: &R, alloc: Global, file: Option<Image>) -> Option<Ran> {
    done(rt, alloc, Run::of(&WORDS, SURVEY), file)
}

/// Stops a run of a file of 35 pages after so many events, where it had put this, with the free pages filled in three ways: each file
/// opens to the last edition that was answered at least, and to the one behind it at most.
pub fn leaves_edition<R: Threads + Sync>(
    rt: &R,
    alloc: Global,
    desk: &Desk,
    events: usize,
    put: &[u8],
    fronts: &[&[u8]],
) -> Option<()> {
    let told = fronts.iter().filter(|front| put.starts_with(front)).count();
    let newest = told.saturating_add(1).min(fronts.len());
    for number in 0..3 {
        let file = stopped(desk, events, &choice(number))?;
        let found = edition_of(rt, alloc, file)? as usize;
        if found < told || newest < found {
            return None;
        }
    }
    Some(())
}

impl<'a, 'f> Case<'a, 'f> {
    /// Whether an edition may be left that gives this answer, where so many bytes were put: the one before the publish at the end, where
    /// its reply is not put whole, or the one behind it, where it was begun.
    fn may_answer(&self, put: usize, answer: &[u8], before: &[u8], after: &[u8]) -> bool {
        let is_before = answer == before;
        let is_after = answer == after;
        let missing = self.output.len().saturating_sub(put);
        (is_before || is_after) && (is_after || missing > 0) && (is_before || missing <= PUBLISHED)
    }

    /// Stops a run of a file of 131 pages behind the call that failed, with other bytes in each page that is free, and asks for the survey.
    fn leaves_answer<R: Threads + Sync>(
        &self,
        rt: &R,
        alloc: Global,
        desk: &Desk,
        before: &[u8],
        after: &[u8],
    ) -> Option<()> {
        let file = stopped(desk, log_of(desk).len(), &[7; 131]);
        let found = surveyed(rt, alloc, file)?;
        self.may_answer(put_by(desk).len(), put_by(&found.1), before, after)
            .then_some(())
    }

    /// Stops a run behind the call that failed, and looks at what is left.
    fn leaves<R: Threads + Sync>(&self, rt: &R, alloc: Global, desk: &Desk) -> Option<()> {
        match self.left {
            Left::Any => Some(()),
            Left::Edition(fronts) => {
                leaves_edition(rt, alloc, desk, log_of(desk).len(), put_by(desk), fronts)
            }
            Left::Answer(before, after) => self.leaves_answer(rt, alloc, desk, before, after),
        }
    }

    /// Whether a run of the case tore a page, or None inside where it went to its end, with all of the output put. If it did not, it has
    /// ended in a device fault, what was put is a front of the output, and a stop leaves what it has to.
    fn tears<R: Threads + Sync>(&self, rt: &R, alloc: Global, ran: &Ran) -> Option<Option<bool>> {
        let (end, desk) = ran;
        let put = put_by(desk);
        if *end == self.end {
            return (put == self.output).then_some(None);
        }
        if *end != End::Device || !self.output.starts_with(put) {
            return None;
        }
        if desk.pages() > 0 {
            self.leaves(rt, alloc, desk)?;
        }
        Some(Some(is_torn(desk)))
    }

    /// The same of the run with this call failing.
    fn tears_at<R: Threads + Sync>(
        &self,
        rt: &R,
        alloc: Global,
        call: u64,
    ) -> Option<Option<bool>> {
        let file = self.file.copy().ok();
        self.tears(
            rt,
            alloc,
            &done(rt, alloc, self.run.failing_at(call), file)?,
        )
    }

    /// Lets each call fail in turn, from this one on: the number of the first that is behind the run's end, and how many pages were torn.
    pub fn fails_from<R: Threads + Sync>(
        &self,
        rt: &R,
        alloc: Global,
        first: u64,
    ) -> Option<(u64, usize)> {
        let mut torn = 0_usize;
        for call in first..2000_u64 {
            match self.tears_at(rt, alloc, call)? {
                Some(tears) => torn = torn.saturating_add(usize::from(tears)),
                None => return Some((call, torn)),
            }
        }
        None
    }
}

use crate::edition::Edition;
use crate::steps::{Outcome, Trial, events_of, left, opened, reopened, reopened_now};
use quilt_desk::Desk;
use quilt_world::Image;
use std::alloc::Global;
use std::test::Fail;

/// What the work on a file has to come to.
#[derive(Clone, Copy)]
pub struct Wanted {
    pub outcome: Outcome,
    /// How many events the log then has, where it is told.
    pub events: Option<usize>,
    /// What a stop leaves after less events than `last`.
    pub old: Edition,
    /// What a stop leaves after `first` events or more.
    pub new: Edition,
    pub first: usize,
    pub last: usize,
    /// A page is torn at the end, and the file then reads as either.
    pub is_torn: bool,
}

impl Wanted {
    /// Whether a stop after so many events may leave this.
    fn allows(&self, events: usize, found: &Outcome) -> bool {
        events < self.last && *found == Outcome::Read(self.old)
            || self.first <= events && *found == Outcome::Read(self.new)
    }

    /// Whether the file may read so after so many events.
    fn reads(&self, events: usize, found: &Outcome) -> bool {
        if self.is_torn {
            *found == Outcome::Read(self.old) || *found == Outcome::Read(self.new)
        } else {
            self.allows(events, found)
        }
    }

    /// Whether a stop after each event leaves what it has to, by the choice of this number.
    fn is_left(&self, alloc: Global, desk: &Desk, choice: u8) -> Result<bool, Fail> {
        for events in 0..=events_of(desk) {
            let found = reopened(alloc, left(desk, events, choice)?)?;
            if !self.allows(events, &found) {
                return Ok(false);
            }
        }
        Ok(true)
    }

    /// Whether that is the outcome, the file of the desk reads as it has to, and a stop by each of these choices leaves what it has to.
    fn is_told(
        &self,
        alloc: Global,
        outcome: Outcome,
        desk: &Desk,
        choices: &[u8],
    ) -> Result<bool, Fail> {
        let events = events_of(desk);
        let found = reopened_now(alloc, desk)?;
        let is_long = self.events.unwrap_or(events) == events;
        let mut is_told = outcome == self.outcome && is_long && self.reads(events, &found);
        for choice in choices {
            is_told = is_told && self.is_left(alloc, desk, *choice)?;
        }
        Ok(is_told)
    }

    /// Whether the work on a file comes to what it has to, and a stop by each of these choices leaves what it has to.
    pub fn is_met(
        &self,
        alloc: Global,
        file: Image,
        trial: Trial,
        choices: &[u8],
    ) -> Result<bool, Fail> {
        let (outcome, desk) = opened(alloc, file, trial)?;
        self.is_told(alloc, outcome, &desk, choices)
    }
}

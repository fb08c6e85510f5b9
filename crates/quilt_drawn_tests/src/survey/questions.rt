use super::{ABSENT, OUTSIDE, Survey, numbers_of};
use crate::bodies::{
    body_of_distances, body_of_numbers, body_of_pairs, body_of_points, body_of_rows,
    body_of_segments,
};
use quilt_scripts::line_of;
use quilt_types::{Pixel, Window};
use std::alloc::AllocError;

impl Survey {
    /// Adds a drawn command that changes nothing.
    pub fn asks(&mut self) -> Result<(), AllocError> {
        let w = self.window();
        match self.dice.below(8) {
            0 => self.finds(),
            1 => self.lists(w),
            2 => self.looks_near(),
            3 => self.ranks(),
            4 => self.crosses("l", w),
            5 => self.crosses("m", w),
            6 => self.lies_over(),
            _ => self.joins(),
        }
    }

    /// Looks at all layers whole.
    pub fn looks(&mut self) -> Result<(), AllocError> {
        let whole = self.whole();
        self.lists(whole)?;
        self.crosses("l", whole)?;
        self.crosses("m", whole)?;
        self.shows()
    }

    /// Looks for a point.
    fn finds(&mut self) -> Result<(), AllocError> {
        let p = self.pixel();
        let command = line_of(self.alloc, "find p", &[u32::from(p.x), u32::from(p.y)])?;
        if self.is_outside(p) {
            return self.turns.says(&command, OUTSIDE);
        }
        let Some(label) = self.layers.points.find(p) else {
            return self.turns.says(&command, ABSENT);
        };
        let body = body_of_numbers(self.alloc, &[label])?;
        self.replies(&command, None, body)
    }

    /// Lists the points in a window.
    fn lists(&mut self, w: Window) -> Result<(), AllocError> {
        let command = line_of(self.alloc, "within p", &numbers_of(w))?;
        let points = self.layers.points.within(self.alloc, w)?;
        let body = body_of_points(self.alloc, &points)?;
        self.replies(&command, self.refusal_of_window(w), body)
    }

    /// Why the nearest segments to a pixel are not told, if they are not.
    fn refusal_of_rank(&self, name: &str, p: Pixel) -> Option<&'static str> {
        if self.is_outside(p) {
            return Some(OUTSIDE);
        }
        self.layers.lines(name).is_empty().then_some(ABSENT)
    }

    /// Asks for the nearest segment.
    fn looks_near(&mut self) -> Result<(), AllocError> {
        let name = self.lines();
        let p = self.pixel();
        let words = if name == "l" {
            "nearest l"
        } else {
            "nearest m"
        };
        let command = line_of(self.alloc, words, &[u32::from(p.x), u32::from(p.y)])?;
        let ranked = self.layers.lines(name).ranked(self.alloc, p, 1)?;
        let body = body_of_distances(self.alloc, &ranked)?;
        self.replies(&command, self.refusal_of_rank(name, p), body)
    }

    /// Asks for up to nine of the nearest segments.
    fn ranks(&mut self) -> Result<(), AllocError> {
        let name = self.lines();
        let p = self.pixel();
        let count = self.dice.below(9).wrapping_add(1);
        let words = if name == "l" { "rank l" } else { "rank m" };
        let numbers = [u32::from(p.x), u32::from(p.y), count];
        let command = line_of(self.alloc, words, &numbers)?;
        let ranked = self.layers.lines(name).ranked(self.alloc, p, count)?;
        let body = body_of_distances(self.alloc, &ranked)?;
        self.replies(&command, self.refusal_of_rank(name, p), body)
    }

    /// Lists the segments that meet a window.
    fn crosses(&mut self, name: &str, w: Window) -> Result<(), AllocError> {
        let words = if name == "l" { "cross l" } else { "cross m" };
        let command = line_of(self.alloc, words, &numbers_of(w))?;
        let segs = self.layers.lines(name).crossing(self.alloc, w)?;
        let body = body_of_segments(self.alloc, &segs)?;
        self.replies(&command, self.refusal_of_window(w), body)
    }

    /// Lists the segments over the region.
    fn lies_over(&mut self) -> Result<(), AllocError> {
        let name = self.lines();
        let command = if name == "l" { "over l a" } else { "over m a" };
        let ids = self.layers.over(self.alloc, name, self.side)?;
        let body = body_of_numbers(self.alloc, &ids)?;
        self.replies(command, None, body)
    }

    /// Lists the pairs of segments of the two line layers that share a point.
    fn joins(&mut self) -> Result<(), AllocError> {
        let lines = self.layers.lines("l");
        let pairs = lines.crossings(self.alloc, self.layers.lines("m"))?;
        let body = body_of_pairs(self.alloc, &pairs)?;
        self.replies("crossings l m", None, body)
    }

    /// Shows the region.
    fn shows(&mut self) -> Result<(), AllocError> {
        let command = line_of(self.alloc, "show a 0 0", &[self.side, self.side])?;
        let body = body_of_rows(self.alloc, self.side, &self.layers.colours)?;
        self.replies(&command, None, body)
    }
}

//! The layers that drawn texts speak of.
use quilt_plain::{PlainPoints, PlainSegments, paint};
use quilt_types::Window;
use std::alloc::{AllocError, Global};

/// A layer `p` of points, two of lines, `l` and `m`, and a region `a`, whose colours stand row by row.
#[derive(Drop)]
pub struct Layers {
    pub points: PlainPoints,
    pub lines: PlainSegments,
    pub more_lines: PlainSegments,
    pub colours: Vec<u16>,
}

impl Layers {
    /// Empty layers on a square of this side.
    pub fn new(alloc: Global, side: u32) -> Result<Layers, AllocError> {
        let mut colours = Vec::new(alloc);
        for _ in 0..side.wrapping_mul(side) {
            colours.push(0)?;
        }
        Ok(Layers {
            points: PlainPoints::new(alloc),
            lines: PlainSegments::new(alloc),
            more_lines: PlainSegments::new(alloc),
            colours,
        })
    }

    /// The same layers.
    pub fn copy(&self, alloc: Global) -> Result<Layers, AllocError> {
        Ok(Layers {
            points: self.points.copy(alloc)?,
            lines: self.lines.copy(alloc)?,
            more_lines: self.more_lines.copy(alloc)?,
            colours: self.colours.to_vec(alloc)?,
        })
    }

    /// The line layer of this name, which is `l` or another.
    pub fn lines(&self, name: &str) -> &PlainSegments {
        if name == "l" {
            &self.lines
        } else {
            &self.more_lines
        }
    }

    /// The ids of the segments of this line layer over the region.
    pub fn over(&self, alloc: Global, name: &str, side: u32) -> Result<Vec<u32>, AllocError> {
        let lines = if name == "l" {
            &self.lines
        } else {
            &self.more_lines
        };
        lines.over(alloc, &self.colours, side)
    }

    /// The same, to be changed.
    pub fn lines_mut(&mut self, name: &str) -> &mut PlainSegments {
        if name == "l" {
            &mut self.lines
        } else {
            &mut self.more_lines
        }
    }
}

/// Gives the pixels of the window this colour.
pub fn fill(colours: &mut [u16], side: u32, w: Window, colour: u16) {
    let columns = u32::from(w.x)..u32::from(w.x).wrapping_add(u32::from(w.w));
    let rows = u32::from(w.y)..u32::from(w.y).wrapping_add(u32::from(w.h));
    paint(colours, side, columns, rows, colour);
}

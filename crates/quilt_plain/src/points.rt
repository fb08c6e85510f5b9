use quilt_types::{Pixel, Window};
use std::alloc::{AllocError, Global};
use std::collections::BTreeMap;

/// Points with labels, one at a pixel at most, in the order of their y and then their x.
#[derive(Drop)]
pub struct PlainPoints {
    labels: BTreeMap<(u16, u16), u32>,
}

impl PlainPoints {
    pub fn new(alloc: Global) -> PlainPoints {
        PlainPoints {
            labels: BTreeMap::new(alloc),
        }
    }

    /// The label of the point at the pixel, if there is one.
    pub fn find(&self, p: Pixel) -> Option<u32> {
        self.labels.get(&(p.y, p.x)).copied()
    }

    /// Adds a point, in the place of one at its pixel.
    pub fn put(&mut self, p: Pixel, label: u32) -> Result<(), AllocError> {
        self.labels.insert((p.y, p.x), label)?;
        Ok(())
    }

    /// Removes the point at the pixel, if there is one.
    pub fn remove(&mut self, p: Pixel) {
        let _ = self.labels.remove(&(p.y, p.x));
    }

    /// The points in the window, by y and then x.
    pub fn within(&self, alloc: Global, w: Window) -> Result<Vec<(Pixel, u32)>, AllocError> {
        let columns = u32::from(w.x)..u32::from(w.x) + u32::from(w.w);
        let rows = u32::from(w.y)..u32::from(w.y) + u32::from(w.h);
        let mut points = Vec::new(alloc);
        for ((y, x), label) in &self.labels {
            if columns.contains(&u32::from(*x)) && rows.contains(&u32::from(*y)) {
                points.push((Pixel { x: *x, y: *y }, *label))?;
            }
        }
        Ok(points)
    }

    /// The same points.
    pub fn copy(&self, alloc: Global) -> Result<PlainPoints, AllocError> {
        let mut points = PlainPoints::new(alloc);
        for ((y, x), label) in &self.labels {
            points.put(Pixel { x: *x, y: *y }, *label)?;
        }
        Ok(points)
    }
}

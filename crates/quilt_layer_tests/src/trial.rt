use crate::drawing::{any_window, coordinate};
use crate::layer::Layer;
use crate::plain_points::{PlainPoints, holds};
use quilt_plain::Dice;
use quilt_record::{Edits, Record};
use quilt_types::{Block, Pixel, Point, PointList, Stop, Window};
use std::alloc::Global;
use std::collections::BTreeMap;

/// A point layer, the points that it is to have, and the dice by which both change.
#[derive(Drop)]
pub struct Trial {
    layer: Layer,
    pub plain: PlainPoints,
    pub dice: Dice,
}

/// How many pixels the block has.
fn area(b: Block) -> u32 {
    u32::from(b.side).wrapping_mul(u32::from(b.side))
}

impl Trial {
    /// A layer of no points, whose blocks hold at most `bucket`.
    pub fn new(alloc: Global, level: u8, bucket: u8, seed: u64) -> Result<Trial, Stop> {
        let plain = PlainPoints {
            labels: BTreeMap::new(alloc),
            level,
            bucket,
        };
        Ok(Trial {
            layer: Layer::of_points(alloc, level, bucket)?,
            plain,
            dice: Dice::new(seed),
        })
    }

    /// The pixel of a drawn point, if there is a point.
    pub fn taken(&mut self) -> Option<Pixel> {
        let count = u32::try_from(self.plain.total()).unwrap_or(0);
        let place = self.dice.below(count) as usize;
        self.plain.nth(place)
    }

    /// A drawn pixel of the square, or one beside a point that is there.
    pub fn pixel(&mut self) -> Pixel {
        let side = self.plain.side();
        let at = Pixel {
            x: coordinate(&mut self.dice, side),
            y: coordinate(&mut self.dice, side),
        };
        match (self.dice.below(3), self.taken()) {
            (0, Some(near)) => Pixel {
                x: near.x ^ (at.x & 1),
                y: near.y ^ (at.y & 3),
            },
            _ => at,
        }
    }

    /// A drawn window of the square.
    pub fn window(&mut self) -> Window {
        any_window(&mut self.dice, self.plain.side())
    }

    /// Carries out a plan of the layer: whether there is one just where one is due.
    fn carries_out(
        &mut self,
        alloc: Global,
        plan: Option<Edits>,
        is_due: bool,
    ) -> Result<bool, Stop> {
        match plan {
            None => Ok(!is_due),
            Some(edits) => {
                self.layer.edit(alloc, &edits)?;
                Ok(is_due)
            }
        }
    }

    /// Puts a point into both: whether it comes just where none is at its pixel.
    pub fn put(&mut self, alloc: Global, p: Point) -> Result<bool, Stop> {
        let is_due = self.plain.put(p).ok().ok_or(Stop::Memory)?;
        let plan = self.layer.plan_put(alloc, p)?;
        self.carries_out(alloc, plan, is_due)
    }

    /// Takes the point at a pixel out of both: whether it goes just where one is there.
    pub fn del(&mut self, alloc: Global, at: Pixel) -> Result<bool, Stop> {
        let is_due = self.plain.take(at);
        let plan = self.layer.plan_del(alloc, at)?;
        self.carries_out(alloc, plan, is_due)
    }

    /// Puts points into the layer at once: whether they come just where they are due.
    pub fn scatter(
        &mut self,
        alloc: Global,
        points: &PointList,
        is_due: bool,
    ) -> Result<bool, Stop> {
        let plan = self.layer.plan_scatter(alloc, points)?;
        self.carries_out(alloc, plan, is_due)
    }

    /// Whether both have the same point at the pixel, or none.
    pub fn finds(&mut self, at: Pixel) -> bool {
        self.layer.find(at) == Ok(self.plain.label(at))
    }

    /// Whether both have the same points in the window.
    pub fn reads(&mut self, alloc: Global, w: Window) -> Result<bool, Stop> {
        let found = self.layer.within(alloc, w)?;
        match self.plain.within(alloc, w) {
            Err(_) => Err(Stop::Memory),
            Ok(expected) => Ok(found.items() == expected.as_slice()),
        }
    }

    /// Whether what the record of a block says is so: that it holds this point, or that it holds none.
    fn is_said(&self, b: Block, held: Option<Point>) -> bool {
        match held {
            None => self.plain.count(b) == 0,
            Some(p) => holds(b, p.at) && self.plain.label(p.at) == Some(p.label),
        }
    }

    /// How many pixels the blocks have that the records say, one behind another, and how many points: where each of them says a
    /// block of the layer, and a point that it holds or that it holds none.
    fn said(&self, records: &[Record]) -> Option<(u32, usize)> {
        let (mut last, mut pixels, mut points) = (None, 0_u32, 0_usize);
        for r in records {
            let (b, held) = self.layer.read_point(r)?;
            if last != Some(b) {
                if !self.plain.is_block(b) {
                    return None;
                }
                pixels = pixels.wrapping_add(area(b));
                last = Some(b);
            }
            if !self.is_said(b, held) {
                return None;
            }
            points = points.wrapping_add(usize::from(held.is_some()));
        }
        Some((pixels, points))
    }

    /// Compares all records: each says a block of the layer and a point that it holds, or that it holds none, and the blocks are as
    /// large as the square. So they are all blocks of the layer, since no two of these overlap.
    pub fn compares(&mut self, alloc: Global) -> Result<bool, Stop> {
        let records = self.layer.records(alloc)?;
        let side = u32::from(self.plain.side());
        Ok(self.said(&records) == Some((side.wrapping_mul(side), self.plain.total())))
    }
}

//! A drawn text on points, segments and pixels, with the replies that lists of these give.
mod edits;
mod questions;

use crate::layers::Layers;
use quilt_plain::Dice;
use quilt_scripts::Turns;
use quilt_types::{Pixel, Seg, Window};
use std::alloc::{AllocError, Global};

const OUTSIDE: &str = "no 8 outside";

const ABSENT: &str = "no 9 absent";

const PRESENT: &str = "no 10 present";

/// A text that is drawn, its replies, and the layers as they are then. The ids of segments are below `ids`.
#[derive(Drop)]
pub struct Survey {
    pub alloc: Global,
    pub side: u32,
    pub ids: u32,
    pub dice: Dice,
    pub layers: Layers,
    pub turns: Turns,
}

/// The numbers of a window.
fn numbers_of(w: Window) -> [u32; 4] {
    [w.x, w.y, w.w, w.h].map(u32::from)
}

/// The number, which is small.
fn small(number: u32) -> u16 {
    u16::try_from(number).unwrap_or(0)
}

impl Survey {
    /// Nothing is drawn yet.
    pub fn new(alloc: Global, side: u32, ids: u32, seed: u64, layers: Layers) -> Survey {
        Survey {
            alloc,
            side,
            ids,
            dice: Dice::new(seed),
            layers,
            turns: Turns::new(alloc),
        }
    }

    /// Makes the layers.
    pub fn begins(&mut self) -> Result<(), AllocError> {
        for command in ["points p", "lines l 1", "lines m 4", "region a 0"] {
            self.turns.says(command, "ok")?;
        }
        Ok(())
    }

    /// Adds a question and its reply: the refusal, where there is one, and else the body and `ok`.
    fn replies(
        &mut self,
        command: &str,
        refusal: Option<&str>,
        body: String,
    ) -> Result<(), AllocError> {
        if let Some(reply) = refusal {
            return self.turns.says(command, reply);
        }
        let mut reply = body;
        reply.push_str("ok")?;
        self.turns.says(command, &reply)
    }

    /// A coordinate, which once in thirty times lies outside.
    fn coordinate(&mut self) -> u16 {
        let number = match self.dice.below(30) {
            0 => self.side,
            1 => self.side.wrapping_sub(1),
            _ => self.dice.below(self.side),
        };
        small(number)
    }

    fn pixel(&mut self) -> Pixel {
        let (x, y) = (self.coordinate(), self.coordinate());
        Pixel { x, y }
    }

    fn is_outside(&self, p: Pixel) -> bool {
        self.side <= u32::from(p.x) || self.side <= u32::from(p.y)
    }

    /// A segment, which once in four times is one point.
    fn segment(&mut self) -> Seg {
        let Pixel { x: x1, y: y1 } = self.pixel();
        let Pixel { x: x2, y: y2 } = self.pixel();
        if self.dice.below(4) == 0 {
            return Seg {
                x1,
                y1,
                x2: x1,
                y2: y1,
            };
        }
        Seg { x1, y1, x2, y2 }
    }

    /// A window, which mostly lies inside.
    fn window(&mut self) -> Window {
        let Pixel { x, y } = self.pixel();
        let most = self.side.wrapping_sub(u32::from(x.max(y)));
        let w = self.dice.below(most).saturating_add(1);
        let h = self.dice.below(most).saturating_add(1);
        Window {
            x,
            y,
            w: small(w),
            h: small(h),
        }
    }

    /// The window of all pixels.
    fn whole(&self) -> Window {
        Window {
            x: 0,
            y: 0,
            w: small(self.side),
            h: small(self.side),
        }
    }

    /// Why a window is refused, if it is.
    fn refusal_of_window(&self, w: Window) -> Option<&'static str> {
        let right = u32::from(w.x).saturating_add(u32::from(w.w));
        let bottom = u32::from(w.y).saturating_add(u32::from(w.h));
        (self.side < right || self.side < bottom).then_some(OUTSIDE)
    }

    /// The name of one of the two line layers.
    fn lines(&mut self) -> &'static str {
        if self.dice.below(2) == 0 { "l" } else { "m" }
    }
}

use super::{ABSENT, OUTSIDE, PRESENT, Survey, numbers_of, small};
use crate::bodies::ends_of;
use crate::layers::fill;
use quilt_plain::PlainPoints;
use quilt_scripts::line_of;
use quilt_types::{Pixel, Seg};
use std::alloc::{AllocError, Global};

/// The command that scatters these points.
fn scattering(alloc: Global, points: &[(Pixel, u32)]) -> Result<String, AllocError> {
    let count = u32::try_from(points.len()).unwrap_or(0);
    let mut command = line_of(alloc, "scatter p", &[count])?;
    for (p, label) in points {
        command.push_str(&format!(in alloc; "; {} {} {label}", p.x, p.y)?)?;
    }
    Ok(command)
}

impl Survey {
    /// Adds a drawn command that changes a layer.
    pub fn changes(&mut self) -> Result<(), AllocError> {
        match self.dice.below(8) {
            0 | 1 => self.puts(),
            2 => self.takes(),
            3 => self.scatters(),
            4 => self.erases(),
            5 => self.paints(),
            _ => self.draws(),
        }
    }

    /// Adds a point, if none is there.
    fn puts(&mut self) -> Result<(), AllocError> {
        let p = self.pixel();
        let label = self.dice.below(1000);
        let numbers = [u32::from(p.x), u32::from(p.y), label];
        let command = line_of(self.alloc, "put p", &numbers)?;
        let reply = self.reply_to_put(p);
        if reply == "ok" {
            self.layers.points.put(p, label)?;
        }
        self.turns.says(&command, reply)
    }

    fn reply_to_put(&self, p: Pixel) -> &'static str {
        if self.is_outside(p) {
            return OUTSIDE;
        }
        match self.layers.points.find(p) {
            Some(_) => PRESENT,
            None => "ok",
        }
    }

    /// Removes a point, if one is there.
    fn takes(&mut self) -> Result<(), AllocError> {
        let p = self.pixel();
        let command = line_of(self.alloc, "del p", &[u32::from(p.x), u32::from(p.y)])?;
        let reply = self.reply_to_del(p);
        self.layers.points.remove(p);
        self.turns.says(&command, reply)
    }

    fn reply_to_del(&self, p: Pixel) -> &'static str {
        if self.is_outside(p) {
            return OUTSIDE;
        }
        match self.layers.points.find(p) {
            Some(_) => "ok",
            None => ABSENT,
        }
    }

    /// Up to four points, with the labels 0 to 3.
    fn points(&mut self) -> Result<Vec<(Pixel, u32)>, AllocError> {
        let count = self.dice.below(4).wrapping_add(1);
        let mut points = Vec::new(self.alloc);
        for label in 0..count {
            points.push((self.pixel(), label))?;
        }
        Ok(points)
    }

    /// The points of the layer and these, if no two are at one pixel.
    fn joined(&self, points: &[(Pixel, u32)]) -> Result<Option<PlainPoints>, AllocError> {
        let mut all = self.layers.points.copy(self.alloc)?;
        for (p, label) in points {
            if all.find(*p).is_some() {
                return Ok(None);
            }
            all.put(*p, *label)?;
        }
        Ok(Some(all))
    }

    /// Adds up to four points, if each is inside, none is there and no two are at one pixel.
    fn scatters(&mut self) -> Result<(), AllocError> {
        let points = self.points()?;
        let command = scattering(self.alloc, &points)?;
        if points.iter().any(|point| self.is_outside(point.0)) {
            return self.turns.says(&command, OUTSIDE);
        }
        let Some(all) = self.joined(&points)? else {
            return self.turns.says(&command, PRESENT);
        };
        self.layers.points = all;
        self.turns.says(&command, "ok")
    }

    /// Adds a segment, if none has its id.
    fn draws(&mut self) -> Result<(), AllocError> {
        let name = self.lines();
        let id = self.dice.below(self.ids);
        let seg = self.segment();
        let [x1, y1, x2, y2] = ends_of(seg);
        let words = if name == "l" { "line l" } else { "line m" };
        let command = line_of(self.alloc, words, &[id, x1, y1, x2, y2])?;
        let reply = self.reply_to_line(name, id, seg);
        if reply == "ok" {
            self.layers.lines_mut(name).add(id, seg)?;
        }
        self.turns.says(&command, reply)
    }

    fn reply_to_line(&self, name: &str, id: u32, seg: Seg) -> &'static str {
        if ends_of(seg).iter().any(|end| self.side <= *end) {
            return OUTSIDE;
        }
        if self.layers.lines(name).has(id) {
            return PRESENT;
        }
        "ok"
    }

    /// Removes a segment, if it is there.
    fn erases(&mut self) -> Result<(), AllocError> {
        let name = self.lines();
        let id = self.dice.below(self.ids);
        let words = if name == "l" { "unline l" } else { "unline m" };
        let command = line_of(self.alloc, words, &[id])?;
        let lines = self.layers.lines_mut(name);
        let reply = if lines.has(id) { "ok" } else { ABSENT };
        lines.remove(id);
        self.turns.says(&command, reply)
    }

    /// Gives a window of the region a colour below 4.
    fn paints(&mut self) -> Result<(), AllocError> {
        let w = self.window();
        let colour = self.dice.below(4);
        let [x, y, wide, high] = numbers_of(w);
        let command = line_of(self.alloc, "rect a", &[x, y, wide, high, colour])?;
        if let Some(reply) = self.refusal_of_window(w) {
            return self.turns.says(&command, reply);
        }
        fill(&mut self.layers.colours, self.side, w, small(colour));
        self.turns.says(&command, "ok")
    }
}

//! A drawn text of map algebra, with the replies that plain grids give.
use quilt_overlay::Op;
use quilt_plain::{
    Dice, colour_of, drawn, drawn_pairs, plain_area, plain_buffer, plain_histogram, plain_overlay,
    plain_perimeter, plain_recolour, plain_shift, plain_window,
};
use quilt_scripts::{Turns, line_of};
use quilt_types::Window;
use std::alloc::{AllocError, Global};

/// A text of commands on maps of one side, and the replies that it must get. After each that makes a layer the measures of one colour
/// are asked.
#[derive(Drop)]
struct GridText {
    alloc: Global,
    side: u32,
    colour: u16,
    turns: Turns,
}

/// The four digits of a colour that is drawn.
fn digits_of(colour: u16) -> &'static str {
    match colour {
        0 => "0000",
        1 => "0001",
        256 => "0100",
        257 => "0101",
        _ => "ffff",
    }
}

/// Adds the rows of a map of this side, with `; ` before each.
fn add_rows(text: &mut String, side: u32, colours: &[u16]) -> Result<(), AllocError> {
    let mut x = side;
    for c in colours {
        if x == side {
            x = 0;
            text.push_str("; ")?;
        }
        text.push_str(digits_of(*c))?;
        x = x.wrapping_add(1);
    }
    Ok(())
}

/// The number, which is small.
fn small(number: u32) -> u16 {
    u16::try_from(number).unwrap_or(1)
}

impl GridText {
    /// A text that begins with the change to format 2 and with two empty layers.
    fn new(alloc: Global, side: u32, colour: u16) -> Result<GridText, AllocError> {
        let mut turns = Turns::new(alloc);
        turns.says("upgrade", "edition 1; ok")?;
        turns.says("region a 0", "ok")?;
        turns.says("region b 0", "ok")?;
        Ok(GridText {
            alloc,
            side,
            colour,
            turns,
        })
    }

    /// Gives the layer of this command these colours.
    fn paints(&mut self, command: &str, colours: &[u16]) -> Result<(), AllocError> {
        let mut raster = String::from_str(self.alloc, command)?;
        add_rows(&mut raster, self.side, colours)?;
        self.turns.says(&raster, "ok")
    }

    /// Makes the layer c by the command, looks at all of it, at its blocks and at the measures of one colour, and drops it.
    fn makes(&mut self, command: &str, colours: &[u16]) -> Result<(), AllocError> {
        self.turns.says(command, "ok")?;
        self.shows(colours)?;
        self.counts(colours)?;
        self.measures(colours)?;
        self.turns.says("drop c", "ok")
    }

    /// Asks for all pixels.
    fn shows(&mut self, colours: &[u16]) -> Result<(), AllocError> {
        let command = line_of(self.alloc, "show c 0 0", &[self.side, self.side])?;
        let mut rows = String::new(self.alloc);
        add_rows(&mut rows, self.side, colours)?;
        rows.push_str("; ok")?;
        self.turns.says(&command, rows.trim_start_matches("; "))
    }

    /// Asks how many blocks of each side there are.
    fn counts(&mut self, colours: &[u16]) -> Result<(), AllocError> {
        let counts = plain_histogram(colours, self.side);
        let mut reply = String::new(self.alloc);
        for (k, count) in counts.iter().enumerate().rev() {
            if *count != 0 {
                let size = 1_u32.checked_shl(k as u32).unwrap_or(0);
                reply.push_str(&format!(in self.alloc; "{size} {count}; ")?)?;
            }
        }
        reply.push_str("ok")?;
        self.turns.says("blocks c", &reply)
    }

    /// Asks for the area and the perimeter of one colour.
    fn measures(&mut self, colours: &[u16]) -> Result<(), AllocError> {
        let area = plain_area(colours, self.colour);
        self.asks("area c", area)?;
        let edges = plain_perimeter(colours, self.side, self.colour);
        self.asks("perimeter c", edges)
    }

    /// Asks for a number by these words and the colour.
    fn asks(&mut self, words: &str, number: u64) -> Result<(), AllocError> {
        let command = line_of(self.alloc, words, &[u32::from(self.colour)])?;
        let reply = format!(in self.alloc; "{number}; ok")?;
        self.turns.says(&command, &reply)
    }

    /// Lays the layers over each other in each way.
    fn lays(&mut self, a: &[u16], b: &[u16]) -> Result<(), AllocError> {
        let union = plain_overlay(self.alloc, Op::Union, a, b)?;
        self.makes("union a b c", &union)?;
        let inter = plain_overlay(self.alloc, Op::Inter, a, b)?;
        self.makes("inter a b c", &inter)?;
        let diff = plain_overlay(self.alloc, Op::Diff, b, a)?;
        self.makes("diff b a c", &diff)
    }

    /// Recolours the layer by drawn pairs, which are some.
    fn recolours(&mut self, dice: &mut Dice, a: &[u16]) -> Result<(), AllocError> {
        let pairs = drawn_pairs(self.alloc, dice)?;
        if pairs.is_empty() {
            return Ok(());
        }
        let mut command = String::from_str(self.alloc, "recolour a c")?;
        for (old, new) in &pairs {
            command.push_str(&format!(in self.alloc; " {} {}", old.0, new.0)?)?;
        }
        let colours = plain_recolour(self.alloc, a, &pairs)?;
        self.makes(&command, &colours)
    }

    /// Cuts the layer to a drawn window.
    fn cuts(&mut self, dice: &mut Dice, a: &[u16]) -> Result<(), AllocError> {
        let side = self.side;
        let (x, y) = (dice.below(side), dice.below(side));
        let w = dice.below(side.wrapping_sub(x)).wrapping_add(1);
        let h = dice.below(side.wrapping_sub(y)).wrapping_add(1);
        let command = format!(in self.alloc; "window a {x} {y} {w} {h} c")?;
        let window = Window {
            x: small(x),
            y: small(y),
            w: small(w),
            h: small(h),
        };
        let colours = plain_window(self.alloc, a, side, window)?;
        self.makes(&command, &colours)
    }

    /// Moves the layer by drawn distances, to the left and down.
    fn shifts(&mut self, dice: &mut Dice, a: &[u16]) -> Result<(), AllocError> {
        let left = i32::try_from(dice.below(self.side)).unwrap_or(0);
        let down = i32::try_from(dice.below(self.side)).unwrap_or(0);
        let dx = left.wrapping_neg().wrapping_sub(1);
        let command = format!(in self.alloc; "shift a -{} {down} c", left.wrapping_add(1))?;
        let colours = plain_shift(self.alloc, a, self.side, dx, down)?;
        self.makes(&command, &colours)
    }

    /// Grows the layer by a drawn distance.
    fn grows(&mut self, dice: &mut Dice, a: &[u16]) -> Result<(), AllocError> {
        let r = dice.below(self.side);
        let command = format!(in self.alloc; "buffer a {r} c")?;
        let colours = plain_buffer(self.alloc, a, self.side, r)?;
        self.makes(&command, &colours)
    }

    /// Lays the layers over each other, and recolours, cuts, moves and grows the first.
    fn derives(&mut self, dice: &mut Dice, a: &[u16], b: &[u16]) -> Result<(), AllocError> {
        self.lays(a, b)?;
        self.recolours(dice, a)?;
        self.cuts(dice, a)?;
        self.shifts(dice, a)?;
        self.grows(dice, a)
    }
}

/// A drawn text over maps of this side.
pub fn drawn_grids(alloc: Global, side: u32, seed: u64) -> Result<Turns, AllocError> {
    let mut dice = Dice::new(seed);
    let a = drawn(alloc, &mut dice, side)?;
    let b = drawn(alloc, &mut dice, side)?;
    let mut text = GridText::new(alloc, side, colour_of(dice.below(4)))?;
    text.paints("raster a", &a)?;
    text.paints("raster b", &b)?;
    text.derives(&mut dice, &a, &b)?;
    text.turns.says("publish", "edition 2; ok")?;
    Ok(text.turns)
}

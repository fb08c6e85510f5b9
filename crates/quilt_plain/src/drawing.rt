ghost use Rattle.std.specs.Prelude.{◌<◌, ◌≤◌};

use quilt_types::Colour;
use std::alloc::{AllocError, Global};
use std::ops::Range;

/// Pseudo-random numbers by a linear congruence.
#[derive(Drop)]
pub struct Dice {
    state: u64,
}

impl Dice {
    pub fn new(seed: u64) -> Dice {
        Dice { state: seed }
    }

    /// A number below the bound, or 0 where the bound is 0.
    pub fn below(&mut self, bound: u32) -> u32
        ensures below { 0 < bound → result < bound }
        ensures most { result ≤ bound }
    {
        self.state = self
            .state
            .wrapping_mul(6364136223846793005)
            .wrapping_add(1442695040888963407);
        if bound == 0 {
            return 0;
        }
        (self.state >> 33) as u32 % bound
    }
}

/// One of five colours, of which some differ in the high byte alone.
pub fn colour_of(number: u32) -> u16 {
    match number {
        0 => 0,
        1 => 256,
        2 => 1,
        3 => 257,
        _ => 65535,
    }
}

/// The colours of a drawn map, row by row: up to 12 rectangles of the first four colours over a ground of one of the first
/// two. In half of the maps all lie at multiples of 2, so that there are larger blocks of one colour.
pub fn drawn(alloc: Global, dice: &mut Dice, side: u32) -> Result<Vec<u16>, AllocError> {
    let mut colours = Vec::new(alloc);
    let ground = colour_of(dice.below(2));
    for _ in 0..side.wrapping_mul(side) {
        colours.push(ground)?;
    }
    let unit = dice.below(2).wrapping_add(1);
    let count = dice.below(13);
    for _ in 0..count {
        let corner = (dice.below(side), dice.below(side));
        let size = (dice.below(side), dice.below(side));
        let colour = colour_of(dice.below(4));
        let columns = rounded_range(corner.0, size.0, unit);
        let rows = rounded_range(corner.1, size.1, unit);
        paint(&mut colours, side, columns, rows, colour);
    }
    Ok(colours)
}

/// Gives the pixels of these columns and rows the colour.
pub fn paint(colours: &mut [u16], side: u32, columns: Range<u32>, rows: Range<u32>, colour: u16) {
    let (mut x, mut y) = (0_u32, 0_u32);
    for c in colours {
        if columns.contains(&x) && rows.contains(&y) {
            *c = colour;
        }
        x = x.wrapping_add(1);
        if x == side {
            x = 0;
            y = y.wrapping_add(1);
        }
    }
}

/// So many numbers from the first on, both rounded down to the unit, and one unit of them more.
fn rounded_range(first: u32, count: u32, unit: u32) -> Range<u32> {
    let from = rounded(first, unit);
    from..from.wrapping_add(rounded(count, unit)).wrapping_add(unit)
}

/// The greatest multiple of the unit up to the number.
fn rounded(number: u32, unit: u32) -> u32 {
    number.wrapping_sub(number.checked_rem(unit).unwrap_or(0))
}

/// Up to 16 drawn pairs of an old and a new colour.
pub fn drawn_pairs(alloc: Global, dice: &mut Dice) -> Result<Vec<(Colour, Colour)>, AllocError> {
    let mut pairs = Vec::new(alloc);
    let count = dice.below(17);
    for _ in 0..count {
        let old = Colour(colour_of(dice.below(5)));
        pairs.push((old, Colour(colour_of(dice.below(5)))))?;
    }
    Ok(pairs)
}

/// A distance by which a square of this side is moved: mostly up to 2 more than the side, in either sign.
pub fn drawn_distance(dice: &mut Dice, side: u32) -> i32 {
    match dice.below(20) {
        0 => i32::MIN,
        1 => i32::MAX,
        2 => 0,
        _ => {
            let far = side.wrapping_add(2);
            let drawn = dice.below(far.wrapping_mul(2).wrapping_add(1));
            i32::try_from(i64::from(drawn) - i64::from(far)).unwrap_or(0)
        }
    }
}

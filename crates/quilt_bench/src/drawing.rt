ghost use Rattle.std.specs.Prelude.{◌≡◌, ◌≤◌, true, IfOk};
ghost use Rattle.quilt_types.specs.Plane.{is_window};

use quilt_blocks::LeafList;
use quilt_plain::{Dice, map_of};
use quilt_record::{Key, Record};
use quilt_types::{Colour, Window};
use std::alloc::{AllocError, Global};

/// The key of the record of this number. Drawn keys with an odd code have none.
pub fn key_of(number: u32) -> Key {
    key_with(number.wrapping_mul(2))
}

/// The key with this code.
pub fn key_with(code: u32) -> Key {
    Key {
        layer: 1,
        part: 1,
        code,
        depth: 12,
        item: 0,
    }
}

/// The record of this number.
pub fn record_of(number: u32) -> Record {
    Record {
        key: key_of(number),
        value: [(number % 251) as u8; 16],
    }
}

/// The record of the region layer 1 in the catalog.
pub const CATALOG: Record = Record {
    key: Key {
        layer: 0,
        part: 0,
        code: 0,
        depth: 0,
        item: 1,
    },
    value: [b'a', 0, 0, 0, 0, 0, 0, 0, 0, 0, 0, 0, 1, 0, 0, 0],
};

/// A map whose blocks have the side 2, each of a drawn colour, or the side 1, for 108 of 256 of them: four pixels of four
/// colours.
pub fn drawn_map(alloc: Global, level: u8, seed: u64) -> Result<LeafList, AllocError>
    requires least { 1 ≤ level }
    requires most { level ≤ 12 }
    ensures { IfOk result (λ list. list.level ≡ level) }
{
    let mut dice = Dice::new(seed);
    let mut colours = Vec::new(alloc);
    let mut drawn = 0;
    for code in 0..1_u32 << (2 * level) {
        if code % 4 == 0 {
            drawn = dice.below(65536);
        }
        colours.push(colour_at(code, drawn))?;
    }
    map_of(alloc, level, &colours)
}

/// The colour of a pixel of a block of side 2 for which this was drawn.
fn colour_at(code: u32, drawn: u32) -> Colour {
    let colour = (drawn / 256 % 256) as u16;
    if drawn % 256 < 108 {
        return Colour(256 * (code % 4) as u16 + colour);
    }
    Colour(colour)
}

/// A window of one drawn pixel.
pub fn drawn_pixel(dice: &mut Dice, level: u8) -> Window
    requires { level ≤ 12 }
    ensures { is_window level result ≡ true }
{
    let side = 1_u32 << level;
    Window {
        x: dice.below(side) as u16,
        y: dice.below(side) as u16,
        w: 1,
        h: 1,
    }
}

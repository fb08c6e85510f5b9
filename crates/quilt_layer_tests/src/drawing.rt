use quilt_plain::Dice;
use quilt_types::Window;

/// The next of drawn numbers, below a limit: 0 where that is 0.
pub fn below(state: &mut u32, most: u16) -> u16 {
    *state = state.wrapping_mul(1_664_525).wrapping_add(1_013_904_223);
    ((*state >> 16) as u16).checked_rem(most).unwrap_or(0)
}

/// The first of some numbers in a row, at either end of all of them or anywhere, and how many they are: 40 at most.
fn span(state: &mut u32, side: u16) -> (u16, u16) {
    let many = below(state, side.min(40)).wrapping_add(1);
    let last = side.wrapping_sub(many);
    let first = match below(state, 4) {
        0 => 0,
        1 => last,
        _ => below(state, last.wrapping_add(1)),
    };
    (first, many)
}

/// A window in a square of this many pixels a side, small, and at its edges or anywhere.
pub fn small_window(state: &mut u32, side: u16) -> Window {
    let (x, w) = span(state, side);
    let (y, h) = span(state, side);
    Window { x, y, w, h }
}

/// The next coordinate that the dice give, below this one.
pub fn coordinate(dice: &mut Dice, side: u16) -> u16 {
    dice.below(u32::from(side)) as u16
}

/// A window in a square of this many pixels a side, of any size.
pub fn any_window(dice: &mut Dice, side: u16) -> Window {
    let x = coordinate(dice, side);
    let y = coordinate(dice, side);
    Window {
        x,
        y,
        w: coordinate(dice, side.wrapping_sub(x)).wrapping_add(1),
        h: coordinate(dice, side.wrapping_sub(y)).wrapping_add(1),
    }
}

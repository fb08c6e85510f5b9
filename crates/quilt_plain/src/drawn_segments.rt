ghost use Rattle.std.specs.Prelude.{◌≤◌};

use quilt_types::Seg;

/// The next of a row of numbers that look drawn by lot.
pub fn next_state(state: u64) -> u64 {
    state
        .wrapping_mul(6364136223846793005)
        .wrapping_add(1442695040888963407)
}

/// A coordinate of the level out of the drawn number.
pub fn drawn_coordinate(state: u64, place: u32, level: u8) -> u16
    requires place { place ≤ 4 }
    requires level { level ≤ 8 }
{
    ((state >> (20 + 8 * place)) % (1 << level)) as u16
}

/// A segment of the square of the level: of any ends, of one point, from a common end, or along a row, a diagonal or the
/// border, so that many lie on one line.
pub fn drawn_seg(state: u64, level: u8) -> Seg
    requires { level ≤ 8 }
{
    let x1 = drawn_coordinate(state, 0, level);
    let y1 = drawn_coordinate(state, 1, level);
    let x2 = drawn_coordinate(state, 2, level);
    let y2 = drawn_coordinate(state, 3, level);
    let (x1, y1, x2, y2) = match state >> 61 {
        0 => (x1, y1, x1, y1),
        1 => (x1, y1, x2, y1),
        2 => (x1, x1, x2, x2),
        3 => (0, y1, 0, y2),
        4 => (1, 1, x2, y2),
        _ => (x1, y1, x2, y2),
    };
    Seg { x1, y1, x2, y2 }
}

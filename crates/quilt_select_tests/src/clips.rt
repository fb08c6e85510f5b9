ghost use Rattle.std.specs.Prelude.{◌<◌};

use quilt_clip::{Frac, clip, cmp, meets};
use quilt_types::{Block, Seg, Window};
use std::cmp::Ordering;

/// A fraction as its numerator and denominator.
type Pair = (u16, u16);

fn is_less(a: Pair, b: Pair) -> bool {
    u32::from(a.0) * u32::from(b.1) < u32::from(b.0) * u32::from(a.1)
}

/// Whether a + (b - a) * p / q is from low to low + length, all multiplied by q.
fn is_between(a: u16, b: u16, low: u16, length: u16, t: Pair) -> bool {
    let (p, q) = (u64::from(t.0), u64::from(t.1));
    let here = u64::from(a) * q + u64::from(b) * p;
    let edge = u64::from(low) * q + u64::from(a) * p;
    edge <= here && here <= edge + u64::from(length) * q
}

fn is_in(s: Seg, w: Window, t: Pair) -> bool {
    is_between(s.x1, s.x2, w.x, w.w, t) && is_between(s.y1, s.y2, w.y, w.h, t)
}

fn widened(ends: Option<(Pair, Pair)>, t: Pair) -> (Pair, Pair) {
    match ends {
        None => (t, t),
        Some((first, last)) => {
            let first = if is_less(t, first) { t } else { first };
            let last = if is_less(last, t) { t } else { last };
            (first, last)
        }
    }
}

/// Of all fractions from 0 to 1 with a denominator up to 8, the least and the greatest whose points lie in the
/// window. Each is tried, and of equal ones the least denominator comes first.
fn tried(s: Seg, w: Window) -> Option<(Pair, Pair)> {
    let mut ends = None;
    for q in 1..9_u16 {
        for p in 0..q + 1 {
            if is_in(s, w, (p, q)) {
                ends = Some(widened(ends, (p, q)));
            }
        }
    }
    ends
}

fn pair_of(f: Frac) -> (u64, u64) {
    (f.num(), f.den())
}

/// The same with the denominators of the clipper's answer.
fn clipped(s: Seg, w: Window) -> Option<((u64, u64), (u64, u64))> {
    let (first, last) = clip(s, w)?;
    Some((pair_of(first), pair_of(last)))
}

fn wide(t: Pair) -> (u64, u64) {
    (u64::from(t.0), u64::from(t.1))
}

fn next(seed: u32) -> u32 {
    seed.wrapping_mul(1_664_525).wrapping_add(1_013_904_223)
}

/// A number from 0 to 8: the digit of this unit, of the seed's upper bits to base 9.
fn digit(seed: u32, unit: u32) -> u16
    requires { 0 < unit }
{
    (seed / 256 / unit % 9) as u16
}

/// Of six segments one stays as it is; the others lie along the upper or the right edge of the window, are one point,
/// begin in its corner, or touch it in its corner alone.
fn shaped(turn: u32, s: Seg, w: Window) -> Seg {
    match turn % 6 {
        0 => s,
        1 => Seg {
            y1: w.y,
            y2: w.y,
            ..s
        },
        2 => Seg {
            x2: s.x1,
            y2: s.y1,
            ..s
        },
        3 => Seg {
            x1: w.x,
            y1: w.y,
            ..s
        },
        4 => Seg {
            x1: w.x.saturating_add(w.w),
            x2: w.x.saturating_add(w.w),
            ..s
        },
        _ => touching(s.x1.min(w.x).min(w.y), w),
    }
}

/// A segment that goes this far to either side of the window's upper left corner, and has no other point of the window.
fn touching(far: u16, w: Window) -> Seg {
    Seg {
        x1: w.x.saturating_sub(far),
        y1: w.y.saturating_add(far),
        x2: w.x.saturating_add(far),
        y2: w.y.saturating_sub(far),
    }
}

fn drawn(seed: u32) -> (Seg, Window) {
    let other = next(seed);
    let s = Seg {
        x1: digit(seed, 1),
        y1: digit(seed, 9),
        x2: digit(seed, 81),
        y2: digit(seed, 729),
    };
    let w = Window {
        x: digit(other, 1),
        y: digit(other, 9),
        w: digit(other, 81) / 3 + 1,
        h: digit(other, 729) / 3 + 1,
    };
    (s, w)
}

/// Whether the clipper's answer is that of all fractions tried.
fn is_clipped_as_tried(s: Seg, w: Window) -> bool {
    let want = match tried(s, w) {
        Some((first, last)) => Some((wide(first), wide(last))),
        None => None,
    };
    clipped(s, w) == want
}

#[test]
fn clips_as_each_fraction_tried(rt: HostRuntime) {
    let mut seed = 7;
    for turn in 0..2000_u32 {
        seed = next(next(seed));
        let (s, w) = drawn(seed);
        let s = shaped(turn, s, w);
        assert!(rt; is_clipped_as_tried(s, w), "{s:?} in {w:?}");
    }
}

/// Whether the segment is said to meet the square block at the window's corner where one of all fractions tried does.
fn meets_as_tried(s: Seg, w: Window) -> bool {
    let b = Block {
        x: w.x,
        y: w.y,
        side: w.w,
    };
    let square = Window { h: w.w, ..w };
    meets(s, b) == tried(s, square).is_some()
}

#[test]
fn meets_as_each_fraction_tried(rt: HostRuntime) {
    let mut seed = 11;
    for turn in 0..2000_u32 {
        seed = next(next(seed));
        let (s, w) = drawn(seed);
        let s = shaped(turn, s, w);
        assert!(rt; meets_as_tried(s, w), "{s:?} in {w:?}");
    }
}

/// Whether the segment meets the block of one pixel.
fn meets_pixel(s: Seg, x: u16, y: u16) -> bool {
    meets(s, Block { x, y, side: 1 })
}

/// The fraction of these parts. A denominator of 0 is taken as 1.
fn fraction(num: u64, den: u64) -> Frac {
    Frac::of(num, den.max(1))
}

/// Both parts of a fraction in lowest terms.
fn lowest(num: u64, den: u64) -> (u64, u64) {
    pair_of(fraction(num, den))
}

/// Which of two fractions is the greater.
fn order(first: (u64, u64), second: (u64, u64)) -> Ordering {
    cmp(fraction(first.0, first.1), fraction(second.0, second.1))
}

/// The window of one pixel.
fn pixel(x: u16, y: u16) -> Window {
    Window { x, y, w: 1, h: 1 }
}

#[test]
fn clips_and_compares_by_hand(rt: HostRuntime) {
    let s = Seg {
        x1: 0,
        y1: 0,
        x2: 3,
        y2: 1,
    };
    assert_eq!(rt; clipped(s, pixel(1, 0)), Some(((1, 3), (2, 3))));
    assert_eq!(rt; clipped(s, pixel(5, 5)), None);
    assert!(rt; meets_pixel(s, 1, 0));
    assert_eq!(rt; lowest(6, 4), (3, 2));
    assert_eq!(rt; lowest(0, 7), (0, 1));
    assert_eq!(rt; order((2, 5), (1, 2)), Ordering::Less);
    assert_eq!(rt; order((2, 4), (1, 2)), Ordering::Equal);
    assert_eq!(rt; order((u64::MAX, 1), (1, u64::MAX)), Ordering::Greater);
}

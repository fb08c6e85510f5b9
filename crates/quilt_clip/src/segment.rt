ghost use Rattle.std.specs.Prelude.{◌≡◌, ◌↔◌, IsTrue, IsNone, IfSome};
ghost use Rattle.quilt_types.specs.Segments.{clip_range, is_in, square, Meets, IsClipRange};
ghost use Rattle.quilt_types.specs.Segments.{meets as segment_meets};
ghost use Rattle.quilt_clip.specs.Spans.{IsClipped};

use crate::frac::Frac;
use crate::span::{Ratio, Span};
use quilt_types::{Block, Seg, Window};

/// What of the segment lies in the closed rectangle of the window.
fn span_in(s: Seg, w: Window) -> Option<Span>
    ensures { IsClipped s w result }
{
    let whole = Span {
        first: Ratio { num: 0, den: 1 },
        last: Ratio { num: 1, den: 1 },
    };
    let right = whole.above(s.x1, s.x2, w.x as u32)?;
    let middle = right.below(s.x1, s.x2, w.x as u32 + w.w as u32)?;
    let lower = middle.above(s.y1, s.y2, w.y as u32)?;
    lower.below(s.y1, s.y2, w.y as u32 + w.h as u32)
}

/// Where the part of the segment in the closed window begins and ends: the least and the greatest t from 0 to 1
/// at which the segment's point, its first end plus t times the difference of its ends, lies in
/// [x, x + w] × [y, y + h]. None where no point of the segment does (Liang and Barsky 1984).
pub fn clip(s: Seg, w: Window) -> Option<(Frac, Frac)>
    ensures value { result ≡ clip_range s w }
    ensures none { IsNone result ↔ ¬ Meets s w }
    ensures ends { IfSome result (IsClipRange s w) }
{
    let span = span_in(s, w)?;
    let first = Frac::of(span.first.num as u64, span.first.den as u64);
    let last = Frac::of(span.last.num as u64, span.last.den as u64);
    Some((first, last))
}

/// Whether the segment's first end lies in the closed rectangle of the window.
fn begins_in(s: Seg, w: Window) -> bool
    ensures { result ≡ is_in s w (record { num = 0; den = 1 }) }
{
    w.x <= s.x1
        && s.x1 as u32 <= w.x as u32 + w.w as u32
        && w.y <= s.y1
        && s.y1 as u32 <= w.y as u32 + w.h as u32
}

/// Whether a point of the segment, an end or a point between, lies in the closed rectangle of the window.
pub fn crosses(s: Seg, w: Window) -> bool
    ensures value { result ≡ segment_meets s w }
    ensures point { IsTrue result ↔ Meets s w }
{
    if begins_in(s, w) {
        return true;
    }
    span_in(s, w).is_some()
}

/// Whether a point of the segment, an end or a point between, lies in the block's closed square.
pub fn meets(s: Seg, b: Block) -> bool
    ensures value { result ≡ segment_meets s (square b) }
    ensures point { IsTrue result ↔ Meets s (square b) }
{
    crosses(
        s,
        Window {
            x: b.x,
            y: b.y,
            w: b.side,
            h: b.side,
        },
    )
}

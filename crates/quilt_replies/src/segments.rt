ghost use Rattle.std.specs.Prelude.{◌≡◌, ℕ, [], ◌∷◌, ◌++◌, map, decimal, Some, IfOk, OnOk};
ghost use Rattle.quilt_replies.specs.Answers.{Done, fraction, seg_line, ranked_line, pair_line, nearest_lines};
ghost use Rattle.quilt_replies.specs.Bodies.{clip_line};
ghost use Rattle.quilt_replies.specs.Runs.{text_of};

use crate::bodies::{finish, push_number};
use quilt_clip::Frac;
use quilt_types::{Seg, Text};
use std::alloc::{AllocError, Global};

/// Adds a space and a number.
fn push_next(text: &mut Text, number: u64) -> Result<(), AllocError>
    ensures { OnOk result (text.new ≡ text.old ++ 32 ∷ decimal number) }
{
    text.push(b" ")?;
    push_number(text, number)
}

/// Adds a space and a fraction: the numerator, a slash and the denominator.
fn push_fraction(text: &mut Text, f: Frac) -> Result<(), AllocError>
    ensures { OnOk result (text.new ≡ text.old ++ 32 ∷ fraction f) }
{
    push_next(text, f.num())?;
    text.push(b"/")?;
    push_number(text, f.den())
}

/// Adds the line of a segment: its id and both its ends.
fn push_seg(text: &mut Text, id: u32, s: Seg) -> Result<(), AllocError>
    ensures { OnOk result (text.new ≡ text.old ++ seg_line (id, s) ++ 10 ∷ []) }
{
    push_number(text, u64::from(id))?;
    push_next(text, u64::from(s.x1))?;
    push_next(text, u64::from(s.y1))?;
    push_next(text, u64::from(s.x2))?;
    push_next(text, u64::from(s.y2))?;
    text.push(b"\n")
}

/// The reply that lists segments, in the order in which they stand.
pub fn segs_text(alloc: Global, segs: &[(u32, Seg)]) -> Result<Text, AllocError>
    ensures { IfOk result (λ text. text ≡ text_of (Done (map seg_line segs.now))) }
{
    let mut text = Text::new(alloc);
    for (id, s) in segs {
        push_seg(&mut text, *id, *s)?;
    }
    finish(text)
}

/// The reply that lists the ids of segments alone, in the order in which they stand.
pub fn ids_text(alloc: Global, segs: &[(u32, Seg)]) -> Result<Text, AllocError>
    ensures { IfOk result (λ text. text ≡ text_of (Done (map (λ e. decimal e.0) segs.now))) }
{
    let mut text = Text::new(alloc);
    for (id, _) in segs {
        push_number(&mut text, u64::from(*id))?;
        text.push(b"\n")?;
    }
    finish(text)
}

/// Adds the line of a part of a segment: the id, and the fractions at which the part begins and ends.
fn push_clip(text: &mut Text, id: u32, first: Frac, last: Frac) -> Result<(), AllocError>
    ensures { OnOk result (text.new ≡ text.old ++ clip_line (id, first, last) ++ 10 ∷ []) }
{
    push_number(text, u64::from(id))?;
    push_fraction(text, first)?;
    push_fraction(text, last)?;
    text.push(b"\n")
}

/// The reply that lists parts of segments, in the order in which they stand.
pub fn clips_text(alloc: Global, clips: &[(u32, Frac, Frac)]) -> Result<Text, AllocError>
    ensures { IfOk result (λ text. text ≡ text_of (Done (map clip_line clips.now))) }
{
    let mut text = Text::new(alloc);
    for (id, first, last) in clips {
        push_clip(&mut text, *id, *first, *last)?;
    }
    finish(text)
}

/// Adds the line of a segment's squared distance, behind its id.
fn push_rank(text: &mut Text, id: u32, far: Frac) -> Result<(), AllocError>
    ensures { OnOk result (text.new ≡ text.old ++ ranked_line (id, far) ++ 10 ∷ []) }
{
    push_number(text, u64::from(id))?;
    push_fraction(text, far)?;
    text.push(b"\n")
}

/// The reply that names the nearest segment, with its squared distance.
pub fn nearest_text(alloc: Global, id: u32, far: Frac) -> Result<Text, AllocError>
    ensures { IfOk result (λ text. text ≡ text_of (Done (nearest_lines (Some (id, far))))) }
{
    let mut text = Text::new(alloc);
    push_rank(&mut text, id, far)?;
    finish(text)
}

/// The reply that lists the ids of segments with their squared distances, in the order in which they stand.
pub fn ranks_text(alloc: Global, ranks: &[(u32, Frac)]) -> Result<Text, AllocError>
    ensures { IfOk result (λ text. text ≡ text_of (Done (map ranked_line ranks.now))) }
{
    let mut text = Text::new(alloc);
    for (id, far) in ranks {
        push_rank(&mut text, *id, *far)?;
    }
    finish(text)
}

/// Adds the line of two ids.
fn push_pair(text: &mut Text, first: u32, second: u32) -> Result<(), AllocError>
    ensures { OnOk result (text.new ≡ text.old ++ pair_line (first, second) ++ 10 ∷ []) }
{
    push_number(text, u64::from(first))?;
    push_next(text, u64::from(second))?;
    text.push(b"\n")
}

/// The reply that lists pairs of ids, in the order in which they stand.
pub fn pairs_text(alloc: Global, pairs: &[(u32, u32)]) -> Result<Text, AllocError>
    ensures { IfOk result (λ text. text ≡ text_of (Done (map pair_line pairs.now))) }
{
    let mut text = Text::new(alloc);
    for (first, second) in pairs {
        push_pair(&mut text, *first, *second)?;
    }
    finish(text)
}

ghost use Rattle.std.specs.Prelude.{◌≡◌, ◌↔◌, ℕ, ◌+◌, ◌-◌, ◌<◌, ◌≤◌, true, IsTrue, IsNone, IfSome};
ghost use Rattle.quilt_types.specs.declared.plane.Block.{Block as BlockValue};
ghost use Rattle.quilt_types.specs.declared.plane.Colour.{Colour as ColourValue};
ghost use Rattle.quilt_types.specs.Plane.{IsBlock};
ghost use Rattle.quilt_types.specs.Layers.{Grid};
ghost use Rattle.quilt_tally.specs.Tallies.{size_of, IsTally, AreTallies, HasPast};

use quilt_types::Colour;

/// What is known of a block's leaves: it is one of this colour, or has so many.
#[derive(Clone, Copy, Debug)]
pub enum Tally {
    One(Colour),
    Many(u32),
}

/// How many leaves that is.
fn leaves_in(t: Tally) -> u32
    ensures { result ≡ size_of t }
{
    match t {
        Tally::One(_) => 1,
        Tally::Many(count) => count,
    }
}

/// Whether there are at most so many leaves.
pub fn is_few(t: Tally, most: u32) -> bool
    ensures { IsTrue result ↔ (size_of t ≤ most) }
{
    leaves_in(t) <= most
}

/// How many leaves there may be beside these, where there may be so many with them.
pub fn room_beside(t: Tally, most: u32) -> u32
    ensures { result ≡ most - size_of t }
{
    most.saturating_sub(leaves_in(t))
}

/// Whether it is one leaf of the colour.
fn is_one(t: Tally, colour: Colour) -> bool
    ensures { IsTrue result ↔ (t ≡ Tally.One colour) }
{
    match t {
        Tally::One(c) => c == colour,
        Tally::Many(_) => false,
    }
}

/// The colour where the four are one leaf each, of one colour.
fn common_colour(first: Tally, second: Tally, third: Tally, last: Tally) -> Option<Colour>
    ensures some { IfSome result (λ c. (first ≡ Tally.One c) × (second ≡ Tally.One c) × (third ≡ Tally.One c) × (last ≡ Tally.One c)) }
    ensures none { IsNone result → (c : ColourValue) → first ≡ Tally.One c → second ≡ Tally.One c → third ≡ Tally.One c → last ≡ Tally.One c → ⊥ }
{
    match first {
        Tally::One(c) if is_one(second, c) && is_one(third, c) && is_one(last, c) => Some(c),
        _ => None,
    }
}

/// The tally of a block by those of its quarters, in the order of their codes, or None where it has more leaves than these.
pub fn joined(first: Tally, second: Tally, third: Tally, last: Tally, most: u32) -> Option<Tally>
    ensures some { (n : ℕ) (g : Grid) (b : BlockValue) → n ≤ 12 → IsBlock n b → 1 < b.side → AreTallies n g b first second third last
        → IfSome result (IsTally n g b) }
    ensures none { (n : ℕ) (g : Grid) (b : BlockValue) → n ≤ 12 → IsBlock n b → 1 < b.side → AreTallies n g b first second third last
        → IsNone result → HasPast n g b most }
{
    if let Some(colour) = common_colour(first, second, third, last) {
        return Some(Tally::One(colour));
    }
    let count = u64::from(leaves_in(first))
        + u64::from(leaves_in(second))
        + u64::from(leaves_in(third))
        + u64::from(leaves_in(last));
    if count > u64::from(most) {
        None
    } else {
        Some(Tally::Many(count as u32))
    }
}

ghost use Rattle.std.specs.Prelude.{◌≡◌, ℕ, ◌<◌, ◌≤◌, ◌/◌, ◌%◌, [], ◌∷◌, true, Some, IfSome};
ghost use Rattle.quilt_types.specs.declared.plane.Block.{Block as AnyBlock};
ghost use Rattle.quilt_types.specs.declared.plane.Colour.{Colour as AnyColour};
ghost use Rattle.quilt_types.specs.Plane.{IsBlock};
ghost use Rattle.quilt_types.specs.Layers.{colours};
ghost use Rattle.quilt_types.specs.Facts.{HasColour};
ghost use Rattle.quilt_record.specs.Canonical.{IsRecordOf};
ghost use Rattle.quilt_types.specs.Bytes.{filled};
ghost use Rattle.quilt_record.specs.Values.{colour_of};

use crate::Record;
use crate::block::{block_key, named};
use quilt_types::{Block, Colour};

/// The record of a block of one colour of a region layer, with the colour's low byte first.
pub fn region_record(layer: u8, b: Block, level: u8, c: Colour) -> Record
    requires layer { 1 ≤ layer }
    requires level { (1 ≤ level) × (level ≤ 12) }
    requires block { IsBlock level b }
    ensures { IsRecordOf level 0 result layer (HasColour b c.0) }
{
    Record {
        key: block_key(layer, 1, b, level, 0),
        value: value_of(c),
    }
}

/// The value of a record of a block of this colour.
fn value_of(c: Colour) -> [u8; 16]
    ensures { result ≡ filled 16 (c.0 % 256 ∷ c.0 / 256 ∷ []) }
{
    let [low, high] = c.0.to_le_bytes();
    let value = [low, high, 0, 0, 0, 0, 0, 0, 0, 0, 0, 0, 0, 0, 0, 0];
    value
}

/// Whether the record is of a region layer's part, with the item 0 and the value of this colour.
fn is_of_colour(r: &Record, c: Colour) -> bool
    ensures yes { result ≡ true → r.now ≡ record { key = record r.now.key { part = 1; item = 0 }; value = filled 16 (c.0 % 256 ∷ c.0 / 256 ∷ []) } }
    ensures no { r.now ≡ record { key = record r.now.key { part = 1; item = 0 }; value = filled 16 (c.0 % 256 ∷ c.0 / 256 ∷ []) } → result ≡ true }
{
    r.key.part == 1 && r.key.item == 0 && r.value == value_of(c)
}

/// The colour that the value of a record says.
fn colour_in(value: &[u8; 16]) -> Colour
    ensures { result.0 ≡ colour_of value.now }
{
    Colour(u16::from_le_bytes([value[0], value[1]]))
}

/// The block and its colour whose record it is; none where it is none of a region layer at the level, or has a colour
/// over 255 in format 1.
#[inline(always)]
pub fn read_region(r: &Record, level: u8, format: u8) -> Option<(Block, Colour)>
    requires { (1 ≤ level) × (level ≤ 12) }
    ensures some { IfSome result (λ v. IsRecordOf level 0 r.now r.now.key.layer (HasColour v.0 v.1.0)) }
    ensures colour { IfSome result (λ v. v.1.0 < colours format) }
    ensures one { (layer : ℕ) (b : AnyBlock) (c : AnyColour) → (format ≡ 1 → c.0 < 256) → IsRecordOf level 0 r.now layer (HasColour b c.0)
        → result ≡ Some (b, c) }
{
    let Some((_, b)) = named(&r.key, level) else {
        return None;
    };
    let c = colour_in(&r.value);
    if format == 1 && 255 < c.0 {
        return None;
    }
    if !is_of_colour(r, c) {
        return None;
    }
    Some((b, c))
}

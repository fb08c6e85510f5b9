ghost use Rattle.std.specs.Prelude.{◌≡◌, ℕ, ◌^◌, ◌<◌, ◌≤◌, true, Option, Some, IfSome};
ghost use Rattle.quilt_types.specs.declared.plane.Block.{Block as AnyBlock};
ghost use Rattle.quilt_types.specs.declared.plane.Seg.{Seg as AnySeg};
ghost use Rattle.quilt_types.specs.Plane.{IsBlock};
ghost use Rattle.quilt_types.specs.Facts.{IsSegment};
ghost use Rattle.quilt_record.specs.Canonical.{IsRecordOf, pair_fact};
ghost use Rattle.quilt_record.specs.Values.{segment_of};
ghost use Rattle.quilt_record.specs.Parts.{pair_under, segment_under, segment_value as value_of};

use crate::block::{block_key, layer_in, named};
use crate::{Key, Record};
use quilt_types::{Block, Seg};

/// The record of a block of a line layer with a segment that meets it, or with none.
pub fn pair_record(layer: u8, b: Block, level: u8, id: Option<u32>) -> Record
    requires layer { 1 ≤ layer }
    requires level { (1 ≤ level) × (level ≤ 12) }
    requires block { IsBlock level b }
    ensures { IsRecordOf level 0 result layer (pair_fact b id) }
{
    match id {
        None => Record {
            key: block_key(layer, 3, b, level, 0),
            value: [0; 16],
        },
        Some(id) => Record {
            key: block_key(layer, 3, b, level, id),
            value: [1, 0, 0, 0, 0, 0, 0, 0, 0, 0, 0, 0, 0, 0, 0, 0],
        },
    }
}

/// Whether a segment meets its block, and which, as the part, the item and the value of a line layer's record of a block say it; none where
/// they are those of no such record.
fn pair_in(r: &Record) -> Option<Option<u32>>
    ensures some { IfSome result (λ id. r.now ≡ pair_under r.now.key id) }
    ensures small { IfSome result (λ id. IfSome id (λ n. n < 2 ^ 32)) }
    ensures one { (id : Option ℕ) → r.now ≡ pair_under r.now.key id → result ≡ Some id }
{
    let Key { part, item, .. } = r.key;
    if part != 3 {
        return None;
    }
    if r.value == [1, 0, 0, 0, 0, 0, 0, 0, 0, 0, 0, 0, 0, 0, 0, 0] {
        return Some(Some(item));
    }
    if item == 0 && r.value == [0; 16] {
        return Some(None);
    }
    None
}

/// The block and the id of a segment whose record it is; none where it is none of a block of a line layer at the level.
#[inline(always)]
pub fn read_pair(r: &Record, level: u8) -> Option<(Block, Option<u32>)>
    requires { (1 ≤ level) × (level ≤ 12) }
    ensures some { IfSome result (λ v. IsRecordOf level 0 r.now r.now.key.layer (pair_fact v.0 v.1)) }
    ensures one { (layer : ℕ) (b : AnyBlock) (id : Option ℕ) → IsRecordOf level 0 r.now layer (pair_fact b id) → result ≡ Some (b, id) }
{
    let Some(id) = pair_in(r) else {
        return None;
    };
    let Some((_, b)) = named(&r.key, level) else {
        return None;
    };
    Some((b, id))
}

/// The record of a segment of a line layer.
pub fn segment_record(layer: u8, id: u32, s: Seg) -> Record
    requires { 1 ≤ layer }
    ensures { (n : ℕ) → IsRecordOf n 0 result layer (IsSegment id s) }
{
    Record {
        key: Key {
            layer: u16::from(layer),
            part: 4,
            code: 0,
            depth: 0,
            item: id,
        },
        value: segment_value(s),
    }
}

/// The value of the record of a segment.
fn segment_value(s: Seg) -> [u8; 16]
    ensures { result ≡ value_of s }
{
    let x1 = s.x1.to_be_bytes();
    let y1 = s.y1.to_be_bytes();
    let x2 = s.x2.to_be_bytes();
    let y2 = s.y2.to_be_bytes();
    [
        x1[0], x1[1], y1[0], y1[1], x2[0], x2[1], y2[0], y2[1], 0, 0, 0, 0, 0, 0, 0, 0,
    ]
}

/// The segment that the value of a record says.
fn segment_in(value: &[u8; 16]) -> Seg
    ensures { result ≡ segment_of value.now }
{
    Seg {
        x1: u16::from_be_bytes([value[0], value[1]]),
        y1: u16::from_be_bytes([value[2], value[3]]),
        x2: u16::from_be_bytes([value[4], value[5]]),
        y2: u16::from_be_bytes([value[6], value[7]]),
    }
}

/// Whether the record has the part and the place of a segment's, and the value of this one.
fn is_of_segment(r: &Record, s: Seg) -> bool
    ensures yes { result ≡ true → r.now ≡ segment_under r.now.key s }
    ensures no { r.now ≡ segment_under r.now.key s → result ≡ true }
    ensures fits { (s.x1 < 2 ^ 16) × (s.y1 < 2 ^ 16) × (s.x2 < 2 ^ 16) × (s.y2 < 2 ^ 16) }
    ensures small { r.now.key.item < 2 ^ 32 }
{
    let Key {
        part,
        code,
        depth,
        item,
        ..
    } = r.key;
    let _ = item;
    part == 4 && code == 0 && depth == 0 && r.value == segment_value(s)
}

/// The id and the segment whose record it is; none where it is none of a segment.
#[inline(always)]
pub fn read_segment(r: &Record) -> Option<(u32, Seg)>
    ensures some { IfSome result (λ v. (n : ℕ) → IsRecordOf n 0 r.now r.now.key.layer (IsSegment v.0 v.1)) }
    ensures one { (n layer id : ℕ) (s : AnySeg) → IsRecordOf n 0 r.now layer (IsSegment id s) → result ≡ Some (id, s) }
{
    let Some(_) = layer_in(&r.key) else {
        return None;
    };
    let id = r.key.item;
    let s = segment_in(&r.value);
    if !is_of_segment(r, s) {
        return None;
    }
    Some((id, s))
}

ghost use Rattle.std.specs.Prelude.{◌≡◌, ℕ, ◌^◌, ◌<◌, ◌≤◌, true, Option, Some, IfSome};
ghost use Rattle.quilt_types.specs.declared.plane.Block.{Block as AnyBlock};
ghost use Rattle.quilt_types.specs.declared.plane.Point.{Point as AnyPoint};
ghost use Rattle.quilt_types.specs.Plane.{IsBlock, is_pixel};
ghost use Rattle.quilt_record.specs.Records.{point_item};
ghost use Rattle.quilt_record.specs.Canonical.{IsRecordOf, point_fact};
ghost use Rattle.quilt_record.specs.Values.{held_of};
ghost use Rattle.quilt_record.specs.Parts.{point_under, point_value as value_of};

use crate::Record;
use crate::block::{block_key, named};
use quilt_types::{Block, Pixel, Point, code_of};

/// The item in the key of a held point: 0 where a block holds one point at most, and else one more than the code of its
/// pixel.
fn item_of(bucket: u8, p: Pixel, level: u8) -> u32
    requires level { level ≤ 12 }
    requires pixel { is_pixel level p ≡ true }
    ensures { result ≡ point_item bucket p }
{
    if bucket == 1 {
        return 0;
    }
    code_of(p) + 1
}

/// The record of a block of a point layer whose blocks hold at most `bucket` points, with a point that it holds, which is
/// a pixel of the level's square, or with none.
pub fn point_record(layer: u8, b: Block, level: u8, bucket: u8, held: Option<Point>) -> Record
    requires layer { 1 ≤ layer }
    requires level { (1 ≤ level) × (level ≤ 12) }
    requires block { IsBlock level b }
    requires held { IfSome held (λ p. is_pixel level p.at ≡ true) }
    ensures { IsRecordOf level bucket result layer (point_fact b held) }
{
    match held {
        None => Record {
            key: block_key(layer, 2, b, level, 0),
            value: [0; 16],
        },
        Some(p) => Record {
            key: block_key(layer, 2, b, level, item_of(bucket, p.at, level)),
            value: point_value(p),
        },
    }
}

/// The value of the record of a block with this point.
fn point_value(p: Point) -> [u8; 16]
    ensures { result ≡ value_of p }
{
    let x = p.at.x.to_be_bytes();
    let y = p.at.y.to_be_bytes();
    let l = p.label.to_be_bytes();
    [
        1, x[0], x[1], y[0], y[1], l[0], l[1], l[2], l[3], 0, 0, 0, 0, 0, 0, 0,
    ]
}

/// The point that the value of a record says.
fn held_in(value: &[u8; 16]) -> Option<Point>
    ensures value { result ≡ held_of value.now }
    ensures small { IfSome result (λ p. p.label < 2 ^ 32) }
{
    if value[0] == 0 {
        return None;
    }
    Some(Point {
        at: Pixel {
            y: u16::from_be_bytes([value[3], value[4]]),
            x: u16::from_be_bytes([value[1], value[2]]),
        },
        label: u32::from_be_bytes([value[5], value[6], value[7], value[8]]),
    })
}

/// Whether the point, if there is one, is a pixel of the level's square.
fn is_inside(held: Option<Point>, level: u8) -> bool
    requires { level ≤ 12 }
    ensures yes { result ≡ true → IfSome held (λ p. is_pixel level p.at ≡ true) }
    ensures no { IfSome held (λ p. is_pixel level p.at ≡ true) → result ≡ true }
{
    let size = 1 << level;
    match held {
        None => true,
        Some(p) => p.at.x < size && p.at.y < size,
    }
}

/// Whether the record has the part, the item and the value of a block's with this point, which is a pixel of the level's square, or with
/// none.
fn is_of_point(r: &Record, level: u8, bucket: u8, held: Option<Point>) -> bool
    requires level { level ≤ 12 }
    requires held { IfSome held (λ p. is_pixel level p.at ≡ true) }
    ensures yes { result ≡ true → r.now ≡ point_under bucket r.now.key held }
    ensures no { r.now ≡ point_under bucket r.now.key held → result ≡ true }
{
    if r.key.part != 2 {
        return false;
    }
    match held {
        None => r.key.item == 0 && r.value == [0; 16],
        Some(p) => r.key.item == item_of(bucket, p.at, level) && r.value == point_value(p),
    }
}

/// The block and its point whose record it is; none where it is none of a point layer at the level whose blocks hold at
/// most `bucket` points.
#[inline(always)]
pub fn read_point(r: &Record, level: u8, bucket: u8) -> Option<(Block, Option<Point>)>
    requires { (1 ≤ level) × (level ≤ 12) }
    ensures some { IfSome result (λ v. IsRecordOf level bucket r.now r.now.key.layer (point_fact v.0 v.1)) }
    ensures one { (layer : ℕ) (b : AnyBlock) (held : Option AnyPoint) → IsRecordOf level bucket r.now layer (point_fact b held) → result ≡ Some (b, held) }
{
    let Some((_, b)) = named(&r.key, level) else {
        return None;
    };
    let held = held_in(&r.value);
    if !is_inside(held, level) {
        return None;
    }
    if !is_of_point(r, level, bucket, held) {
        return None;
    }
    Some((b, held))
}

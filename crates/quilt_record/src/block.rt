ghost use Rattle.std.specs.Prelude.{◌≡◌, ℕ, ◌≤◌, ◌^◌, ◌<◌, true, Some, IfSome};
ghost use Rattle.quilt_types.specs.declared.plane.Block.{Block as AnyBlock};
ghost use Rattle.quilt_types.specs.Plane.{IsBlock};
ghost use Rattle.quilt_types.specs.Codes.{code, depth};
ghost use Rattle.quilt_record.specs.Records as spec;
ghost use Rattle.quilt_record.specs.Blocks.{IsBlockOf, IsNamed};

use crate::{Key, Record};
use quilt_types::{Block, Pixel, code_of, pixel_of};

/// How many codes there are: 4 ^ 12.
const CODES: u32 = 1 << 24;

/// How often the side of the block has to be doubled to be that of the square.
fn depth_of(b: Block, level: u8) -> u8
    requires level { level ≤ 12 }
    requires block { IsBlock level b }
    ensures { result ≡ depth level b }
{
    level - b.side.trailing_zeros() as u8
}

/// The key of a record of a block.
pub fn block_key(layer: u8, part: u8, b: Block, level: u8, item: u32) -> Key
    requires level { level ≤ 12 }
    requires block { IsBlock level b }
    ensures { result ≡ spec.block_key level layer part b item }
{
    Key {
        layer: u16::from(layer),
        part,
        code: code_of(Pixel { x: b.x, y: b.y }),
        depth: depth_of(b, level),
        item,
    }
}

/// Whether a square of pixels is a block of the level's square.
fn is_block(b: Block, level: u8) -> bool
    requires level { level ≤ 12 }
    requires size { (k : _) × (k ≤ level) × (b.side ≡ 2 ^ k) }
    ensures yes { result ≡ true → IsBlock level b }
    ensures no { IsBlock level b → result ≡ true }
{
    let size = 1 << level;
    b.x % b.side == 0 && b.y % b.side == 0 && b.x < size && b.y < size
}

/// The block that the key's code and depth say, if there is one at the level.
fn block_in(k: &Key, level: u8) -> Option<Block>
    requires { level ≤ 12 }
    ensures some { IfSome result (λ b. IsBlockOf level k.now b) }
    ensures one { (b : AnyBlock) → IsBlockOf level k.now b → result ≡ Some b }
{
    if level < k.depth {
        return None;
    }
    if CODES <= k.code {
        return None;
    }
    let p = pixel_of(k.code);
    let b = Block {
        x: p.x,
        y: p.y,
        side: 1 << (level - k.depth),
    };
    if !is_block(b, level) {
        return None;
    }
    Some(b)
}

/// Whether two records are the same.
pub fn is_same(a: &Record, b: &Record) -> bool
    ensures yes { result ≡ true → a.now ≡ b.now }
    ensures no { a.now ≡ b.now → result ≡ true }
{
    a == b
}

/// The layer's number that the key has, if it is from 1 to 255.
pub fn layer_in(k: &Key) -> Option<u8>
    ensures some { IfSome result (λ layer. (1 ≤ layer) × (layer ≡ k.now.layer)) }
    ensures most { IfSome result (λ layer. k.now.layer ≤ 255) }
    ensures one { 1 ≤ k.now.layer → k.now.layer ≤ 255 → result ≡ Some k.now.layer }
{
    match k.layer {
        1..=255 => Some(k.layer as u8),
        _ => None,
    }
}

/// The layer's number, from 1 to 255, and the block that the key says, if it says both.
#[inline(always)]
pub fn named(k: &Key, level: u8) -> Option<(u8, Block)>
    requires { level ≤ 12 }
    ensures some { IfSome result (λ v. IsNamed level k.now v.0 v.1) }
    ensures one { (layer : ℕ) (b : AnyBlock) → IsNamed level k.now layer b → result ≡ Some (layer, b) }
{
    let Some(b) = block_in(k, level) else {
        return None;
    };
    match k.layer {
        1..=255 => Some((k.layer as u8, b)),
        _ => None,
    }
}

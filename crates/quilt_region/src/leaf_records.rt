ghost use Rattle.std.specs.Prelude.{◌≡◌, ℕ, ◌≤◌, length, IfOk, IfErr, OnOk, IfSome, Some, IsErrOf};
ghost use Rattle.quilt_types.specs.declared.plane.Block.{Block as AnyBlock};
ghost use Rattle.quilt_types.specs.declared.plane.Colour.{Colour as AnyColour};
ghost use Rattle.quilt_types.specs.declared.stop.Stop.TheVariants.{Device};
ghost use Rattle.quilt_types.specs.declared.plane.Pixel.{Pixel as AnyPixel};
ghost use Rattle.quilt_types.specs.Plane.{Holds, IsBlock};
ghost use Rattle.quilt_types.specs.Layers.{Grid, IsGrid, colour_at};
ghost use Rattle.quilt_loc.specs.Codes.{code_from, code_to};
ghost use Rattle.quilt_blocks.specs.Cutting.{leaf_pair};
ghost use Rattle.quilt_btree.specs.Stops.{NamesPage};
ghost use Rattle.quilt_store.specs.Stops.{IsNotDamage};
ghost use Rattle.quilt_region.specs.Painting.{HasColours};
ghost use Rattle.quilt_spell.specs.OfLayer.{leaf_record};
ghost use Rattle.quilt_region.specs.Regions.{region_records};
ghost use Rattle.quilt_region.specs.Windows.{IsCutOut, records_within};

use quilt_blocks::{Leaf, LeafList, Maker};
use quilt_loc::{code_of, end_of, whole_square};
use quilt_record::{Record, read_region};
use quilt_types::{Block, Colour, Pixel, Stop};
use std::alloc::Global;

/// What is answered where records are none of a region layer, or their blocks do not cover the square.
pub const DAMAGED: Stop = Stop::Damaged { page: 0 };

/// The leaf of the layer that the record is, if it is one.
pub fn leaf_of(r: &Record, layer: u8, level: u8) -> Option<Leaf>
    requires level { (1 ≤ level) × (level ≤ 12) }
    ensures block { IfSome result (λ l. IsBlock level l.block) }
    ensures record { IfSome result (λ l. r.now ≡ leaf_record level layer (leaf_pair l)) }
    ensures code { IfSome result (λ l. r.now.key.code ≡ code_from l.block) }
    ensures one { (b : AnyBlock) (c : AnyColour) → 1 ≤ layer → IsBlock level b → r.now ≡ leaf_record level layer (b, c.0)
        → result ≡ Some (record { block = b; colour = c }) }
{
    let (block, colour) = read_region(r, level, 2)?;
    if r.key.layer != u16::from(layer) {
        return None;
    }
    Some(Leaf { block, colour })
}

/// The list of the leaves that the records are, which stand in the order of their codes.
pub fn list_of(alloc: Global, records: &[Record], layer: u8, level: u8) -> Result<LeafList, Stop>
    requires layer { 1 ≤ layer }
    requires level { (1 ≤ level) × (level ≤ 12) }
    ensures list { IfOk result (λ l. (g : Grid) → IsGrid 2 level g → records.now ≡ region_records level layer g → l ≡ record { level = level; grid = g }) }
    ensures level { IfOk result (λ l. l.level ≡ level) }
    ensures sound { IfErr result (λ e. (g : Grid) → records.now ≡ region_records level layer g → IsNotDamage e) }
    ensures zero { IfErr result (NamesPage 1) }
    ensures no_fault { IsErrOf result Device → ⊥ }
{
    let mut maker = Maker::new(alloc, level);
    let whole = whole_square(level);
    put_records(&mut maker, records, layer, level, whole)?;
    Ok(maker.finish())
}

/// Puts a block of one colour down.
pub fn put_one(maker: &mut Maker, b: Block, c: Colour) -> Result<(), Stop>
    requires most { maker.old.level ≤ 12 }
    requires block { IsBlock maker.old.level b }
    requires next { length maker.old.colours ≡ code_from b }
    ensures level { OnOk result (maker.new.level ≡ maker.old.level) }
    ensures end { OnOk result (length maker.new.colours ≡ code_to b) }
    ensures colours { OnOk result ((f : AnyPixel → ℕ) → ((p : AnyPixel) → Holds b p → f p ≡ c.0) → HasColours maker.old.level f maker.old.colours
        → HasColours maker.old.level f maker.new.colours) }
    ensures sound { IfErr result IsNotDamage }
    ensures zero { IfErr result (NamesPage 1) }
    ensures no_fault { IsErrOf result Device → ⊥ }
{
    match maker.push(b, c) {
        Ok(()) => Ok(()),
        Err(_) => Err(Stop::Memory),
    }
}

/// Puts down the leaves that the records are, which stand one behind the other from the first code of a block to its last.
pub fn put_records(
    maker: &mut Maker,
    records: &[Record],
    layer: u8,
    level: u8,
    b: Block,
) -> Result<(), Stop>
    requires layer { 1 ≤ layer }
    requires level { (1 ≤ level) × (level ≤ 12) }
    requires same_level { maker.old.level ≡ level }
    requires block { IsBlock level b }
    requires next { length maker.old.colours ≡ code_from b }
    ensures level { OnOk result (maker.new.level ≡ level) }
    ensures end { OnOk result (length maker.new.colours ≡ code_to b) }
    ensures colours { OnOk result ((g : Grid) (f : AnyPixel → ℕ) → records.now ≡ records_within level layer g b
        → ((p : AnyPixel) → Holds b p → f p ≡ colour_at level g p) → HasColours level f maker.old.colours → HasColours level f maker.new.colours) }
    ensures sound { IfErr result (λ e. (g : Grid) → records.now ≡ records_within level layer g b → IsCutOut level g b → IsNotDamage e) }
    ensures zero { IfErr result (NamesPage 1) }
    ensures no_fault { IsErrOf result Device → ⊥ }
{
    let last = end_of(b);
    let mut end = code_of(Pixel { x: b.x, y: b.y });
    for r in records {
        let Some(leaf) = leaf_of(r, layer, level) else {
            return Err(DAMAGED);
        };
        let next = end_of(leaf.block);
        if r.key.code != end || last < next {
            return Err(DAMAGED);
        }
        if maker.push(leaf.block, leaf.colour).is_err() {
            return Err(Stop::Memory);
        }
        end = next;
    }
    if end != last {
        return Err(DAMAGED);
    }
    Ok(())
}

ghost use Rattle.std.specs.Prelude.{◌≡◌, ◌≤◌, false, length, if◌then◌else◌, IfOk, IfErr, OnOk, IsErrOf};
ghost use Rattle.quilt_types.specs.declared.stop.Stop.TheVariants.{Device};
ghost use Rattle.quilt_types.specs.Plane.{corner, in_block, IsBlock};
ghost use Rattle.quilt_types.specs.Layers.{Grid};
ghost use Rattle.quilt_types.specs.Algebra.{grid_of};
ghost use Rattle.quilt_loc.specs.Codes.{code_from, code_to};
ghost use Rattle.quilt_btree.specs.Stops.{NamesPage};
ghost use Rattle.quilt_store.specs.Stops.{IsNotDamage};
ghost use Rattle.quilt_region.specs.Painting.{HasColours};
ghost use Rattle.quilt_region.specs.Windows.{IsKnown, IsCutOut, records_within, known_colour};

use crate::known::Known;
use crate::leaf_records::{put_one, put_records};
use quilt_blocks::{LeafList, Maker};
use quilt_loc::{covers, quarters, whole_square};
use quilt_record::Record;
use quilt_types::{Block, Colour, Pixel, Stop};
use std::alloc::Global;

/// A list of leaves over the whole square of which only those around a window are a layer's.
pub fn fill(
    alloc: Global,
    records: &[Record],
    layer: u8,
    level: u8,
    known: &Known,
) -> Result<LeafList, Stop>
    requires layer { 1 ≤ layer }
    requires level { (1 ≤ level) × (level ≤ 12) }
    requires known { IsKnown level known.now }
    ensures list { IfOk result (λ list. (g : Grid) → records.now ≡ records_within level layer g known.now.read
        → list ≡ record { level = level; grid = grid_of level (known_colour level g known.now) }) }
    ensures level { IfOk result (λ list. list.level ≡ level) }
    ensures sound { IfErr result (λ e. (g : Grid) → records.now ≡ records_within level layer g known.now.read → IsCutOut level g known.now.read → IsNotDamage e) }
    ensures zero { IfErr result (NamesPage 1) }
    ensures no_fault { IsErrOf result Device → ⊥ }
{
    let mut maker = Maker::new(alloc, level);
    let whole = whole_square(level);
    put_around(&mut maker, records, layer, level, whole, known)?;
    Ok(maker.finish())
}

/// Puts a block down: the leaves of the block that was read, and one colour for each block beside it.
fn put_around(
    maker: &mut Maker,
    records: &[Record],
    layer: u8,
    level: u8,
    b: Block,
    known: &Known,
) -> Result<(), Stop>
    requires layer { 1 ≤ layer }
    requires level { (1 ≤ level) × (level ≤ 12) }
    requires known { IsKnown level known.now }
    requires same_level { maker.old.level ≡ level }
    requires block { IsBlock level b }
    requires wide { known.now.read.side ≤ b.side }
    requires next { length maker.old.colours ≡ code_from b }
    ensures level { OnOk result (maker.new.level ≡ level) }
    ensures end { OnOk result (length maker.new.colours ≡ code_to b) }
    ensures colours { OnOk result ((g : Grid) → records.now ≡ records_within level layer g known.now.read
        → HasColours level (known_colour level g known.now) maker.old.colours → HasColours level (known_colour level g known.now) maker.new.colours) }
    ensures sound { IfErr result (λ e. (g : Grid) → records.now ≡ records_within level layer g known.now.read → IsCutOut level g known.now.read → IsNotDamage e) }
    ensures zero { IfErr result (NamesPage 1) }
    ensures no_fault { IsErrOf result Device → ⊥ }
{
    if b == known.read {
        return put_records(maker, records, layer, level, b);
    }
    let read = Pixel {
        x: known.read.x,
        y: known.read.y,
    };
    if !covers(b, read) {
        return put_one(maker, b, colour_beside(b, known));
    }
    for q in quarters(b) {
        put_around(maker, records, layer, level, q, known)?;
    }
    Ok(())
}

/// The one colour of a block that has no pixel of the block that was read.
fn colour_beside(b: Block, known: &Known) -> Colour
    requires { IsBlock 12 known.now.top }
    ensures { result.0 ≡ (if in_block known.now.top (corner b) then known.now.around.0 else known.now.elsewhere.0) }
{
    if covers(known.top, Pixel { x: b.x, y: b.y }) {
        known.around
    } else {
        known.elsewhere
    }
}

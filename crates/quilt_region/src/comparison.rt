ghost use Rattle.std.specs.Prelude.{◌≡◌, ◌⊎◌, ◌+◌, ◌*◌, ◌≤◌, [], ◌∷◌, ◌++◌, IfOk, OnOk};
ghost use Rattle.quilt_types.specs.Plane.{IsBlock};
ghost use Rattle.quilt_loc.specs.Codes.{code_from, code_to};
ghost use Rattle.quilt_blocks.specs.Cutting.{leaf_pair};
ghost use Rattle.quilt_spell.specs.OfLayer.{leaf_record};
ghost use Rattle.quilt_region.specs.Plans.{ReplacesGrid, GoOnWithin};

use quilt_blocks::{Cursor, Leaf, LeafList};
use quilt_record::{Edits, RecordList, region_record};
use quilt_types::Block;
use std::alloc::{AllocError, Global};

/// The records of the leaves that only one of two lists has, in a walk over both. Two leaves that begin at one code and
/// are not the same are in one list each, and so are all leaves of either list that lie in the larger of the two.
pub fn edits_between(
    alloc: Global,
    layer: u8,
    old: &LeafList,
    new: &LeafList,
) -> Result<Edits, AllocError>
    requires layer { 1 ≤ layer }
    requires level { old.now.level ≡ new.now.level }
    ensures { IfOk result (λ edits. ReplacesGrid old.now.level layer old.now.grid new.now.grid edits) }
{
    let level = old.level();
    let mut remove = RecordList::new(alloc);
    let mut add = RecordList::new(alloc);
    let mut olds = Cursor::new(old);
    let mut news = Cursor::new(new);
    while let Some((a, b)) = olds.next().zip(news.next()) {
        if a != b {
            let whole = larger_of(a.block, b.block);
            add_up_to(&mut remove, &mut olds, layer, level, a, whole)?;
            add_up_to(&mut add, &mut news, layer, level, b, whole)?;
        }
    }
    Ok(Edits { remove, add })
}

/// The larger of two blocks.
fn larger_of(a: Block, b: Block) -> Block
    ensures one { (result ≡ a) ⊎ (result ≡ b) }
    ensures first { a.side ≤ result.side }
    ensures second { b.side ≤ result.side }
{
    if a.side < b.side { b } else { a }
}

/// Adds the record of a leaf and those of the leaves that follow it up to the end of a block, in which it is the first.
fn add_up_to(
    records: &mut RecordList,
    leaves: &mut Cursor<'_>,
    layer: u8,
    level: u8,
    first: Leaf,
    whole: Block,
) -> Result<(), AllocError>
    requires layer { 1 ≤ layer }
    requires level { (1 ≤ level) × (level ≤ 12) }
    requires same_level { leaves.old.level ≡ level }
    requires block { IsBlock level whole }
    requires leaf { IsBlock level first.block }
    requires inside { first.block.side ≤ whole.side }
    requires at { leaves.old.at ≡ code_from whole + first.block.side * first.block.side }
    ensures level { leaves.new.level ≡ leaves.old.level }
    ensures grid { leaves.new.grid ≡ leaves.old.grid }
    ensures at { OnOk result (leaves.new.at ≡ code_to whole) }
    ensures records { OnOk result (GoOnWithin level layer leaves.old.grid whole (records.old ++ leaf_record level layer (leaf_pair first) ∷ [])
        records.new leaves.old.rest leaves.new.rest) }
{
    records.push(&region_record(layer, first.block, level, first.colour))?;
    let size = area_of(whole.side);
    let mut done = area_of(first.block.side);
    while done < size {
        let Some(leaf) = leaves.next() else {
            return Ok(());
        };
        records.push(&region_record(layer, leaf.block, level, leaf.colour))?;
        done += area_of(leaf.block.side);
    }
    Ok(())
}

/// How many pixels a block of this side has.
fn area_of(side: u16) -> u32
    requires { side ≤ 4096 }
    ensures { result ≡ side * side }
{
    let side = u32::from(side);
    side * side
}

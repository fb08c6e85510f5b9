ghost use Rattle.std.specs.Prelude.{◌≡◌, ◌==◌, ◌<◌, ◌≤◌, ◌^◌, ◌+◌, ◌↔◌, ℕ, List, Contains, [], ◌∷◌, ◌++◌, map, codes, decimal, slice_index, if◌then◌else◌};
ghost use Rattle.std.specs.Prelude.{IfOk, OnOk};
ghost use Rattle.std.specs.FinMap as finmap;
ghost use Rattle.quilt_types.specs.declared.plane.Block.{Block as BlockValue};
ghost use Rattle.quilt_types.specs.Plane.{side as side_of, below};
ghost use Rattle.quilt_types.specs.Quadtrees.{leaves as leaves_of};
ghost use Rattle.quilt_loc.specs.Codes.{Rises};
ghost use Rattle.quilt_blocks.specs.Cutting.{leaves_by_code, leaf_cmp};
ghost use Rattle.quilt_types.specs.Layers.{Map, IsGrid};
ghost use Rattle.quilt_record.specs.Records.{Numbering};
ghost use Rattle.quilt_spell.specs.Catalogued.{IsCatalogOf};
ghost use Rattle.quilt_lang.specs.Trials.{spaced};
ghost use Rattle.quilt_replies.specs.Answers.{Done, layer_line, leaf_line, point_line, block_lines, row_line};
ghost use Rattle.quilt_replies.specs.Bodies.{lines, words_of_kind, entry_line, HasCounts};
ghost use Rattle.quilt_replies.specs.Runs.{text_of};

use quilt_blocks::LeafList;
use quilt_raster::render;
use quilt_record::Entry;
use quilt_types::{Block, Kind, Point, PointList, Text, Window};
use std::alloc::{AllocError, Global};

/// Adds a number in decimal digits.
pub(crate) fn push_number(text: &mut Text, number: u64) -> Result<(), AllocError>
    ensures { OnOk result (text.new ≡ text.old ++ decimal number) }
{
    if number < 10 {
        return text.push(&[b'0' + number as u8]);
    }
    push_number(text, number / 10)?;
    text.push(&[b'0' + (number % 10) as u8])
}

/// Adds the line `ok` behind the body.
pub(crate) fn finish(mut text: Text) -> Result<Text, AllocError>
    ensures { IfOk result (λ all. (body : List (List ℕ)) → text ≡ lines body → all ≡ text_of (Done body)) }
{
    text.push(b"ok\n")?;
    Ok(text)
}

/// The reply that has no body.
pub fn done_text(alloc: Global) -> Result<Text, AllocError>
    ensures { IfOk result (λ text. text ≡ text_of (Done [])) }
{
    finish(Text::new(alloc))
}

/// The reply of a number alone.
pub fn number_text(alloc: Global, number: u64) -> Result<Text, AllocError>
    ensures { IfOk result (λ text. text ≡ text_of (Done (decimal number ∷ []))) }
{
    let mut text = Text::new(alloc);
    push_number(&mut text, number)?;
    text.push(b"\n")?;
    finish(text)
}

/// The reply that names an edition.
pub fn edition_text(alloc: Global, number: u32) -> Result<Text, AllocError>
    ensures { IfOk result (λ text. text ≡ text_of (Done (spaced (codes "edition" ∷ decimal number ∷ []) ∷ []))) }
{
    let mut text = Text::new(alloc);
    text.push(b"edition ")?;
    push_number(&mut text, u64::from(number))?;
    text.push(b"\n")?;
    finish(text)
}

/// The reply that says how many records there are, of how many there may be.
pub fn records_text(alloc: Global, records: u32, quota: u32) -> Result<Text, AllocError>
    ensures { IfOk result (λ text. text ≡ text_of (Done (spaced (decimal records ∷ codes "of" ∷ decimal quota ∷ []) ∷ []))) }
{
    let mut text = Text::new(alloc);
    push_number(&mut text, u64::from(records))?;
    text.push(b" of ")?;
    push_number(&mut text, u64::from(quota))?;
    text.push(b"\n")?;
    finish(text)
}

/// Adds what kind of layer it is behind its name.
fn push_kind(text: &mut Text, kind: Kind) -> Result<(), AllocError>
    ensures { OnOk result (text.new ≡ text.old ++ 32 ∷ spaced (words_of_kind kind)) }
{
    match kind {
        Kind::Region => text.push(b" region"),
        Kind::Points { bucket: 1 } => text.push(b" points"),
        Kind::Points { bucket } => {
            text.push(b" points ")?;
            push_number(text, u64::from(bucket))
        }
        Kind::Lines { threshold } => {
            text.push(b" lines ")?;
            push_number(text, u64::from(threshold))
        }
    }
}

/// Adds the line of a layer.
fn push_entry(text: &mut Text, e: &Entry) -> Result<(), AllocError>
    ensures { OnOk result (text.new ≡ text.old ++ entry_line e.now ++ 10 ∷ []) }
{
    text.push(e.name.text().as_bytes())?;
    push_kind(text, e.kind)?;
    text.push(b"\n")
}

/// The reply that lists the layers, in the order of their names.
pub fn layers_text(alloc: Global, entries: &[Entry]) -> Result<Text, AllocError>
    ensures listed { IfOk result (λ text. text ≡ text_of (Done (map entry_line entries.now))) }

    // What this says of a map that has this catalog.
    ensures map { IfOk result (λ text. (layers : Map) (numbers : Numbering) → IsCatalogOf layers numbers entries.now
        → text ≡ text_of (Done (map layer_line (finmap.entries layers)))) }
{
    let mut text = Text::new(alloc);
    for e in entries {
        push_entry(&mut text, e)?;
    }
    finish(text)
}

/// Adds the line of a side that occurs so often, if it does.
fn push_count(text: &mut Text, k: u8, count: u32) -> Result<(), AllocError>
    requires { k ≤ 12 }
    ensures { OnOk result (text.new ≡ text.old ++ lines (if count == 0 then [] else spaced (decimal (side_of k) ∷ decimal count ∷ []) ∷ [])) }
{
    if count == 0 {
        return Ok(());
    }
    push_number(text, 1 << k)?;
    text.push(b" ")?;
    push_number(text, u64::from(count))?;
    text.push(b"\n")
}

/// The reply that says how many blocks there are of each side that occurs, the greatest first: `counts` has those of side 2 ^ k at
/// place k. The level of the map is at most 12.
pub fn blocks_text(alloc: Global, level: u8, counts: &[u32; 13]) -> Result<Text, AllocError>
    requires { level ≤ 12 }
    ensures { IfOk result (λ text. (sides : List ℕ) → HasCounts counts.now sides → text ≡ text_of (Done (block_lines level sides))) }
{
    let mut text = Text::new(alloc);
    let mut k = level + 1;
    while k > 0 {
        k -= 1;
        push_count(&mut text, k, counts[usize::from(k)])?;
    }
    finish(text)
}

/// The reply that shows a window of a region layer.
pub fn show_text(alloc: Global, list: &LeafList, w: Window, format: u8) -> Result<Text, AllocError>
    requires in_x { w.x + w.w ≤ side_of list.now.level }
    requires in_y { w.y + w.h ≤ side_of list.now.level }
    ensures { IfOk result (λ text. IsGrid format list.now.level list.now.grid
        → text ≡ text_of (Done (map (row_line format list.now.level list.now.grid w) (below w.h)))) }
{
    finish(render(alloc, list, w, format)?)
}

/// The leaves in the order of their codes, each with its block and its colour.
fn by_code(alloc: Global, list: &LeafList) -> Result<Vec<(Block, u16)>, AllocError>
    ensures leaves { IfOk result (λ v. v.items ≡ leaves_by_code list.now.level list.now.grid) }
    ensures members { (e : BlockValue × ℕ) → Contains (leaves_by_code list.now.level list.now.grid) e ↔ Contains (leaves_of list.now.level list.now.grid) e }
    ensures order { Rises leaf_cmp (leaves_by_code list.now.level list.now.grid) }
{
    let mut leaves = Vec::new(alloc);
    for i in 0..list.len() {
        let leaf = list.leaf(i);
        leaves.push((leaf.block, leaf.colour.0))?;
    }
    Ok(leaves)
}

/// The leaves by y and then x.
fn by_rows(alloc: Global, list: &LeafList) -> Result<Vec<(Block, u16)>, AllocError>
    ensures { IfOk result (λ v. v.items ≡ leaves_of list.now.level list.now.grid) }
{
    let mut leaves = by_code(alloc, list)?;
    leaves.sort_unstable();
    Ok(leaves)
}

/// Adds the line of a leaf.
fn push_leaf(text: &mut Text, block: Block, colour: u16) -> Result<(), AllocError>
    ensures { OnOk result (text.new ≡ text.old ++ leaf_line (block, colour) ++ 10 ∷ []) }
{
    push_number(text, u64::from(block.x))?;
    text.push(b" ")?;
    push_number(text, u64::from(block.y))?;
    text.push(b" ")?;
    push_number(text, u64::from(block.side))?;
    text.push(b" ")?;
    push_number(text, u64::from(colour))?;
    text.push(b"\n")
}

/// The reply that lists the leaves of a region layer, by y and then x.
pub fn leaves_text(alloc: Global, list: &LeafList) -> Result<Text, AllocError>
    ensures { IfOk result (λ text. text ≡ text_of (Done (map leaf_line (leaves_of list.now.level list.now.grid)))) }
{
    let leaves = by_rows(alloc, list)?;
    let mut text = Text::new(alloc);
    for (block, colour) in leaves.iter() {
        push_leaf(&mut text, *block, *colour)?;
    }
    finish(text)
}

/// Adds the line of a point.
fn push_point(text: &mut Text, p: Point) -> Result<(), AllocError>
    ensures { OnOk result (text.new ≡ text.old ++ point_line (p.at, p.label) ++ 10 ∷ []) }
{
    push_number(text, u64::from(p.at.x))?;
    text.push(b" ")?;
    push_number(text, u64::from(p.at.y))?;
    text.push(b" ")?;
    push_number(text, u64::from(p.label))?;
    text.push(b"\n")
}

/// The reply that lists points, in the order in which they stand.
pub fn points_text(alloc: Global, points: &PointList) -> Result<Text, AllocError>
    ensures { IfOk result (λ text. text ≡ text_of (Done (map (λ p. point_line (p.at, p.label)) points.now))) }
{
    let mut text = Text::new(alloc);
    for p in points.items() {
        push_point(&mut text, *p)?;
    }
    finish(text)
}

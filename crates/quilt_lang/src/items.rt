ghost use Rattle.std.specs.Prelude.{◌≡◌, ◌≤◌, ℕ, List, [], ◌++◌, map, flat_map, OnOk, IfOk};
ghost use Rattle.quilt_words.specs.Items.{held, items_of, whole_items};
ghost use Rattle.quilt_lang.specs.Reading.{BeginWith};
ghost use Rattle.quilt_lang.specs.Taking.{Takes};

use crate::Lines;
use quilt_words::Item;
use std::alloc::{AllocError, Global};

/// The items of a text that comes in pieces, each read in the format, which is 1 or 2. They do not depend on how the text is cut.
/// Of a higher format nothing is said, since a row may be cut short that is too long for these.
pub fn items_in(
    alloc: Global,
    level: u8,
    format: u8,
    pieces: &[&[u8]],
) -> Result<Vec<Item>, AllocError>
    ensures { IfOk result (λ items. format ≤ 2 → items.items ≡ map (held format level) (items_of level (flat_map (λ piece. piece.now) pieces.now))) }
{
    let mut lines = Lines::new(alloc, level);
    let mut items = Vec::new(alloc);
    for piece in pieces {
        lines.feed(piece)?;
        take_items(&mut lines, format, false, &mut items)?;
    }
    take_items(&mut lines, format, true, &mut items)?;
    Ok(items)
}

/// The items of a text that may go on: those whose lines all stand there with their newlines, each read in the format, which is 1 or 2.
/// Whatever follows, the items of the longer text begin with these.
pub fn whole_items_in(
    alloc: Global,
    level: u8,
    format: u8,
    text: &[u8],
) -> Result<Vec<Item>, AllocError>
    ensures whole { IfOk result (λ items. format ≤ 2 → items.items ≡ map (held format level) (whole_items level text.now)) }
    ensures front { IfOk result (λ items. format ≤ 2 → (more : List ℕ) → BeginWith (map (held format level) (items_of level (text.now ++ more))) items.items) }
{
    let mut lines = Lines::new(alloc, level);
    let mut items = Vec::new(alloc);
    lines.feed(text)?;
    take_items(&mut lines, format, false, &mut items)?;
    Ok(items)
}

/// Takes all items that can be given.
fn take_items(
    lines: &mut Lines,
    format: u8,
    ended: bool,
    items: &mut Vec<Item>,
) -> Result<(), AllocError>
    ensures { OnOk result (Takes ended format lines.old lines.new items.old.items items.new.items) }
{
    while let Some(item) = lines.next_item(format, ended)? {
        items.push(item)?;
    }
    Ok(())
}

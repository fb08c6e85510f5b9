//! Whether texts, refusals and rows are the wanted ones. These promise nothing, so that the tests are proved in short time.
use quilt_lang::{Item, ParseErr};
use quilt_types::{Code, Text};
use std::alloc::AllocError;

/// Whether the text was made and is the wanted one.
pub fn is_text(made: Result<Text, AllocError>, wanted: &[u8]) -> bool {
    match made {
        Ok(text) => text.bytes() == wanted,
        Err(_) => false,
    }
}

/// The item of a text that has one and no more.
pub fn only(items: &Result<Vec<Item>, AllocError>) -> Option<&Item> {
    match items {
        Ok(items) => match items.as_slice() {
            [item] => Some(item),
            _ => None,
        }
        Err(_) => None,
    }
}

/// Whether an item is refused with the wanted code, or taken where that is none.
pub fn is_refusal(refused: Option<ParseErr>, wanted: Option<Code>) -> bool {
    match refused {
        Some(ParseErr::No(code)) => wanted == Some(code),
        Some(ParseErr::Memory) => false,
        None => wanted.is_none(),
    }
}

/// Whether the rows of a raster hold the wanted bytes, or are none where none are wanted.
pub fn are_rows(rows: &Option<Text>, wanted: Option<&[u8]>) -> bool {
    match (rows, wanted) {
        (Some(text), Some(bytes)) => text.bytes() == bytes,
        (None, None) => true,
        _ => false,
    }
}

/// What the further lines of an item spell.
pub fn kind_of(item: &Item) -> &'static str {
    match item {
        Item::Rows(..) => "rows",
        Item::PointLines(..) => "points",
        Item::RingLines(..) => "rings",
        Item::Line(_) => "nothing",
        Item::Long => "no line",
    }
}

/// Whether an item holds what its further lines spell, where it asks for some.
pub fn holds_further(item: &Item) -> Option<bool> {
    match item {
        Item::Rows(_, rows) => Some(rows.is_some()),
        Item::PointLines(_, points) => Some(points.is_some()),
        Item::RingLines(_, rings) => Some(rings.is_some()),
        _ => None,
    }
}

use crate::comparing::{are_rows, is_refusal, only};
use quilt_lang::{Command, Item, items_in, parse, whole_items_in};
use quilt_types::Code;
use std::alloc::{AllocError, Global};
use std::test::Fail;

/// Texts of one item, and the refusal of each, or none.
static TEXTS: [(&[u8], Option<Code>); 13] = [
    (b"set nosuch 99 x 1\n", Some(Code::Number)),
    (b"set nosuch 99 0 1\n", None),
    (b"frob\n", Some(Code::Word)),
    (b"rank l 1 1 1\n", None),
    (b"publish\n", None),
    (b"raster a\n", None),
    (b"polygon a 256 1\n", Some(Code::Number)),
    (b"scatter p 1\n", None),
    (b"at\n", Some(Code::Count)),
    (b"region 9a 0\n", Some(Code::Name)),
    (b"region a 256\n", Some(Code::Number)),
    (b"region\ta 0\n", Some(Code::Bytes)),
    (b"  edition", None),
];

/// Whether the one item of a text is refused so, or taken where there is no code.
fn is_refused(alloc: Global, text: &[u8], code: Option<Code>) -> bool {
    match only(&items_in(alloc, 3, 1, &[text])) {
        Some(item) => is_refusal(parse(alloc, 1, item).err(), code),
        None => false,
    }
}

#[test]
fn refuses_by_form(rt: HostRuntime) {
    for (text, code) in &TEXTS {
        assert!(rt; is_refused(rt.alloc(), text, *code));
    }
}

/// A line of 8,321 bytes, lines that ask for nothing, and a call.
fn long_text(alloc: Global) -> Result<Vec<u8>, AllocError> {
    let mut long = vec![in alloc; b'x'; 8321]?;
    long.extend_from_slice(b"\n# a remark\n\nshow a 1 2 3 4")?;
    Ok(long)
}

/// The items of a text that comes byte by byte.
fn items_by_bytes(alloc: Global, text: &[u8]) -> Result<Vec<Item>, AllocError> {
    let pieces: Vec<&[u8]> = text.chunks(1).collect(alloc)?;
    items_in(alloc, 3, 1, &pieces)
}

/// Whether the item asks to show the window from (1, 2) of 3 by 4 pixels.
fn is_show(alloc: Global, item: &Item) -> bool {
    match &parse(alloc, 1, item) {
        Ok(Command::Show { w, .. }) => w.x == 1 && w.y == 2 && w.w == 3 && w.h == 4,
        _ => false,
    }
}

/// Whether the items are a line that is too long, and that call.
fn are_long_and_show(alloc: Global, items: &[Item]) -> bool {
    match items {
        [Item::Long, item] => is_show(alloc, item),
        _ => false,
    }
}

#[test]
fn reads_in_pieces(rt: HostRuntime) -> Result<(), Fail> {
    let long = long_text(rt.alloc())?;
    assert!(rt; are_long_and_show(rt.alloc(), &items_by_bytes(rt.alloc(), &long)?));
    assert!(rt; whole_items_in(rt.alloc(), 3, 1, &long)?.len() == 1);
    Ok(())
}

/// A level, a format, a text of a raster, and the bytes of its rows, or none where they are not well formed.
pub type Raster = (u8, u8, &'static [u8], Option<&'static [u8]>);

/// A raster whose last row has no newline.
pub const OPEN: &[u8] = b"raster a\n0001\n0203";

static RASTERS: [Raster; 10] = [
    (
        1,
        1,
        b"raster a\n00Ff\n0102\n",
        Some(&[0, 0, 0, 255, 0, 1, 0, 2]),
    ),
    (0, 2, b"raster a\n00Ff\n", Some(&[0, 255])),
    (0, 2, b"raster a\n0102\n", Some(&[1, 2])),
    (
        1,
        2,
        b"raster a\n00Ff0102\naBcDeF90\n",
        Some(&[0, 255, 1, 2, 171, 205, 239, 144]),
    ),
    (1, 1, OPEN, Some(&[0, 0, 0, 1, 0, 2, 0, 3])),
    // Rows of the other format, and of other forms.
    (1, 2, b"raster a\n00Ff\n0102\n", None),
    (1, 1, b"raster a\n00Ff0102\n00Ff0102\n", None),
    (0, 2, b"raster a\n00g0\n", None),
    (1, 1, b"raster a\n0001\n00g0\n", None),
    (1, 1, b"raster a\n0001\n000\n", None),
];

/// Whether the text has one item, which asks for rows and holds these, or none.
fn reads_rows(alloc: Global, raster: &Raster) -> bool {
    let (level, format, text, wanted) = *raster;
    match only(&items_in(alloc, level, format, &[text])) {
        Some(Item::Rows(_, rows)) => are_rows(rows, wanted),
        _ => false,
    }
}

#[test]
fn reads_rows_of_both_formats(rt: HostRuntime) {
    for raster in &RASTERS {
        assert!(rt; reads_rows(rt.alloc(), raster));
    }
}

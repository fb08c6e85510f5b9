//! Files that are made, opened or refused.
use crate::files::{Piece, laid, lay};
use crate::runs::{done, ends, file_of_level_3};
use quilt_scripts::{Run, file_after, file_of};
use quilt_top::End;
use quilt_world::Image;
use std::alloc::Global;
use std::thread::Threads;

/// The exit status of each end.
static STATUSES: [(End, u8); 12] = [
    (End::Done, 0),
    (End::Refused, 1),
    (End::Usage, 2),
    (End::Device, 3),
    (End::Memory, 4),
    (End::NotMap, 5),
    (End::Missing, 6),
    (End::Taken, 7),
    (End::TooMuch, 8),
    (End::Damaged { page: 0 }, 9),
    (End::Damaged { page: 1 }, 9),
    (End::Damaged { page: 2 }, 9),
];

#[test]
fn each_end_has_its_status(rt: HostRuntime) {
    for (end, status) in &STATUSES {
        assert!(rt; end.status() == *status);
    }
}

#[test]
fn makes_a_file_once(rt: HostRuntime) {
    let alloc = rt.alloc();
    let words = ["new", "m", "16", "3"];
    let run = Run::of(&words, b"");
    assert!(rt; ends(&rt, alloc, run, None, End::Done, b"new 16 pages level 3\n"));
    let file = file_of_level_3(&rt, alloc);
    assert!(rt; file.as_ref().map(|file| file.pages()) == Some(35));
    assert!(rt; ends(&rt, alloc, run, file, End::Taken, b""));
}

#[test]
fn finds_no_other_file(rt: HostRuntime) {
    let alloc = rt.alloc();
    let words = ["run", "k"];
    let other = Run::of(&words, b"edition\n");
    let file = file_of_level_3(&rt, alloc);
    assert!(rt; file.is_some());
    assert!(rt; ends(&rt, alloc, other, file, End::Missing, b""));
    assert!(rt; ends(&rt, alloc, Run::text(b"edition\n"), None, End::Missing, b""));
}

/// A file that is opened.
#[derive(Clone, Copy)]
enum Opened {
    /// What `new` makes of 16 pages and of level 1.
    Level1,
    /// What it makes of level 3.
    Level3,
    /// The same, where the newline of the label is missing.
    NoNewline,
    /// The same once a colour of more than 8 bits was published in format 2, where the header says this format.
    Wide(u8),
    /// So many pages of zeros.
    Zeros(u32),
    /// So many pages, the label, and else zeros.
    Label(u32),
    /// A map of level 3 with no tree, in this format and of this edition.
    Empty(u8, [u8; 4]),
    /// A map of level 1 in this format, whose header says so many records: a region layer of four blocks with these values.
    Region(u8, u8, [[u8; 2]; 4]),
    /// A map of level 1: a line layer of four empty blocks.
    Lines,
    /// A map whose root is a page of zeros.
    Root,
    /// A map whose root has one leaf twice.
    Twice,
}

use Opened::{Empty, Label, Level1, Level3, Lines, NoNewline, Region, Root, Twice, Wide, Zeros};

/// Files that open: the name of what is shown, the file, a text, how its run ends, and what is put.
static ANSWERED: [(&str, Opened, &[u8], End, &[u8]); 9] = [
    (
        "the last line needs no newline",
        Level3,
        b"edition",
        End::Done,
        b"edition 0\nok\n",
    ),
    ("an empty text has no replies", Level3, b"", End::Done, b""),
    (
        "the end of the text cuts a raster off",
        Level1,
        b"region a 0\nraster a\n0001",
        End::Refused,
        b"ok\nno 14 rows\n",
    ),
    (
        "the greatest number is the last edition",
        Empty(1, [255, 255, 255, 255]),
        b"edition\nregion a 0\npublish\nupgrade\nrevert\nlayers\n",
        End::Refused,
        b"edition 4294967295\nok\nok\nno 16 editions\nno 16 editions\nok\nok\n",
    ),
    (
        "the last edition is published",
        Empty(1, [255, 255, 255, 254]),
        b"publish\npublish\n",
        End::Refused,
        b"edition 4294967295\nok\nno 16 editions\n",
    ),
    (
        "numbers and rows are in the format of the file",
        Empty(2, [0, 0, 0, 7]),
        b"edition\nregion a 258\nset a 1 0 65535\nat a 0 0\nshow a 0 0 2 1\nregion b 65536\n",
        End::Refused,
        b"edition 7\nok\nok\nok\n258\nok\n0102ffff\nok\nno 3 number\n",
    ),
    (
        "quarters of two colours",
        Region(1, 5, [[0, 0], [0, 0], [0, 0], [1, 0]]),
        b"blocks a\n",
        End::Done,
        b"1 4\nok\n",
    ),
    (
        "a quarter of 16 bits",
        Region(2, 5, [[2, 1], [0, 0], [0, 0], [0, 0]]),
        b"at a 0 0\n",
        End::Done,
        b"258\nok\n",
    ),
    // Each cover of the square by blocks is one that a line layer may have.
    (
        "four empty blocks of lines",
        Lines,
        b"blocks l\n",
        End::Done,
        b"1 4\nok\n",
    ),
];

/// The records spell no map, or the header is none.
const NO_MAP: End = End::Damaged { page: 0 };

/// Files that do not open, by their names, and how a run ends, which puts nothing.
static REFUSED: [(&str, Opened, End); 16] = [
    ("zeros", Zeros(35), End::NotMap),
    ("the label and else zeros", Label(35), NO_MAP),
    ("the label in 33 pages", Label(33), End::NotMap),
    ("the label in 34 pages", Label(34), End::NotMap),
    ("the label in 36 pages", Label(36), End::NotMap),
    ("the label without its newline", NoNewline, End::NotMap),
    ("format 0", Empty(0, [0, 0, 0, 7]), NO_MAP),
    ("format 3", Empty(3, [0, 0, 0, 7]), NO_MAP),
    ("format 255", Empty(255, [0, 0, 0, 7]), NO_MAP),
    (
        "a wide colour that is published in format 1",
        Wide(1),
        NO_MAP,
    ),
    ("a root of zeros", Root, End::Damaged { page: 1 }),
    ("quarters of one colour", Region(1, 5, [[0, 0]; 4]), NO_MAP),
    (
        "a record too many",
        Region(1, 4, [[0, 0], [0, 0], [0, 0], [1, 0]]),
        NO_MAP,
    ),
    (
        "a record too few",
        Region(1, 6, [[0, 0], [0, 0], [0, 0], [1, 0]]),
        NO_MAP,
    ),
    (
        "a wide colour in format 1",
        Region(1, 5, [[2, 1], [0, 0], [0, 0], [0, 0]]),
        NO_MAP,
    ),
    ("one leaf twice", Twice, End::Damaged { page: 2 }),
];

const LABEL: Piece = (0, 0, b"QUILT MAP FILE\n");

/// The header of a file of level 1 whose tree is one leaf of five records, at home page 1.
const HEADER: Piece = (
    3,
    0,
    b"QHDR\0\0\0\x01\0\0\0\x01\x01\x01\0\0\0\0\0\x01\0\0\0\x05",
);

/// Such a file of a region layer `a`: the catalog's record, and those of four blocks of side 1 and of colour 0.
const REGION_PIECES: &[Piece] = &[
    LABEL,
    HEADER,
    (4, 0, b"\x01\x01\0\x05"),
    (
        4,
        64,
        b"\0\0\0\0\0\0\0\0\0\0\0\x01a\0\0\0\0\0\0\0\0\0\0\0\x01",
    ),
    (4, 92, b"\0\x01\x01\0\0\0\0\x01"),
    (4, 120, b"\0\x01\x01\0\0\0\x01\x01"),
    (4, 148, b"\0\x01\x01\0\0\0\x02\x01"),
    (4, 176, b"\0\x01\x01\0\0\0\x03\x01"),
];

/// Such a file of a line layer `l` of threshold 4, whose four blocks of side 1 are empty.
const LINE_PIECES: &[Piece] = &[
    LABEL,
    HEADER,
    (4, 0, b"\x01\x01\0\x05"),
    (
        4,
        64,
        b"\0\0\0\0\0\0\0\0\0\0\0\x01l\0\0\0\0\0\0\0\0\0\0\0\x03\x04",
    ),
    (4, 92, b"\0\x01\x03\0\0\0\0\x01"),
    (4, 120, b"\0\x01\x03\0\0\0\x01\x01"),
    (4, 148, b"\0\x01\x03\0\0\0\x02\x01"),
    (4, 176, b"\0\x01\x03\0\0\0\x03\x01"),
];

/// A file whose root, at home page 1, has home page 2 for both its children, parted by the key of the 73rd layer.
const TWICE_PIECES: &[Piece] = &[
    LABEL,
    (
        3,
        0,
        b"QHDR\0\0\0\x01\0\0\0\x01\x01\x02\0\0\0\0\0\x01\0\0\0\x90",
    ),
    (4, 0, b"\x02\x02\0\x02\0\0\0\0\0\0\0\x02\0\0\0\x02"),
    (4, 1035, b"\x49"),
    (5, 0, b"\x01\x01\0\x48"),
];

/// The pieces of a map that is laid byte by byte.
fn pieces_of(opened: Opened) -> &'static [Piece] {
    match opened {
        Label(_) => &[LABEL],
        Empty(..) => &[LABEL, (3, 0, b"QHDR\0\0\0\0\0\0\0\0\x03")],
        Region(..) => REGION_PIECES,
        Lines => LINE_PIECES,
        Root => &[LABEL, HEADER, (3, 23, b"\x01")],
        Twice => TWICE_PIECES,
        _ => &[],
    }
}

/// The file of level 3 once a colour of more than 8 bits was published in format 2.
fn file_of_wide_colour<R: Threads + Sync>(rt: &R, alloc: Global) -> Option<Image> {
    let run = Run::text(b"upgrade\nregion a 0\nset a 5 2 258\npublish\n");
    let ran = done(rt, alloc, run, file_of_level_3(rt, alloc))?;
    if ran.0 == End::Done {
        file_after(&ran.1)
    } else {
        None
    }
}

/// The file that is opened, but for single bytes.
fn file_like<R: Threads + Sync>(rt: &R, alloc: Global, opened: Opened) -> Option<Image> {
    match opened {
        Level1 => file_of(rt, alloc, "16", "1"),
        Level3 | NoNewline => file_of_level_3(rt, alloc),
        Wide(_) => file_of_wide_colour(rt, alloc),
        Zeros(pages) | Label(pages) => laid(alloc, pages, pieces_of(opened)),
        _ => laid(alloc, 35, pieces_of(opened)),
    }
}

/// Lays the values of four blocks into the leaf at page 4.
fn lay_values(file: &mut Image, values: [[u8; 2]; 4]) -> Option<()> {
    let mut place = 104_usize;
    for value in &values {
        lay(file, 4, place, value)?;
        place = place.wrapping_add(28);
    }
    Some(())
}

/// Lays the records of 72 layers `a` into the leaf at page 5.
fn lay_layers(file: &mut Image) -> Option<()> {
    let mut place = 75_usize;
    for number in 1..=72_u8 {
        lay(file, 5, place, &[number, b'a'])?;
        lay(file, 5, place.wrapping_add(13), &[1])?;
        place = place.wrapping_add(28);
    }
    Some(())
}

/// Lays the format and the edition into the header.
fn lay_edition(file: &mut Image, format: u8, edition: [u8; 4]) -> Option<()> {
    lay(file, 3, 7, &[format])?;
    lay(file, 3, 8, &edition)
}

/// Lays the format and the number of records into the header, and the values of blocks.
fn lay_region(file: &mut Image, format: u8, records: u8, values: [[u8; 2]; 4]) -> Option<()> {
    lay(file, 3, 7, &[format])?;
    lay(file, 3, 23, &[records])?;
    lay_values(file, values)
}

/// Lays the format into the header.
fn lay_format(file: &mut Image, format: u8) -> Option<()> {
    lay(file, 3, 7, &[format])
}

/// Lays the bytes that are of one file alone.
fn lay_own(file: &mut Image, opened: Opened) -> Option<()> {
    match opened {
        NoNewline => lay(file, 0, 14, b"\0"),
        Wide(format) => lay_format(file, format),
        Empty(format, edition) => lay_edition(file, format, edition),
        Region(format, records, values) => lay_region(file, format, records, values),
        Twice => lay_layers(file),
        _ => Some(()),
    }
}

/// Whether the run of a text over the file ends so, and puts this.
fn opens<R: Threads + Sync>(
    rt: &R,
    alloc: Global,
    opened: Opened,
    text: &[u8],
    end: End,
    output: &[u8],
) -> Option<bool> {
    let mut file = file_like(rt, alloc, opened)?;
    lay_own(&mut file, opened)?;
    Some(ends(rt, alloc, Run::text(text), Some(file), end, output))
}

#[test]
fn files_are_opened(rt: HostRuntime) {
    for (name, opened, text, end, output) in &ANSWERED {
        let is_so = opens(&rt, rt.alloc(), *opened, text, *end, output);
        assert!(rt; is_so == Some(true), "{name}");
    }
}

#[test]
fn files_are_refused(rt: HostRuntime) {
    for (name, opened, end) in &REFUSED {
        let is_so = opens(&rt, rt.alloc(), *opened, b"edition\n", *end, b"");
        assert!(rt; is_so == Some(true), "{name}");
    }
}

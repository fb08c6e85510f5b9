//! Rows, list lines and ring lines that are drawn, and cut anywhere.
use crate::comparing::{are_rows, holds_further, kind_of, only};
use crate::items::{OPEN, Raster};
use quilt_lang::{Command, Item, Lines, items_in, whole_items_in};
use quilt_types::{Code, Corner, Pixel, Point};
use std::alloc::{AllocError, Global};
use std::test::Fail;

const LEVEL: u8 = 1;

/// What drawn lines spell.
#[derive(Drop)]
enum Drawn {
    Rows(Vec<u8>),
    Points(Vec<Point>),
    Ring(Vec<Corner>),
}

fn has_points(item: &Item, points: &[Point]) -> bool {
    match item {
        Item::PointLines(_, Some(list)) => list.items() == points,
        _ => false,
    }
}

fn has_ring(item: &Item, corners: &[Corner]) -> bool {
    match item {
        Item::RingLines(_, Some(rings)) => rings.len() == 1 && rings.corners(0) == corners,
        _ => false,
    }
}

fn holds(item: &Item, drawn: &Drawn) -> bool {
    match (item, drawn) {
        (Item::Rows(_, rows), Drawn::Rows(bytes)) => are_rows(rows, Some(bytes)),
        (_, Drawn::Points(points)) => has_points(item, points),
        (_, Drawn::Ring(corners)) => has_ring(item, corners),
        _ => false,
    }
}

/// Whether a text in these pieces has one item, which holds what was drawn.
fn is_read(alloc: Global, format: u8, pieces: &[&[u8]], drawn: &Drawn) -> bool {
    match only(&items_in(alloc, LEVEL, format, pieces)) {
        Some(item) => holds(item, drawn),
        None => false,
    }
}

/// A reader of a text at this level that has read its first piece.
fn begun(alloc: Global, level: u8, first: &[u8]) -> Option<Lines> {
    let mut lines = Lines::new(alloc, level);
    lines.feed(first).ok()?;
    Some(lines)
}

/// Whether the reader gives an item that holds what was drawn, while more may come.
fn gives(lines: &mut Lines, format: u8, drawn: &Drawn) -> bool {
    match &lines.next_item(format, false) {
        Ok(Some(item)) => holds(item, drawn),
        _ => false,
    }
}

/// Whether the reader gives no item before the second piece, and then one that holds what was drawn.
fn awaits(lines: &mut Lines, format: u8, second: &[u8], drawn: &Drawn) -> bool {
    match &lines.next_item(format, false) {
        Ok(None) => lines.feed(second).is_ok() && gives(lines, format, drawn),
        _ => false,
    }
}

/// Two pieces of a text.
type Pieces<'a> = (&'a [u8], &'a [u8]);

/// Whether a reader of the first piece gives no item, and then one that holds what was drawn.
fn is_awaited(alloc: Global, format: u8, pieces: Pieces, drawn: &Drawn) -> bool {
    match begun(alloc, LEVEL, pieces.0) {
        Some(mut lines) => awaits(&mut lines, format, pieces.1, drawn),
        None => false,
    }
}

/// What the next item of a reader spells, if there is one.
type Taken = Result<Option<Result<Command, Code>>, AllocError>;

/// Whether a raster was taken, with these rows or with none.
fn is_raster(taken: &Taken, rows: Option<&[u8]>) -> bool {
    match taken {
        Ok(Some(Ok(Command::Raster { rows: found, .. }))) => are_rows(found, rows),
        _ => false,
    }
}

/// Whether the reader takes a raster, with these rows or with none, of which a part may stand in the second piece.
fn takes_raster(lines: &mut Lines, format: u8, second: &[u8], rows: Option<&[u8]>) -> bool {
    let taken = lines.take_command(format, false);
    match &taken {
        Ok(None) => {
            lines.feed(second).is_ok() && is_raster(&lines.take_command(format, true), rows)
        }
        _ => is_raster(&taken, rows),
    }
}

/// Whether a raster is taken of these pieces, with these rows or with none.
fn is_taken(alloc: Global, level: u8, format: u8, pieces: Pieces, rows: Option<&[u8]>) -> bool {
    match begun(alloc, level, pieces.0) {
        Some(mut lines) => takes_raster(&mut lines, format, pieces.1, rows),
        None => false,
    }
}

/// Whether both pieces of a text are read as what was drawn: at once, where more may come, and as a command.
fn is_read_cut(alloc: Global, format: u8, pieces: Pieces, drawn: &Drawn) -> bool {
    let is_taken = match drawn {
        Drawn::Rows(bytes) => is_taken(alloc, LEVEL, format, pieces, Some(bytes)),
        _ => true,
    };
    is_taken
        && is_read(alloc, format, &[pieces.0, pieces.1], drawn)
        && is_awaited(alloc, format, pieces, drawn)
}

/// Whether a text is read as what was drawn, whole and cut into two pieces at every byte.
fn is_read_anyhow(alloc: Global, format: u8, text: &[u8], drawn: &Drawn) -> bool {
    for cut in 0..text.len() {
        if !is_read_cut(alloc, format, text.split_at(cut), drawn) {
            return false;
        }
    }
    is_read(alloc, format, &[text], drawn)
}

fn next(state: u64) -> u64 {
    state
        .wrapping_mul(6_364_136_223_846_793_005)
        .wrapping_add(1_442_695_040_888_963_407)
}

fn drawn_byte(state: u64) -> u8 {
    ((state >> 33) % 256) as u8
}

fn push_digit(text: &mut Vec<u8>, digit: u8) -> Option<()> {
    text.push(b"0123456789abcdef"[usize::from(digit % 16)]).ok()
}

/// The digits of a byte of a colour.
fn push_byte(text: &mut Vec<u8>, byte: u8) -> Option<()> {
    push_digit(text, byte / 16)?;
    push_digit(text, byte)
}

/// The digits of a colour, and its two bytes.
fn push_colour(text: &mut Vec<u8>, bytes: &mut Vec<u8>, format: u8, state: u64) -> Option<()> {
    let mut high = 0;
    if format != 1 {
        high = drawn_byte(state >> 8);
        push_byte(text, high)?;
    }
    let low = drawn_byte(state);
    push_byte(text, low)?;
    bytes.push(high).ok()?;
    bytes.push(low).ok()
}

/// A number, with these bytes behind it.
fn push_number(text: &mut Vec<u8>, number: u8, behind: &[u8]) -> Option<()> {
    let word = format!(in *text.allocator(); "{number}").ok()?;
    text.extend_from_slice(word.as_bytes()).ok()?;
    text.extend_from_slice(behind).ok()
}

/// The words of a point, and the point.
fn push_point(text: &mut Vec<u8>, points: &mut Vec<Point>, state: u64) -> Option<()> {
    let (x, y) = (drawn_byte(state), drawn_byte(state >> 8));
    let label = drawn_byte(state >> 16);
    push_number(text, x, b" ")?;
    push_number(text, y, b" ")?;
    push_number(text, label, b"")?;
    points
        .push(Point {
            at: Pixel {
                x: u16::from(x),
                y: u16::from(y),
            },
            label: u32::from(label),
        })
        .ok()
}

/// The words of a corner, and the corner.
fn push_corner(text: &mut Vec<u8>, corners: &mut Vec<Corner>, state: u64) -> Option<()> {
    let (x, y) = (drawn_byte(state), drawn_byte(state >> 8));
    push_number(text, x, b" ")?;
    push_number(text, y, b" ")?;
    corners
        .push(Corner {
            x: u16::from(x),
            y: u16::from(y),
        })
        .ok()
}

/// Adds what one drawn state spells to a text, and to what is drawn.
fn push_drawn(text: &mut Vec<u8>, drawn: &mut Drawn, format: u8, state: u64) -> Option<()> {
    match drawn {
        Drawn::Rows(bytes) => push_colour(text, bytes, format, state),
        Drawn::Points(points) => push_point(text, points, state),
        Drawn::Ring(corners) => push_corner(text, corners, state),
    }
}

/// How drawn lines begin, how many there are, and how much stands in each.
struct Form {
    head: &'static [u8],
    lines: u8,
    in_line: u8,
}

/// Two rows of two colours each.
static ROWS: Form = Form {
    head: b"raster a\n",
    lines: 2,
    in_line: 2,
};

/// Three list lines.
static POINTS: Form = Form {
    head: b"scatter p 3\n",
    lines: 3,
    in_line: 1,
};

/// A ring line of three corners.
static RING: Form = Form {
    head: b"polygon a 2 1\n",
    lines: 1,
    in_line: 3,
};

/// Draws lines of this form.
fn draw(
    text: &mut Vec<u8>,
    drawn: &mut Drawn,
    form: &Form,
    format: u8,
    state: &mut u64,
) -> Option<()> {
    for _ in 0..form.lines {
        for _ in 0..form.in_line {
            *state = next(*state);
            push_drawn(text, drawn, format, *state)?;
        }
        text.push(b'\n').ok()?;
    }
    Some(())
}

/// Whether lines of this form, which are drawn into what is empty yet, are read as what they spell.
fn is_drawn_and_read(
    alloc: Global,
    form: &Form,
    empty: Drawn,
    format: u8,
    state: &mut u64,
) -> Option<bool> {
    let mut drawn = empty;
    let mut text = Vec::from_slice(alloc, form.head).ok()?;
    draw(&mut text, &mut drawn, form, format, state)?;
    Some(is_read_anyhow(alloc, format, &text, &drawn))
}

#[test]
fn reads_drawn_rows(rt: HostRuntime) {
    let mut state = 1;
    for i in 0..200_u8 {
        let rows = Drawn::Rows(Vec::new(rt.alloc()));
        assert!(rt;
            is_drawn_and_read(rt.alloc(), &ROWS, rows, i % 2 + 1, &mut state) == Some(true)
        );
    }
}

#[test]
fn reads_drawn_list_lines(rt: HostRuntime) {
    let mut state = 1;
    for _ in 0..200_u8 {
        let points = Drawn::Points(Vec::new(rt.alloc()));
        assert!(rt; is_drawn_and_read(rt.alloc(), &POINTS, points, 1, &mut state) == Some(true));
    }
}

#[test]
fn reads_drawn_ring_lines(rt: HostRuntime) {
    let mut state = 1;
    for _ in 0..200_u8 {
        let ring = Drawn::Ring(Vec::new(rt.alloc()));
        assert!(rt; is_drawn_and_read(rt.alloc(), &RING, ring, 1, &mut state) == Some(true));
    }
}

/// Texts of one item whose further lines are not all there or not well formed, and what the item asks for.
static MISSING: [(&[u8], &str); 5] = [
    (b"raster a\n0001\n02", "rows"),
    (b"raster a\n0001\n", "rows"),
    (b"scatter p 2\n1 2 3\n", "points"),
    (b"polygon a 2 1\n1 2 3 4\n", "rings"),
    (b"polygon a 2 2\n1 2 3 4 5 6\n", "rings"),
];

/// Whether the one item of a text asks for this and holds none of it.
fn is_missing(alloc: Global, text: &[u8], kind: &str) -> bool {
    match only(&items_in(alloc, LEVEL, 1, &[text])) {
        Some(item) => kind_of(item) == kind && holds_further(item) == Some(false),
        None => false,
    }
}

#[test]
fn holds_none_where_a_line_is_missing(rt: HostRuntime) {
    for (text, kind) in &MISSING {
        assert!(rt; is_missing(rt.alloc(), text, kind));
    }
}

#[test]
fn awaits_the_last_newline(rt: HostRuntime) -> Result<(), Fail> {
    assert!(rt; whole_items_in(rt.alloc(), LEVEL, 1, OPEN)?.is_empty());
    Ok(())
}

/// Lines, what each asks for, and how many items there are with four lines behind it.
static ASKING: [(&[u8], &str, usize); 5] = [
    (b"raster a", "rows", 3),
    (b"scatter p 3", "points", 2),
    (b"scatter p 0", "nothing", 5),
    (b"polygon a 1 2", "rings", 3),
    (b"polygon a 2", "nothing", 5),
];

/// Whether the first of these items asks for this, and there are so many.
fn asks(items: &[Item], kind: &str, count: usize) -> bool {
    match items.first() {
        Some(item) => kind_of(item) == kind && items.len() == count,
        None => false,
    }
}

#[test]
fn asks_by_words(rt: HostRuntime) -> Result<(), Fail> {
    for (line, kind, count) in &ASKING {
        let items = items_in(rt.alloc(), LEVEL, 1, &[line, b"\nw\nx\ny\nz\n"])?;
        assert!(rt; asks(&items, kind, *count));
    }
    Ok(())
}

/// The sizes of further lines, whether they are held, and the sizes of the pieces in which the text comes.
type Sizes = (&'static [usize], bool, &'static [usize]);

/// Texts of a line, of further lines that begin with these words and are filled up by a byte, and of one line more.
struct Filled {
    format: u8,
    head: &'static [u8],
    words: &'static [u8],
    fill: u8,
    /// At how many of its last bytes a text is cut in two as well.
    cuts: usize,
    sizes: &'static [Sizes],
}

/// Sizes of pieces that go round those of list lines, and of ring lines.
const LIST_PIECES: &[usize] = &[1, 7, 64, 65, 66];

const RING_PIECES: &[usize] = &[100, 4096, 8320, 8321];

/// A list line has 64 bytes at most, a ring line 8320, and a row the digits of two colours.
static LIMITS: [Filled; 5] = [
    Filled {
        format: 1,
        head: b"scatter p 1\n",
        words: b"1 1 7",
        fill: b' ',
        cuts: usize::MAX,
        sizes: &[
            (&[64], true, LIST_PIECES),
            (&[65], false, LIST_PIECES),
            (&[66], false, LIST_PIECES),
            (&[200], false, LIST_PIECES),
        ],
    },
    Filled {
        format: 1,
        head: b"scatter p 3\n",
        words: b"1 1 7",
        fill: b' ',
        cuts: usize::MAX,
        sizes: &[
            (&[64, 5, 5], true, &[3]),
            (&[65, 5, 5], false, &[3]),
            (&[300, 5, 5], false, &[70]),
            (&[5, 64, 5], true, &[3]),
            (&[5, 65, 5], false, &[3]),
            (&[5, 300, 5], false, &[70]),
            (&[5, 5, 64], true, &[3]),
            (&[5, 5, 65], false, &[3]),
            (&[5, 5, 300], false, &[70]),
        ],
    },
    Filled {
        format: 1,
        head: b"polygon a 1 1\n",
        words: b"0 0 1 0 0 1",
        fill: b' ',
        cuts: 20,
        sizes: &[
            (&[8320], true, RING_PIECES),
            (&[8321], false, RING_PIECES),
            (&[8322], false, RING_PIECES),
            (&[20_000], false, RING_PIECES),
        ],
    },
    Filled {
        format: 1,
        head: b"raster a\n",
        words: b"",
        fill: b'7',
        cuts: usize::MAX,
        sizes: &[
            (&[4, 4], true, &[1]),
            (&[5, 4], false, &[1]),
            (&[8, 4], false, &[1]),
            (&[9, 4], false, &[1]),
            (&[4, 5], false, &[1]),
            (&[4, 8], false, &[1]),
            (&[4, 9], false, &[1]),
        ],
    },
    Filled {
        format: 2,
        head: b"raster a\n",
        words: b"",
        fill: b'7',
        cuts: usize::MAX,
        sizes: &[
            (&[8, 8], true, &[1]),
            (&[9, 8], false, &[1]),
            (&[10, 8], false, &[3]),
            (&[16, 8], false, &[9]),
            (&[200, 8], false, &[70]),
            (&[8, 9], false, &[1]),
            (&[8, 10], false, &[3]),
            (&[8, 16], false, &[9]),
            (&[8, 200], false, &[70]),
        ],
    },
];

/// Adds a line of this size to a text.
fn push_filled(text: &mut Vec<u8>, form: &Filled, size: usize) -> Option<()> {
    text.extend_from_slice(form.words).ok()?;
    for _ in form.words.len()..size {
        text.push(form.fill).ok()?;
    }
    text.push(b'\n').ok()
}

/// The text with further lines of these sizes.
fn filled_text(alloc: Global, form: &Filled, sizes: &[usize]) -> Option<Vec<u8>> {
    let mut text = Vec::from_slice(alloc, form.head).ok()?;
    for size in sizes {
        push_filled(&mut text, form, *size)?;
    }
    text.extend_from_slice(b"at a 1 0\n").ok()?;
    Some(text)
}

/// Whether a text in these pieces has two items: one whose further lines hold something, as is wanted, and a line.
fn is_held(alloc: Global, format: u8, pieces: &[&[u8]], wanted: bool) -> bool {
    match &items_in(alloc, LEVEL, format, pieces) {
        Ok(items) => match items.as_slice() {
            [item, Item::Line(_)] => holds_further(item) == Some(wanted),
            _ => false,
        }
        Err(_) => false,
    }
}

/// Whether a text is read so in pieces of this size.
fn is_held_in_pieces(alloc: Global, format: u8, text: &[u8], size: usize, wanted: bool) -> bool {
    match &text.chunks(size.max(1)).collect::<Vec<&[u8]>>(alloc) {
        Ok(pieces) => is_held(alloc, format, pieces, wanted),
        Err(_) => false,
    }
}

/// Whether a text is read so in two pieces, cut at each of so many of its last bytes.
fn is_held_cut(alloc: Global, format: u8, text: &[u8], cuts: usize, wanted: bool) -> bool {
    for cut in text.len().saturating_sub(cuts)..text.len() {
        let (first, second) = text.split_at(cut);
        if !is_held(alloc, format, &[first, second], wanted) {
            return false;
        }
    }
    true
}

/// Whether a text of this form is read so in all ways.
fn is_held_anyhow(alloc: Global, form: &Filled, text: &[u8], sizes: &Sizes) -> bool {
    let (_, wanted, pieces) = *sizes;
    for piece in pieces {
        if !is_held_in_pieces(alloc, form.format, text, *piece, wanted) {
            return false;
        }
    }
    is_held_cut(alloc, form.format, text, form.cuts, wanted)
}

/// The first sizes whose lines are read otherwise, or none.
fn first_other(alloc: Global, form: &Filled) -> Option<&'static [usize]> {
    for sizes in form.sizes {
        match &filled_text(alloc, form, sizes.0) {
            Some(text) => if !is_held_anyhow(alloc, form, text, sizes) {
                return Some(sizes.0);
            }
            None => return Some(sizes.0),
        }
    }
    None
}

#[test]
fn reads_further_lines_up_to_their_limits(rt: HostRuntime) {
    for form in &LIMITS {
        assert!(rt; first_other(rt.alloc(), form).is_none());
    }
}

/// Texts that begin with a raster.
static RASTERS: [Raster; 12] = [
    (0, 1, b"raster a\nFf\n", Some(&[0, 255])),
    (0, 1, b"raster a\nFf\nat a 0 0\n", Some(&[0, 255])),
    (0, 1, b"raster a\nFf\nat a 0 0\nat a 0 0\n", Some(&[0, 255])),
    (0, 2, b"raster a\n01fF\nat a 0 0\n", Some(&[1, 255])),
    (
        1,
        1,
        b"raster a\n00Ff\n0102\nat a 1 0\n# a remark\n",
        Some(&[0, 0, 0, 255, 0, 1, 0, 2]),
    ),
    (
        1,
        2,
        b"raster a\n00Ff0102\naBcDeF90\nat a 1 0\n",
        Some(&[0, 255, 1, 2, 171, 205, 239, 144]),
    ),
    (0, 2, b"raster a\n01f\nat a 0 0\n", None),
    (1, 1, b"raster a\n0001\n00g0\nat a 1 0\n", None),
    (1, 1, b"raster a\n00\n0001\nat a 1 0\n", None),
    (1, 2, b"raster a\n00Ff0102\n00Ff\nat a 1 0\n", None),
    (1, 1, b"raster a\n0001\n", None),
    (1, 1, OPEN, Some(&[0, 0, 0, 1, 0, 2, 0, 3])),
];

/// Whether the raster of a text that is cut in two at each byte is taken.
fn is_taken_anyhow(alloc: Global, raster: &Raster) -> bool {
    let (level, format, text, rows) = *raster;
    for cut in 0..=text.len() {
        if !is_taken(alloc, level, format, text.split_at(cut), rows) {
            return false;
        }
    }
    true
}

#[test]
fn takes_rasters(rt: HostRuntime) {
    for raster in &RASTERS {
        assert!(rt; is_taken_anyhow(rt.alloc(), raster));
    }
}

/// Texts of both formats that begin with a raster, and the pixel of the `at` behind it, if there is one.
static BEHIND: [(u8, &[u8], Option<Pixel>); 5] = [
    (
        1,
        b"raster a\n0001\n0203\nat a 1 0\n",
        Some(Pixel { x: 1, y: 0 }),
    ),
    (
        1,
        b"raster a\n0001\n0g03\n\n#\nat a 0 1",
        Some(Pixel { x: 0, y: 1 }),
    ),
    (
        2,
        b"raster a\n00010203\n02030405\nat a 1 1\nat a 0 0\n",
        Some(Pixel { x: 1, y: 1 }),
    ),
    (1, b"raster a\n0001\n0203\n", None),
    (1, b"raster a\n0001\nat a 1 0\n", None),
];

/// Whether the `at` of this pixel was taken, or no `at` where there is none.
fn is_at(taken: &Taken, wanted: Option<Pixel>) -> bool {
    match taken {
        Ok(Some(Ok(Command::At { at, .. }))) => wanted == Some(*at),
        Ok(_) => wanted.is_none(),
        Err(_) => false,
    }
}

/// Whether the second command of a text is the `at` of this pixel, or no `at` where there is none.
fn goes_on(lines: &mut Lines, format: u8, at: Option<Pixel>) -> bool {
    match &lines.take_command(format, false) {
        Ok(Some(_)) => is_at(&lines.take_command(format, true), at),
        _ => false,
    }
}

#[test]
fn goes_on_behind_a_raster(rt: HostRuntime) -> Result<(), Fail> {
    for (format, text, at) in &BEHIND {
        let mut lines = begun(rt.alloc(), LEVEL, text).ok_or("no reader")?;
        assert!(rt; goes_on(&mut lines, *format, *at));
    }
    Ok(())
}

//! The commands, and the words that they begin with.
ghost use Rattle.std.specs.Prelude.{◌≡◌, filter, find, IfSome};
ghost use Rattle.std.specs.Str.{bytes_eq};
ghost use Rattle.quilt_words.specs.Table.{spelling, first_is, all_words};

use crate::Pairs;
use quilt_types::{Colour, Name, Pixel, PointList, RingList, Seg, Text, Window};

/// The rings of further lines, where they are there and well formed.
pub type Rings = Option<RingList>;

/// A command of the language. Its pixels and windows need not lie in the map.
#[derive(Drop)]
pub enum Command {
    Region { a: Name, c: Colour },
    Points { p: Name, bucket: u8 },
    Lines { l: Name, t: u8 },
    Drop { a: Name },
    Copy { a: Name, b: Name },
    Layers,
    Blocks { a: Name },
    Records,
    Set { a: Name, at: Pixel, c: Colour },
    Rect { a: Name, w: Window, c: Colour },
    Raster { a: Name, rows: Option<Text> },
    At { a: Name, at: Pixel },
    Show { a: Name, w: Window },
    Leaves { a: Name },
    Union { a: Name, b: Name, c: Name },
    Inter { a: Name, b: Name, c: Name },
    Diff { a: Name, b: Name, c: Name },
    Recolour { a: Name, c: Name, pairs: Pairs },
    Window { a: Name, w: Window, c: Name },
    Shift { a: Name, dx: i32, dy: i32, c: Name },
    Buffer { a: Name, r: u16, c: Name },
    Area { a: Name, c: Colour },
    Perimeter { a: Name, c: Colour },
    Put { p: Name, at: Pixel, label: u32 },
    Del { p: Name, at: Pixel },
    Scatter { p: Name, points: Option<PointList> },
    Find { p: Name, at: Pixel },
    Within { p: Name, w: Window },
    Line { l: Name, id: u32, seg: Seg },
    Unline { l: Name, id: u32 },
    Cross { l: Name, w: Window },
    Clip { l: Name, w: Window },
    Nearest { l: Name, at: Pixel },
    Over { l: Name, a: Name },
    Edition,
    Publish,
    Upgrade,
    Revert,
    Polygon { a: Name, c: Colour, rings: Rings },
    Rank { l: Name, at: Pixel, k: u32 },
    Crossings { l: Name, m: Name },
}

/// A command's word.
#[derive(Clone, Copy)]
pub enum Word {
    Region,
    Lines,
    Drop,
    Copy,
    Layers,
    Blocks,
    Records,
    Set,
    Rect,
    Raster,
    At,
    Show,
    Leaves,
    Union,
    Inter,
    Diff,
    Window,
    Shift,
    Buffer,
    Area,
    Perimeter,
    Put,
    Del,
    Scatter,
    Find,
    Within,
    Line,
    Unline,
    Cross,
    Clip,
    Nearest,
    Over,
    Edition,
    Publish,
    Upgrade,
    Revert,
    Polygon,
    Rank,
    Crossings,
    Recolour,
    Points,
}

impl Word {
    /// How it is spelled.
    pub fn spelling(self) -> &'static [u8]
        ensures { result.now ≡ spelling self }
    {
        match self {
            Word::Region => b"region",
            Word::Lines => b"lines",
            Word::Drop => b"drop",
            Word::Copy => b"copy",
            Word::Layers => b"layers",
            Word::Blocks => b"blocks",
            Word::Records => b"records",
            Word::Set => b"set",
            Word::Rect => b"rect",
            Word::Raster => b"raster",
            Word::At => b"at",
            Word::Show => b"show",
            Word::Leaves => b"leaves",
            Word::Union => b"union",
            Word::Inter => b"inter",
            Word::Diff => b"diff",
            Word::Window => b"window",
            Word::Shift => b"shift",
            Word::Buffer => b"buffer",
            Word::Area => b"area",
            Word::Perimeter => b"perimeter",
            Word::Put => b"put",
            Word::Del => b"del",
            Word::Scatter => b"scatter",
            Word::Find => b"find",
            Word::Within => b"within",
            Word::Line => b"line",
            Word::Unline => b"unline",
            Word::Cross => b"cross",
            Word::Clip => b"clip",
            Word::Nearest => b"nearest",
            Word::Over => b"over",
            Word::Edition => b"edition",
            Word::Publish => b"publish",
            Word::Upgrade => b"upgrade",
            Word::Revert => b"revert",
            Word::Polygon => b"polygon",
            Word::Rank => b"rank",
            Word::Crossings => b"crossings",
            Word::Recolour => b"recolour",
            Word::Points => b"points",
        }
    }

    /// The word that the bytes spell.
    pub fn of(bytes: &[u8]) -> Option<Word>
        ensures found { result ≡ find (λ w. bytes_eq (spelling w) bytes.now) all_words }
        ensures spelled { IfSome result (λ w. bytes.now ≡ spelling w) }
    {
        match bytes {
            [first, ..] => look_among(begun_by(*first), bytes),
            [] => None,
        }
    }
}

/// The words that begin with this byte.
fn begun_by(first: u8) -> &'static [Word]
    ensures { result.now ≡ filter (λ w. first_is first (spelling w)) all_words }
{
    use Word::*;

    match first {
        b'a' => &[At, Area],
        b'b' => &[Blocks, Buffer],
        b'c' => &[Copy, Cross, Clip, Crossings],
        b'd' => &[Drop, Diff, Del],
        b'e' => &[Edition],
        b'f' => &[Find],
        b'i' => &[Inter],
        b'l' => &[Lines, Layers, Leaves, Line],
        b'n' => &[Nearest],
        b'o' => &[Over],
        b'p' => &[Perimeter, Put, Publish, Polygon, Points],
        b'r' => &[Region, Records, Rect, Raster, Revert, Rank, Recolour],
        b's' => &[Set, Show, Shift, Scatter],
        b'u' => &[Union, Unline, Upgrade],
        b'w' => &[Window, Within],
        _ => &[],
    }
}

/// The word among these that the bytes spell.
fn look_among(words: &[Word], bytes: &[u8]) -> Option<Word>
    ensures { result ≡ find (λ w. bytes_eq (spelling w) bytes.now) words.now }
{
    words.iter().copied().find(|w| w.spelling() == bytes)
}

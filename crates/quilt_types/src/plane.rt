/// A pixel of the square: x goes right and y goes down, from the upper left corner. Pixels are ordered row by row.
#[derive(Clone, Copy, Debug, PartialEq, Eq, PartialOrd, Ord)]
pub struct Pixel {
    pub y: u16,
    pub x: u16,
}

/// The pixels from (x, y) on, w of them in each of h rows.
#[derive(Clone, Copy, Debug, PartialEq, Eq)]
pub struct Window {
    pub x: u16,
    pub y: u16,
    pub w: u16,
    pub h: u16,
}

/// A segment from one pixel to another, which may be the same.
#[derive(Clone, Copy, Debug, PartialEq, Eq)]
pub struct Seg {
    pub x1: u16,
    pub y1: u16,
    pub x2: u16,
    pub y2: u16,
}

/// A square of pixels whose side is a power of two and whose upper left pixel stands at multiples of it (Samet 1990).
#[derive(Clone, Copy, Debug, PartialEq, Eq, PartialOrd, Ord)]
pub struct Block {
    pub y: u16,
    pub x: u16,
    pub side: u16,
}

/// A colour of a pixel, 0 to 255 in a map of format 1 and 0 to 65535 in one of format 2. 0 is the background.
#[derive(Clone, Copy, Debug, Default, PartialEq, Eq, PartialOrd, Ord)]
pub struct Colour(pub u16);

/// A corner of pixels: the upper left corner of the pixel (x, y). A square of side S has the corners from (0, 0) to (S, S).
#[derive(Clone, Copy, Debug, PartialEq, Eq)]
pub struct Corner {
    pub x: u16,
    pub y: u16,
}

/// A point of a point layer.
#[derive(Clone, Copy, Debug, PartialEq, Eq)]
pub struct Point {
    pub at: Pixel,
    pub label: u32,
}

/// What a layer is: a region, points in blocks that hold at most `bucket` of them, from 1 to 16, or lines with a splitting
/// threshold from 1 to 32.
#[derive(Clone, Copy, Debug, PartialEq, Eq)]
pub enum Kind {
    Region,
    Points { bucket: u8 },
    Lines { threshold: u8 },
}

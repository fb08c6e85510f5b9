ghost use Rattle.std.specs.Prelude.{◌≡◌, ◌<◌, ◌^◌, IfSome};
ghost use Rattle.quilt_lang.specs.Progress.{told_len};
ghost use Rattle.quilt_lang.specs.Shortening.{bounds_of};

use crate::asked::Asked;

/// Lines that are cut from the front of a text.
#[derive(Clone, Copy)]
pub struct CutLines {
    /// How many they are.
    pub count: usize,
    /// The number of their bytes, with the newlines.
    pub len: usize,
    /// How many of the bytes behind them are known to have no newline.
    pub scanned: usize,
}

impl CutLines {
    pub const NONE: CutLines = CutLines {
        count: 0,
        len: 0,
        scanned: 0,
    };
}

/// The line that begins an item, and how far the lines behind it are cut.
#[derive(Clone, Copy)]
pub struct Waiting {
    /// The number of the line's bytes.
    pub line: usize,
    /// What it asks for.
    pub what: Asked,
    /// The lines behind it that are cut so far.
    pub cut: CutLines,
}

/// How far the item at the front of a text is cut.
#[derive(Clone, Copy)]
pub enum Progress {
    /// Its line is not cut: so many bytes are known to have no newline.
    Begun(usize),
    /// Its line is cut, and further lines behind it.
    Waiting(Waiting),
}

impl Progress {
    /// Of how many bytes it tells.
    pub fn len(self) -> usize
        requires { told_len self < 2 ^ 64 }
        ensures { result ≡ told_len self }
    {
        match self {
            Progress::Begun(scanned) => scanned,
            Progress::Waiting(Waiting { line, cut, .. }) => line + 1 + cut.len + cut.scanned,
        }
    }

    /// The most bytes of a further line that waits, and how many are missing; none where a line begins an item.
    pub fn bounds(self, level: u8) -> Option<(usize, usize)>
        ensures is { result ≡ bounds_of level self }
        ensures low { IfSome result (λ b. b.0 < 2 ^ 63) }
    {
        match self {
            Progress::Begun(_) => None,
            Progress::Waiting(Waiting { what, cut, .. }) => what.bounds(level, cut.count),
        }
    }
}

ghost use Rattle.std.specs.Prelude.{◌≡◌, ◌^◌, ◌≤◌, ◌<◌};
ghost use Rattle.quilt_join.specs.Boxes.{span_at, IsBox, count as count_of, number_at};

use quilt_types::Seg;

/// A rectangle of blocks of one side, by the numbers of its first and last column and row.
#[derive(Clone, Copy)]
pub struct Span {
    pub left: u16,
    pub right: u16,
    pub top: u16,
    pub bottom: u16,
}

impl Span {
    /// The blocks of side `1 << shift` that the box round the segment touches.
    pub fn of(s: Seg, shift: u32) -> Span
        requires { shift < 16 }
        ensures value { result ≡ span_at (2 ^ shift) s }
        ensures order { IsBox result }
    {
        Span {
            left: s.x1.min(s.x2) >> shift,
            right: s.x1.max(s.x2) >> shift,
            top: s.y1.min(s.y2) >> shift,
            bottom: s.y1.max(s.y2) >> shift,
        }
    }

    /// How many blocks there are.
    pub fn count(self) -> usize
        requires { IsBox self }
        ensures { result ≡ count_of self }
    {
        let width = usize::from(self.right - self.left) + 1;
        let height = usize::from(self.bottom - self.top) + 1;
        width * height
    }

    /// The number of the block at this place, row by row, where a row of the square has this many blocks.
    pub fn number(self, columns: usize, place: usize) -> usize
        requires order { IsBox self }
        requires most { columns ≤ 4096 }
        requires place { place < count_of self }
        ensures { result ≡ number_at self columns place }
    {
        let width = usize::from(self.right - self.left) + 1;
        let row = usize::from(self.top) + place / width;
        row * columns + (usize::from(self.left) + place % width)
    }
}

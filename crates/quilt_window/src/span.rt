ghost use Rattle.std.specs.Prelude.{◌≡◌, ℕ, ◌+◌, ◌-◌, ◌<◌, ◌≤◌, true, false, None};
ghost use Rattle.quilt_types.specs.Plane.{side};
ghost use Rattle.quilt_types.specs.Algebra.{moved};
ghost use Rattle.quilt_window.specs.Copying.{FitsSide, source};

/// Places of one axis in a row that take what they have from as many places of another row.
#[derive(Clone, Copy, Debug, PartialEq, Eq)]
pub(crate) struct Span {
    pub from: u16,
    pub to: u16,
    pub length: u16,
}

impl Span {
    /// What is left of the side of a level when everything on it moves by a distance.
    pub fn moved(level: u8, by: i32) -> Span
        requires { level ≤ 12 }
        ensures inside { FitsSide level result }
        ensures value { (x : ℕ) → x < side level → source result x ≡ moved level x by }
    {
        let size = 1_u16 << level;
        let distance = by.unsigned_abs().min(u32::from(size)) as u16;
        let length = size - distance;
        if by < 0 {
            Span {
                from: distance,
                to: 0,
                length,
            }
        } else {
            Span {
                from: 0,
                to: distance,
                length,
            }
        }
    }

    /// Whether none of the places from this one on is in the span.
    pub fn misses(self, at: u16, length: u16) -> bool
        requires here { at + length ≤ 4096 }
        requires there { self.to + self.length ≤ 4096 }
        ensures none { result ≡ true → (x : ℕ) → at ≤ x → x < at + length → source self x ≡ None }
        ensures left { result ≡ false → self.to < at + length }
        ensures right { result ≡ false → at < self.to + self.length }
    {
        at + length <= self.to || self.to + self.length <= at
    }

    /// Whether all of the places from this one on are in the span.
    pub fn covers(self, at: u16, length: u16) -> bool
        requires here { at + length ≤ 4096 }
        requires there { self.to + self.length ≤ 4096 }
        ensures left { result ≡ true → self.to ≤ at }
        ensures right { result ≡ true → at + length ≤ self.to + self.length }
        ensures all { self.to ≤ at → at + length ≤ self.to + self.length → result ≡ true }
    {
        self.to <= at && at + length <= self.to + self.length
    }

    /// The place from which this one of the span takes what it has.
    pub fn source_of(self, at: u16) -> u16
        requires left { self.to ≤ at }
        requires right { at < self.to + self.length }
        requires there { self.from + self.length ≤ 4096 }
        ensures { result ≡ at - self.to + self.from }
    {
        at - self.to + self.from
    }
}

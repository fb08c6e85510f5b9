ghost use Rattle.std.specs.Prelude.{◌≡◌, ◌+◌, ◌*◌, ◌<◌, ◌≤◌};
ghost use Rattle.quilt_types.specs.Fractions.{is_less as fraction_is_less};
ghost use Rattle.quilt_clip.specs.Spans.{IsSpan, IsSpanCut, Above, Below, From, Until};

use std::marker::Model;

/// A fraction, in whatever terms.
#[derive(Clone, Copy)]
pub struct Ratio {
    pub num: u32,
    pub den: u32,
}

impl Model for Ratio {
    ghost use Rattle.quilt_types.specs.Fractions.{Fraction};

    ghost Value = { Fraction };

    ghost view = { λ f. record { num = f.num; den = f.den } };

    ghost inverse = { λ f. record { num = f.num; den = f.den } };
}

impl Ratio {
    fn is_less(self, other: Ratio) -> bool
        ensures { result ≡ fraction_is_less self other }
    {
        u64::from(self.num) * u64::from(other.den) < u64::from(other.num) * u64::from(self.den)
    }
}

/// A part of a segment, from one point to another: each as how far along the segment it is, from 0 to 1.
#[derive(Clone, Copy)]
pub struct Span {
    pub first: Ratio,
    pub last: Ratio,
}

impl Span {
    /// What of the span is at m / k or after.
    fn starting(self, m: u32, k: u32) -> Option<Span>
        requires span { IsSpan self }
        requires over { 0 < k }
        requires small { k < 65536 }
        ensures { IsSpanCut self (From m k) result }
    {
        let here = Ratio { num: m, den: k };
        if self.last.is_less(here) {
            None
        } else if self.first.is_less(here) {
            Some(Span {
                first: here,
                last: self.last,
            })
        } else {
            Some(self)
        }
    }

    /// What of the span is at m / k or before.
    fn ending(self, m: u32, k: u32) -> Option<Span>
        requires span { IsSpan self }
        requires over { 0 < k }
        requires small { k < 65536 }
        ensures { IsSpanCut self (Until m k) result }
    {
        let here = Ratio { num: m, den: k };
        if here.is_less(self.first) {
            None
        } else if here.is_less(self.last) {
            Some(Span {
                first: self.first,
                last: here,
            })
        } else {
            Some(self)
        }
    }

    /// What of the span of the segment from a to b, in one direction, is at c or above.
    pub fn above(self, a: u16, b: u16, c: u32) -> Option<Span>
        requires { IsSpan self }
        ensures { IsSpanCut self (Above a b c) result }
    {
        let (a, b) = (a as u32, b as u32);
        if a < b && a < c {
            self.starting(c - a, b - a)
        } else if b < a && c <= a {
            self.ending(a - c, a - b)
        } else if c <= a {
            Some(self)
        } else {
            None
        }
    }

    /// What of the span of the segment from a to b, in one direction, is at c or below.
    pub fn below(self, a: u16, b: u16, c: u32) -> Option<Span>
        requires { IsSpan self }
        ensures { IsSpanCut self (Below a b c) result }
    {
        let (a, b) = (a as u32, b as u32);
        if a < b && a <= c {
            self.ending(c - a, b - a)
        } else if b < a && c < a {
            self.starting(a - c, a - b)
        } else if a <= c {
            Some(self)
        } else {
            None
        }
    }
}

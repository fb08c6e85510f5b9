ghost use Rattle.std.specs.Prelude.{◌≡◌, ◌*◌, ◌<◌, ◌↔◌, true};
ghost use Rattle.std.specs.Ordering.{nat_cmp};
ghost use Rattle.std.specs.Int.{IsGcd};
ghost use Rattle.quilt_types.specs.Fractions.{lowest, is_less, IsLowest};
ghost use Rattle.quilt_clip.specs.Fractions.{IsReduced};

use std::cmp::Ordering;
use std::marker::Model;

/// A fraction in lowest terms, 0 or more: its denominator is at least 1, and 0 is `0/1`.
#[derive(Clone, Copy, Debug, PartialEq, Eq)]
pub struct Frac {
    num: u64,
    den: u64,
}

impl Model for Frac {
    ghost use Rattle.quilt_types.specs.Fractions.{Fraction};
    ghost use Rattle.quilt_clip.specs.Fractions.{IsReduced};

    ghost Value = { Fraction };

    ghost view = { λ f. record { num = f.num; den = f.den } };

    ghost invariant = { λ f. IsReduced (record { num = f.num; den = f.den }) };

    ghost inverse = { λ f. record { num = f.num; den = f.den } };
}

/// The greatest common divisor, by Euclid's algorithm.
fn gcd(a: u64, b: u64) -> u64
    ensures { IsGcd a b result }
{
    let mut x = a;
    let mut y = b;
    while y != 0 {
        let rest = x % y;
        x = y;
        y = rest;
    }
    x
}

impl Frac {
    /// The fraction `num / den` in lowest terms.
    pub fn of(num: u64, den: u64) -> Frac
        requires { 0 < den }
        ensures value { result ≡ lowest num den }
        ensures lowest { IsLowest num den result }
    {
        let common = gcd(num, den);
        Frac {
            num: num / common,
            den: den / common,
        }
    }

    /// The numerator.
    pub fn num(&self) -> u64
        ensures { result ≡ self.now.num }
    {
        self.num
    }

    /// The denominator, at least 1.
    pub fn den(&self) -> u64
        ensures value { result ≡ self.now.den }
        ensures reduced { IsReduced self.now }
    {
        self.den
    }
}

/// Which of two fractions is the greater, exactly: by their cross products, which fit 128 bits.
pub fn cmp(a: Frac, b: Frac) -> Ordering
    ensures value { result ≡ nat_cmp (a.num * b.den) (b.num * a.den) }
    ensures less { (result ≡ Ordering.Less) ↔ (is_less a b ≡ true) }
    ensures equal { (result ≡ Ordering.Equal) ↔ (a ≡ b) }
{
    let left = u128::from(a.num) * u128::from(b.den);
    let right = u128::from(b.num) * u128::from(a.den);
    left.cmp(&right)
}

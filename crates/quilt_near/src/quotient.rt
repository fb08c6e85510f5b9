ghost use Rattle.std.specs.Prelude.{◌≡◌, ◌*◌, ◌<◌, nat_lt};
ghost use Rattle.std.specs.Ordering.{nat_cmp, eq_by_cmp, as_partial_cmp};
ghost use Rattle.std.specs.Cmp.{partial_equiv_from_equiv, eq_by_cmp_equiv, partial_order_from_total};
ghost use Rattle.std.proofs.Common.{refl};
ghost use Rattle.quilt_types.specs.Fractions.{lowest};
ghost use Rattle.quilt_clip.specs.Compared.{compared};
ghost use Rattle.quilt_clip.proofs.Compared.{compared_total};

use quilt_clip::Frac;
use std::cmp::Ordering;
use std::marker::Model;

/// A fraction, 0 or more, in whatever terms: its denominator is at least 1. It stands for the fraction in lowest terms.
#[derive(Debug, Drop)]
pub struct Quotient {
    num: u64,
    den: u64,
}

impl Model for Quotient {
    ghost use Rattle.std.specs.Prelude.{◌<◌};
    ghost use Rattle.quilt_types.specs.Fractions.{Fraction, lowest};

    ghost Value = { Fraction };

    ghost view = { λ q. lowest q.num q.den };

    ghost invariant = { λ q. 0 < q.den };
}

impl Quotient {
    /// The fraction `num / den`.
    pub fn of(num: u64, den: u64) -> Quotient
        requires { 0 < den }
        ensures { result ≡ lowest num den }
    {
        Quotient { num, den }
    }

    /// The same in lowest terms.
    pub fn reduced(&self) -> Frac
        ensures { result ≡ self.now }
    {
        Frac::of(self.num, self.den)
    }

    /// Whether a whole number is greater.
    pub fn is_below(&self, whole: u64) -> bool
        ensures { result ≡ nat_lt self.now.num (whole * self.now.den) }
    {
        u128::from(self.num) < u128::from(whole) * u128::from(self.den)
    }
}

impl PartialEq for Quotient {
    ghost eq = { eq_by_cmp compared };

    ghost laws = { partial_equiv_from_equiv (eq_by_cmp_equiv compared_total) };

    fn eq(&self, other: &Quotient) -> bool {
        self.cmp(other).is_eq()
    }
}

impl Eq for Quotient {
    ghost laws = { eq_by_cmp_equiv compared_total };
}

impl PartialOrd for Quotient {
    ghost partial_cmp = { as_partial_cmp compared };

    ghost laws = { partial_order_from_total compared_total };

    fn partial_cmp(&self, other: &Quotient) -> Option<Ordering> {
        Some(self.cmp(other))
    }
}

impl Ord for Quotient {
    ghost cmp = { compared };

    ghost total = { compared_total };

    ghost matches_partial_cmp = { λ a b. refl };

    ghost matches_eq = { λ a b. refl };

    /// By their cross products, which fit 128 bits.
    fn cmp(&self, other: &Quotient) -> Ordering
        ensures value { result ≡ compared self.now other.now }
        ensures cross { result ≡ nat_cmp (self.now.num * other.now.den) (other.now.num * self.now.den) }
    {
        let left = u128::from(self.num) * u128::from(other.den);
        let right = u128::from(other.num) * u128::from(self.den);
        left.cmp(&right)
    }
}

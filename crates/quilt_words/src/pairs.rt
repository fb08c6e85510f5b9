ghost use Rattle.std.specs.Prelude.{◌≡◌, ◌<◌, ◌≤◌, [], ◌∷◌, ◌++◌, length};

use arrayvec::ArrayVec;
use quilt_types::Colour;
use std::marker::Model;

/// From 1 to 16 pairs of colours: an old one, and the new one that it becomes.
#[derive(Drop)]
pub struct Pairs {
    pairs: ArrayVec<(Colour, Colour), 16>,
}

impl Model for Pairs {
    ghost use Rattle.std.specs.Prelude.{List, ◌≤◌, length};
    ghost use Rattle.quilt_types.specs.declared.plane.Colour.{Colour};

    ghost Value = { List (Colour × Colour) };

    ghost view = { λ n. n.pairs.items };

    ghost invariant = { λ n. (1 ≤ length n.pairs.items) × (length n.pairs.items ≤ 16) };
}

impl Pairs {
    /// One pair.
    pub fn of(o: Colour, n: Colour) -> Pairs
        ensures { result ≡ (o, n) ∷ [] }
    {
        let mut pairs = ArrayVec::new();
        pairs.push((o, n));
        Pairs { pairs }
    }

    /// Adds a pair at the end.
    pub fn push(&mut self, o: Colour, n: Colour)
        requires { length self.old < 16 }
        ensures { self.new ≡ self.old ++ (o, n) ∷ [] }
    {
        self.pairs.push((o, n));
    }

    /// The pairs.
    pub fn items(&self) -> &[(Colour, Colour)]
        ensures pairs { result.now ≡ self.now }
        ensures some { 1 ≤ length self.now }
        ensures few { length self.now ≤ 16 }
    {
        &self.pairs
    }
}

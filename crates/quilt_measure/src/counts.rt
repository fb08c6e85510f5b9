ghost use Rattle.std.specs.Prelude.{◌≡◌, ℕ, ◌≤◌, ◌==◌, slice_index, count_by};
ghost use Rattle.quilt_types.specs.Plane.{side as side_of};
ghost use Rattle.quilt_loc.specs.Codes.{IsSide};
ghost use Rattle.quilt_types.specs.Algebra.{area};
ghost use Rattle.quilt_types.specs.Quadtrees.{leaves as leaves_of};

use quilt_blocks::LeafList;
use quilt_types::Colour;

/// How many pixels have the colour. It goes over the leaves once, not over the pixels.
pub fn area(a: &LeafList, c: Colour) -> u64
    ensures { result ≡ area a.now.grid c.0 }
{
    let mut sum = 0;
    for i in 0..a.len() {
        let leaf = a.leaf(i);
        if leaf.colour == c {
            sum += u64::from(leaf.block.side) * u64::from(leaf.block.side);
        }
    }
    sum
}

/// How many leaves have the side 2 ^ k, for each k from 0 to 12.
pub fn histogram(a: &LeafList) -> [u32; 13]
    ensures { (k : ℕ) → k ≤ 12 → slice_index result k ≡ count_by (λ e. e.0.side == side_of k) (leaves_of a.now.level a.now.grid) }
{
    let mut counts = [0; 13];
    for i in 0..a.len() {
        counts[exponent_of(a.leaf(i).block.side)] += 1;
    }
    counts
}

/// The k where the side is 2 ^ k, from 0 to 12.
pub fn exponent_of(side: u16) -> usize
    requires { IsSide side }
    ensures most { result ≤ 12 }
    ensures value { side ≡ side_of result }
{
    side.trailing_zeros() as usize
}

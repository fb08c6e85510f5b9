ghost use Rattle.std.specs.Prelude.{◌≡◌, ℕ, ◌≤◌, [], ◌∷◌, true, false};
ghost use Rattle.quilt_types.specs.declared.plane.Block.{Block as BlockValue};
ghost use Rattle.quilt_types.specs.Plane.{IsBlock};
ghost use Rattle.quilt_blocks.specs.Cutting.{leaf_pair};
ghost use Rattle.quilt_audit.specs.Regions.{AreSiblings};

use quilt_blocks::Leaf;
use quilt_loc::{parent, quarters};
use quilt_types::{Block, Colour};

/// Whether the leaf is this block with this colour.
fn is(leaf: Leaf, block: Block, colour: Colour) -> bool
    ensures yes { result ≡ true → leaf_pair leaf ≡ (block, colour.0) }
    ensures no { leaf_pair leaf ≡ (block, colour.0) → result ≡ true }
{
    leaf.block == block && leaf.colour == colour
}

/// Whether the two leaves are these blocks with this colour.
fn are(a: Leaf, first: Block, b: Leaf, second: Block, colour: Colour) -> bool
    ensures yes { result ≡ true → (leaf_pair a ≡ (first, colour.0)) × (leaf_pair b ≡ (second, colour.0)) }
    ensures no { leaf_pair a ≡ (first, colour.0) → leaf_pair b ≡ (second, colour.0) → result ≡ true }
{
    is(a, first, colour) && is(b, second, colour)
}

/// Whether the two leaves have one colour and blocks of one side.
fn is_alike(a: Leaf, b: Leaf) -> bool
    ensures { result ≡ false → a.colour.0 ≡ b.colour.0 → a.block.side ≡ b.block.side → ⊥ }
{
    a.colour == b.colour && a.block.side == b.block.side
}

/// Whether the leaves are the four quarters of a block, in the order of their codes, and have one colour.
pub fn are_siblings(a: Leaf, b: Leaf, c: Leaf, d: Leaf, level: u8) -> bool
    requires level { (1 ≤ level) × (level ≤ 12) }
    requires block { IsBlock level d.block }
    ensures yes { result ≡ true → (whole : BlockValue × ℕ) × AreSiblings level (a ∷ b ∷ c ∷ d ∷ []) whole }
    ensures no { result ≡ false → (whole : BlockValue × ℕ) → AreSiblings level (a ∷ b ∷ c ∷ d ∷ []) whole → ⊥ }
{
    if !is_alike(c, d) {
        return false;
    }
    let Some(block) = parent(d.block, level) else {
        return false;
    };
    let [p, q, r, s] = quarters(block);
    are(a, p, b, q, d.colour) && are(c, r, d, s, d.colour)
}

ghost use Rattle.std.specs.Prelude.{◌≡◌, ℕ, ◌+◌, ◌≤◌, ◌++◌, ◌∷◌, List, length, drop, map, true, false, IfOk, IfSome, IfNone};
ghost use Rattle.quilt_types.specs.Plane.{IsBlock, side as side_of};
ghost use Rattle.quilt_line_audit.specs.declared.pair.Pair.{Pair as AnyPair};
ghost use Rattle.quilt_line_audit.specs.Pairs.{near as near_of, pair_on, pairs_on, BeginsWithPairs};

use crate::contact::{is_met, meeting};
use crate::pair::Pair;
use quilt_loc::quarters;
use quilt_types::{Block, Seg};
use std::alloc::{AllocError, Global};

/// The place behind the pairs of a square, where those from place `at` on begin with them: the square is one block, or its four
/// quarters come one behind the other.
pub(crate) fn end_in(
    alloc: Global,
    pairs: &[Pair],
    at: usize,
    segs: &[(u32, Seg)],
    square: Block,
) -> Result<Option<usize>, AllocError>
    requires block { IsBlock 12 square }
    requires at { at ≤ length pairs.now }
    ensures within { IfOk result (λ o. IfSome o (λ end. end ≤ length pairs.now)) }
    ensures some { IfOk result (λ o. IfSome o (λ end. (k : ℕ) → square.side ≡ side_of k → BeginsWithPairs segs.now k square (drop at pairs.now) (drop end pairs.now))) }
    ensures none { IfOk result (λ o. IfNone o ((k : ℕ) (rest : List AnyPair) → square.side ≡ side_of k
        → BeginsWithPairs segs.now k square (drop at pairs.now) rest → ⊥)) }
{
    if square.side == 1 || is_on(pairs, at, square) {
        return Ok(end_on(pairs, at, segs, square));
    }
    let near = meeting(alloc, segs, square)?;
    let mut end = at;
    for quarter in quarters(square) {
        match end_in(alloc, pairs, end, &near, quarter)? {
            None => return Ok(None),
            Some(next) => end = next,
        }
    }
    Ok(Some(end))
}

/// The place behind the pairs of a block, where those from place `at` on begin with them: one for each of the segments that meet it,
/// or that of none.
fn end_on(pairs: &[Pair], at: usize, segs: &[(u32, Seg)], block: Block) -> Option<usize>
    requires block { IsBlock 12 block }
    requires at { at ≤ length pairs.now }
    ensures within { IfSome result (λ end. end ≤ length pairs.now) }
    ensures some { IfSome result (λ end. drop at pairs.now ≡ pairs_on segs.now block ++ drop end pairs.now) }
    ensures none { IfNone result ((rest : List AnyPair) → drop at pairs.now ≡ pairs_on segs.now block ++ rest → ⊥) }
{
    match end_of_met(pairs, at, segs, block) {
        None => None,
        Some(end) => if end == at {
            end_behind(pairs, at, Pair { block, id: None })
        } else {
            Some(end)
        },
    }
}

/// The place behind one pair of the block for each of the segments that meet it, where those from place `at` on begin with them.
fn end_of_met(pairs: &[Pair], at: usize, segs: &[(u32, Seg)], block: Block) -> Option<usize>
    requires block { IsBlock 12 block }
    requires at { at ≤ length pairs.now }
    ensures within { IfSome result (λ end. end ≤ length pairs.now) }
    ensures some { IfSome result (λ end. drop at pairs.now ≡ map (pair_on block) (near_of block segs.now) ++ drop end pairs.now) }
    ensures count { IfSome result (λ end. end ≡ at + length (near_of block segs.now)) }
    ensures none { IfNone result ((rest : List AnyPair) → drop at pairs.now ≡ pairs_on segs.now block ++ rest → ⊥) }
{
    let mut end = at;
    for (id, s) in segs {
        if is_met(*s, block) {
            let id = Some(*id);
            match end_behind(pairs, end, Pair { block, id }) {
                None => return None,
                Some(next) => end = next,
            }
        }
    }
    Some(end)
}

/// The next place, where this pair stands at place `at`.
fn end_behind(pairs: &[Pair], at: usize, pair: Pair) -> Option<usize>
    ensures next { IfSome result (λ end. end ≡ at + 1) }
    ensures within { IfSome result (λ end. end ≤ length pairs.now) }
    ensures some { IfSome result (λ end. drop at pairs.now ≡ pair ∷ drop end pairs.now) }
    ensures none { IfNone result ((rest : List AnyPair) → drop at pairs.now ≡ pair ∷ rest → ⊥) }
{
    if at < pairs.len() && is_same(pairs[at], pair) {
        Some(at + 1)
    } else {
        None
    }
}

/// Whether the pair at place `at` is of this block.
fn is_on(pairs: &[Pair], at: usize, block: Block) -> bool
    ensures yes { result ≡ true → (p : AnyPair) × (rest : List AnyPair) × (drop at pairs.now ≡ p ∷ rest) × (p.block ≡ block) }
    ensures no { result ≡ false → (p : AnyPair) (rest : List AnyPair) → drop at pairs.now ≡ p ∷ rest → p.block ≡ block → ⊥ }
{
    at < pairs.len() && pairs[at].block == block
}

/// Whether the pairs are one.
fn is_same(a: Pair, b: Pair) -> bool
    ensures yes { result ≡ true → a ≡ b }
    ensures no { result ≡ false → a ≡ b → ⊥ }
{
    a == b
}

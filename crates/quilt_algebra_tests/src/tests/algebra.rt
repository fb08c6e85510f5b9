use crate::comparing::{is_same, list_of, overlay_of};
use quilt_overlay::{Op, recolour};
use quilt_plain::{Dice, drawn, drawn_pairs, plain_overlay, plain_recolour};
use std::alloc::Global;

/// The ways to lay one map over another.
static OPS: [Op; 3] = [Op::Union, Op::Inter, Op::Diff];

/// Whether two drawn maps are laid over each other in each way as they should.
fn are_laid_over(alloc: Global, dice: &mut Dice, level: u8) -> Option<bool> {
    let side = 1_u32 << level.min(12);
    let first = drawn(alloc, dice, side).ok()?;
    let second = drawn(alloc, dice, side).ok()?;
    for op in &OPS {
        let made = overlay_of(alloc, *op, level, (&first, &second));
        if !is_same(
            alloc,
            level,
            made,
            plain_overlay(alloc, *op, &first, &second),
        ) {
            return Some(false);
        }
    }
    Some(true)
}

/// 200 pairs of maps of levels 1 to 5, laid over each other in each way.
#[test]
fn overlays_of_drawn_maps(rt: HostRuntime) {
    let mut dice = Dice::new(1);
    for turn in 0..200_u8 {
        assert!(rt; are_laid_over(rt.alloc(), &mut dice, turn % 5 + 1) == Some(true));
    }
}

/// Whether a drawn map with other colours, by drawn pairs, is as it should.
fn is_recoloured(alloc: Global, dice: &mut Dice, level: u8) -> Option<bool> {
    let colours = drawn(alloc, dice, 1 << level.min(12)).ok()?;
    let pairs = drawn_pairs(alloc, dice).ok()?;
    let list = list_of(alloc, level, &colours)?;
    let made = recolour(alloc, &list, &pairs).ok();
    Some(is_same(alloc, level, made, plain_recolour(alloc, &colours, &pairs)))
}

/// 200 maps of levels 1 to 5, each recoloured by up to 16 pairs.
#[test]
fn other_colours_of_drawn_maps(rt: HostRuntime) {
    let mut dice = Dice::new(2);
    for turn in 0..200_u8 {
        assert!(rt; is_recoloured(rt.alloc(), &mut dice, turn % 5 + 1) == Some(true));
    }
}

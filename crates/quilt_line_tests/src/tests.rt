ghost use Rattle.std.specs.Prelude.{◌≤◌};

use crate::drawing::{coordinate, draw, drawn_seg};
use crate::plain::touches;
use crate::trial::Trial;
use quilt_clip::meets;
use quilt_types::Block;
use std::alloc::Global;
use std::collections::BTreeMap;
use std::process::Abort;
use std::test::Fail;

/// So many rounds over one layer: the segment of an id that is there goes, and one comes under another id. In the first rounds
/// twice as many come as a block may hold.
fn mixed_edits(rt: &impl Abort, alloc: Global, level: u8, t: u8, rounds: u32) -> Result<(), Fail>
    requires level { (1 ≤ level) × (level ≤ 12) }
    requires threshold { (1 ≤ t) × (t ≤ 32) }
{
    let mut trial = Trial::new(rt, alloc, level, t)?;
    let mut seed = u64::from(level)
        .wrapping_mul(1000)
        .wrapping_add(u64::from(t));
    let many = 2 * u32::from(t);
    for round in 0..rounds {
        let any = draw(&mut seed, many + 8);
        let id = if round < many { round } else { any };
        let s = drawn_seg(&mut seed, 1 << level, &trial.plain.segs);
        trial.look(rt, id)?;
        if trial.plain.segs.contains_key(&id) {
            trial = trial.add(rt, alloc, id, s)?;
            trial = trial.remove(rt, alloc, id)?;
        } else {
            trial = trial.remove(rt, alloc, id)?;
            trial = trial.add(rt, alloc, id, s)?;
        }
        if round % 4 == 0 {
            trial = trial.compare(rt, alloc)?;
        }
    }
    let _ = trial.compare(rt, alloc)?;
    Ok(())
}

/// Rounds over a layer at each threshold, more where it is higher: 3,072 in all.
fn each_threshold(rt: &impl Abort, alloc: Global, level: u8) -> Result<(), Fail>
    requires { (1 ≤ level) × (level ≤ 12) }
{
    for t in 1..=32_u8 {
        mixed_edits(rt, alloc, level, t, 30 + 4 * u32::from(t))?;
    }
    Ok(())
}

#[test]
fn edits_of_squares_of_levels_1_to_3(rt: HostRuntime) -> Result<(), Fail> {
    for level in 1..=3_u8 {
        each_threshold(&rt, rt.alloc(), level)?;
    }
    Ok(())
}

#[test]
fn edits_of_squares_of_levels_4_and_5(rt: HostRuntime) -> Result<(), Fail> {
    for level in 4..=5_u8 {
        each_threshold(&rt, rt.alloc(), level)?;
    }
    Ok(())
}

#[test]
fn edits_of_squares_of_level_6(rt: HostRuntime) -> Result<(), Fail> {
    each_threshold(&rt, rt.alloc(), 6)
}

#[test]
fn edits_at_low_thresholds(rt: HostRuntime) -> Result<(), Fail> {
    for level in 2..=6_u8 {
        for t in [1, 2, 3] {
            mixed_edits(&rt, rt.alloc(), level, t, 200)?;
        }
    }
    Ok(())
}

#[test]
fn segments_that_meet_blocks(rt: HostRuntime) -> Result<(), Fail> {
    let none = BTreeMap::new(rt.alloc());
    let mut seed = 1986_u64;
    let mut met = 0_u32;
    for round in 0..20000_u32 {
        let s = drawn_seg(&mut seed, 64, &none);
        let side = 1_u16 << (round % 7);
        let mask = 63 & !side.wrapping_sub(1);
        let b = Block {
            x: coordinate(&mut seed, 64) & mask,
            y: coordinate(&mut seed, 64) & mask,
            side,
        };
        assert!(rt; meets(s, b) == touches(s, b));
        if touches(s, b) {
            met = met.wrapping_add(1);
        }
    }
    assert!(rt; met >= 2000);
    assert!(rt; met <= 18000);
    Ok(())
}

//! Drawn texts of map algebra.
use crate::grids::drawn_grids;
use quilt_scripts::{Run, file_of};
use std::alloc::Global;
use std::process::Abort;
use std::thread::Threads;

/// Runs a drawn text over the file that `new m 300 LEVEL` makes.
fn tries<R: Threads + Sync + Abort>(rt: &R, alloc: Global, level: u32, seed: u64) {
    let turns = drawn_grids(alloc, 1_u32.wrapping_shl(level), seed).expect(rt, "a text");
    let name = format!(in alloc; "{level}").expect(rt, "a number");
    let file = file_of(rt, alloc, "300", &name).expect(rt, "a file");
    Run::text(&turns.input)
        .answers(rt, alloc, file, &turns.output, 0)
        .expect(rt, "the replies of plain grids");
}

/// Ten texts at each level up to 5.
#[test]
fn drawn_maps_are_answered_as_plain_grids(rt: HostRuntime) {
    for seed in 0..50_u64 {
        tries(&rt, rt.alloc(), (seed % 5) as u32 + 1, seed);
    }
}

#[test]
fn a_drawn_map_of_level_6_too(rt: HostRuntime) {
    tries(&rt, rt.alloc(), 6, 101);
}

#[test]
fn a_drawn_map_of_level_7_too(rt: HostRuntime) {
    tries(&rt, rt.alloc(), 7, 102);
}

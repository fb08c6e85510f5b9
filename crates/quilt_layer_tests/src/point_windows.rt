use crate::drawing::small_window;
use crate::trial::Trial;
use quilt_types::{Point, PointList, Stop};
use std::alloc::Global;

/// Points with numbers as labels at drawn pixels of the trial: at 400, but for those that were drawn before. The trial has them too.
fn drawn(alloc: Global, trial: &mut Trial) -> Option<PointList> {
    let mut list = PointList::new(alloc);
    for label in 0..400_u32 {
        let p = Point {
            at: trial.pixel(),
            label,
        };
        if trial.plain.put(p).ok()? {
            list.push(p).ok()?;
        }
    }
    Some(list)
}

/// Whether 32 drawn windows of both have the same points: small ones at the edges, in the corners and anywhere, and large ones.
fn reads_windows(alloc: Global, trial: &mut Trial) -> Result<bool, Stop> {
    let mut state = trial.dice.below(u32::MAX);
    for _ in 0..16 {
        let small = small_window(&mut state, trial.plain.side());
        let large = trial.window();
        if !trial.reads(alloc, small)? || !trial.reads(alloc, large)? {
            return Ok(false);
        }
    }
    Ok(true)
}

/// Compares drawn windows of a layer of drawn points with the plain points.
fn tries_layer(alloc: Global, level: u8, bucket: u8) -> Result<bool, Stop> {
    let seed = u64::from(level) << 8 | u64::from(bucket);
    let mut trial = Trial::new(alloc, level, bucket, seed)?;
    let list = drawn(alloc, &mut trial).ok_or(Stop::Memory)?;
    Ok(trial.scatter(alloc, &list, true)? && reads_windows(alloc, &mut trial)?)
}

/// What is in a window of a layer is what is in it of a plain list, at each level.
#[test]
fn windows_of_points_at_each_level(rt: HostRuntime) {
    for level in 1..=12_u8 {
        for bucket in [1, 2, 5, 16] {
            assert!(rt;
                tries_layer(rt.alloc(), level, bucket) == Ok(true),
                "level {level}, {bucket} points a block"
            );
        }
    }
}

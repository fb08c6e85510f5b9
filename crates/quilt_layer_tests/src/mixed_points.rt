use crate::trial::Trial;
use quilt_types::{Point, PointList, Stop};
use std::alloc::Global;

/// A drawn point.
fn point(trial: &mut Trial) -> Point {
    Point {
        at: trial.pixel(),
        label: trial.dice.below(u32::MAX),
    }
}

/// Two to six drawn points.
fn points(alloc: Global, trial: &mut Trial) -> Option<PointList> {
    let mut list = PointList::new(alloc);
    for _ in 0..trial.dice.below(5).wrapping_add(2) {
        list.push(point(trial)).ok()?;
    }
    Some(list)
}

/// Puts two to six points into both at once, unless two share a pixel or a point is at one of them.
fn scatter(alloc: Global, trial: &mut Trial) -> Result<bool, Stop> {
    let list = points(alloc, trial).ok_or(Stop::Memory)?;
    match trial.plain.put_all(alloc, list.items()) {
        Err(_) => Err(Stop::Memory),
        Ok(are_new) => trial.scatter(alloc, &list, are_new),
    }
}

/// Takes a point away, or none where none is at a drawn pixel.
fn del(alloc: Global, trial: &mut Trial, anywhere: bool) -> Result<bool, Stop> {
    let any = trial.pixel();
    let at = if anywhere {
        any
    } else {
        trial.taken().unwrap_or(any)
    };
    trial.del(alloc, at)
}

/// One drawn edit, which more often brings a point where the layer is to grow.
fn edit(alloc: Global, trial: &mut Trial, grows: bool) -> Result<bool, Stop> {
    let kind = trial.dice.below(8);
    if kind == 7 && grows {
        return scatter(alloc, trial);
    }
    if (kind < 5) == grows {
        let p = point(trial);
        return trial.put(alloc, p);
    }
    del(alloc, trial, kind == 6)
}

/// Compares the points at a drawn pixel and in a drawn window.
fn look(alloc: Global, trial: &mut Trial) -> Result<bool, Stop> {
    let at = trial.pixel();
    let finds = trial.finds(at);
    let w = trial.window();
    Ok(finds && trial.reads(alloc, w)?)
}

/// Drawn edits of one layer, in turn of one that grows and one that shrinks.
fn mixed_edits(alloc: Global, level: u8, bucket: u8) -> Result<bool, Stop> {
    let seed = u64::from(level)
        .wrapping_mul(100)
        .wrapping_add(u64::from(bucket));
    let mut trial = Trial::new(alloc, level, bucket, seed)?;
    for step in 0..720_u32 {
        if !edit(alloc, &mut trial, step % 200 < 120)? || !look(alloc, &mut trial)? {
            return Ok(false);
        }
        if step % 16 == 0 && !trial.compares(alloc)? {
            return Ok(false);
        }
    }
    trial.compares(alloc)
}

/// Drawn edits of layers of these levels, at each of some capacities.
fn at_levels(alloc: Global, levels: &[u8]) -> Result<bool, Stop> {
    for level in levels {
        for bucket in &[1, 2, 5, 16] {
            if !mixed_edits(alloc, *level, *bucket)? {
                return Ok(false);
            }
        }
    }
    Ok(true)
}

#[test]
fn mixed_edits_at_levels_1_to_4(rt: HostRuntime) {
    assert!(rt; at_levels(rt.alloc(), &[1, 2, 3, 4]) == Ok(true));
}

#[test]
fn mixed_edits_at_levels_5_to_8(rt: HostRuntime) {
    assert!(rt; at_levels(rt.alloc(), &[5, 6, 7, 8]) == Ok(true));
}

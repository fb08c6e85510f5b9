use crate::drawing::{drawn_segs, is_layer, points_at_zero};
use crate::plain::all_pairs;
use quilt_join::crossings;
use quilt_types::Seg;
use std::test::Fail;

/// A segment from (x1, y1) to (x2, y2).
fn seg(x1: u16, y1: u16, x2: u16, y2: u16) -> Seg {
    Seg { x1, y1, x2, y2 }
}

#[test]
fn worked_rows(rt: HostRuntime) -> Result<(), Fail> {
    let l = [
        (1, seg(0, 0, 7, 7)),
        (2, seg(0, 7, 3, 7)),
        (3, seg(4, 0, 6, 0)),
    ];
    let m = [(5, seg(0, 7, 7, 0)), (6, seg(3, 7, 7, 7))];
    assert!(rt; is_layer(3, &l));
    assert!(rt; is_layer(3, &m));
    let Some(both) = crossings(&rt, rt.alloc(), 3, &l, &m)? else {
        return Err(Fail::from("a list"));
    };
    assert!(rt; both.items() == [(1, 5), (1, 6), (2, 5), (2, 6)].as_slice());
    let Some(own) = crossings(&rt, rt.alloc(), 3, &l, &l)? else {
        return Err(Fail::from("a list"));
    };
    assert!(rt; own.items() == [(1, 1), (2, 2), (3, 3)].as_slice());
    Ok(())
}

#[test]
fn the_most_pairs(rt: HostRuntime) -> Result<(), Fail> {
    let thousand = points_at_zero(rt.alloc(), 1000)?;
    let one_more = points_at_zero(rt.alloc(), 1001)?;
    assert!(rt; is_layer(1, thousand.items()));
    assert!(rt; is_layer(1, one_more.items()));
    let Some(list) = crossings(&rt, rt.alloc(), 1, thousand.items(), thousand.items())? else {
        return Err(Fail::from("a list"));
    };
    assert_eq!(rt; list.items().len(), 1_000_000);
    assert!(rt; crossings(&rt, rt.alloc(), 1, one_more.items(), thousand.items())?.is_none());
    Ok(())
}

/// Layers of levels 1 to 6, of short ways and of long ones, with segments on one line, with ends in common and of one point.
#[test]
fn drawn_layers(rt: HostRuntime) -> Result<(), Fail> {
    for level in 1..=6_u8 {
        for seed in 0..334_u64 {
            let a = drawn_segs(rt.alloc(), level, 30, 2 * seed + 100 * level as u64)?;
            let b = drawn_segs(rt.alloc(), level, 40, 2 * seed + 1 + 100 * level as u64)?;
            assert!(rt; is_layer(level, a.items()));
            assert!(rt; is_layer(level, b.items()));
            let Some(list) = crossings(&rt, rt.alloc(), level, a.items(), b.items())? else {
                return Err(Fail::from("a list"));
            };
            let plain = all_pairs(rt.alloc(), a.items(), b.items())?;
            assert!(rt; list.items() == plain.as_slice());
        }
    }
    Ok(())
}

//! What the further lines of an item spell.
ghost use Rattle.std.specs.Prelude.{◌≡◌, [], ◌∷◌, ◌++◌, None, IfOk, IsOk, OnOk};
ghost use Rattle.quilt_words.specs.Made.{further_of, nothing_further, spelled_by};

use crate::{Item, Rings};
use quilt_types::{Corner, PointList, RingList, Text};
use std::alloc::{AllocError, Global};

/// What the further lines of an item spell. Of the three at most one is there: what its line asks for, where all of it is well
/// formed.
#[derive(Drop)]
pub struct FurtherLines {
    /// The colours of a raster's rows, two bytes each with the high one first.
    pub rows: Option<Text>,
    /// The points of list lines.
    pub points: Option<PointList>,
    /// The rings of ring lines.
    pub rings: Rings,
}

impl FurtherLines {
    /// Nothing: no further lines, or some that are missing or not well formed.
    pub fn none() -> FurtherLines
        ensures { spelled_by result ≡ nothing_further }
    {
        FurtherLines {
            rows: None,
            points: None,
            rings: None,
        }
    }

    /// A copy of what an item holds. It takes no memory where that is nothing.
    pub fn of_item(alloc: Global, item: &Item) -> Result<FurtherLines, AllocError>
        ensures copy { IfOk result (λ further. spelled_by further ≡ further_of item.now) }
        ensures memory { further_of item.now ≡ nothing_further → IsOk result }
    {
        match item {
            Item::Rows(_, Some(rows)) => {
                let rows = Some(copy_rows(alloc, rows)?);
                Ok(FurtherLines {
                    rows,
                    points: None,
                    rings: None,
                })
            }
            Item::PointLines(_, Some(points)) => {
                let points = Some(copy_points(alloc, points)?);
                Ok(FurtherLines {
                    rows: None,
                    points,
                    rings: None,
                })
            }
            Item::RingLines(_, Some(rings)) => {
                let rings = Some(copy_rings(alloc, rings)?);
                Ok(FurtherLines {
                    rows: None,
                    points: None,
                    rings,
                })
            }
            _ => Ok(FurtherLines::none()),
        }
    }
}

fn copy_rows(alloc: Global, rows: &Text) -> Result<Text, AllocError>
    ensures { IfOk result (λ copy. copy ≡ rows.now) }
{
    let mut copy = Text::new(alloc);
    copy.push(rows.bytes())?;
    Ok(copy)
}

fn copy_points(alloc: Global, points: &PointList) -> Result<PointList, AllocError>
    ensures { IfOk result (λ copy. copy ≡ points.now) }
{
    let mut copy = PointList::new(alloc);
    for p in points.items() {
        copy.push(*p)?;
    }
    Ok(copy)
}

fn copy_rings(alloc: Global, rings: &RingList) -> Result<RingList, AllocError>
    ensures { IfOk result (λ copy. copy ≡ rings.now) }
{
    let mut copy = RingList::new(alloc);
    for i in 0..rings.len() {
        push_ring(&mut copy, rings.corners(i))?;
    }
    Ok(copy)
}

/// Adds a ring with these corners. An Err leaves a list that is only given up.
pub fn push_ring(rings: &mut RingList, corners: &[Corner]) -> Result<(), AllocError>
    ensures { OnOk result (rings.new ≡ rings.old ++ corners.now ∷ []) }
{
    rings.begin_ring()?;
    for c in corners {
        rings.push(*c)?;
    }
    Ok(())
}

ghost use Rattle.std.specs.Prelude.{◌≡◌, ◌++◌, ◌^◌, ◌≤◌, ℕ, List, OnOk, IfOk, IfSome, vec_len};
ghost use Rattle.quilt_types.specs.declared.plane.Seg.{Seg as SegOf};
ghost use Rattle.quilt_join.specs.Boxes.{span_at, count as block_count};
ghost use Rattle.quilt_join.specs.Buckets.{ids_over};
ghost use Rattle.quilt_join.specs.Pairs.{ids_sharing, pairs_with};
ghost use Rattle.quilt_join.specs.Serving.{Serves};
ghost use Rattle.quilt_join.specs.Rows.{IsSharingRow};

use crate::buckets::Buckets;
use crate::overlap::shares;
use crate::pairs::PairList;
use crate::span::Span;
use quilt_types::Seg;
use std::alloc::{AllocError, Global};

/// Adds the ids of those segments of a bucket that share a point with this one.
fn add_sharing(ids: &mut Vec<u32>, s: Seg, bucket: &[(u32, Seg)]) -> Result<(), AllocError>
    ensures { OnOk result (ids.new.items ≡ ids.old.items ++ ids_sharing s bucket.now) }
{
    for (id, r) in bucket {
        if shares(s, *r) {
            ids.push(*id)?;
        }
    }
    Ok(())
}

/// The ids of the segments in the buckets of the blocks that the box round this one touches, as far as they share a point
/// with it: an id for each such block.
fn found(alloc: Global, buckets: &Buckets, s: Seg) -> Result<Vec<u32>, AllocError>
    ensures { IfOk result (λ v. v.items ≡
        ids_over s (span_at (2 ^ buckets.now.shift) s) buckets.now.columns buckets.now.lists.items (block_count (span_at (2 ^ buckets.now.shift) s))) }
{
    let span = Span::of(s, buckets.shift());
    let mut ids = Vec::new(alloc);
    for place in 0..span.count() {
        let number = span.number(buckets.columns(), place);
        add_sharing(&mut ids, s, buckets.bucket(number))?;
    }
    Ok(ids)
}

/// The ids of the segments that share a point with this one, each once, in their order.
pub(crate) fn row_of(alloc: Global, buckets: &Buckets, s: Seg) -> Result<Vec<u32>, AllocError>
    ensures { (b : List (ℕ × SegOf)) → Serves buckets.now b → IfOk result (λ v. v.items ≡ ids_sharing s b) }
{
    let mut ids = found(alloc, buckets, s)?;
    ids.sort()?;
    ids.dedup();
    Ok(ids)
}

/// How many ids of a row are kept at most: 4,096 rows take then at most 4 MB.
const KEPT: usize = 244;

/// A segment with its id, how many segments share a point with it, and their ids, each once and in their order, where they are few.
#[derive(Drop)]
pub(crate) struct Row {
    pub id: u32,
    pub segment: Seg,
    pub count: usize,
    pub ids: Option<Vec<u32>>,
}

/// The row of a segment: of up to `KEPT` ids they are kept.
pub(crate) fn row_for(alloc: Global, buckets: &Buckets, id: u32, s: Seg) -> Result<Row, AllocError>
    ensures row { (b : List (ℕ × SegOf)) → Serves buckets.now b → IfOk result (IsSharingRow b (id, s)) }
    ensures few { IfOk result (λ row. IfSome row.ids (λ ids. vec_len ids ≤ 244)) }
{
    let ids = row_of(alloc, buckets, s)?;
    let count = ids.len();
    let kept = if count <= KEPT { Some(ids) } else { None };
    Ok(Row {
        id,
        segment: s,
        count,
        ids: kept,
    })
}

/// The pairs of an id with others.
fn paired(alloc: Global, id: u32, others: &[u32]) -> Result<PairList, AllocError>
    ensures { IfOk result (λ pairs. pairs ≡ pairs_with id others.now) }
{
    let mut pairs = PairList::new(alloc);
    for other in others {
        pairs.push((id, *other))?;
    }
    Ok(pairs)
}

/// The pairs of the id of a row with the ids of the segments that share a point with its segment. A row that was not kept is made
/// again.
pub(crate) fn pairs_of(alloc: Global, buckets: &Buckets, row: &Row) -> Result<PairList, AllocError>
    ensures { (b : List (ℕ × SegOf)) (e : ℕ × SegOf) → Serves buckets.now b → IsSharingRow b e row.now →
        IfOk result (λ pairs. pairs ≡ pairs_with e.0 (ids_sharing e.1 b)) }
{
    match &row.ids {
        Some(ids) => paired(alloc, row.id, ids),
        None => {
            let ids = row_of(alloc, buckets, row.segment)?;
            paired(alloc, row.id, &ids)
        }
    }
}

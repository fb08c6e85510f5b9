ghost use Rattle.std.specs.Prelude.{◌≡◌, ◌<◌, ◌≤◌, ℕ, List, true, map, sum, flat_map, ◌+◌, ◌++◌, All, IfOk, IfSome, IfNone, OnOk};
ghost use Rattle.std.specs.List.{AllZip};
ghost use Rattle.std.specs.FinMap as finmap;
ghost use Rattle.std.specs.List.Sorted.{IsStrictlyIncreasing};
ghost use Rattle.quilt_types.specs.declared.plane.Seg.{Seg as SegOf};
ghost use Rattle.quilt_types.specs.Layers.{SegMap, is_in_square};
ghost use Rattle.quilt_types.specs.Crossings.{crossings as crossings_of_maps};
ghost use Rattle.quilt_join.specs.Serving.{Serves};
ghost use Rattle.quilt_join.specs.Rows.{IsSharingRow};
ghost use Rattle.quilt_join.specs.Pairs.{IsPairAnswer, crossings_of, ids_sharing, pairs_with, most as most_pairs};

use crate::buckets::Buckets;
use crate::pairs::PairList;
use crate::rows::{Row, pairs_of, row_for};
use crate::shift::shift_for;
use quilt_types::Seg;
use rayon::prelude::*;
use std::alloc::{AllocError, Global};
use std::thread::Threads;

/// How many pairs are listed at most.
const MOST: usize = 1_000_000;

/// How many rows are found at a time.
const PART: usize = 4096;

/// The row of each segment of a list, in threads.
fn rows_for<R: Threads + Sync>(
    rt: &R,
    alloc: Global,
    buckets: &Buckets,
    list: &[(u32, Seg)],
) -> Result<Vec<Row>, AllocError>
    ensures { (b : List (ℕ × SegOf)) → Serves buckets.now b → IfOk result (λ v. AllZip (IsSharingRow b) list.now v.items) }
{
    let rows: Result<Vec<Row>, AllocError> = list
        .par_iter()
        .map(
            |e: &(u32, Seg)| -> Result<Row, AllocError>
                ensures { (b : List (ℕ × SegOf)) → Serves buckets.entry.now b → IfOk result (IsSharingRow b e.now) }
            { row_for(alloc, buckets, e.0, e.1) },
        )
        .collect(rt, alloc)?;
    rows
}

/// The pairs of each row, in threads. They are no more than `MOST`.
fn pairs_for<R: Threads + Sync>(
    rt: &R,
    alloc: Global,
    buckets: &Buckets,
    rows: &[Row],
) -> Result<Vec<PairList>, AllocError>
    requires few { sum (map (λ row. row.count) rows.now) ≤ most_pairs }
    ensures { (b a : List (ℕ × SegOf)) → Serves buckets.now b → AllZip (IsSharingRow b) a rows.now →
        IfOk result (λ v. v.items ≡ map (λ e. pairs_with e.0 (ids_sharing e.1 b)) a) }
{
    let pairs: Result<Vec<PairList>, AllocError> = rows
        .par_iter()
        .map(
            |row: &Row| -> Result<PairList, AllocError>
                ensures { (b : List (ℕ × SegOf)) (e : ℕ × SegOf) → Serves buckets.entry.now b → IsSharingRow b e row.now →
                    IfOk result (λ pairs. pairs ≡ pairs_with e.0 (ids_sharing e.1 b)) }
            { pairs_of(alloc, buckets, row) },
        )
        .collect(rt, alloc)?;
    pairs
}

/// How many ids each of the rows has.
fn counts_of(alloc: Global, rows: &[Row]) -> Result<Vec<usize>, AllocError>
    ensures { IfOk result (λ v. v.items ≡ map (λ row. row.count) rows.now) }
{
    rows.iter().map(|row| row.count).collect(alloc)
}

/// The total with all numbers added. None where that is more than `MOST`.
fn added(total: usize, counts: &[usize]) -> Option<usize>
    requires { total ≤ most_pairs }
    ensures sum { IfSome result (λ all. all ≡ total + sum counts.now) }
    ensures few { IfSome result (λ all. all ≤ most_pairs) }
    ensures many { IfNone result (most_pairs < total + sum counts.now) }
{
    let mut all = total;
    for count in counts {
        if MOST - all < *count {
            return None;
        }
        all += *count;
    }
    Some(all)
}

/// Adds the lists at the end, one behind the other.
fn append_all(pairs: &mut PairList, lists: &[PairList]) -> Result<(), AllocError>
    ensures { OnOk result (pairs.new ≡ pairs.old ++ flat_map (λ row. row) lists.now) }
{
    for row in lists {
        pairs.append(row.items())?;
    }
    Ok(())
}

/// The pairs of all segments of a list with the segments that share a point with them, part by part: those of a part are listed
/// once they are counted. None where there are more than `MOST`.
fn all_pairs<R: Threads + Sync>(
    rt: &R,
    alloc: Global,
    buckets: &Buckets,
    list: &[(u32, Seg)],
) -> Result<Option<PairList>, AllocError>
    ensures { (b : List (ℕ × SegOf)) → Serves buckets.now b → IfOk result (IsPairAnswer (crossings_of list.now b)) }
{
    let mut pairs = PairList::new(alloc);
    let mut total = 0_usize;
    let mut rest = list;
    while !rest.is_empty() {
        let (part, after) = rest.split_at(rest.len().min(PART));
        let rows = rows_for(rt, alloc, buckets, part)?;
        let counts = counts_of(alloc, &rows)?;
        match added(total, &counts) {
            Some(all) => total = all,
            None => return Ok(None),
        }
        let lists = pairs_for(rt, alloc, buckets, &rows)?;
        append_all(&mut pairs, &lists)?;
        rest = after;
    }
    Ok(Some(pairs))
}

/// All pairs of an id of `a` and an id of `b` whose segments share a point, by the first id and then the second. None
/// exactly where there are more than 1,000,000. Each list has segments of the square of a level from 1 to 12, under ids
/// that rise.
pub fn crossings<R: Threads + Sync>(
    rt: &R,
    alloc: Global,
    level: u8,
    a: &[(u32, Seg)],
    b: &[(u32, Seg)],
) -> Result<Option<PairList>, AllocError>
    requires least { 1 ≤ level }
    requires most { level ≤ 12 }
    requires first_ids { IsStrictlyIncreasing (map (λ e. e.0) a.now) }
    requires second_ids { IsStrictlyIncreasing (map (λ e. e.0) b.now) }
    requires first_ends { All (λ e. is_in_square level e.1 ≡ true) a.now }
    requires second_ends { All (λ e. is_in_square level e.1 ≡ true) b.now }
    ensures pairs { IfOk result (IsPairAnswer (crossings_of a.now b.now)) }
    ensures maps { (l m : SegMap) → finmap.entries l ≡ a.now → finmap.entries m ≡ b.now → IfOk result (IsPairAnswer (crossings_of_maps l m)) }
{
    let level = u32::from(level);
    let buckets = Buckets::of(alloc, level, shift_for(level, a, b), b)?;
    all_pairs(rt, alloc, &buckets, a)
}

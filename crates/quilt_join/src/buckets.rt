ghost use Rattle.std.specs.Prelude.{◌≡◌, ◌≤◌, ◌<◌, ◌^◌, ◌*◌, ◌-◌, ℕ, [], ◌∷◌, ◌++◌, length, true, All, OnOk, IfOk, slice_set};
ghost use Rattle.quilt_types.specs.Plane.{side as side_of};
ghost use Rattle.quilt_types.specs.Layers.{is_in_square};
ghost use Rattle.quilt_join.specs.Boxes.{span_at, count as count_of, number_at};
ghost use Rattle.quilt_join.specs.Buckets.{bucket_at, AreFilled, HasBucketed};

use crate::span::Span;
use quilt_types::Seg;
use std::alloc::{AllocError, Global};
use std::marker::Model;

/// The segments of one block.
#[derive(Drop)]
pub struct Bucket {
    segs: Vec<(u32, Seg)>,
}

impl Model for Bucket {
    ghost use Rattle.std.specs.Prelude.{List, ℕ};
    ghost use Rattle.quilt_types.specs.declared.plane.Seg.{Seg};

    ghost Value = { List (ℕ × Seg) };

    ghost view = { λ b. b.segs.items };
}

impl Bucket {
    /// No segments.
    fn new(alloc: Global) -> Bucket
        ensures { result ≡ [] }
    {
        Bucket {
            segs: Vec::new(alloc),
        }
    }

    /// Adds a segment at the end.
    fn push(&mut self, id: u32, s: Seg) -> Result<(), AllocError>
        ensures { OnOk result (self.new ≡ self.old ++ (id, s) ∷ []) }
    {
        self.segs.push((id, s))?;
        Ok(())
    }

    /// The segments.
    pub fn items(&self) -> &[(u32, Seg)]
        ensures { result.now ≡ self.now }
    {
        &self.segs
    }
}

/// A bucket for each block of the square of side `1 << shift`, row by row.
#[derive(Drop)]
pub struct Buckets {
    shift: u32,
    columns: usize,
    lists: Vec<Bucket>,
    ghost small: { shift ≤ 12 },
    ghost few: { columns ≤ 4096 },
}

/// So many empty buckets.
fn empty(alloc: Global, count: usize) -> Result<Vec<Bucket>, AllocError>
    ensures size { IfOk result (λ v. length v.items ≡ count) }
    ensures empty { IfOk result (λ v. (n : ℕ) → bucket_at v.items n ≡ []) }
{
    let mut lists = Vec::new(alloc);
    for _place in 0..count {
        lists.push(Bucket::new(alloc))?;
    }
    Ok(lists)
}

/// How many blocks of side `1 << shift` stand in a row of the square of a level.
pub(crate) fn columns_of(level: u32, shift: u32) -> usize
    requires most { level ≤ 12 }
    requires shift { shift ≤ level }
    ensures value { result ≡ 2 ^ (level - shift) }
    ensures whole { result * 2 ^ shift ≡ side_of level }
    ensures few { result ≤ 4096 }
{
    1 << (level - shift)
}

impl Buckets {
    /// The buckets of the segments of a list, by the blocks of side `1 << shift` of the square of a level.
    pub fn of(
        alloc: Global,
        level: u32,
        shift: u32,
        list: &[(u32, Seg)],
    ) -> Result<Buckets, AllocError>
        requires most { level ≤ 12 }
        requires shift { shift ≤ level }
        requires ends { All (λ e. is_in_square level e.1 ≡ true) list.now }
        ensures filled { IfOk result (λ b. AreFilled (2 ^ b.shift) b.columns b.lists.items list.now) }
        ensures shift { IfOk result (λ b. b.shift ≡ shift) }
    {
        let columns = columns_of(level, shift);
        let mut buckets = Buckets {
            shift,
            columns,
            lists: empty(alloc, columns * columns)?,
        };
        for (id, s) in list {
            buckets.put(*id, *s)?;
        }
        Ok(buckets)
    }

    /// Puts a segment into the bucket of each block that the box round it touches.
    fn put(&mut self, id: u32, s: Seg) -> Result<(), AllocError>
        requires fits { (i : ℕ) → i < count_of (span_at (2 ^ self.old.shift) s) →
            number_at (span_at (2 ^ self.old.shift) s) self.old.columns i < length self.old.lists.items }
        ensures shift { self.new.shift ≡ self.old.shift }
        ensures columns { self.new.columns ≡ self.old.columns }
        ensures put { OnOk result (HasBucketed (span_at (2 ^ self.old.shift) s) self.old.columns (count_of (span_at (2 ^ self.old.shift) s))
            self.old.lists.items self.new.lists.items (id, s)) }
    {
        let span = Span::of(s, self.shift);
        for place in 0..span.count() {
            let number = span.number(self.columns, place);
            self.put_at(number, id, s)?;
        }
        Ok(())
    }

    /// Puts a segment into the bucket of the block with this number.
    fn put_at(&mut self, number: usize, id: u32, s: Seg) -> Result<(), AllocError>
        requires { number < length self.old.lists.items }
        ensures shift { self.new.shift ≡ self.old.shift }
        ensures columns { self.new.columns ≡ self.old.columns }
        ensures size { length self.new.lists.items ≡ length self.old.lists.items }
        ensures put { OnOk result (self.new.lists.items ≡ slice_set self.old.lists.items number (bucket_at self.old.lists.items number ++ (id, s) ∷ [])) }
    {
        let bucket = &mut self.lists[number];
        bucket.push(id, s)?;
        Ok(())
    }

    /// The base-2 logarithm of the side of the blocks.
    pub fn shift(&self) -> u32
        ensures value { result ≡ self.now.shift }
        ensures small { result ≤ 12 }
    {
        self.shift
    }

    /// How many blocks stand in a row of the square.
    pub fn columns(&self) -> usize
        ensures value { result ≡ self.now.columns }
        ensures few { result ≤ 4096 }
    {
        self.columns
    }

    /// The bucket of the block with this number.
    pub fn bucket(&self, number: usize) -> &[(u32, Seg)]
        ensures { result.now ≡ bucket_at self.now.lists.items number }
    {
        match self.lists.get(number) {
            Some(bucket) => bucket.items(),
            None => &[],
        }
    }
}

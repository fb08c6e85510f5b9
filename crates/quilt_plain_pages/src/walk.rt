use crate::bytes::Page;
use crate::nodes::{Inner, inner_of, keys_of, leaf_of};
use quilt_record::{Key, Record};
use std::alloc::{AllocError, Global};

/// Why a page of a tree is damaged.
#[derive(Clone, Copy, Debug, PartialEq, Eq)]
pub enum Flaw {
    /// It stands in the tree twice.
    Twice,
    /// It is not well formed as a leaf, or as an inner page.
    Form,
    /// It is an inner page of another height.
    Height,
    /// It has a key out of its bounds.
    Bounds,
    /// It is not the root, and has too few records or children.
    Few,
}

/// A page that a walk comes to: at which height, whether it is the root, and between which keys what is under it has to stay.
#[derive(Clone, Copy)]
struct Place {
    page: u32,
    height: u8,
    is_root: bool,
    low: Option<Key>,
    high: Option<Key>,
}

/// What a walk comes to: the records of a tree with the pages that it has visited, or the first page that is damaged.
#[derive(Drop)]
pub enum Walk {
    Whole {
        records: Vec<Record>,
        visited: Vec<bool>,
    },
    Damaged {
        page: u32,
        flaw: Flaw,
    },
}

/// A walk that goes on: the pages that it has to visit, the next of them last, and what it has found.
#[derive(Drop)]
struct Walker {
    next: Vec<Place>,
    records: Vec<Record>,
    visited: Vec<bool>,
}

impl Place {
    /// Whether the keys are from the lower bound on and below the upper one, where there are such.
    fn are_within(&self, keys: &[Key]) -> bool {
        keys.iter().all(|k| is_within(self.low, *k, self.high))
    }
}

/// Whether the key is from the lower bound on and below the upper one, where there are such.
fn is_within(low: Option<Key>, k: Key, high: Option<Key>) -> bool {
    let is_above = match low {
        None => true,
        Some(low) => low <= k,
    };
    let is_below = match high {
        None => true,
        Some(high) => k < high,
    };
    is_above && is_below
}

impl Walker {
    /// A walk over a file of so many pages that has to visit one place.
    fn new(alloc: Global, pages: usize, first: Place) -> Result<Walker, AllocError> {
        let mut visited = Vec::new(alloc);
        for _ in 0..pages {
            visited.push(false)?;
        }
        let mut next = Vec::new(alloc);
        next.push(first)?;
        Ok(Walker {
            next,
            records: Vec::new(alloc),
            visited,
        })
    }

    /// Marks a page as visited, and tells whether it was not before.
    fn mark(&mut self, page: u32) -> bool {
        match self.visited.get_mut(page as usize) {
            Some(mark) if !*mark => {
                *mark = true;
                true
            }
            _ => false,
        }
    }

    /// Adds the records of a leaf, or tells why it is damaged.
    fn add_leaf(
        &mut self,
        alloc: Global,
        page: &Page,
        at: &Place,
    ) -> Result<Option<Flaw>, AllocError> {
        let Some(records) = leaf_of(alloc, page)? else {
            return Ok(Some(Flaw::Form));
        };
        let keys = keys_of(alloc, &records)?;
        if !at.is_root && records.len() < 72 {
            return Ok(Some(Flaw::Few));
        }
        if !at.are_within(&keys) {
            return Ok(Some(Flaw::Bounds));
        }
        self.records.extend_from_slice(&records)?;
        Ok(None)
    }

    /// Adds the children of an inner page to the places that are to be visited, or tells why it is damaged.
    fn add_inner(
        &mut self,
        alloc: Global,
        page: &Page,
        at: &Place,
    ) -> Result<Option<Flaw>, AllocError> {
        let Some(inner) = inner_of(alloc, page, self.visited.len())? else {
            return Ok(Some(Flaw::Form));
        };
        if inner.height != at.height {
            return Ok(Some(Flaw::Height));
        }
        if !at.is_root && inner.children.len() < 127 {
            return Ok(Some(Flaw::Few));
        }
        if !at.are_within(&inner.keys) {
            return Ok(Some(Flaw::Bounds));
        }
        self.add_children(&inner, at)?;
        Ok(None)
    }

    /// Adds the children of an inner page to the places that are to be visited, the first of them last.
    fn add_children(&mut self, inner: &Inner, at: &Place) -> Result<(), AllocError> {
        let mut high = at.high;
        for (i, child) in inner.children.iter().enumerate().rev() {
            let low = bound_before(inner, i, at.low);
            self.next.push(Place {
                page: *child,
                height: at.height.wrapping_sub(1),
                is_root: false,
                low,
                high,
            })?;
            high = low;
        }
        Ok(())
    }

    /// Visits one page, and tells why it is damaged if it is.
    fn visit(
        &mut self,
        alloc: Global,
        pages: &[Page],
        at: &Place,
    ) -> Result<Option<Flaw>, AllocError> {
        if !self.mark(at.page) {
            return Ok(Some(Flaw::Twice));
        }
        let Some(page) = pages.get(at.page as usize) else {
            return Ok(Some(Flaw::Form));
        };
        if at.height == 1 {
            self.add_leaf(alloc, page, at)
        } else {
            self.add_inner(alloc, page, at)
        }
    }
}

/// The bound from which on the keys under child `i` are.
fn bound_before(inner: &Inner, i: usize, low: Option<Key>) -> Option<Key> {
    if i == 0 {
        return low;
    }
    inner.keys.get(i.wrapping_sub(1)).copied()
}

/// Walks over a tree whose root stands at a height from 1 on, a page before its children and these from left to right, as far as
/// the first page that is not well formed, not at its height, out of its bounds, under its minimum, or visited before. No page is
/// visited twice, so a walk is no longer than the file.
pub fn walk_tree(alloc: Global, pages: &[Page], root: u32, height: u8) -> Result<Walk, AllocError> {
    let first = Place {
        page: root,
        height,
        is_root: true,
        low: None,
        high: None,
    };
    let mut walker = Walker::new(alloc, pages.len(), first)?;
    for _ in 0..=pages.len() {
        let Some(at) = walker.next.pop() else {
            break;
        };
        if let Some(flaw) = walker.visit(alloc, pages, &at)? {
            return Ok(Walk::Damaged {
                page: at.page,
                flaw,
            });
        }
    }
    let Walker {
        records,
        visited,
        ..
    } = walker;
    Ok(Walk::Whole { records, visited })
}

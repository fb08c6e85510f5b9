ghost use Rattle.std.specs.Prelude.{◌≡◌, ℕ, [], ◌≤◌, length, take, OnOk, IfOk};
ghost use Rattle.std.specs.Bool.{OnTrue};
ghost use Rattle.quilt_rank.specs.Ranks.{added, is_past_ranks as is_past_of};

use crate::ranks::RankList;
use quilt_near::Quotient;
use std::alloc::{AllocError, Global};
use std::collections::BTreeSet;
use std::marker::Model;

/// The first ones of the segments so far, each once, in the order of distance and then id.
#[derive(Drop)]
pub struct Firsts {
    ranks: BTreeSet<(Quotient, u32)>,
}

impl Model for Firsts {
    ghost use Rattle.std.specs.Prelude.{List, ℕ, map};
    ghost use Rattle.quilt_types.specs.Fractions.{Fraction};

    ghost Value = { List (ℕ × Fraction) };

    ghost view = { λ f. map (λ r. (r.1, r.0)) f.ranks.keys };
}

impl Firsts {
    /// No segments. It takes no memory, and keeps the allocator.
    pub fn new(alloc: Global) -> Firsts
        ensures { result ≡ [] }
    {
        Firsts {
            ranks: BTreeSet::new(alloc),
        }
    }

    /// Whether none comes after an id with its distance.
    fn are_before(&self, rank: &(Quotient, u32)) -> bool
        ensures { OnTrue result (take (length self.now) (added self.now (rank.now.1, rank.now.0)) ≡ self.now) }
    {
        match self.ranks.last() {
            None => false,
            Some(last) => rank.cmp(last).is_ge(),
        }
    }

    /// Cuts the list after k.
    fn cut(&mut self, k: usize)
        ensures { self.new ≡ take k self.old }
    {
        while self.ranks.len() > k {
            let _ = self.ranks.pop_last();
        }
    }

    /// Puts an id with its distance to its place, unless it is there, and cuts the list after k.
    pub fn put(&mut self, id: u32, far: Quotient, k: usize) -> Result<(), AllocError>
        ensures { OnOk result (self.new ≡ take k (added self.old (id, far))) }
    {
        let rank = (far, id);
        if self.ranks.len() == k && self.are_before(&rank) {
            return Ok(());
        }
        self.add(rank)?;
        self.cut(k);
        Ok(())
    }

    /// Puts an id with its distance to its place, unless it is there.
    fn add(&mut self, rank: (Quotient, u32)) -> Result<(), AllocError>
        ensures { OnOk result (self.new ≡ added self.old (rank.1, rank.0)) }
    {
        self.ranks.insert(rank)?;
        Ok(())
    }

    /// Whether there are k, and a whole distance is greater than that of the last.
    pub fn is_past(&self, k: usize, distance: u64) -> bool
        requires { 1 ≤ k }
        ensures { result ≡ is_past_of k self.now distance }
    {
        if self.ranks.len() != k {
            return false;
        }
        match self.ranks.last() {
            None => false,
            Some((far, _)) => far.is_below(distance),
        }
    }

    /// The same with the distances in lowest terms.
    pub fn listed(&self, alloc: Global) -> Result<RankList, AllocError>
        ensures { IfOk result (λ list. list ≡ self.now) }
    {
        let mut list = RankList::new(alloc);
        for (far, id) in &self.ranks {
            list.push(*id, far.reduced())?;
        }
        Ok(list)
    }
}

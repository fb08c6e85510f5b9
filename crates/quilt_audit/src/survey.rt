ghost use Rattle.std.specs.Prelude.{◌≡◌, ℕ, ◌+◌, ◌<◌, ◌≤◌, List, [], length, replicate, Some, OnErr, IfOk, IfErr};
ghost use Rattle.quilt_record.specs.declared.record.Record.{Record};
ghost use Rattle.quilt_node.specs.Pages.{IsHead};
ghost use Rattle.quilt_node.specs.Tree.{Whole, Damaged, walk_of};
ghost use Rattle.quilt_store.specs.Calls.{OnlyReads};
ghost use Rattle.quilt_world.specs.Tale.{Goes};
ghost use Rattle.quilt_btree.specs.Stops.{NamesPage};
ghost use Rattle.quilt_audit.specs.Bits.{AreWithin};
ghost use Rattle.quilt_audit.specs.Surveys.{OnDamaged, IsSurvey, IsDamage, AreNumbered};
ghost use Rattle.quilt_audit.specs.Walking.{IsWalked};
ghost use Rattle.quilt_audit.specs.Checking.{IsFed};

use crate::checker::Checker;
use crate::progress::Surveying;
use crate::walk::survey_page;
use quilt_node::Head;
use quilt_record::Catalog;
use quilt_store::PageStore;
use quilt_types::Stop;
use std::alloc::Global;

/// What an audit finds of a tree that spells a map: the catalog, and the pages of the tree.
#[derive(Drop)]
pub struct Survey {
    pub catalog: Catalog,
    /// The bit of page p is bit p mod 8 of byte p / 8.
    pub used: [u8; 3750],
}

/// Reads the tree of a store of `pages` home pages once, and decides whether it spells a map with the head's format, level and
/// number of records. Where it does not, it answers the first page in the order of the walk that is damaged, or page 0 where
/// every page passes. It takes the memory of the pairs and segments of one line layer.
pub fn audit<S: PageStore>(
    alloc: Global,
    store: &mut S,
    head: &Head,
    pages: u32,
) -> Result<Survey, Stop>
    requires size { pages ≡ S.size store.old }
    requires head { IsHead pages head.now }
    ensures survey { IfOk result (λ s. (told : List (List ℕ)) → S.told store.old ≡ Some told → IsSurvey told head.now s.catalog s.used) }
    ensures damaged { IfErr result (OnDamaged (λ page. (told : List (List ℕ)) → S.told store.old ≡ Some told → IsDamage told head.now page)) }
    ensures within { IfOk result (λ s. AreWithin pages s.used) }
    ensures numbered { IfOk result (λ s. AreNumbered head.now.format s.catalog) }
    ensures names { IfErr result (NamesPage pages) }
    ensures left { OnlyReads S.PageStore store.old store.new result }
    ensures few { Goes (λ old new. new < old + pages) (S.reads store.old) (S.reads store.new) }
    ensures reads { IfOk result (λ s. (told : List (List ℕ)) (records : List Record) (visited : List ℕ) → S.told store.old ≡ Some told
        → walk_of told head.now.root head.now.height ≡ Whole records visited
        → Goes (λ old new. new ≤ old + length visited) (S.reads store.old) (S.reads store.new)) }
{
    let state = survey_tree(alloc, store, head)?;
    let Surveying { used, checker } = state;
    match checker.finish() {
        Err(_) => Err(Stop::Memory),
        Ok(None) => Err(Stop::Damaged { page: 0 }),
        Ok(Some(catalog)) => Ok(Survey { catalog, used }),
    }
}

/// Visits all pages of the tree, and hands its records to a checker.
fn survey_tree<S: PageStore>(alloc: Global, store: &mut S, head: &Head) -> Result<Surveying, Stop>
    requires { IsHead (S.size store.old) head.now }
    ensures walked { IfOk result (λ s. IsWalked (S.size store.old) (S.told store.old) head.now s (S.reads store.old) (S.reads store.new)) }
    ensures damaged { IfErr result
        (OnDamaged (λ page. (told : List (List ℕ)) → S.told store.old ≡ Some told → walk_of told head.now.root head.now.height ≡ Damaged page)) }
    ensures few { OnErr result (Goes (λ old new. new < old + S.size store.old) (S.reads store.old) (S.reads store.new)) }
    ensures names { IfErr result (NamesPage (S.size store.old)) }
    ensures left { OnlyReads S.PageStore store.old store.new result }
{
    let mut state = unvisited(alloc, head);
    if head.height == 0 {
        return Ok(state);
    }
    survey_page(
        store,
        &mut state,
        head.root,
        head.height,
        true,
        &None,
        &None,
        &mut [0; 4096],
    )?;
    Ok(state)
}

/// No page visited, and no record found.
fn unvisited(alloc: Global, head: &Head) -> Surveying
    requires { (1 ≤ head.now.level) × (head.now.level ≤ 12) }
    ensures used { result.used ≡ replicate 3750 0 }
    ensures level { result.checker.level ≡ head.now.level }
    ensures format { result.checker.format ≡ head.now.format }
    ensures fed { IsFed head.now.records result.checker [] }
{
    Surveying {
        used: [0; 3750],
        checker: Checker::new(alloc, head),
    }
}

ghost use Rattle.std.specs.Prelude.{◌≡◌, ◌≢◌, ℕ, Option, ◌+◌, ◌*◌, ◌≤◌, true, List, Err, IfOk, IfErr, OnOk};
ghost use Rattle.std.proofs.Common.{◌∙◌, subst, sym};
ghost use Rattle.quilt_types.specs.declared.stop.Stop.TheVariants.{Damaged};
ghost use Rattle.quilt_types.specs.Plane.{IsBlock};
ghost use Rattle.quilt_types.specs.Quadtrees.{is_reached};
ghost use Rattle.quilt_record.specs.declared.record.Record.{Record};
ghost use Rattle.quilt_world.specs.Tale.{Goes};
ghost use Rattle.quilt_store.specs.Calls.{OnlyReads};
ghost use Rattle.quilt_store.specs.Stops.{IsNotDamage};
ghost use Rattle.quilt_near.specs.Lines.{Lines};
ghost use Rattle.quilt_near.specs.Parts.{IsPart, PartFits, pages_for};
ghost use Rattle.quilt_near.specs.Knowing.{Knows, StaysKnown, many_known, block_pages};
ghost use Rattle.quilt_btree.specs.Damage.{NamesBad};
ghost use Rattle.quilt_btree.specs.Stops.{NamesPage};
ghost use Rattle.quilt_btree.specs.Trees.{IsRooted, IsTree};
ghost use Rattle.quilt_lines.specs.Marks.{IsMark};
ghost use Rattle.quilt_lines.specs.Layers.{ShowsLines};
ghost use Rattle.quilt_lines.specs.Said.{NamesZeroOrBad, SayPart};

use crate::hint::Hint;
use crate::marks::{mark_of, spot_of};
use quilt_btree::Tree;
use quilt_near::{Known, Part, SegBlocks};
use quilt_store::PageStore;
use quilt_types::{Block, Stop};
use std::alloc::Global;

/// What is answered where records are none of a line layer.
pub(crate) const DAMAGED: Stop = Stop::Damaged { page: 0 };

/// A line layer of a map: the tree of the map, the layer's number, from 1 to 255, and the level of the map, from 1 to 12. It
/// holds no store.
#[derive(Clone, Copy)]
pub struct LineView {
    pub tree: Tree,
    pub layer: u8,
    pub level: u8,
    ghost has_layer: { (1 ≤ layer) × (layer ≤ 255) },
    ghost has_level: { (1 ≤ level) × (level ≤ 12) },
}

impl LineView {
    /// The layer with a number, from 1 to 255, of a map of a level, from 1 to 12. It takes no memory.
    pub fn new(tree: &Tree, layer: u8, level: u8) -> LineView
        requires layer { 1 ≤ layer }
        requires level { (1 ≤ level) × (level ≤ 12) }
        ensures tree { result.tree ≡ tree.now }
        ensures layer { result.layer ≡ layer }
        ensures level { result.level ≡ level }
    {
        LineView {
            tree: *tree,
            layer,
            level,
        }
    }
}

/// Whether the numbers of a tree may be those of one in a store of so many pages.
fn is_rooted(tree: &Tree, pages: u32) -> bool
    requires { (16 ≤ pages) × (pages ≤ 30000) }
    ensures yes { result ≡ true → IsRooted pages tree.now }
    ensures no { IsRooted pages tree.now → result ≡ true }
{
    if tree.height == 0 {
        return tree.root == 0 && tree.records == 0;
    }
    tree.height <= 3
        && 1 <= tree.root
        && tree.root < pages
        && 1 <= tree.records
        && tree.records <= 64 * (pages - 8)
}

impl<S: PageStore> SegBlocks<S> for LineView {
    ghost level_of = { λ v. v.level };

    ghost shows = { λ v s l. ShowsLines (S.told s) v.tree v.layer v.level l };

    ghost marked = { λ v s m. IsMark (S.told s) v.tree m };

    ghost looked = { λ v b s t result. OnlyReads S.PageStore s t result };

    ghost named = { λ v s e. NamesZeroOrBad (S.told s) v.tree e };

    fn level(&self) -> u8 {
        self.level
    }

    /// Page 0 is said to be damaged where the numbers are those of no tree of the store, where a pixel has no records, where
    /// the records of a block do not say which segments meet it, and where the record of one of these is none of a segment
    /// whose ends are pixels of the level.
    fn part(&self, alloc: Global, store: &mut S, b: Block) -> Result<Part, Stop>
        requires block { IsBlock self.now.level b }
        requires reached { (l : Lines) → ShowsLines (S.told store.old) self.now.tree self.now.layer self.now.level l → is_reached l.cover b ≡ true }
        ensures part { IfOk result (λ part. (l : Lines) → ShowsLines (S.told store.old) self.now.tree self.now.layer self.now.level l → IsPart l b part) }
        ensures part_of { IfOk result (λ part. PartFits self.now.level b part) }
        ensures rooted { (IsRooted (S.size store.old) self.now.tree → ⊥) → result ≡ Err (Damaged 0) }
        ensures said { IfOk result (λ part. (rs : List Record) → IsTree (S.told store.old) self.now.tree rs →
            SayPart self.now.level self.now.layer rs b part) }
        ensures sound { IfErr result (λ e. (l : Lines) → ShowsLines (S.told store.old) self.now.tree self.now.layer self.now.level l → IsNotDamage e) }
        ensures zero { IfErr result (λ e. (rs : List Record) → IsTree (S.told store.old) self.now.tree rs → NamesPage 1 e) }
        ensures bad { IfErr result (λ e. e ≢ Damaged 0 → NamesBad (S.told store.old) self.now.tree.height self.now.tree.root e) }
        ensures left { OnlyReads S.PageStore store.old store.new result }
        ensures reads { IfOk result (λ part. Goes (λ old new. new ≤ old + pages_for part) (S.reads store.old) (S.reads store.new)) }
    {
        if !is_rooted(&self.tree, store.pages()) {
            return Err(DAMAGED);
        }
        let Some(ids) = self.ids_at(alloc, store, b)? else {
            if b.side <= 1 {
                return Err(DAMAGED);
            }
            return Ok(Part::Split);
        };
        let list = self.segments(alloc, store, &ids)?;
        Ok(Part::Leaf(list))
    }

    /// Damage is named as `part` names it.
    fn part_known(
        &self,
        alloc: Global,
        store: &mut S,
        known: &mut Known,
        b: Block,
    ) -> Result<Part, Stop>
        requires block { IsBlock self.now.level b }
        requires reached { (l : Lines) → ShowsLines (S.told store.old) self.now.tree self.now.layer self.now.level l → is_reached l.cover b ≡ true }
        requires known { Knows self.now.level (ShowsLines (S.told store.old) self.now.tree self.now.layer self.now.level) (IsMark (S.told store.old) self.now.tree) known.old }
        ensures part { IfOk result (λ part. (l : Lines) → ShowsLines (S.told store.old) self.now.tree self.now.layer self.now.level l → IsPart l b part) }
        ensures part_of { IfOk result (λ part. PartFits self.now.level b part) }
        ensures known { OnOk result (Knows self.now.level (ShowsLines (S.told store.old) self.now.tree self.now.layer self.now.level) (IsMark (S.told store.old) self.now.tree) known.new) }
        ensures stays { OnOk result (StaysKnown known.old known.new) }
        ensures rooted { (IsRooted (S.size store.old) self.now.tree → ⊥) → result ≡ Err (Damaged 0) }
        ensures sound { IfErr result (λ e. (l : Lines) → ShowsLines (S.told store.old) self.now.tree self.now.layer self.now.level l → IsNotDamage e) }
        ensures zero { IfErr result (λ e. (rs : List Record) → IsTree (S.told store.old) self.now.tree rs → NamesPage 1 e) }
        ensures bad { IfErr result (λ e. e ≢ Damaged 0 → NamesBad (S.told store.old) self.now.tree.height self.now.tree.root e) }
        ensures left { OnlyReads S.PageStore store.old store.new result }
        ensures reads { IfOk result (λ part. Goes (λ old new. new ≤ old + pages_for part) (S.reads store.old) (S.reads store.new)) }
        ensures fresh { IfOk result (λ part. Goes (λ old new. new + 3 * many_known known.old ≤ old + block_pages part + 3 * many_known known.new)
            (S.reads store.old) (S.reads store.new)) }
    {
        let pages = store.pages();
        if !is_rooted(&self.tree, pages) {
            return Err(DAMAGED);
        }
        let mut hint = Hint {
            at: known.at,
            block: known.block,
            spot: spot_of(&known.pairs),
        };
        let Some(ids) = self.ids_known(alloc, store, &mut hint, b)? else {
            known.block = hint.block;
            known.pairs = mark_of(&hint.spot);
            if b.side < 2 {
                return Err(DAMAGED);
            }
            return Ok(Part::Split);
        };
        known.pairs = mark_of(&hint.spot);
        if known.block.is_none() {
            let list = self.segments_known(alloc, store, known, &ids)?;
            return Ok(Part::Leaf(list));
        }
        let list = self.segments_ahead(alloc, store, known, &ids)?;
        Ok(Part::Leaf(list))
    }

    ghost lines = { λ v s l h. record { inside = h.has.spelled.valid.inside; each = h.has.spelled.valid.each; once = h.has.spelled.valid.once } };

    ghost same = { λ v s t l e h. record {
      threshold = h.threshold;
      has = record {
        records = h.has.records;
        is_tree = record { pages = h.has.is_tree.pages; is_told = e ∙ h.has.is_tree.is_told; visited = h.has.is_tree.visited; walk = h.has.is_tree.walk };
        spelled = h.has.spelled;
      };
      rooted = h.rooted;
    } };

    ghost same_marks = { λ v s t m e h. subst (λ (told : Option (List (List ℕ))). IsMark told v.tree m) (sym e) h };

    ghost same_named = { λ v s t e is h. subst (λ (told : Option (List (List ℕ))). NamesZeroOrBad told v.tree e) (sym is) h };

    ghost named_memory = { λ v s. record { zero = λ rs is. tt; bad = λ ne. tt } };
}

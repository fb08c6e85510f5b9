ghost use Rattle.std.specs.Prelude.{◌≡◌, ◌≢◌, ℕ, ◌+◌, ◌-◌, ◌*◌, ◌<◌, ◌≤◌, ◌⊎◌, None, Some, Contains, IfSome, IfErr, OnOk, IsNone, IfOk, All, List, length, true};
ghost use Rattle.std.specs.FinMap as finmap;
ghost use Rattle.quilt_types.specs.declared.plane.Seg.{Seg as AnySeg};
ghost use Rattle.quilt_types.specs.declared.stop.Stop.TheVariants.{Damaged};
ghost use Rattle.quilt_record.specs.declared.record.Record.{Record as AnyRecord};
ghost use Rattle.quilt_near.specs.Lines.{Lines};
ghost use Rattle.quilt_near.specs.Knowing.{known_seg, many_known, Knows, StaysKnown};
ghost use Rattle.quilt_store.specs.Calls.{OnlyReads};
ghost use Rattle.quilt_store.specs.Stops.{IsNotDamage};
ghost use Rattle.quilt_world.specs.Tale.{Goes};
ghost use Rattle.quilt_btree.specs.Damage.{NamesBad};
ghost use Rattle.quilt_btree.specs.Stops.{NamesPage};
ghost use Rattle.quilt_btree.specs.Trees.{IsRooted, IsTree};
ghost use Rattle.quilt_lines.specs.Marks.{IsMark};
ghost use Rattle.quilt_lines.specs.Layers.{ShowsLines};
ghost use Rattle.quilt_lines.specs.Reads.{ids_of};
ghost use Rattle.quilt_types.specs.Layers.{is_in_square as is_seg_in_square};

use crate::marks::{mark_of, spot_of};
use crate::segments::segment_key;
use crate::view::{DAMAGED, LineView};
use quilt_near::{Known, SegList};
use quilt_store::PageStore;
use quilt_types::Stop;
use std::alloc::Global;

/// How many ids a run has at most.
const LONGEST: u32 = 255;

/// The ids from the first to the last. There are none where the last is one less than the first.
#[derive(Clone, Copy)]
pub(crate) struct Run {
    pub first: u32,
    pub last: u32,
}

impl Run {
    /// The run with one id more, or this id alone where the run has less than two: None where it has more and the id does not follow.
    fn with(self, id: u32) -> Option<Run>
        requires { self.first ≤ self.last + 1 }
        ensures each { IfSome result (λ r. (q : ℕ) → r.first ≤ q → q ≤ r.last → (id ≡ q) ⊎ ((self.first ≤ q) × (q ≤ self.last))) }
        ensures most { IfSome result (λ r. r.last + self.first ≤ self.last + 1 + r.first) }
        ensures size { IfSome result (λ r. (r.first ≤ r.last + 1) × (r.last < r.first + 255)) }
        ensures long { IsNone result → self.first < self.last }
    {
        let Run { first, last } = self;
        if first <= last && last < id && id - last == 1 && id - first < LONGEST {
            return Some(Run { first, last: id });
        }
        if first < last {
            return None;
        }
        Some(Run {
            first: id,
            last: id,
        })
    }

    /// The run after an id that came, which goes past it where it is known.
    fn after(self, id: u32, known: &Known) -> Option<Run>
        requires order { self.first ≤ self.last + 1 }
        requires few { self.last < self.first + 255 }
        ensures each { IfSome result (λ r. (q : ℕ) → r.first ≤ q → q ≤ r.last →
            ((id ≡ q) × (known_seg known.now id ≡ None)) ⊎ ((self.first ≤ q) × (q ≤ self.last))) }
        ensures most { IfSome result (λ r. r.last + self.first ≤ self.last + 1 + r.first) }
        ensures size { IfSome result (λ r. (r.first ≤ r.last + 1) × (r.last < r.first + 255)) }
        ensures long { IsNone result → self.first < self.last }
    {
        match known.find(id) {
            Some(_) => Some(self),
            None => match self.with(id) {
                Some(next) => Some(next),
                None => None,
            },
        }
    }
}

/// The first two or more ids of a list that follow one another and are not known.
fn run_of(ids: &[u32], known: &Known) -> Option<Run>
    ensures each { IfSome result (λ r. (q : ℕ) → r.first ≤ q → q ≤ r.last → Contains ids.now q × (known_seg known.now q ≡ None)) }
    ensures few { IfSome result (λ r. (r.first < r.last) × (r.last < r.first + length ids.now) × (r.last < r.first + 255)) }
{
    let mut run = Run { first: 1, last: 0 };
    for id in ids {
        match run.after(*id, known) {
            None => return Some(run),
            Some(next) => run = next,
        }
    }
    if run.first < run.last {
        Some(run)
    } else {
        None
    }
}

impl LineView {
    /// Knows the segments of ids that follow one another, which are not known and are all there, by one range. It reads at most 6 pages and 3 for
    /// each.
    fn read_run<S: PageStore>(
        &self,
        alloc: Global,
        store: &mut S,
        known: &mut Known,
        run: Run,
    ) -> Result<(), Stop>
        requires rooted { IsRooted (S.size store.old) self.now.tree }
        requires some { run.first ≤ run.last }
        requires few { run.last < run.first + 255 }
        requires away { (q : ℕ) → run.first ≤ q → q ≤ run.last → known_seg known.old q ≡ None }
        requires known { Knows self.now.level (ShowsLines (S.told store.old) self.now.tree self.now.layer self.now.level) (IsMark (S.told store.old) self.now.tree) known.old }
        ensures known { OnOk result (Knows self.now.level (ShowsLines (S.told store.old) self.now.tree self.now.layer self.now.level) (IsMark (S.told store.old) self.now.tree) known.new) }
        ensures stays { OnOk result (StaysKnown known.old known.new) }
        ensures all { OnOk result ((q : ℕ) → run.first ≤ q → q ≤ run.last → (s : AnySeg) × (known_seg known.new q ≡ Some s)) }
        ensures many { OnOk result (many_known known.new ≡ many_known known.old + (run.last + 1 - run.first)) }
        ensures zero { IfErr result (λ e. (rs : List AnyRecord) → IsTree (S.told store.old) self.now.tree rs → NamesPage 1 e) }
        ensures bad { IfErr result (λ e. e ≢ Damaged 0 → NamesBad (S.told store.old) self.now.tree.height self.now.tree.root e) }
        ensures sound { IfErr result (λ e. (l : Lines) → ShowsLines (S.told store.old) self.now.tree self.now.layer self.now.level l
            → ((q : ℕ) → run.first ≤ q → q ≤ run.last → (s : AnySeg) × (finmap.get l.segs q ≡ Some s)) → IsNotDamage e) }
        ensures left { OnlyReads S.PageStore store.old store.new result }
        ensures reads { OnOk result (Goes (λ old new. new ≤ old + (6 + 3 * (run.last + 1 - run.first))) (S.reads store.old) (S.reads store.new)) }
    {
        let low = segment_key(self.layer, run.first);
        let high = segment_key(self.layer, run.last);
        let count = run.last - run.first + 1;
        let mut spot = spot_of(&known.ids);
        let records = self
            .tree
            .range_from(alloc, store, &mut spot, &low, &high, count)?;
        known.ids = mark_of(&spot);
        let mut next = u64::from(run.first);
        for r in &records {
            match self.segment_said(r) {
                Some((id, s)) if u64::from(id) == next => match known.keep(id, s) {
                    Err(_) => return Err(Stop::Memory),
                    Ok(()) => next += 1,
                },
                _ => return Err(DAMAGED),
            }
        }
        if records.len() != count as usize {
            return Err(DAMAGED);
        }
        Ok(())
    }

    /// The segments of these ids, those that follow one another by one range. It reads at most 3 pages for each that was not known, and knows it
    /// then, and 6 more where there are two ids or more.
    pub(crate) fn segments_ahead<S: PageStore>(
        &self,
        alloc: Global,
        store: &mut S,
        known: &mut Known,
        ids: &[u32],
    ) -> Result<SegList, Stop>
        requires rooted { IsRooted (S.size store.old) self.now.tree }
        requires known { Knows self.now.level (ShowsLines (S.told store.old) self.now.tree self.now.layer self.now.level) (IsMark (S.told store.old) self.now.tree) known.old }
        ensures ids { IfOk result (λ list. ids_of list ≡ ids.now) }
        ensures found { IfOk result (λ list. (l : Lines) → ShowsLines (S.told store.old) self.now.tree self.now.layer self.now.level l
            → All (λ e. finmap.get l.segs e.0 ≡ Some e.1) list) }
        ensures inside { IfOk result (λ list. All (λ e. is_seg_in_square self.now.level e.1 ≡ true) list) }
        ensures known { OnOk result (Knows self.now.level (ShowsLines (S.told store.old) self.now.tree self.now.layer self.now.level) (IsMark (S.told store.old) self.now.tree) known.new) }
        ensures stays { OnOk result (StaysKnown known.old known.new) }
        ensures zero { IfErr result (λ e. (rs : List AnyRecord) → IsTree (S.told store.old) self.now.tree rs → NamesPage 1 e) }
        ensures bad { IfErr result (λ e. e ≢ Damaged 0 → NamesBad (S.told store.old) self.now.tree.height self.now.tree.root e) }
        ensures sound { IfErr result (λ e. (l : Lines) → ShowsLines (S.told store.old) self.now.tree self.now.layer self.now.level l
            → ((id : ℕ) → Contains ids.now id → (s : AnySeg) × (finmap.get l.segs id ≡ Some s)) → IsNotDamage e) }
        ensures left { OnlyReads S.PageStore store.old store.new result }
        ensures reads { OnOk result (Goes (λ old new. new ≤ old + (6 + 3 * length ids.now)) (S.reads store.old) (S.reads store.new)) }
        ensures fresh { OnOk result (Goes (λ old new. new + 3 * many_known known.old ≤ old + 6 + 3 * many_known known.new)
            (S.reads store.old) (S.reads store.new)) }
        ensures few { OnOk result (length ids.now ≤ 1 → Goes (λ old new. new ≤ old + 3 * length ids.now) (S.reads store.old) (S.reads store.new)) }
        ensures few_fresh { OnOk result (length ids.now ≤ 1 →
            Goes (λ old new. new + 3 * many_known known.old ≤ old + 3 * many_known known.new) (S.reads store.old) (S.reads store.new)) }
    {
        let Some(run) = run_of(ids, known) else {
            return self.segments_known(alloc, store, known, ids);
        };
        self.read_run(alloc, store, known, run)?;
        self.segments_known(alloc, store, known, ids)
    }
}

ghost use Rattle.std.specs.Prelude.{◌≡◌, ◌≢◌, ℕ, ◌+◌, ◌<◌, ◌≤◌, ◌++◌, IfOk, IfErr, OnOk, MatchOption, List, [], Option, None, length};
ghost use Rattle.quilt_record.specs.declared.record.Record.{Record};
ghost use Rattle.quilt_types.specs.declared.stop.Stop.TheVariants.{Damaged};
ghost use Rattle.quilt_node.specs.Nodes.{page_records};
ghost use Rattle.quilt_store.specs.Calls.{OnlyReads};
ghost use Rattle.quilt_world.specs.Tale.{Goes};
ghost use Rattle.quilt_store.specs.Stops.{IsNotDamage};
ghost use Rattle.quilt_btree.specs.Damage.{NamesBad};
ghost use Rattle.quilt_btree.specs.Stops.{NamesPage};

use crate::lower::{lower_under, place_from};
use crate::step::leaf_for;
use crate::tree::Tree;
use quilt_node::{rec_in, records_in};
use quilt_record::{Key, Record};
use quilt_store::PageStore;
use quilt_types::Stop;

/// A place between the records of a tree: the bytes of a leaf, how many of its records stand before the place, how many it
/// has, and the key that parts this leaf from the next. It is good as long as the tree stays as it is; an edit gives it up.
#[derive(Clone, Copy)]
pub struct Cursor {
    bytes: [u8; 4096],
    place: usize,
    count: usize,
    high: Option<Key>,
    ghost counted: { count ≡ length (page_records bytes) },
    ghost most: { count ≤ 144 },
}

impl Tree {
    ghost use Rattle.quilt_btree.specs.Cursors.{IsParted, StandsIn, IsSought, GoesOver, GoesBack};
    ghost use Rattle.quilt_btree.specs.Trees.{IsRooted, IsTree};

    /// The place behind all records whose keys are below `k`. It reads at most 3 pages.
    pub fn seek<S: PageStore>(&self, store: &mut S, k: &Key) -> Result<Cursor, Stop>
        requires rooted { IsRooted (S.size store.old) self.now }
        requires some { 1 ≤ self.now.height }
        ensures sought { IfOk result (λ c. (rs : List Record) → IsTree (S.told store.old) self.now rs → IsSought (S.told store.old) self.now c k.now rs) }
        ensures sound { IfErr result (λ e. (rs : List Record) → IsTree (S.told store.old) self.now rs → IsNotDamage e) }
        ensures names { IfErr result (NamesPage (S.size store.old)) }
        ensures bad { IfErr result (NamesBad (S.told store.old) self.now.height self.now.root) }
        ensures left { OnlyReads S.PageStore store.old store.new result }
        ensures reads { Goes (λ old new. new ≤ old + 3) (S.reads store.old) (S.reads store.new) }
    {
        match leaf_for(store, self, k) {
            Err(e) => Err(e),
            Ok((bytes, high)) => Ok(Cursor {
                bytes: *bytes,
                place: place_from(bytes, k),
                count: records_in(bytes),
                high,
            }),
        }
    }

    /// Goes to the leaf that a separator key begins.
    fn enter<S: PageStore>(&self, store: &mut S, k: &Key, c: &mut Cursor) -> Result<(), Stop>
        requires rooted { IsRooted (S.size store.old) self.now }
        requires some { 1 ≤ self.now.height }
        ensures stands { OnOk result ((before after : List Record) → IsTree (S.told store.old) self.now (before ++ after)
            → IsParted (S.told store.old) self.now k.now before after → StandsIn (S.told store.old) self.now c.new before after) }
        ensures least { OnOk result ((rs : List Record) → IsTree (S.told store.old) self.now rs → 1 ≤ length (page_records c.new.bytes)) }
        ensures begins { OnOk result (c.new.place ≡ 0) }
        ensures sound { IfErr result (λ e. (rs : List Record) → IsTree (S.told store.old) self.now rs → IsNotDamage e) }
        ensures names { IfErr result (NamesPage (S.size store.old)) }
        ensures bad { IfErr result (NamesBad (S.told store.old) self.now.height self.now.root) }
        ensures left { OnlyReads S.PageStore store.old store.new result }
        ensures reads { Goes (λ old new. new ≤ old + 3) (S.reads store.old) (S.reads store.new) }
    {
        match leaf_for(store, self, k) {
            Err(e) => Err(e),
            Ok((bytes, high)) => {
                c.bytes = *bytes;
                c.place = 0;
                c.count = records_in(bytes);
                c.high = high;
                Ok(())
            }
        }
    }

    /// Goes over the next record, which is the answer: none where the cursor stands behind the last. It reads nothing
    /// where the record is in the cursor's leaf, and else at most 3 pages. Page 0 is said to be damaged where a leaf has no
    /// record.
    pub fn next<S: PageStore>(&self, store: &mut S, c: &mut Cursor) -> Result<Option<Record>, Stop>
        requires rooted { IsRooted (S.size store.old) self.now }
        requires some { 1 ≤ self.now.height }
        ensures next { IfOk result (λ r. (before after : List Record) → IsTree (S.told store.old) self.now (before ++ after)
            → StandsIn (S.told store.old) self.now c.old before after
            → MatchOption r (after ≡ []) (λ r. GoesOver (S.told store.old) self.now r c.new before after)) }
        ensures sound { IfErr result (λ e. (before after : List Record) → IsTree (S.told store.old) self.now (before ++ after)
            → StandsIn (S.told store.old) self.now c.old before after → IsNotDamage e) }
        ensures names { IfErr result (NamesPage (S.size store.old)) }
        ensures bad { IfErr result (λ e. e ≢ Damaged 0 → NamesBad (S.told store.old) self.now.height self.now.root e) }
        ensures left { OnlyReads S.PageStore store.old store.new result }
        ensures reads { Goes (λ old new. new ≤ old + 3) (S.reads store.old) (S.reads store.new) }
        ensures here { c.old.place < length (page_records c.old.bytes) → Goes (λ old new. new ≤ old) (S.reads store.old) (S.reads store.new) }
    {
        if c.place < c.count {
            return Ok(Some(c.over()));
        }
        let k = match c.high {
            None => return Ok(None),
            Some(k) => k,
        };
        self.enter(store, &k, c)?;
        if c.place < c.count {
            Ok(Some(c.over()))
        } else {
            Err(Stop::Damaged { page: 0 })
        }
    }

    /// Goes back over the record before the cursor's place, which is the answer: none where it stands before the first, and
    /// there it stays. It reads nothing where the record is in the cursor's leaf, and else at most 8 pages.
    pub fn previous<S: PageStore>(
        &self,
        store: &mut S,
        c: &mut Cursor,
    ) -> Result<Option<Record>, Stop>
        requires rooted { IsRooted (S.size store.old) self.now }
        requires some { 1 ≤ self.now.height }
        ensures previous { IfOk result (λ r. (before after : List Record) → IsTree (S.told store.old) self.now (before ++ after)
            → StandsIn (S.told store.old) self.now c.old before after
            → MatchOption r (before ≡ []) (λ r. GoesBack (S.told store.old) self.now r c.new before after)) }
        ensures stays { IfOk result (λ r. r ≡ None → c.new ≡ c.old) }
        ensures sound { IfErr result (λ e. (rs : List Record) → IsTree (S.told store.old) self.now rs → IsNotDamage e) }
        ensures names { IfErr result (NamesPage (S.size store.old)) }
        ensures bad { IfErr result (NamesBad (S.told store.old) self.now.height self.now.root) }
        ensures left { OnlyReads S.PageStore store.old store.new result }
        ensures reads { Goes (λ old new. new ≤ old + 8) (S.reads store.old) (S.reads store.new) }
        ensures here { 0 < c.old.place → c.old.place ≤ length (page_records c.old.bytes)
            → Goes (λ old new. new ≤ old) (S.reads store.old) (S.reads store.new) }
    {
        if 0 < c.place && c.place <= records_in(&c.bytes) {
            return Ok(Some(c.back()));
        }
        let first = rec_in(&c.bytes, 0);
        match lower_under(store, self.root, self.height, &first.key)? {
            None => Ok(None),
            Some(r) => match self.seek(store, &r.key) {
                Err(e) => Err(e),
                Ok(found) => {
                    *c = found;
                    Ok(Some(r))
                }
            },
        }
    }
}

impl Cursor {
    ghost use Rattle.quilt_btree.specs.Cursors.{StandsIn, GoesOver, GoesBack};

    /// The record behind the cursor's place, which goes over it.
    fn over(&mut self) -> Record
        requires here { self.old.place < length (page_records self.old.bytes) }
        requires place { self.old.place < 144 }
        ensures { (told : Option (List (List ℕ))) (t : Tree) (before after : List Record) → StandsIn told t self.old before after
            → GoesOver told t result self.new before after }
    {
        let r = rec_in(&self.bytes, self.place);
        self.place += 1;
        r
    }

    /// The record before the cursor's place, which goes back over it.
    fn back(&mut self) -> Record
        requires here { 0 < self.old.place }
        requires place { (self.old.place ≤ 144) × (self.old.place ≤ length (page_records self.old.bytes)) }
        ensures { (told : Option (List (List ℕ))) (t : Tree) (before after : List Record) → StandsIn told t self.old before after
            → GoesBack told t result self.new before after }
    {
        self.place -= 1;
        rec_in(&self.bytes, self.place)
    }
}

ghost use Rattle.std.specs.Prelude.{◌≡◌, ◌≢◌, ℕ, ◌+◌, ◌-◌, ◌*◌, ◌<◌, ◌≤◌, true, false, IfOk, IfErr, IfSome, None, OnOk, List, length, take};
ghost use Rattle.quilt_record.specs.declared.record.Record.{Record};
ghost use Rattle.quilt_types.specs.Facts.{quota};
ghost use Rattle.quilt_types.specs.declared.stop.Stop.TheVariants.{Damaged};
ghost use Rattle.quilt_node.specs.Pages.{is_ascending};
ghost use Rattle.quilt_btree.specs.Batches.{edit_keys, is_due, edited, are_due, edit_all, more_of, fewer_of, cost_of, looks_of, more, fewer, removed, records_put, CountsFirst, EditsFirst};
ghost use Rattle.quilt_btree.specs.Runs.{put_all, without_all};
ghost use Rattle.quilt_btree.specs.Damage.{NamesBad};
ghost use Rattle.quilt_btree.specs.Costs.{EditsWithinOnOk};
ghost use Rattle.quilt_btree.specs.Stops.{NamesPage};

use crate::batch::Batch;
use crate::edit::Edit;
use crate::leaf_edits::edit_under;
use crate::pages::stop_behind;
use crate::tree::Tree;
use quilt_store::PageStore;
use quilt_types::Stop;

impl Tree {
    ghost use Rattle.quilt_btree.specs.Trees.{IsRooted};
    ghost use Rattle.quilt_btree.specs.Edits.{IsWhole};

    /// Makes the edits of a batch in one walk from left to right: a leaf that they concern is looked for
    /// once, read once and written once, but where it has to be split or rebalanced. It changes at most 7 pages for each
    /// record that goes and 6 for each that comes, and reads at most 10 and 6; one in the place of another counts for both.
    /// Where an edit is not due page 0 is said to be damaged, and the tree and the store are then only given up. Behind its
    /// first step it names no page over 0.
    pub fn apply<S: PageStore>(&mut self, store: &mut S, batch: &Batch) -> Result<(), Stop>
        requires rooted { IsRooted (S.size store.old) self.old }
        requires room { self.old.records + more batch.now ≤ quota (S.size store.old) }
        ensures rooted { OnOk result (IsRooted (S.size store.old) self.new) }
        ensures edited { OnOk result ((rs : List Record) → IsWhole (S.told store.old) (S.free store.old) (S.size store.old) self.old rs
            → (are_due batch.now rs ≡ true) × IsWhole (S.told store.new) (S.free store.new) (S.size store.old) self.new (edit_all batch.now rs)) }
        ensures list { (rs : List Record) → IsWhole (S.told store.old) (S.free store.old) (S.size store.old) self.old rs → are_due batch.now rs ≡ true
            → edit_all batch.now rs ≡ put_all (records_put batch.now) (without_all (removed batch.now) rs) }
        ensures count { OnOk result (self.new.records + fewer batch.now ≡ self.old.records + more batch.now) }
        ensures fails { IfErr result (λ e. (rs : List Record) → IsWhole (S.told store.old) (S.free store.old) (S.size store.old) self.old rs
            → (page : ℕ) → e ≡ Damaged page → (page ≡ 0) × (are_due batch.now rs ≡ false)) }
        ensures names { IfErr result (NamesPage (S.size store.old)) }
        ensures bad { IfErr result (λ e. e ≢ Damaged 0 → NamesBad (S.told store.old) self.old.height self.old.root e) }
        ensures left { EditsWithinOnOk S.PageStore (7 * length (removed batch.now) + 6 * length (records_put batch.now))
            (10 * length (removed batch.now) + 6 * length (records_put batch.now)) store.old store.new result }
    {
        let run = batch.edits();
        let mut done = 0;
        while done < run.len() {
            match self.apply_some(store, &run[done..]) {
                Err(e) => return Err(stop_behind(e, done)),
                Ok(n) => done += n,
            }
        }
        Ok(())
    }

    /// Makes the first edits of a run: those that one leaf takes, or else the first. The answer is their number.
    fn apply_some<S: PageStore>(&mut self, store: &mut S, run: &[Edit]) -> Result<usize, Stop>
        requires rooted { IsRooted (S.size store.old) self.old }
        requires room { self.old.records + more run.now ≤ quota (S.size store.old) }
        requires some { 1 ≤ length run.now }
        requires order { is_ascending (edit_keys run.now) ≡ true }
        ensures counts { CountsFirst (S.size store.old) run.now self.old self.new result }
        ensures edited { IfOk result (λ n. (rs : List Record) → IsWhole (S.told store.old) (S.free store.old) (S.size store.old) self.old rs
            → (are_due (take n run.now) rs ≡ true)
            × IsWhole (S.told store.new) (S.free store.new) (S.size store.old) self.new (edit_all (take n run.now) rs)) }
        ensures fails { IfErr result (λ e. (rs : List Record) → IsWhole (S.told store.old) (S.free store.old) (S.size store.old) self.old rs
            → (page : ℕ) → e ≡ Damaged page → (page ≡ 0) × (are_due run.now rs ≡ false)) }
        ensures names { IfErr result (NamesPage (S.size store.old)) }
        ensures bad { IfErr result (λ e. e ≢ Damaged 0 → NamesBad (S.told store.old) self.old.height self.old.root e) }
        ensures left { EditsFirst S.PageStore 0 0 run.now store.old store.new result }
    {
        if self.height == 0 {
            return self.apply_first(store, run);
        }
        let n = edit_under(store, self.root, self.height, true, &None, run)?;
        if n == 0 {
            return self.apply_first(store, run);
        }
        match records_behind(self.records, &run[..n]) {
            None => Err(Stop::Damaged { page: 0 }),
            Some(records) => {
                self.records = records;
                Ok(n)
            }
        }
    }

    /// Makes the first edit of a run, and further ones where they put records in behind it that make a leaf of their own.
    fn apply_first<S: PageStore>(&mut self, store: &mut S, run: &[Edit]) -> Result<usize, Stop>
        requires rooted { IsRooted (S.size store.old) self.old }
        requires room { self.old.records + more run.now ≤ quota (S.size store.old) }
        requires some { 1 ≤ length run.now }
        requires order { is_ascending (edit_keys run.now) ≡ true }
        ensures counts { CountsFirst (S.size store.old) run.now self.old self.new result }
        ensures edited { IfOk result (λ n. (rs : List Record) → IsWhole (S.told store.old) (S.free store.old) (S.size store.old) self.old rs
            → (are_due (take n run.now) rs ≡ true)
            × IsWhole (S.told store.new) (S.free store.new) (S.size store.old) self.new (edit_all (take n run.now) rs)) }
        ensures fails { IfErr result (λ e. (rs : List Record) → IsWhole (S.told store.old) (S.free store.old) (S.size store.old) self.old rs
            → (page : ℕ) → e ≡ Damaged page → (page ≡ 0) × (are_due run.now rs ≡ false)) }
        ensures names { IfErr result (NamesPage (S.size store.old)) }
        ensures bad { IfErr result (λ e. e ≢ Damaged 0 → NamesBad (S.told store.old) self.old.height self.old.root e) }
        ensures left { EditsFirst S.PageStore 1 3 run.now store.old store.new result }
    {
        match &run[0] {
            Edit::Put { record } if self.height != 0 => self.place(store, record, &run[1..]),
            first => {
                self.apply_one(store, first)?;
                Ok(1)
            }
        }
    }

    /// Makes one edit, and splits or rebalances pages for it. A record in the place of another comes here only over a tree
    /// that is not whole.
    fn apply_one<S: PageStore>(&mut self, store: &mut S, edit: &Edit) -> Result<(), Stop>
        requires rooted { IsRooted (S.size store.old) self.old }
        requires room { self.old.records + more_of edit.now ≤ quota (S.size store.old) }
        ensures rooted { OnOk result (IsRooted (S.size store.old) self.new) }
        ensures edited { OnOk result ((rs : List Record) → IsWhole (S.told store.old) (S.free store.old) (S.size store.old) self.old rs
            → (is_due edit.now rs ≡ true) × IsWhole (S.told store.new) (S.free store.new) (S.size store.old) self.new (edited edit.now rs)) }
        ensures count { OnOk result (self.new.records + fewer_of edit.now ≡ self.old.records + more_of edit.now) }
        ensures fails { IfErr result (λ e. (rs : List Record) → IsWhole (S.told store.old) (S.free store.old) (S.size store.old) self.old rs
            → (page : ℕ) → e ≡ Damaged page → (page ≡ 0) × (is_due edit.now rs ≡ false)) }
        ensures names { IfErr result (NamesPage (S.size store.old)) }
        ensures bad { IfErr result (λ e. e ≢ Damaged 0 → NamesBad (S.told store.old) self.old.height self.old.root e) }
        ensures left { EditsWithinOnOk S.PageStore (cost_of edit.now - 1) (looks_of edit.now - 3) store.old store.new result }
    {
        match edit {
            Edit::Remove { key } => {
                let is_out = self.remove(store, key)?;
                if is_out {
                    Ok(())
                } else {
                    Err(Stop::Damaged { page: 0 })
                }
            }
            Edit::Put { record } => {
                let is_new = self.insert(store, record)?;
                if is_new {
                    Ok(())
                } else {
                    Err(Stop::Damaged { page: 0 })
                }
            }
            Edit::Replace { record } => {
                let is_out = self.remove(store, &record.key)?;
                if !is_out {
                    return Err(Stop::Damaged { page: 0 });
                }
                match self.insert(store, record) {
                    Err(e) => Err(stop_behind(e, 1)),
                    Ok(is_new) => {
                        if is_new {
                            Ok(())
                        } else {
                            Err(Stop::Damaged { page: 0 })
                        }
                    }
                }
            }
        }
    }
}

/// How many records the edit adds: 0 or 1.
fn comes(e: &Edit) -> usize
    ensures number { result ≡ more_of e.now }
    ensures most { result ≤ 1 }
{
    match e {
        Edit::Put { .. } => 1,
        Edit::Remove { .. } => 0,
        Edit::Replace { .. } => 0,
    }
}

/// How many records the edit takes: 0 or 1.
fn goes(e: &Edit) -> usize
    ensures number { result ≡ fewer_of e.now }
    ensures most { result ≤ 1 }
{
    match e {
        Edit::Remove { .. } => 1,
        Edit::Put { .. } => 0,
        Edit::Replace { .. } => 0,
    }
}

/// How many records the edits of a run add to a tree: one for each that comes in no other's place.
pub fn count_added(run: &[Edit]) -> usize
    ensures number { result ≡ more run.now }
    ensures most { result ≤ length run.now }
{
    let mut come = 0;
    for i in 0..run.len() {
        come += comes(&run[i]);
    }
    come
}

/// How many records the edits of a run take out of a tree.
fn records_taken(run: &[Edit]) -> usize
    ensures number { result ≡ fewer run.now }
    ensures most { result ≤ length run.now }
{
    let mut gone = 0;
    for i in 0..run.len() {
        gone += goes(&run[i]);
    }
    gone
}

/// The number of records of a tree behind some edits: none where it would have none.
fn records_behind(records: u32, run: &[Edit]) -> Option<u32>
    requires { records + more run.now < 4294967296 }
    ensures some { IfSome result (λ m. (m + fewer run.now ≡ records + more run.now) × (1 ≤ m)) }
    ensures none { result ≡ None → records + more run.now ≤ fewer run.now }
{
    let all = records as usize + count_added(run);
    let gone = records_taken(run);
    if all <= gone {
        return None;
    }
    Some((all - gone) as u32)
}

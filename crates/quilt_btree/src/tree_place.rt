ghost use Rattle.std.specs.Prelude.{◌≡◌, ◌≢◌, ℕ, ◌+◌, ◌≤◌, true, false, IfOk, IfErr, List, ◌∷◌, take};
ghost use Rattle.quilt_record.specs.declared.record.Record.{Record};
ghost use Rattle.quilt_types.specs.Facts.{quota};
ghost use Rattle.quilt_types.specs.declared.stop.Stop.TheVariants.{Damaged};
ghost use Rattle.quilt_node.specs.Pages.{is_ascending};
ghost use Rattle.quilt_btree.specs.declared.edit.Edit.TheVariants as edits;
ghost use Rattle.quilt_btree.specs.Batches.{edit_keys, are_due, edit_all, more, CountsFirst, EditsFirst};
ghost use Rattle.quilt_btree.specs.Damage.{NamesBad};
ghost use Rattle.quilt_btree.specs.Stops.{NamesPage};

use crate::edit::Edit;
use crate::outcomes::Inserted;
use crate::placement::place_under;
use crate::split::write_new;
use crate::tree::Tree;
use quilt_node::InnerPage;
use quilt_record::Record;
use quilt_store::PageStore;
use quilt_types::Stop;

impl Tree {
    ghost use Rattle.quilt_btree.specs.Trees.{IsRooted};
    ghost use Rattle.quilt_btree.specs.Edits.{IsWhole};

    /// Puts a record into a tree that has some, and those that a run has behind it where they make a leaf of their own behind one that is full: leaves that
    /// are filled in the order of their keys come out full, and not half full as by splits. The answer is how many records came. Where the key is there, page
    /// 0 is said to be damaged.
    pub(crate) fn place<S: PageStore>(
        &mut self,
        store: &mut S,
        r: &Record,
        behind: &[Edit],
    ) -> Result<usize, Stop>
        requires rooted { IsRooted (S.size store.old) self.old }
        requires some { self.old.height ≢ 0 }
        requires room { self.old.records + more (edits.Put r.now ∷ behind.now) ≤ quota (S.size store.old) }
        requires order { is_ascending (r.now.key ∷ edit_keys behind.now) ≡ true }
        ensures counts { CountsFirst (S.size store.old) (edits.Put r.now ∷ behind.now) self.old self.new result }
        ensures edited { IfOk result (λ n. (rs : List Record) → IsWhole (S.told store.old) (S.free store.old) (S.size store.old) self.old rs
            → (are_due (take n (edits.Put r.now ∷ behind.now)) rs ≡ true)
            × IsWhole (S.told store.new) (S.free store.new) (S.size store.old) self.new (edit_all (take n (edits.Put r.now ∷ behind.now)) rs)) }
        ensures fails { IfErr result (λ e. (rs : List Record) → IsWhole (S.told store.old) (S.free store.old) (S.size store.old) self.old rs
            → (page : ℕ) → e ≡ Damaged page → (page ≡ 0) × (are_due (edits.Put r.now ∷ behind.now) rs ≡ false)) }
        ensures names { IfErr result (NamesPage (S.size store.old)) }
        ensures bad { IfErr result (λ e. e ≢ Damaged 0 → NamesBad (S.told store.old) self.old.height self.old.root e) }
        ensures left { EditsFirst S.PageStore 1 3 (edits.Put r.now ∷ behind.now) store.old store.new result }
    {
        let placed = place_under(store, self.root, self.height, r, &None, behind)?;
        let come = placed.more + 1;
        let records = self.records + come as u32;
        match placed.outcome {
            Inserted::There => Err(Stop::Damaged { page: 0 }),
            Inserted::Done => {
                self.records = records;
                Ok(come)
            }
            Inserted::Split { key, right } => {
                if self.height == 3 {
                    return Err(Stop::Damaged { page: 0 });
                }
                let page = InnerPage::pair(self.height + 1, self.root, &key, right);
                let root = write_new(store, page.bytes())?;
                *self = Tree {
                    root,
                    height: self.height + 1,
                    records,
                };
                Ok(come)
            }
        }
    }
}

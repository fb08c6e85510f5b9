ghost use Rattle.std.specs.Prelude.{◌≡◌, ◌≢◌, ℕ, ◌+◌, ◌<◌, ◌≤◌, Bool, true, false, not, IfOk, IfErr, OnOk, List, length, if◌then◌else◌};
ghost use Rattle.std.specs.List.{list_any};
ghost use Rattle.quilt_record.specs.declared.record.Record.{Record};
ghost use Rattle.quilt_types.specs.Facts.{quota};
ghost use Rattle.quilt_store.specs.Store.{count_free};
ghost use Rattle.quilt_record.specs.Lists.{has_key, put};
ghost use Rattle.quilt_types.specs.declared.stop.Stop.TheVariants.{Damaged};
ghost use Rattle.quilt_btree.specs.Damage.{NamesBad};
ghost use Rattle.quilt_store.specs.Stops.{IsNotDamage};
ghost use Rattle.quilt_btree.specs.Costs.{EditsWithin, IsUntouched};
ghost use Rattle.quilt_btree.specs.Stops.{NamesPage};

use crate::insertion::insert_under;
use crate::outcomes::Inserted;
use crate::split::write_new;
use crate::tree::Tree;
use quilt_node::{InnerPage, LeafPage};
use quilt_record::Record;
use quilt_store::PageStore;
use quilt_types::Stop;

impl Tree {
    ghost use Rattle.quilt_btree.specs.Trees.{IsRooted};
    ghost use Rattle.quilt_btree.specs.Edits.{IsWhole, HasItsPages, InsertsInto};

    /// Puts a record in: false exactly where its key is there, and nothing changes. It changes at most 5 pages, and reads at
    /// most 3. Over a store that tells nothing, page 0 is said to be damaged where no page is free for a split, a page that
    /// is to be written is free, the tree would come to height 4, or a page does not fit the one above by its height or its
    /// keys; and any other page where that was not well formed at the call: an inner page that stays as it is is not looked
    /// into.
    pub fn insert<S: PageStore>(&mut self, store: &mut S, r: &Record) -> Result<bool, Stop>
        requires rooted { IsRooted (S.size store.old) self.old }
        requires room { self.old.records < quota (S.size store.old) }
        ensures rooted { OnOk result (IsRooted (S.size store.old) self.new) }
        ensures inserts { InsertsInto S.PageStore r.now self.old self.new store.old store.new result }
        ensures same { IfOk result (λ is_new. is_new ≡ false → (self.new ≡ self.old) × IsUntouched S.PageStore store.old store.new) }
        ensures sound { IfErr result (λ e. (rs : List Record) → IsWhole (S.told store.old) (S.free store.old) (S.size store.old) self.old rs → IsNotDamage e) }
        ensures goes { IfErr result (λ e. (rs : List Record) → HasItsPages (S.told store.old) (S.free store.old) self.old rs
            → length rs ≡ self.old.records → self.old.height < count_free (S.free store.old) (S.size store.old) → IsNotDamage e) }
        ensures names { IfErr result (NamesPage (S.size store.old)) }
        ensures bad { IfErr result (λ e. e ≢ Damaged 0 → NamesBad (S.told store.old) self.old.height self.old.root e) }
        ensures left { EditsWithin S.PageStore 5 3 store.old store.new result }
    {
        if self.height == 0 {
            let leaf = LeafPage::one(r);
            let root = write_new(store, leaf.bytes())?;
            *self = Tree {
                root,
                height: 1,
                records: 1,
            };
            return Ok(true);
        }
        match insert_under(store, self.root, self.height, r)? {
            Inserted::There => Ok(false),
            Inserted::Done => {
                self.records += 1;
                Ok(true)
            }
            Inserted::Split { key, right } => {
                if self.height == 3 {
                    return Err(Stop::Damaged { page: 0 });
                }
                let page = InnerPage::pair(self.height + 1, self.root, &key, right);
                let root = write_new(store, page.bytes())?;
                *self = Tree {
                    root,
                    height: self.height + 1,
                    records: self.records + 1,
                };
                Ok(true)
            }
        }
    }
}

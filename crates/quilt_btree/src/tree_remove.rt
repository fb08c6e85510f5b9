ghost use Rattle.std.specs.Prelude.{◌≡◌, ◌≢◌, ℕ, ◌+◌, ◌-◌, ◌<◌, ◌≤◌, Bool, true, false, IfOk, IfErr, OnOk, IsErrOf, List, length};
ghost use Rattle.std.specs.List.{list_any};
ghost use Rattle.quilt_record.specs.declared.record.Record.{Record};
ghost use Rattle.quilt_types.specs.declared.stop.Stop.TheVariants.{Device, Damaged};
ghost use Rattle.quilt_record.specs.Lists.{has_key, without};
ghost use Rattle.quilt_btree.specs.Damage.{NamesBad};
ghost use Rattle.quilt_store.specs.Stops.{IsNotDamage};
ghost use Rattle.quilt_btree.specs.Costs.{EditsWithin, IsUntouched};
ghost use Rattle.quilt_btree.specs.Stops.{NamesPage};

use crate::outcomes::Removed;
use crate::removal::remove_under;
use crate::tree::Tree;
use crate::writes::give_back;
use quilt_record::Key;
use quilt_store::PageStore;
use quilt_types::Stop;

impl Tree {
    ghost use Rattle.quilt_btree.specs.Trees.{IsRooted};
    ghost use Rattle.quilt_btree.specs.Edits.{IsWhole, HasItsPages, RemovesFrom};

    /// Takes the record of a key out: false exactly where there is none, and nothing changes. It changes at most 6 pages,
    /// and reads at most 7. Over a store that tells nothing, page 0 is said to be damaged where a page that is to be written
    /// or given back is free, the number of records does not go with the height, a page does not fit the one above or beside
    /// by its height, its keys or how few they are, or an inner page beside one that was written is not well formed; and any
    /// other page where that was not well formed at the call, also a leaf beside the one that is edited: an inner page that
    /// stays as it is is not looked into.
    pub fn remove<S: PageStore>(&mut self, store: &mut S, k: &Key) -> Result<bool, Stop>
        requires rooted { IsRooted (S.size store.old) self.old }
        ensures rooted { OnOk result (IsRooted (S.size store.old) self.new) }
        ensures removes { RemovesFrom S.PageStore k.now self.old self.new store.old store.new result }
        ensures same { IfOk result (λ is_out. is_out ≡ false → (self.new ≡ self.old) × IsUntouched S.PageStore store.old store.new) }
        ensures count { IfOk result (λ is_out. is_out ≡ true → self.new.records + 1 ≡ self.old.records) }
        ensures sound { IfErr result (λ e. (rs : List Record) → IsWhole (S.told store.old) (S.free store.old) (S.size store.old) self.old rs → IsNotDamage e) }
        ensures goes { IfErr result (λ e. (rs : List Record) → HasItsPages (S.told store.old) (S.free store.old) self.old rs
            → length rs ≡ self.old.records → IsNotDamage e) }
        ensures names { IfErr result (NamesPage (S.size store.old)) }
        ensures bad { IfErr result (λ e. e ≢ Damaged 0 → NamesBad (S.told store.old) self.old.height self.old.root e) }
        ensures left { EditsWithin S.PageStore 6 7 store.old store.new result }
    {
        if self.height == 0 {
            return Ok(false);
        }
        match remove_under(store, self.root, self.height, k)? {
            Removed::Missing => Ok(false),
            Removed::Done => self.shrink(self.root, self.height),
            Removed::Underfull => self.shrink(self.root, self.height),
            Removed::Emptied => {
                give_back(store, self.root)?;
                self.shrink(0, 0)
            }
            Removed::Only { child } => {
                give_back(store, self.root)?;
                self.shrink(child, self.height - 1)
            }
        }
    }

    /// Makes it a tree with this root and height, and one record fewer. Where the numbers do not fit together, page 0 is
    /// said to be damaged.
    fn shrink(&mut self, root: u32, height: u8) -> Result<bool, Stop>
        requires { 1 ≤ self.old.records }
        ensures tree { OnOk result (self.new ≡ record { root = root; height = height; records = self.old.records - 1 }) }
        ensures answer { IfOk result (λ is_out. is_out ≡ true) }
        ensures none { OnOk result (height ≡ 0 → (root ≡ 0) × (self.old.records ≡ 1)) }
        ensures some { OnOk result (1 ≤ height → 2 ≤ self.old.records) }
        ensures cause { IsErrOf result Device → ⊥ }
        ensures names { (size : ℕ) → 0 < size → IfErr result (NamesPage size) }
        ensures sound { IfErr result (λ e. (height ≡ 0 → (root ≡ 0) × (self.old.records ≡ 1)) → (1 ≤ height → 2 ≤ self.old.records) → IsNotDamage e) }
    {
        let records = self.records - 1;
        if height == 0 && (root != 0 || records != 0) {
            return Err(Stop::Damaged { page: 0 });
        }
        if height != 0 && records == 0 {
            return Err(Stop::Damaged { page: 0 });
        }
        *self = Tree {
            root,
            height,
            records,
        };
        Ok(true)
    }
}

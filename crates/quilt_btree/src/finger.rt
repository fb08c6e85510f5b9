ghost use Rattle.std.specs.Prelude.{◌≡◌, ℕ, ◌+◌, ◌≤◌, true, IfOk, IfErr, IfSome, OnOk, List, Option, Some};
ghost use Rattle.quilt_record.specs.declared.record.Record.{Record};
ghost use Rattle.quilt_store.specs.Calls.{OnlyReads};
ghost use Rattle.quilt_world.specs.Tale.{Goes};
ghost use Rattle.quilt_store.specs.Stops.{IsNotDamage};
ghost use Rattle.quilt_btree.specs.Damage.{NamesBad};
ghost use Rattle.quilt_btree.specs.Lists.{floor_of};
ghost use Rattle.quilt_btree.specs.Fingers.{IsFinger};
ghost use Rattle.quilt_btree.specs.Stops.{NamesPage};
ghost use Rattle.quilt_btree.specs.Trees.{IsRooted, IsTree};

use crate::balance::is_under;
use crate::search::floor_in;
use crate::step::leaf_for;
use crate::tree::Tree;
use quilt_record::{Key, Record};
use quilt_store::PageStore;
use quilt_types::Stop;

/// The finger of a search: the leaf of a tree that it came to, and the key that parts this leaf from the next. A search for
/// another key looks there first. It is good as long as the tree stays as it is; an edit gives it up.
#[derive(Clone, Copy)]
pub struct Finger {
    bytes: [u8; 4096],
    high: Option<Key>,
}

impl Tree {
    /// The record with the greatest key that is at most `k`: none exactly where there is none. It looks into the finger's
    /// leaf, and reads nothing where the record is there. Elsewhere it puts the finger to the leaf to which the key leads,
    /// which takes at most 3 pages, and 6 more where all keys of that leaf are greater.
    pub fn floor_near<S: PageStore>(
        &self,
        store: &mut S,
        finger: &mut Option<Finger>,
        k: &Key,
    ) -> Result<Option<Record>, Stop>
        requires rooted { IsRooted (S.size store.old) self.now }
        requires finger { IsFinger (S.told store.old) self.now finger.old }
        ensures floor { IfOk result (λ r. (rs : List Record) → IsTree (S.told store.old) self.now rs → r ≡ floor_of k.now rs) }
        ensures finger { OnOk result (IsFinger (S.told store.old) self.now finger.new) }
        ensures sound { IfErr result (λ e. (rs : List Record) → IsTree (S.told store.old) self.now rs → IsNotDamage e) }
        ensures names { IfErr result (NamesPage (S.size store.old)) }
        ensures bad { IfErr result (NamesBad (S.told store.old) self.now.height self.now.root) }
        ensures left { OnlyReads S.PageStore store.old store.new result }
        ensures reads { Goes (λ old new. new ≤ old + 9) (S.reads store.old) (S.reads store.new) }
    {
        match floor_at_finger(finger, k) {
            Some(r) => return Ok(Some(r)),
            None => {}
        }
        if self.height == 0 {
            return Ok(None);
        }
        self.put_finger(store, finger, k)?;
        match floor_at_finger(finger, k) {
            Some(r) => Ok(Some(r)),
            None => self.floor(store, k),
        }
    }

    /// Puts the finger to the leaf to which a key leads. It reads at most 3 pages.
    fn put_finger<S: PageStore>(
        &self,
        store: &mut S,
        finger: &mut Option<Finger>,
        k: &Key,
    ) -> Result<(), Stop>
        requires rooted { IsRooted (S.size store.old) self.now }
        requires some { 1 ≤ self.now.height }
        ensures finger { OnOk result (IsFinger (S.told store.old) self.now finger.new) }
        ensures sound { IfErr result (λ e. (rs : List Record) → IsTree (S.told store.old) self.now rs → IsNotDamage e) }
        ensures names { IfErr result (NamesPage (S.size store.old)) }
        ensures bad { IfErr result (NamesBad (S.told store.old) self.now.height self.now.root) }
        ensures left { OnlyReads S.PageStore store.old store.new result }
        ensures reads { Goes (λ old new. new ≤ old + 3) (S.reads store.old) (S.reads store.new) }
    {
        match leaf_for(store, self, k) {
            Err(e) => Err(e),
            Ok((bytes, high)) => {
                *finger = Some(Finger {
                    bytes: *bytes,
                    high,
                });
                Ok(())
            }
        }
    }
}

/// The record of the finger's leaf with the greatest key that is at most `k`: none where another leaf may have it.
fn floor_at_finger(finger: &Option<Finger>, k: &Key) -> Option<Record>
    ensures { IfSome result (λ r. (told : Option (List (List ℕ))) (t : Tree) (rs : List Record) → IsTree told t rs → IsFinger told t finger.now
        → Some r ≡ floor_of k.now rs) }
{
    match finger {
        None => None,
        Some(leaf) => {
            if is_under(k, &leaf.high) {
                floor_in(&leaf.bytes, k)
            } else {
                None
            }
        }
    }
}

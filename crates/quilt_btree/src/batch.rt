ghost use Rattle.std.specs.Prelude.{◌≡◌, ◌≤◌, [], ◌∷◌, ◌++◌, true, false, IfOk, OnErr, length};
ghost use Rattle.quilt_node.specs.Pages.{is_ascending};
ghost use Rattle.quilt_btree.specs.Batches.{key_of, edit_keys, more};

use crate::balance::precedes;
use crate::edit::Edit;
use crate::tree_apply::count_added;
use quilt_record::Key;
use std::alloc::{AllocError, Global};
use std::marker::Model;

/// Edits of a tree in the order of their keys, with one at most for each key.
#[derive(Drop)]
pub struct Batch {
    edits: Vec<Edit>,
}

impl Model for Batch {
    ghost use Rattle.std.specs.Prelude.{◌≡◌, true, List};
    ghost use Rattle.quilt_node.specs.Pages.{is_ascending};
    ghost use Rattle.quilt_btree.specs.declared.edit.Edit.{Edit};
    ghost use Rattle.quilt_btree.specs.Batches.{edit_keys};

    ghost Value = { List Edit };

    ghost view = { λ b. b.edits.items };

    ghost invariant = { λ b. is_ascending (edit_keys b.edits.items) ≡ true };
}

impl Batch {
    /// A batch of no edits. It takes no memory, and keeps the allocator.
    pub fn new(alloc: Global) -> Batch
        ensures { result ≡ [] }
    {
        Batch {
            edits: Vec::new(alloc),
        }
    }

    /// Adds an edit behind the others, or nothing where its key is not above theirs, which is answered by false, or where no
    /// memory is left.
    pub fn push(&mut self, edit: Edit) -> Result<bool, AllocError>
        ensures takes { IfOk result (λ is_in. is_in ≡ is_ascending (edit_keys self.old ++ key_of edit ∷ [])) }
        ensures added { IfOk result (λ is_in. is_in ≡ true → self.new ≡ self.old ++ edit ∷ []) }
        ensures same { IfOk result (λ is_in. is_in ≡ false → self.new ≡ self.old) }
        ensures err { OnErr result (self.new ≡ self.old) }
    {
        if !follows(&self.edits, edit.key()) {
            return Ok(false);
        }
        self.edits.push(edit)?;
        Ok(true)
    }

    /// The edits.
    pub fn edits(&self) -> &[Edit]
        ensures edits { result.now ≡ self.now }
        ensures order { is_ascending (edit_keys self.now) ≡ true }
    {
        &self.edits
    }

    /// How many records the edits add to a tree: one for each that comes in no other's place.
    pub fn records_added(&self) -> usize
        ensures number { result ≡ more self.now }
        ensures most { result ≤ length self.now }
    {
        count_added(&self.edits)
    }
}

/// Whether a key is above those of edits whose keys ascend.
fn follows(edits: &[Edit], k: &Key) -> bool
    requires { is_ascending (edit_keys edits.now) ≡ true }
    ensures { result ≡ is_ascending (edit_keys edits.now ++ k.now ∷ []) }
{
    let n = edits.len();
    n == 0 || precedes(edits[n - 1].key(), k)
}

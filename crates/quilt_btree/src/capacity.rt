ghost use Rattle.std.specs.Prelude.{◌≡◌, ℕ, ◌+◌, ◌<◌, ◌≤◌, List, length};
ghost use Rattle.quilt_types.specs.Facts.{quota};
ghost use Rattle.quilt_record.specs.declared.record.Record.{Record};
ghost use Rattle.quilt_node.specs.Tree.{Whole, walk_of};

/// The most pages that a tree with so many records can use, whose height is at most 3. A store of `size` pages leaves
/// at least 6 pages beside page 0 and those of a tree within its quota.
pub fn most_pages(records: u32) -> u32
    ensures pages { (pages : List (List ℕ)) (root height : ℕ) (rs : List Record) (visited : List ℕ) → walk_of pages root height ≡ Whole rs visited
        → length rs ≤ records → length visited ≤ result }
    ensures height { (pages : List (List ℕ)) (root height : ℕ) (rs : List Record) (visited : List ℕ)
        → walk_of pages root height ≡ Whole rs visited → height ≤ 3 }
    ensures left { (size : ℕ) → 16 ≤ size → records ≤ quota size → result + 6 < size }
{
    let below_root = u64::from(records) * 16 / 1143;
    below_root as u32 + 1
}

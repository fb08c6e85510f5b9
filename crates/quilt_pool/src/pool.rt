ghost use Rattle.std.specs.Prelude.{nat_eq, ◌≤◌, ◌≡◌, ℕ, true, length};
ghost use Rattle.std.specs.List.{IsDistinct};
ghost use Rattle.std.specs.Map.{keys_of};
ghost use Rattle.std.proofs.Props.{props};
ghost use Rattle.quilt_journal.specs.Changed.{has_bit};
ghost use Rattle.quilt_pool.specs.Entries.{is_dirty};

mod calls;
mod held;

use crate::table::Table;

/// Pages of a map file in memory, the last used first. Each dirty page has its bit in `dirty`, and so may others. A page that is brought is read into
/// `fetched`, and gets its entry from there.
#[derive(Drop)]
pub struct Pool {
    table: Table,
    dirty: [u8; 3750],
    fetched: [u8; 4096],
    pub ghost distinct: { IsDistinct nat_eq (keys_of table.entries) } by { Prim.hlevel props },
    pub ghost fits: { length table.entries ≤ table.cap },
    pub ghost least: { 8 ≤ table.cap },
    pub ghost listed: { (i : ℕ) → is_dirty table.entries i ≡ true → has_bit dirty i ≡ true },
}

ghost use Rattle.quilt_pool.specs.Views.{entries_of};
ghost use Rattle.std.specs.Prelude.{◌≡◌, ℕ, ◌+◌, ◌*◌, ◌<◌, ◌≤◌, false, replicate, length, IfSome, OnOk, OnErr};
ghost use Rattle.quilt_world.specs.Causes.{HasCause};
ghost use Rattle.quilt_world.specs.Doors.{KeepsDevice};
ghost use Rattle.quilt_world.specs.Tale.{Goes};
ghost use Rattle.quilt_journal.specs.declared.journal.State.TheVariants.{Idle};
ghost use Rattle.quilt_journal.specs.Writing.{Writing};
ghost use Rattle.quilt_pool.specs.Entries.{AreBelow, is_dirty};
ghost use Rattle.quilt_pool.specs.Keeping.{IsWork};
ghost use Rattle.quilt_edition.specs.Keeping.{KeepsPublished, marked_count};
ghost use Rattle.quilt_edition.specs.Publishing.{Publishing, IsPublished, held_under};

use quilt_journal::{Held, Journal};
use quilt_pool::Pool;
use quilt_world::{Disk, Fault};

/// The pages of a publish that are in memory: the new header, and what the pool holds.
#[derive(Drop)]
struct Fresh<'a> {
    header: &'a [u8; 4096],
    pool: &'a Pool,
}

impl Held for Fresh<'_> {
    ghost bytes = { λ fresh page. held_under fresh.header.now (entries_of fresh.pool.now) page };

    fn held(&self, page: u32) -> Option<&[u8; 4096]> {
        if page == 0 {
            return Some(self.header);
        }
        self.pool.held(page)
    }
}

/// Publishes the pages of the work under a new header.
pub fn publish_pages<W: Disk>(
    world: &mut W,
    journal: &mut Journal,
    pool: &mut Pool,
    header: &[u8; 4096],
) -> Result<(), Fault>
    requires idle { journal.old.state ≡ Idle }
    requires bits { length journal.old.changed ≡ journal.old.pages }
    requires range { (16 ≤ journal.old.pages) × (journal.old.pages ≤ 30000) }
    requires below { AreBelow journal.old.pages (entries_of pool.old) }
    requires size { W.size world.old ≡ 3 + 2 * journal.old.pages }
    requires kept { IfSome (W.told world.old) (IsWork journal.old.pages (entries_of pool.old) journal.old.changed) }
    ensures cause { HasCause (W.faults world.old) (W.faults world.new) result }
    ensures device { KeepsDevice W.size W.door world.old world.new }
    ensures pages { journal.new.pages ≡ journal.old.pages }
    ensures below { AreBelow journal.old.pages (entries_of pool.new) }
    ensures bits { length journal.new.changed ≡ journal.new.pages }
    ensures left { OnErr result (journal.new.state ≡ Idle
        → Goes (KeepsPublished journal.old.pages (entries_of pool.new) journal.new.changed) (W.told world.old) (W.told world.new)) }
    ensures writes { Goes (Writing (2 * marked_count journal.old.pages (entries_of pool.old) journal.old.changed + 5)) (W.told world.old) (W.told world.new) }
    ensures state { OnOk result (journal.new.state ≡ Idle) }
    ensures changed { OnOk result (journal.new.changed ≡ replicate journal.old.pages false) }
    ensures clean { OnOk result ((i : ℕ) → is_dirty (entries_of pool.new) i ≡ false) }
    ensures crash { Goes (Publishing journal.old.pages (entries_of pool.old) journal.old.changed header.now) (W.told world.old) (W.told world.new) }
    ensures published { OnOk result (Goes (IsPublished journal.old.pages (entries_of pool.old) journal.old.changed header.now (entries_of pool.new))
        (W.told world.old) (W.told world.new)) }
{
    pool.drain_dirty(journal, world)?;
    journal.write_slot(world, 0, header)?;
    journal.seal(world)?;
    journal.carry_home_from(world, &Fresh { header, pool })?;
    journal.unseal(world)?;
    Ok(())
}

ghost use Rattle.std.specs.Prelude.{◌≡◌, [], false, replicate};
ghost use Rattle.lru.specs.LruCache.{lru_cache};
ghost use Rattle.quilt_world.specs.Tale.{Tale};
ghost use Rattle.quilt_journal.specs.declared.journal.State.TheVariants.{Idle};
ghost use Rattle.quilt_journal.specs.Kept.{IsIdle, published, work};
ghost use Rattle.quilt_pool.specs.Views.{seen, pool_capacity};

use quilt_journal::Journal;
use quilt_pool::Pool;

/// Gives up the pages of the work, in the pool and in the slots: each page of it is the published one then.
pub fn give_up_pages(pool: &mut Pool, journal: &mut Journal)
    requires idle { journal.old.state ≡ Idle }
    ensures table { seen pool.new ≡ lru_cache [] (pool_capacity pool.old) }
    ensures same { (journal.new.pages ≡ journal.old.pages) × (journal.new.state ≡ journal.old.state) }
    ensures changed { journal.new.changed ≡ replicate journal.old.pages false }
    ensures kept { (t : Tale) → IsIdle journal.old.pages journal.old.changed t → IsIdle journal.old.pages journal.new.changed t
        × (work t journal.old.pages journal.new.changed ≡ published t journal.old.pages) }
{
    pool.forget();
    journal.clear_all();
}

ghost use Rattle.quilt_pool.specs.Views.{entries_of};
ghost use Rattle.std.specs.Prelude.{◌≡◌, ◌+◌, ◌*◌, ◌≤◌, length};
ghost use Rattle.quilt_node.specs.Pages.{IsHead};
ghost use Rattle.quilt_pool.specs.Entries.{AreBelow};
ghost use Rattle.quilt_edition.specs.Keeping.{IsKeptBy, is_free, is_left_out};
ghost use Rattle.quilt_edition.specs.Tallies.{IsFreeTally, IsTally-prop};
ghost use Rattle.quilt_edition.specs.Props.{IsKeptBy-prop, AreBelow-prop, IsHead-prop};

mod calls;
mod store;

use crate::free::Tally;
use quilt_journal::Journal;
use quilt_node::Head;
use quilt_pool::Pool;
use quilt_world::Disk;

/// The pages of a map file: the edition that was published last, and the work on the next one.
#[derive(Drop)]
pub struct Book<W: Disk> {
    world: W,
    journal: Journal,
    pool: Pool,
    last: Head,
    work: Head,
    used: [u8; 3750],
    free: [u8; 3750],
    tally: Tally,
    last_tally: Tally,
    ghost least: { 16 ≤ journal.pages },
    ghost most: { journal.pages ≤ 30000 },
    ghost bits: { length journal.changed ≡ journal.pages },
    ghost size: { W.size world ≡ 3 + 2 * journal.pages },
    ghost below: { AreBelow journal.pages (entries_of pool) } by { AreBelow-prop journal.pages (entries_of pool) },
    ghost kept: { IsKeptBy journal (entries_of pool) last (W.told world) } by { IsKeptBy-prop journal (entries_of pool) last (W.told world) },
    ghost published: { IsHead journal.pages last } by { IsHead-prop journal.pages last },
    ghost next: { IsHead journal.pages work } by { IsHead-prop journal.pages work },
    ghost edition: { work.edition ≡ last.edition },
    ghost level: { work.level ≡ last.level },
    ghost counted: { IsFreeTally journal.pages (is_free journal.pages free) tally } by { IsTally-prop journal.pages (is_free journal.pages free) tally },
    ghost last_counted: { IsFreeTally journal.pages (is_left_out journal.pages used) last_tally } by { IsTally-prop journal.pages (is_left_out journal.pages used) last_tally },
}

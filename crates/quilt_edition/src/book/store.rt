ghost use Rattle.quilt_pool.specs.Views.{entries_of};
ghost use Rattle.std.specs.Prelude.{◌≡◌, Some, refl};
ghost use Rattle.std.specs.Map.{keys_of};
ghost use Rattle.quilt_world.specs.Tale.{Goes};
ghost use Rattle.quilt_edition.specs.Keeping.{told_pages, tale_reads, is_free, marked_count, IsLater};
ghost use Rattle.quilt_edition.specs.Laws.{free_within, told_many, later_same, later_on};
ghost use Rattle.std.proofs.Common.{◌∙◌};

use crate::book::Book;
use crate::free::{give_free, is_free_page, take_free};
use quilt_journal::State;
use quilt_store::{PageStore, StoreErr};
use quilt_world::Disk;

impl<W: Disk> PageStore for Book<W> {
    ghost size = { λ s. s.journal.pages };

    ghost told = { λ s. told_pages s.journal (entries_of s.pool) (W.told s.world) };

    ghost free = { λ s. is_free s.journal.pages s.free };

    ghost faults = { λ s. W.faults s.world };

    ghost later = { λ s t. (t.journal.pages ≡ s.journal.pages) × (t.journal.state ≡ s.journal.state)
        × ((t.last ≡ s.last) × (t.work ≡ s.work) × (t.used ≡ s.used)) × (W.door t.world ≡ W.door s.world)
        × Goes (IsLater s.journal.pages) (W.told s.world) (W.told t.world) };

    ghost held = { λ s. Some (keys_of (entries_of s.pool)) };

    ghost reads = { λ s. tale_reads (W.told s.world) };

    ghost changed = { λ s. marked_count s.journal.pages (entries_of s.pool) s.journal.changed };

    fn pages(&self) -> u32 {
        self.journal.pages()
    }

    fn free_pages(&self) -> u32 {
        self.tally.count
    }

    fn is_free(&self, page: u32) -> bool {
        is_free_page(&self.free, page, self.journal.pages())
    }

    fn read(&mut self, page: u32, into: &mut [u8; 4096]) -> Result<(), StoreErr> {
        let State::Idle = self.journal.state() else {
            return Err(StoreErr::Memory);
        };
        self.pool
            .read(&mut self.journal, &mut self.world, page, into)?;
        Ok(())
    }

    fn page(&mut self, page: u32) -> Result<&[u8; 4096], StoreErr> {
        let State::Idle = self.journal.state() else {
            return Err(StoreErr::Memory);
        };
        self.pool.bring(&mut self.journal, &mut self.world, page)?;
        Ok(self.pool.lent(page))
    }

    fn edit(&mut self, page: u32) -> Result<&mut [u8; 4096], StoreErr> {
        let State::Idle = self.journal.state() else {
            return Err(StoreErr::Memory);
        };
        self.pool.bring(&mut self.journal, &mut self.world, page)?;
        self.pool.mark(page);
        Ok(self.pool.lend(page))
    }

    fn write(&mut self, page: u32, bytes: &[u8; 4096]) -> Result<(), StoreErr> {
        let State::Idle = self.journal.state() else {
            return Err(StoreErr::Memory);
        };
        self.pool
            .write(&mut self.journal, &mut self.world, page, bytes)?;
        Ok(())
    }

    fn take_page(&mut self) -> u32 {
        let pages = self.journal.pages();
        take_free(&mut self.free, &mut self.tally, pages)
    }

    fn give_page(&mut self, page: u32) {
        let pages = self.journal.pages();
        give_free(&mut self.free, &mut self.tally, pages, page);
        self.pool.discard(page);
        let State::Idle = self.journal.state() else {
            return;
        };
        self.journal.clear(page);
    }

    ghost in_range = { λ s. (s.least, s.most) };

    ghost free_pages_are = { λ s page h. free_within s.journal.pages s.free page h };

    ghost as_many = { λ s. told_many s.journal (entries_of s.pool) (W.told s.world) };

    ghost held_once = { λ s. s.pool.distinct };

    ghost same_time = { λ s. (refl, refl, (refl, refl, refl), refl, later_same s.journal.pages (W.told s.world)) };

    ghost goes_on = { λ s t u p q. (
      q.0 ∙ p.0,
      q.1 ∙ p.1,
      (q.2.0 ∙ p.2.0, q.2.1 ∙ p.2.1, q.2.2 ∙ p.2.2),
      q.3
          ∙ p.3,
      later_on s.journal.pages t.journal.pages (W.told s.world) (W.told t.world) (W.told u.world) p.0 p.4 q.4,
    ) };
}

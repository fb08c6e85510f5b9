ghost use Rattle.quilt_pool.specs.Entries.{frame_at, held_bytes};
ghost use Rattle.quilt_pool.specs.Views.{entries_of};

use crate::pool::Pool;
use quilt_journal::Held;

impl Held for Pool {
    ghost bytes = { λ pool page. held_bytes (frame_at (entries_of pool) page) };

    fn held(&self, page: u32) -> Option<&[u8; 4096]> {
        match self.table.peek(page) {
            Some((bytes, _)) => Some(bytes),
            None => None,
        }
    }
}

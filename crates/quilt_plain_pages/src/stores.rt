ghost use Rattle.std.specs.Prelude.{◌≡◌};

use crate::bytes::Page;
use quilt_store::{MemStore, PageStore};

/// Puts a page into the store at the first place that is free, and says where it stands. None where no place is free.
pub fn put_page(store: &mut MemStore, bytes: &Page) -> Option<u32>
    ensures { ⟦<MemStore as PageStore>⟧.size store.new ≡ ⟦<MemStore as PageStore>⟧.size store.old }
{
    if store.free_pages() == 0 {
        return None;
    }
    let page = store.take_page();
    if page == 0 || page >= store.pages() || store.write(page, bytes).is_err() {
        return None;
    }
    Some(page)
}

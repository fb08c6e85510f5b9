ghost use Rattle.std.specs.Prelude.{◌≡◌, ◌+◌, ◌<◌, ◌≤◌, ℕ, true, false, length, replicate, Some, None, IfOk, IsOk, slice_index_or, slice_set, [], filter};
ghost use Rattle.std.specs.Prelude.{drop, position, refl};
ghost use Rattle.quilt_store.specs.Memory.{is_free_place};

use crate::{PageStore, StoreErr};
use std::alloc::{AllocError, Global};

/// A store that keeps all its pages in memory. Its calls never fail. It takes the first page that is free, and no page
/// before `lowest` is.
#[derive(Drop)]
pub struct MemStore {
    pages: Vec<[u8; 4096]>,
    free: Vec<bool>,
    count: u32,
    lowest: usize,
    ghost least: { 16 ≤ length pages.items },
    ghost most: { length pages.items ≤ 30000 },
    ghost tests: { length free.items ≡ length pages.items },
    ghost from_one: { (page : ℕ) → is_free_place free.items page ≡ true → (1 ≤ page) × (page < length pages.items) },
    ghost counted: { count ≡ length (filter (λ b. b) free.items) },
    ghost reaches: { lowest ≤ length free.items },
    ghost below: { (page : ℕ) → page < lowest → is_free_place free.items page ≡ false },
}

impl MemStore {
    /// A store of 16 to 30000 pages of zeros, which are all free but page 0. It takes all its memory at once.
    pub fn new(alloc: Global, pages: u32) -> Result<MemStore, AllocError>
        requires { (16 ≤ pages) × (pages ≤ 30000) }
        ensures size { IfOk result (λ s. ⟦<MemStore as PageStore>⟧.size s ≡ pages) }
        ensures told { IfOk result (λ s. ⟦<MemStore as PageStore>⟧.told s ≡ Some (replicate pages (replicate 4096 0))) }
        ensures free { IfOk result (λ s. (p : ℕ) → 1 ≤ p → p < pages → ⟦<MemStore as PageStore>⟧.free s p ≡ true) }
        ensures reads { IfOk result (λ s. ⟦<MemStore as PageStore>⟧.reads s ≡ Some 0) }
        ensures changed { IfOk result (λ s. ⟦<MemStore as PageStore>⟧.changed s ≡ 0) }
        ensures faults { IfOk result (λ s. ⟦<MemStore as PageStore>⟧.faults s ≡ 0) }
    {
        let mut all = Vec::new(alloc);
        let mut free = Vec::new(alloc);
        for page in 0..pages {
            all.push([0; 4096])?;
            free.push(page > 0)?;
        }
        Ok(MemStore {
            pages: all,
            free,
            count: pages - 1,
            lowest: 0,
        })
    }
}

/// The first free page of some.
fn first_free(free: &[bool]) -> Option<usize>
    ensures { result ≡ position (λ b. b) free.now }
{
    free.iter().position(|is_free| *is_free)
}

/// The first free page from a page on, counted from there.
fn first_from(free: &[bool], from: usize) -> Option<usize>
    requires { from ≤ length free.now }
    ensures { result ≡ position (λ b. b) (drop from free.now) }
{
    first_free(&free[from..])
}

impl PageStore for MemStore {
    ghost size = { λ s. length s.pages.items };

    ghost told = { λ s. Some s.pages.items };

    ghost free = { λ s. is_free_place s.free.items };

    ghost faults = { λ s. 0 };

    ghost later = { λ s t. Unit {0} };

    ghost held = { λ s. None };

    ghost reads = { λ s. Some 0 };

    ghost changed = { λ s. 0 };

    fn pages(&self) -> u32 {
        self.pages.len() as u32
    }

    fn free_pages(&self) -> u32 {
        self.count
    }

    fn is_free(&self, page: u32) -> bool {
        self.free[page as usize]
    }

    fn read(&mut self, page: u32, into: &mut [u8; 4096]) -> Result<(), StoreErr>
        requires { (1 ≤ page) × (page < length self.old.pages.items) }
        ensures ok { IsOk result }
        ensures bytes { into.new ≡ slice_index_or self.old.pages.items page [] }
        ensures same { self.new ≡ self.old }
    {
        *into = self.pages[page as usize];
        Ok(())
    }

    fn page(&mut self, page: u32) -> Result<&[u8; 4096], StoreErr> {
        Ok(&self.pages[page as usize])
    }

    fn edit(&mut self, page: u32) -> Result<&mut [u8; 4096], StoreErr> {
        Ok(&mut self.pages[page as usize])
    }

    fn write(&mut self, page: u32, bytes: &[u8; 4096]) -> Result<(), StoreErr>
        requires page { (1 ≤ page) × (page < length self.old.pages.items) }
        requires taken { is_free_place self.old.free.items page ≡ false }
        ensures ok { IsOk result }
        ensures pages { self.new.pages.items ≡ slice_set self.old.pages.items page bytes.now }
        ensures free { self.new.free.items ≡ self.old.free.items }
    {
        self.pages[page as usize] = *bytes;
        Ok(())
    }

    fn take_page(&mut self) -> u32 {
        let ahead = first_from(&self.free, self.lowest).unwrap();
        let page = self.lowest + ahead;
        self.free[page] = false;
        self.count -= 1;
        self.lowest = page;
        page as u32
    }

    fn give_page(&mut self, page: u32) {
        self.free[page as usize] = true;
        self.count += 1;
        self.lowest = self.lowest.min(page as usize);
    }

    ghost in_range = { λ s. (s.least, s.most) };

    ghost free_pages_are = { λ s page h. s.from_one page h };

    ghost as_many = { λ s. refl };

    ghost held_once = { λ s. tt };

    ghost same_time = { λ s. tt };

    ghost goes_on = { λ s t u p q. tt };
}

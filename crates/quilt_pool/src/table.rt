ghost use Rattle.std.specs.Prelude.{◌≡◌, ◌≢◌, ℕ, ◌+◌, ◌-◌, ◌<◌, ◌≤◌, ◌==◌, if◌then◌else◌, nat_eq, true, false, OnOk, OnErr, IfOk, IsOk, IsSome, Some, None, Err, List, [], ◌∷◌, length, take, slice_index_or};
ghost use Rattle.std.specs.Prelude.{option_copied, option_map, is_some};
ghost use Rattle.std.specs.Borrow.{sem, Lends, Array, u8 as byte};
ghost use Rattle.std.specs.Map.{lookup, remove_entry, set_value};
ghost use Rattle.std.specs.NonZero.{non_zero_usize_get};
ghost use Rattle.std.specs.Vec.{vec_capacity};
ghost use Rattle.lru.specs.LruCache.{IsValid, lru_cache, put_entries, promoted, last_entry};
ghost use Rattle.quilt_store.specs.declared.store.StoreErr.TheVariants.{Device};
ghost use Rattle.quilt_pool.specs.Entries.{frame_at, has_frame, bytes_or, entry_edited};
ghost use Rattle.quilt_pool.specs.Frames.{IsShared, holders, frame_in, as_frame, as_entry};

use lru::LruCache;
use quilt_store::StoreErr;
use std::alloc::{AllocError, Global};
use std::marker::Model;
use std::num::NonZeroUsize;

/// Pages with their frames, the last used first. The bytes of all lie in one list, in room that is taken at the start, and `places` says where in it a
/// page has its own. `dirty` says which frames are dirty. A frame that no page has is in `free`.
#[derive(Drop)]
pub struct Table {
    places: LruCache<u32, usize>,
    frames: Vec<[u8; 4096]>,
    dirty: Vec<bool>,
    free: Vec<usize>,
}

impl Model for Table {
    ghost use Rattle.std.specs.Prelude.{ℕ, ◌≡◌, ◌≤◌, length};
    ghost use Rattle.std.specs.Vec.{vec_capacity};
    ghost use Rattle.lru.specs.LruCache.{LruCache, lru_cache};
    ghost use Rattle.quilt_pool.specs.declared.frame.Frame.{Frame};

    ghost Value = { LruCache ℕ Frame };

    ghost use Rattle.quilt_pool.specs.Frames.{framed, frame_in, IsShared};

    ghost view = { λ t. lru_cache (framed (frame_in t.frames.items t.dirty.items) t.places.entries) t.places.cap };

    ghost invariant = { λ t. IsShared (length t.frames.items) t.places.entries t.free.items × (length t.dirty.items ≡ length t.frames.items)
        × (length t.frames.items ≤ t.places.cap) × (t.places.cap ≤ vec_capacity t.frames) × (t.places.cap ≤ vec_capacity t.dirty)
        × (t.places.cap ≤ vec_capacity t.free) };
}

impl Table {
    /// An empty table for so many pages, with room for their frames.
    pub fn new(alloc: Global, pages: NonZeroUsize) -> Result<Table, AllocError>
        ensures { IfOk result (λ table. table ≡ lru_cache [] (non_zero_usize_get pages)) }
    {
        let places = LruCache::new(alloc, pages)?;
        let frames = Vec::with_capacity(alloc, pages.get())?;
        let dirty = Vec::with_capacity(alloc, pages.get())?;
        let free = Vec::with_capacity(alloc, pages.get())?;
        Ok(Table {
            places,
            frames,
            dirty,
            free,
        })
    }

    /// How many pages are there.
    pub fn len(&self) -> usize
        ensures len { result ≡ length self.now.entries }
        ensures valid { IsValid nat_eq self.now }
    {
        self.places.len()
    }

    /// How many pages there may be.
    pub fn cap(&self) -> NonZeroUsize
        ensures { non_zero_usize_get result ≡ self.now.cap }
    {
        self.places.cap()
    }

    /// Whether the page is there. The order stays.
    pub fn contains(&self, page: u32) -> bool
        ensures { result ≡ is_some (frame_at self.now.entries page) }
    {
        self.places.contains(&page)
    }

    /// The page's bytes, where they lie, and whether they are dirty. The order stays.
    pub fn peek(&self, page: u32) -> Option<(&[u8; 4096], bool)>
        ensures { option_map as_frame result ≡ frame_at self.now.entries page }
    {
        match self.places.peek(&page) {
            Some(at) => Some((&self.frames[*at], self.dirty[*at])),
            None => None,
        }
    }

    /// The page whose last use lies furthest back, its bytes, and whether they are dirty.
    pub fn peek_lru(&self) -> Option<(u32, (&[u8; 4096], bool))>
        ensures { option_map as_entry result ≡ last_entry self.now.entries }
    {
        match self.places.peek_lru() {
            Some((page, at)) => Some((*page, (&self.frames[*at], self.dirty[*at]))),
            None => None,
        }
    }
}

/// The place of the page's frame. The page that was used last is found with no look-up.
fn place_of(places: &LruCache<u32, usize>, page: u32) -> Option<usize>
    ensures { result ≡ lookup (nat_eq page) places.now.entries }
{
    if let Some((first, at)) = places.peek_mru() {
        if *first == page {
            return Some(*at);
        }
    }
    places.peek(&page).copied()
}

/// The place of the page's frame. The page comes to the front.
fn front_place(places: &mut LruCache<u32, usize>, page: u32) -> Option<usize>
    ensures value { result ≡ lookup (nat_eq page) places.old.entries }
    ensures entries { places.new ≡ lru_cache (promoted (nat_eq page) places.old.entries) places.old.cap }
{
    places.get(&page).copied()
}

/// A page that is not there gets a place of so many frames: that of the page that goes where the table is full, else a free one, else one behind all.
fn enter_place(
    places: &mut LruCache<u32, usize>,
    free: &mut Vec<usize>,
    count: usize,
    page: u32,
) -> Result<usize, AllocError>
    requires shared { IsShared count places.old.entries free.old.items }
    requires fits { count ≤ places.old.cap }
    requires lost { lookup (nat_eq page) places.old.entries ≡ None }
    ensures entries { IfOk result (λ at. places.new ≡ lru_cache ((page, at) ∷ take (places.old.cap - 1) places.old.entries) places.old.cap) }
    ensures shared { IfOk result (λ at. IsShared (if at == count then count + 1 else count) places.new.entries free.new.items) }
    ensures apart { IfOk result (λ at. holders at (take (places.old.cap - 1) places.old.entries) ≡ 0) }
    ensures within { IfOk result (λ at. at ≤ count) }
    ensures room { IfOk result (λ at. at ≡ count → count < places.old.cap) }
    ensures same { OnErr result ((places.new ≡ places.old) × (free.new.items ≡ free.old.items)) }
    ensures capacity { vec_capacity free.new ≡ vec_capacity free.old }
{
    if places.len() == places.cap().get() {
        let Some((_, last)) = places.peek_lru() else {
            return Err(AllocError);
        };
        let at = *last;
        let Ok(_) = places.put(page, at) else {
            return Err(AllocError);
        };
        return Ok(at);
    }
    if let Some(last) = free.last() {
        let at = *last;
        let Ok(_) = places.put(page, at) else {
            return Err(AllocError);
        };
        free.pop();
        return Ok(at);
    }
    let Ok(_) = places.put(page, count) else {
        return Err(AllocError);
    };
    Ok(count)
}

/// The frame at the place has these bytes then. One behind all is added.
fn fill_frame(
    frames: &mut Vec<[u8; 4096]>,
    dirty: &mut Vec<bool>,
    at: usize,
    bytes: &[u8; 4096],
    is_dirty: bool,
)
    requires within { at ≤ length frames.old.items }
    requires lists { length dirty.old.items ≡ length frames.old.items }
    requires room { at ≡ length frames.old.items → (at < vec_capacity frames.old) × (at < vec_capacity dirty.old) }
    ensures here { frame_in frames.new.items dirty.new.items at ≡ record { bytes = bytes.now; is_dirty = is_dirty } }
    ensures others { (p : ℕ) → p ≢ at → frame_in frames.new.items dirty.new.items p ≡ frame_in frames.old.items dirty.old.items p }
    ensures len { length frames.new.items ≡ (if at == length frames.old.items then length frames.old.items + 1 else length frames.old.items) }
    ensures lists { length dirty.new.items ≡ length frames.new.items }
    ensures capacity { (vec_capacity frames.old ≤ vec_capacity frames.new) × (vec_capacity dirty.old ≤ vec_capacity dirty.new) }
{
    if at < frames.len() {
        frames[at] = *bytes;
        dirty[at] = is_dirty;
        return;
    }
    let _ = frames.push(*bytes);
    let _ = dirty.push(is_dirty);
}

/// The page becomes the first entry, with these bytes. Where it is an entry already, they are written in place.
pub fn put_frame(
    table: &mut Table,
    page: u32,
    bytes: &[u8; 4096],
    is_dirty: bool,
) -> Result<(), StoreErr>
    ensures entries { OnOk result
        (table.new ≡ lru_cache (put_entries nat_eq table.old page (record { bytes = bytes.now; is_dirty = is_dirty })) table.old.cap) }
    ensures same { OnErr result (table.new ≡ table.old) }
    ensures there { IsSome (frame_at table.old.entries page) → IsOk result }
    ensures valid { IsValid nat_eq table.new }
    ensures memory { result ≢ Err Device }
{
    if let Some(at) = front_place(&mut table.places, page) {
        fill_frame(&mut table.frames, &mut table.dirty, at, bytes, is_dirty);
        let _ = table.len();
        return Ok(());
    }
    let count = table.frames.len();
    let Ok(at) = enter_place(&mut table.places, &mut table.free, count, page) else {
        let _ = table.len();
        return Err(StoreErr::Memory);
    };
    fill_frame(&mut table.frames, &mut table.dirty, at, bytes, is_dirty);
    let _ = table.len();
    Ok(())
}

/// Brings the page to the front and gives its bytes, where it is there.
pub fn find_frame(table: &mut Table, page: u32, into: &mut [u8; 4096]) -> bool
    ensures found { result ≡ true → has_frame (frame_at table.old.entries page) into.new }
    ensures entries { result ≡ true → table.new ≡ lru_cache (promoted (nat_eq page) table.old.entries) table.old.cap }
    ensures lost { result ≡ false → (frame_at table.old.entries page ≡ None) × (table.new ≡ table.old) }
    ensures valid { IsValid nat_eq table.new }
{
    if let Some(at) = front_place(&mut table.places, page) {
        *into = table.frames[at];
        let _ = table.len();
        return true;
    }
    let _ = table.len();
    false
}

/// The page's bytes, where they lie. The page that was used last is found with no look-up.
pub fn lent_frame(table: &Table, page: u32) -> &[u8; 4096]
    requires there { IsSome (frame_at table.now.entries page) }
    ensures bytes { result.now ≡ bytes_or [] (frame_at table.now.entries page) }
{
    let at = place_of(&table.places, page).unwrap();
    &table.frames[at]
}

/// Entries that lend a page.
pub trait Lending {
    /// The page is there.
    ghost has: { Self → ℕ → Type 0 };

    /// The page's bytes.
    ghost bytes: { Self → ℕ → List ℕ };

    /// They are as before, but that the page has these bytes.
    ghost edited: { Self → ℕ → List ℕ → Self };

    /// The page's bytes, where they lie, to be changed.
    fn edit_frame(&mut self, page: u32) -> &mut [u8; 4096]
        requires there { has self.old page }
        ensures* writes_back { sem 𝓛 (Lends Self.row (Array byte 4096) self.entry result (edited self.old page)) }
        ensures bytes { result.now ≡ bytes self.old page };
}

impl Lending for Table {
    ghost has = { λ s page. IsSome (frame_at s.entries page) };

    ghost bytes = { λ s page. bytes_or [] (frame_at s.entries page) };

    ghost edited = { λ s page w. lru_cache (entry_edited s.entries page w) s.cap };

    fn edit_frame(&mut self, page: u32) -> &mut [u8; 4096] {
        let at = place_of(&self.places, page).unwrap();
        &mut self.frames[at]
    }
}

/// Brings the page to the front, where it is there.
pub fn touch_frame(table: &mut Table, page: u32) -> bool
    ensures found { result ≡ true → IsSome (frame_at table.old.entries page) }
    ensures entries { result ≡ true → table.new ≡ lru_cache (promoted (nat_eq page) table.old.entries) table.old.cap }
    ensures lost { result ≡ false → (frame_at table.old.entries page ≡ None) × (table.new ≡ table.old) }
    ensures valid { IsValid nat_eq table.new }
{
    let is_there = front_place(&mut table.places, page).is_some();
    let _ = table.len();
    is_there
}

/// The page is not dirty any more, where it is there. The order stays.
pub fn clean_frame(table: &mut Table, page: u32)
    ensures entries { (f : _) → frame_at table.old.entries page ≡ Some f
        → table.new ≡ lru_cache (set_value (nat_eq page) table.old.entries (record { bytes = f.bytes; is_dirty = false })) table.old.cap }
    ensures valid { IsValid nat_eq table.new }
{
    if let Some(at) = place_of(&table.places, page) {
        table.dirty[at] = false;
    }
    let _ = table.len();
}

/// The page is dirty then, where it is there. The order stays.
pub fn mark_frame(table: &mut Table, page: u32)
    ensures entries { (f : _) → frame_at table.old.entries page ≡ Some f
        → table.new ≡ lru_cache (set_value (nat_eq page) table.old.entries (record { bytes = f.bytes; is_dirty = true })) table.old.cap }
    ensures valid { IsValid nat_eq table.new }
{
    if let Some(at) = place_of(&table.places, page) {
        table.dirty[at] = true;
    }
    let _ = table.len();
}

/// Drops the page, where it is there. Its frame is free then.
pub fn drop_frame(table: &mut Table, page: u32)
    ensures entries { table.new ≡ lru_cache (remove_entry (nat_eq page) table.old.entries) table.old.cap }
    ensures valid { IsValid nat_eq table.new }
{
    if let Some(at) = table.places.pop(&page) {
        let _ = table.free.push(at);
    }
    let _ = table.len();
}

/// Drops all pages.
pub fn drop_all(table: &mut Table)
    ensures entries { table.new ≡ lru_cache [] table.old.cap }
    ensures valid { IsValid nat_eq table.new }
{
    table.places.clear();
    table.frames.clear();
    table.dirty.clear();
    table.free.clear();
    let _ = table.len();
}

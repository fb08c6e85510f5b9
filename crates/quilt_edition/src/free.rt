ghost use Rattle.std.specs.Prelude.{◌≡◌, ◌<◌, ◌≤◌, ◌+◌, ◌*◌, ℕ, true, false, length, filter, not};
ghost use Rattle.std.specs.List.{range_with_len};
ghost use Rattle.quilt_store.specs.Store.{count_free, FreesOnly};
ghost use Rattle.quilt_journal.specs.Changed.{has_bit};
ghost use Rattle.quilt_edition.specs.Keeping.{is_free};
ghost use Rattle.quilt_edition.specs.Tallies.{IsFreeTally};

use quilt_journal::{is_listed, list_page, next_listed, unlist_page};

/// How many pages are free, and a number below which none is.
#[derive(Clone, Copy, Debug, PartialEq, Eq)]
pub struct Tally {
    pub count: u32,
    pub first: u32,
}

/// Whether the page is free.
pub fn is_free_page(free: &[u8; 3750], page: u32, pages: u32) -> bool
    requires { (1 ≤ page) × (page < pages) × (pages ≤ 30000) }
    ensures { result ≡ is_free pages free.now page }
{
    is_listed(free, page)
}

/// Whether the page is there and free.
fn is_free_at(free: &[u8; 3750], page: u32, pages: u32) -> bool
    requires { page < 30000 }
    ensures { result ≡ is_free pages free.now page }
{
    1 <= page && page < pages && is_listed(free, page)
}

/// How many of the 8 pages of a byte are free.
fn count_in_byte(free: &[u8; 3750], byte: u32, pages: u32) -> u32
    requires { byte < 3750 }
    ensures { result ≡ length (filter (is_free pages free.now) (range_with_len (8 * byte) 8)) }
{
    let bits = free[byte as usize];
    if bits == 0 {
        return 0;
    }
    if bits == 255 && 1 <= byte && 8 * byte + 8 <= pages {
        return 8;
    }
    let mut count = 0;
    for page in 8 * byte..8 * byte + 8 {
        if is_free_at(free, page, pages) {
            count += 1;
        }
    }
    count
}

/// How many pages are free.
pub fn count_free_pages(free: &[u8; 3750], pages: u32) -> u32
    requires { (1 ≤ pages) × (pages ≤ 30000) }
    ensures { result ≡ count_free (is_free pages free.now) pages }
{
    let mut count = 0;
    for byte in 0..(pages + 7) / 8 {
        count += count_in_byte(free, byte, pages);
    }
    count
}

/// The first free page. None is free before this one.
fn first_free(free: &[u8; 3750], pages: u32, from: u32) -> u32
    requires range { (1 ≤ from) × (1 ≤ pages) × (pages ≤ 30000) }
    requires before { (i : ℕ) → i < from → is_free pages free.now i ≡ false }
    requires some { 0 < count_free (is_free pages free.now) pages }
    ensures page { is_free pages free.now result ≡ true }
    ensures first { (i : ℕ) → i < result → is_free pages free.now i ≡ false }
{
    match next_listed(free, from, pages) {
        Some(page) => page,
        None => 0,
    }
}

/// Takes the first free page.
pub fn take_free(free: &mut [u8; 3750], tally: &mut Tally, pages: u32) -> u32
    requires range { (1 ≤ pages) × (pages ≤ 30000) }
    requires tally { IsFreeTally pages (is_free pages free.old) tally.old }
    requires some { 0 < count_free (is_free pages free.old) pages }
    ensures page { is_free pages free.old result ≡ true }
    ensures free { FreesOnly result false (is_free pages free.old) (is_free pages free.new) }
    ensures tally { IsFreeTally pages (is_free pages free.new) tally.new }
{
    let page = first_free(free, pages, tally.first);
    unlist_page(free, page);
    tally.count -= 1;
    tally.first = page + 1;
    page
}

/// The lower of two page numbers.
fn lower_of(page: u32, other: u32) -> u32
    requires { (1 ≤ page) × (1 ≤ other) }
    ensures least { 1 ≤ result }
    ensures page { result ≤ page }
    ensures other { result ≤ other }
{
    if page < other { page } else { other }
}

/// Makes a page free that is not.
pub fn give_free(free: &mut [u8; 3750], tally: &mut Tally, pages: u32, page: u32)
    requires range { (1 ≤ page) × (page < pages) × (pages ≤ 30000) }
    requires tally { IsFreeTally pages (is_free pages free.old) tally.old }
    requires taken { is_free pages free.old page ≡ false }
    ensures free { FreesOnly page true (is_free pages free.old) (is_free pages free.new) }
    ensures tally { IsFreeTally pages (is_free pages free.new) tally.new }
{
    list_page(free, page);
    tally.count += 1;
    tally.first = lower_of(tally.first, page);
}

/// The bits turned round: those of the pages that these bits leave out.
pub fn complement_of(bits: &[u8; 3750]) -> [u8; 3750]
    ensures { (i : ℕ) → i < 30000 → has_bit result i ≡ not (has_bit bits.now i) }
{
    let mut others = *bits;
    for byte in others.iter_mut() {
        *byte = !*byte;
    }
    others
}

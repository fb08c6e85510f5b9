ghost use Rattle.std.specs.Prelude.{◌≡◌, ◌↔◌, ℕ, ◌+◌, ◌*◌, ◌<◌, ◌≤◌, IsTrue, length, slice_index, EachIndex, MatchOption};
ghost use Rattle.quilt_world.specs.Home.{file_label};

/// The bytes of a page.
pub const PAGE_SIZE: usize = 4096;

/// The fewest home pages of a map file.
pub const LEAST_HOME_PAGES: u32 = 16;

/// The most home pages of a map file.
pub const MOST_HOME_PAGES: u32 = 30000;

/// The page of a file that is the label.
pub const LABEL_AT: u32 = 0;

/// The page of a file that is the journal's gate.
pub const GATE_AT: u32 = 1;

/// The page of a file that is the journal's directory.
pub const DIRECTORY_AT: u32 = 2;

/// The page of a file that is home page 0.
pub const HOME_AT: u32 = 3;

/// The bytes that a directory has for the bits of the most home pages.
pub const DIRECTORY_BYTES: usize = 3750;

/// The bytes of the label before its zeros.
pub const LABEL: [u8; 15] = *b"QUILT MAP FILE\n";

/// The number of pages of a file with so many home pages, from 16 to 30000.
pub fn file_pages(home_pages: u32) -> u32
    requires { (16 ≤ home_pages) × (home_pages ≤ 30000) }
    ensures { result ≡ 3 + 2 * home_pages }
{
    HOME_AT + 2 * home_pages
}

/// The number of home pages of a file of this many pages, which is 16 to 30000.
pub fn home_pages(pages: u32) -> Option<u32>
    ensures { MatchOption result ((n : ℕ) → 16 ≤ n → n ≤ 30000 → pages ≡ 3 + 2 * n → ⊥) (λ n. (16 ≤ n) × (n ≤ 30000) × (pages ≡ 3 + 2 * n)) }
{
    if pages % 2 == 1 && 35 <= pages && pages <= 60003 {
        Some((pages - 3) / 2)
    } else {
        None
    }
}

/// The page of a file that is a home page.
pub fn home_at(page: u32) -> u32
    requires { page < 30000 }
    ensures { result ≡ 3 + page }
{
    HOME_AT + page
}

/// The page of a file that is the slot of a home page, in a file with so many home pages.
pub fn slot_at(home_pages: u32, page: u32) -> u32
    requires range { home_pages ≤ 30000 }
    requires page { page < home_pages }
    ensures { result ≡ 3 + home_pages + page }
{
    HOME_AT + home_pages + page
}

fn begins(bytes: &[u8], front: &[u8]) -> bool
    requires { length front.now ≡ length bytes.now }
    ensures { IsTrue result ↔ (bytes.now ≡ front.now) }
{
    bytes == front
}

fn is_zeros(bytes: &[u8]) -> bool
    ensures { IsTrue result ↔ EachIndex bytes.now (λ k. slice_index bytes.now k ≡ 0) }
{
    bytes.iter().all(|b| *b == 0)
}

/// Whether the page is the label.
pub fn is_label(page: &[u8; 4096]) -> bool
    ensures { IsTrue result ↔ (page.now ≡ file_label) }
{
    let bytes: &[u8] = page;
    begins(&bytes[..15], &LABEL) && is_zeros(&bytes[15..])
}

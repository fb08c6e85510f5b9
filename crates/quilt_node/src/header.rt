ghost use Rattle.std.specs.Prelude.{◌≡◌, ℕ, MatchOption, true, false};
ghost use Rattle.quilt_node.specs.declared.head.Head.{Head};
ghost use Rattle.quilt_node.specs.Pages as spec;
ghost use Rattle.quilt_node.specs.Pages.{IsHead, IsHeader};
ghost use Rattle.quilt_node.specs.Nodes.{IsSomeHead, HeadFits, read_head};

use crate::Head;
use crate::bytes::{put_over, word_in};

/// The page that says these numbers.
fn page_of(h: &Head) -> [u8; 4096]
    ensures { result ≡ spec.header_bytes h.now }
{
    let f = u32::from(h.format).to_be_bytes();
    let e = h.edition.to_be_bytes();
    let r = h.root.to_be_bytes();
    let n = h.records.to_be_bytes();
    let start = [
        b'Q', b'H', b'D', b'R', f[0], f[1], f[2], f[3], e[0], e[1], e[2], e[3], h.level, h.height,
        0, 0, r[0], r[1], r[2], r[3], n[0], n[1], n[2], n[3],
    ];
    let mut page = [0; 4096];
    put_over(&mut page, 0, &start);
    page
}

/// Whether the numbers may stand in a header of a file of `pages` home pages.
fn is_head(h: &Head, pages: u32) -> bool
    ensures yes { result ≡ true → IsHead pages h.now }
    ensures no { result ≡ false → IsHead pages h.now → ⊥ }
{
    let most = 64 * u64::from(pages.saturating_sub(8));
    if h.format < 1 || 2 < h.format {
        return false;
    }
    if h.level < 1 || 12 < h.level || 3 < h.height || most < u64::from(h.records) {
        return false;
    }
    if h.height == 0 {
        return h.root == 0 && h.records == 0;
    }
    1 <= h.root && h.root < pages && 1 <= h.records
}

/// The numbers that stand where a header has them.
fn numbers_in(bytes: &[u8; 4096]) -> Head
    ensures { result ≡ read_head bytes.now }
{
    Head {
        format: bytes[7],
        edition: word_in(bytes, 8),
        level: bytes[12],
        root: word_in(bytes, 16),
        height: bytes[13],
        records: word_in(bytes, 20),
    }
}

/// The header that the page is in a file of `pages` home pages; none where it is not well formed.
pub fn header_of(bytes: &[u8; 4096], pages: u32) -> Option<Head>
    ensures { MatchOption result ((h : Head) → HeadFits h → IsHeader pages bytes.now h → ⊥) (λ h. IsHeader pages bytes.now h) }
{
    let h = numbers_in(bytes);
    if !is_head(&h, pages) {
        return None;
    }
    if page_of(&h) != *bytes {
        return None;
    }
    Some(h)
}

/// The page of a header that is well formed in some file.
pub fn header_bytes(h: &Head) -> [u8; 4096]
    requires { IsSomeHead h.now }
    ensures written { result ≡ spec.header_bytes h.now }
    ensures again { (pages : ℕ) → IsHead pages h.now → IsHeader pages result h.now }
{
    page_of(h)
}

ghost use Rattle.std.specs.Prelude.{◌≡◌, IfOk, IfSome};
ghost use Rattle.quilt_node.specs.Pages.{IsHead};

use quilt_audit::{Survey, audit};
use quilt_node::Head;
use quilt_plain_pages::{Page, offset, put_page};
use quilt_record::{Record, key_bytes};
use quilt_store::{MemStore, PageStore};
use quilt_types::Stop;
use std::alloc::Global;
use std::process::Abort;
use std::test::Fail;

/// Puts bytes into a page from a place on, as far as the page goes.
fn put(page: &mut Page, from: usize, bytes: &[u8]) {
    for (i, b) in bytes.iter().enumerate() {
        if let Some(byte) = page.get_mut(from.wrapping_add(i)) {
            *byte = *b;
        }
    }
}

/// The bytes of a leaf page with these records, as far as they fit.
pub fn leaf_page(records: &[Record]) -> Page {
    let mut page = [0; 4096];
    let count = u8::try_from(records.len()).unwrap_or(0);
    put(&mut page, 0, &[1, 1, 0, count]);
    for (i, r) in records.iter().enumerate() {
        put(&mut page, offset(64, i, 28), &key_bytes(&r.key));
        put(&mut page, offset(76, i, 28), &r.value);
    }
    page
}

/// A store of 16 pages with these as the pages 1 and 2.
pub fn stored(alloc: Global, one: &Page, two: &Page) -> Result<MemStore, Fail>
    ensures { IfOk result (λ s. ⟦<MemStore as PageStore>⟧.size s ≡ 16) }
{
    let mut store = MemStore::new(alloc, 16)?;
    put_page(&mut store, one).ok_or("page 1")?;
    put_page(&mut store, two).ok_or("page 2")?;
    Ok(store)
}

/// A page of zeros.
pub const BLANK: Page = [0; 4096];

/// What the header of a map says whose tree has its root at page 1.
#[derive(Clone, Copy)]
pub struct Said {
    pub format: u8,
    pub level: u8,
    pub height: u8,
    pub records: u32,
}

/// The head that says so, where it is that of a map of level 1 to 3 in a file of 16 pages.
fn head_of(said: Said) -> Option<Head>
    ensures { IfSome result (λ h. IsHead 16 h) }
{
    let Said {
        format,
        level,
        height,
        records,
    } = said;
    if format == 0 || format > 2 || level == 0 || level > 3 {
        return None;
    }
    if height == 0 || height > 3 || records == 0 || records > 512 {
        return None;
    }
    Some(Head {
        format,
        edition: 1,
        level,
        root: 1,
        height,
        records,
    })
}

/// What an audit answers of a file with these as the pages 1 and 2.
pub fn surveyed(
    alloc: Global,
    one: &Page,
    two: &Page,
    said: Said,
) -> Result<Result<Survey, Stop>, Fail> {
    let Some(head) = head_of(said) else {
        return Err(Fail::from("a header"));
    };
    let mut store = stored(alloc, one, two)?;
    Ok(audit(alloc, &mut store, &head, 16))
}

/// What an audit answers of a tree of one leaf with these records, at most 144, where the header says so many.
fn of_leaf(
    alloc: Global,
    records: &[Record],
    format: u8,
    level: u8,
    stated: u32,
) -> Result<Result<Survey, Stop>, Fail> {
    if records.len() > 144 {
        return Err(Fail::from("one leaf"));
    }
    let said = Said {
        format,
        level,
        height: 1,
        records: stated,
    };
    surveyed(alloc, &leaf_page(records), &BLANK, said)
}

/// How many records there are.
fn count_of(records: &[Record]) -> u32 {
    u32::try_from(records.len()).unwrap_or(u32::MAX)
}

/// What an audit finds of a map of level 1 whose tree is one leaf with these records.
pub fn map_of(alloc: Global, records: &[Record], format: u8) -> Result<Survey, Fail> {
    match of_leaf(alloc, records, format, 1, count_of(records))? {
        Ok(survey) => Ok(survey),
        Err(_) => Err(Fail::from("a map")),
    }
}

/// Why an audit refuses a tree of one leaf with these records, if it does.
pub fn refusal(
    alloc: Global,
    records: &[Record],
    format: u8,
    level: u8,
) -> Result<Option<Stop>, Fail> {
    Ok(of_leaf(alloc, records, format, level, count_of(records))?.err())
}

/// The same at level 1, where the header says another number of records.
pub fn refusal_of(
    alloc: Global,
    records: &[Record],
    format: u8,
    stated: u32,
) -> Result<Option<Stop>, Fail> {
    Ok(of_leaf(alloc, records, format, 1, stated)?.err())
}

/// Page 0 is what is answered where each page passes.
pub const NO_MAP: Option<Stop> = Some(Stop::Damaged { page: 0 });

/// Each of these lists is refused at level 1, though each page passes.
pub fn spell_no_map(
    rt: &impl Abort,
    alloc: Global,
    format: u8,
    lists: &[&[Record]],
) -> Result<(), Fail> {
    for (i, records) in lists.iter().enumerate() {
        let found = refusal(alloc, records, format, 1)?;
        assert!(rt; found == NO_MAP, "list {i}");
    }
    Ok(())
}

/// Each of these lists is that of a map of level 1.
pub fn spell_maps(
    rt: &impl Abort,
    alloc: Global,
    format: u8,
    lists: &[&[Record]],
) -> Result<(), Fail> {
    for (i, records) in lists.iter().enumerate() {
        let found = refusal(alloc, records, format, 1)?;
        assert!(rt; found.is_none(), "list {i}");
    }
    Ok(())
}

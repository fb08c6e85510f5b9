use super::tally::Tally;
use super::writing::{Tree, put};
use quilt_audit::{Survey, audit};
use quilt_node::header_of;
use quilt_plain_pages::{Page, Walk, is_map, put_page, walk_tree};
use quilt_record::Record;
use quilt_store::{MemStore, PageStore};
use quilt_types::Stop;
use std::alloc::{AllocError, Global};
use std::process::Abort;
use std::test::Fail;

/// What the header says beside the tree's root and height.
#[derive(Clone, Copy)]
pub struct Claim {
    pub format: u8,
    pub level: u8,
    pub records: u32,
}

/// What is found of a file: the page that is named as damaged, or 0 where all are sound and there is no map, or none where there is
/// one; and then its pages, each with whether it is one of the tree, and how many layers the catalog has.
#[derive(Drop)]
struct Verdict {
    page: Option<u32>,
    used: Vec<bool>,
    layers: usize,
}

/// The verdict that names a page.
fn refusal(alloc: Global, page: u32) -> Verdict {
    Verdict {
        page: Some(page),
        used: Vec::new(alloc),
        layers: 0,
    }
}

/// Whether the records are as many as the header says, and spell a map.
fn is_claimed(alloc: Global, records: &[Record], claim: Claim) -> Result<bool, AllocError> {
    if records.len() != claim.records as usize {
        return Ok(false);
    }
    is_map(alloc, records, claim.level, claim.format)
}

/// The verdict that there is a map with these records.
fn acceptance(records: &[Record], used: Vec<bool>) -> Verdict {
    Verdict {
        page: None,
        used,
        layers: records.iter().filter(|r| r.key.layer == 0).count(),
    }
}

/// The verdict of a plain reading of a tree whose pages are sound: page 0 where the records are not as many as the header says or
/// do not spell a map, or nothing.
fn verdict_on(
    alloc: Global,
    records: &[Record],
    used: Vec<bool>,
    claim: Claim,
    tally: &mut Tally,
) -> Result<Verdict, AllocError> {
    let has_map = is_claimed(alloc, records, claim)?;
    tally.count_whole(has_map);
    if has_map {
        Ok(acceptance(records, used))
    } else {
        Ok(refusal(alloc, 0))
    }
}

/// The verdict of a plain reading: the first damaged page of a walk, or else that on the records.
fn plain_verdict(
    alloc: Global,
    tree: &Tree,
    claim: Claim,
    tally: &mut Tally,
) -> Result<Verdict, AllocError> {
    match walk_tree(alloc, &tree.pages, tree.root, tree.height)? {
        Walk::Damaged { page, flaw } => {
            tally.count_flaw(flaw);
            Ok(refusal(alloc, page))
        }
        Walk::Whole { records, visited } => verdict_on(alloc, &records, visited, claim, tally),
    }
}

/// The header's page.
fn header(tree: &Tree, claim: Claim) -> Page {
    let mut page = [0; 4096];
    put(&mut page, 0, b"QHDR");
    put(&mut page, 4, &[0, 0, 0, claim.format, 0, 0, 0, 1]);
    put(&mut page, 12, &[claim.level, tree.height, 0, 0]);
    put(&mut page, 16, &tree.root.to_be_bytes());
    put(&mut page, 20, &claim.records.to_be_bytes());
    page
}

/// A store of these pages, of which none is free.
fn stored(alloc: Global, pages: &[Page]) -> Result<MemStore, Fail> {
    let count = u32::try_from(pages.len()).unwrap_or(0);
    if count < 16 || count > 30000 {
        return Err(Fail::from("a file of so many pages"));
    }
    let mut store = MemStore::new(alloc, count)?;
    for (i, bytes) in pages.iter().enumerate().skip(1) {
        let page = put_page(&mut store, bytes).ok_or("a page that is free")?;
        if page as usize != i {
            return Err(Fail::from("another page is free"));
        }
    }
    Ok(store)
}

/// The bits of the first pages, one by one.
fn bits_of(alloc: Global, bits: &[u8; 3750], pages: usize) -> Result<Vec<bool>, AllocError> {
    let mut used = Vec::new(alloc);
    for page in 0..pages {
        let byte = bits.get(page / 8).copied().unwrap_or(0);
        used.push(byte.wrapping_shr((page % 8) as u32) % 2 == 1)?;
    }
    Ok(used)
}

/// The verdict of an audit of a map.
fn taken(alloc: Global, survey: &Survey, pages: usize) -> Result<Verdict, AllocError> {
    Ok(Verdict {
        page: None,
        used: bits_of(alloc, &survey.used, pages)?,
        layers: survey.catalog.entries().len(),
    })
}

/// The verdict of an audit of the file.
fn audited(alloc: Global, tree: &Tree, claim: Claim) -> Result<Verdict, Fail> {
    let mut store = stored(alloc, &tree.pages)?;
    let pages = store.pages();
    let Some(head) = header_of(&header(tree, claim), pages) else {
        return Err(Fail::from("a header"));
    };
    match audit(alloc, &mut store, &head, pages) {
        Err(Stop::Damaged { page }) => Ok(refusal(alloc, page)),
        Err(_) => Err(Fail::from("a store in memory")),
        Ok(survey) => Ok(taken(alloc, &survey, tree.pages.len())?),
    }
}

/// Compares an audit of the file with a plain reading, and counts what was found.
pub fn judge(
    rt: &impl Abort,
    alloc: Global,
    tree: &Tree,
    claim: Claim,
    tally: &mut Tally,
) -> Result<(), Fail> {
    tally.count_height(tree.height);
    let wanted = plain_verdict(alloc, tree, claim, tally)?;
    let found = audited(alloc, tree, claim)?;
    assert_eq!(rt; found.page, wanted.page);
    assert_eq!(rt; found.used.as_slice(), wanted.used.as_slice());
    assert_eq!(rt; found.layers, wanted.layers);
    Ok(())
}

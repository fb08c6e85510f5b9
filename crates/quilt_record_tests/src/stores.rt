use quilt_store::{MemStore, PageStore, StoreErr};
use std::process::Abort;
use std::test::Fail;

/// Whether a page is free, where there is one.
fn is_free(store: &MemStore, page: u32) -> Option<bool> {
    if 1 <= page && page < store.pages() {
        Some(store.is_free(page))
    } else {
        None
    }
}

/// How many pages are free.
fn free_pages(store: &MemStore) -> u32 {
    store.free_pages()
}

/// The page that is taken, where one is free.
fn take(store: &mut MemStore) -> Option<u32> {
    if 0 < store.free_pages() {
        Some(store.take_page())
    } else {
        None
    }
}

/// The bytes that are read over others, where there is such a page.
fn read(store: &mut MemStore, page: u32) -> Option<[u8; 4096]> {
    let mut into = [9; 4096];
    if 1 <= page && page < store.pages() && store.read(page, &mut into).is_ok() {
        Some(into)
    } else {
        None
    }
}

/// Whether a page that is taken was written.
fn write(store: &mut MemStore, page: u32, bytes: &[u8; 4096]) -> bool {
    1 <= page && page < store.pages() && !store.is_free(page) && store.write(page, bytes).is_ok()
}

/// Whether a page that was taken could be given back.
fn give(store: &mut MemStore, page: u32) -> bool {
    if 1 <= page && page < store.pages() && !store.is_free(page) {
        store.give_page(page);
        true
    } else {
        false
    }
}

/// A page of zeros but for its first and its last byte.
fn page_of(first: u8, last: u8) -> [u8; 4096] {
    let mut bytes = [0; 4096];
    bytes[0] = first;
    bytes[4095] = last;
    bytes
}

/// What is done with a store and answered, or what it has then.
#[derive(Clone, Copy)]
enum Step {
    /// Whether a page is free.
    IsFree(u32, bool),
    /// How many pages are free.
    Free(u32),
    /// The page that is taken.
    Take(u32),
    /// A page is written, with this first and this last byte.
    Write(u32, u8, u8),
    /// A page is read, with this first and this last byte.
    Read(u32, u8, u8),
    /// A page is given back.
    Give(u32),
}

/// Whether a step is answered as it says.
fn is_answered(store: &mut MemStore, step: Step) -> bool {
    match step {
        Step::IsFree(page, is) => is_free(store, page) == Some(is),
        Step::Free(count) => free_pages(store) == count,
        Step::Take(page) => take(store) == Some(page),
        Step::Write(page, first, last) => write(store, page, &page_of(first, last)),
        Step::Read(page, first, last) => read(store, page) == Some(page_of(first, last)),
        Step::Give(page) => give(store, page),
    }
}

/// Does the steps with a store.
fn plays(rt: &impl Abort, store: &mut MemStore, steps: &[Step]) {
    for (i, step) in steps.iter().enumerate() {
        assert!(rt; is_answered(store, *step), "step {i}");
    }
}

/// A new store of 16 pages.
static NEW: [Step; 2] = [Step::Free(15), Step::Read(3, 0, 0)];

#[test]
fn a_new_store_has_free_pages(rt: HostRuntime) -> Result<(), Fail> {
    let mut store = MemStore::new(rt.alloc(), 16)?;
    assert!(rt; store.pages() == 16);
    plays(&rt, &mut store, &NEW);
    Ok(())
}

#[test]
fn faults_are_told_in_words(rt: HostRuntime) -> Result<(), Fail> {
    let text = format!(in rt.alloc(); "{}, {}", StoreErr::Device, StoreErr::Memory)?;
    assert!(rt; text.as_str() == "device fault, out of memory");
    Ok(())
}

/// A page is taken, written, read and given back.
static EACH_CALL: [Step; 12] = [
    Step::IsFree(1, true),
    Step::IsFree(15, true),
    Step::Take(1),
    Step::Free(14),
    Step::IsFree(1, false),
    Step::Write(1, 1, 2),
    Step::Read(1, 1, 2),
    Step::Read(2, 0, 0),
    Step::IsFree(1, false),
    Step::Give(1),
    Step::IsFree(1, true),
    Step::Free(15),
];

#[test]
fn each_call_on_16_pages(rt: HostRuntime) -> Result<(), Fail> {
    let mut store = MemStore::new(rt.alloc(), 16)?;
    plays(&rt, &mut store, &EACH_CALL);
    Ok(())
}

/// Takes all pages but page 0.
fn take_all(rt: &impl Abort, store: &mut MemStore) {
    for page in 1..16_u32 {
        assert!(rt; take(store) == Some(page));
    }
    assert!(rt; free_pages(store) == 0);
}

#[test]
fn all_pages_are_taken(rt: HostRuntime) -> Result<(), Fail> {
    let mut store = MemStore::new(rt.alloc(), 16)?;
    take_all(&rt, &mut store);
    Ok(())
}

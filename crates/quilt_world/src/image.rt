ghost use Rattle.std.specs.Prelude.{◌≡◌, ◌<◌, [], length, replicate, slice_set, slice_index_or, IfOk};

use std::alloc::{AllocError, Global};
use std::marker::Model;

/// The content of a file: a list of pages of 4096 bytes.
#[derive(Drop)]
pub struct Image {
    alloc: Global,
    pages: Vec<[u8; 4096]>,
}

impl Model for Image {
    ghost use Rattle.std.specs.Prelude.{List, ℕ, ◌<◌, ◌^◌, length};

    ghost Value = { List (List ℕ) };

    ghost view = { λ m. m.pages.items };

    ghost invariant = { λ m. length m.pages.items < 2 ^ 32 };
}

impl Image {
    /// This many pages of zeros.
    pub fn new(alloc: Global, pages: u32) -> Result<Image, AllocError>
        ensures { IfOk result (λ m. m ≡ replicate pages (replicate 4096 0)) }
    {
        let mut all = Vec::new(alloc);
        for _done in 0..pages {
            all.push([0; 4096])?;
        }
        Ok(Image { alloc, pages: all })
    }

    /// The number of pages.
    pub fn pages(&self) -> u32
        ensures { result ≡ length self.now }
    {
        self.pages.len() as u32
    }

    /// The bytes of a page.
    pub fn page(&self, i: u32) -> &[u8; 4096]
        requires { i < length self.now }
        ensures { result.now ≡ slice_index_or self.now i [] }
    {
        &self.pages[i as usize]
    }

    /// Replaces a page. It takes no memory.
    pub fn set_page(&mut self, i: u32, bytes: &[u8; 4096])
        requires { i < length self.old }
        ensures { self.new ≡ slice_set self.old i bytes.now }
    {
        self.pages[i as usize] = *bytes;
    }

    /// An equal image.
    pub fn copy(&self) -> Result<Image, AllocError>
        ensures { IfOk result (λ m. m ≡ self.now) }
    {
        let pages = Vec::from_slice(self.alloc, &self.pages)?;
        Ok(Image {
            alloc: self.alloc,
            pages,
        })
    }
}

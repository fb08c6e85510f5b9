ghost use Rattle.std.specs.Prelude.{◌≡◌, replicate, IfOk};

use quilt_world::Image;
use std::alloc::{AllocError, Global};

/// Two equal images: a file as it is opened, and as it then reads.
#[derive(Drop)]
pub(crate) struct Copies {
    pub(crate) start: Image,
    pub(crate) current: Image,
    ghost same: { current ≡ start },
}

impl Copies {
    /// The image, and one more like it.
    pub(crate) fn of(start: Image) -> Result<Copies, AllocError>
        ensures start { IfOk result (λ c. c.start ≡ start) }
        ensures current { IfOk result (λ c. c.current ≡ start) }
    {
        let current = start.copy()?;
        Ok(Copies { start, current })
    }

    /// This many pages of zeros, twice.
    pub(crate) fn zero(alloc: Global, pages: u32) -> Result<Copies, AllocError>
        ensures start { IfOk result (λ c. c.start ≡ replicate pages (replicate 4096 0)) }
        ensures current { IfOk result (λ c. c.current ≡ replicate pages (replicate 4096 0)) }
    {
        Copies::of(Image::new(alloc, pages)?)
    }
}

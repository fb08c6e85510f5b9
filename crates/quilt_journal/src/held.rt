ghost use Rattle.std.specs.Prelude.{◌≡◌, ℕ, List, Option, None};
ghost use Rattle.std.specs.Option.{option_copied};

/// Pages that are in memory.
pub trait Held {
    /// The bytes of a page, where it is there.
    ghost bytes: { Self → ℕ → Option (List ℕ) };

    /// The page, where it is there.
    fn held(&self, page: u32) -> Option<&[u8; 4096]>
        ensures { option_copied result ≡ bytes self.now page };
}

/// No page in memory.
pub struct NoneHeld;

impl Held for NoneHeld {
    ghost bytes = { λ s page. None };

    fn held(&self, _page: u32) -> Option<&[u8; 4096]> {
        None
    }
}

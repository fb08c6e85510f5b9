ghost use Rattle.std.specs.Prelude.{◌≡◌, ◌↔◌, IsTrue};

/// Whether two paths are the same.
pub(crate) fn is_same(a: &str, b: &str) -> bool
    ensures { IsTrue result ↔ (a.now ≡ b.now) }
{
    a == b
}

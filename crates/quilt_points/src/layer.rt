ghost use Rattle.std.specs.Prelude.{◌≤◌};

/// What a point layer is: its number, from 1 to 255, the level of its map, from 1 to 12, and how many points a block holds
/// at most, from 1 to 16.
#[derive(Clone, Copy)]
pub(crate) struct PointLayer {
    pub number: u8,
    pub level: u8,
    pub bucket: u8,
    ghost has_number: { (1 ≤ number) × (number ≤ 255) },
    ghost has_level: { (1 ≤ level) × (level ≤ 12) },
    ghost has_bucket: { (1 ≤ bucket) × (bucket ≤ 16) },
}

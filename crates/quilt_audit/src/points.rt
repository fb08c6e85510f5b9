ghost use Rattle.std.specs.Prelude.{◌≡◌, ℕ, ◌+◌, ◌<◌, ◌≤◌, ◌++◌, true, false, List, [], ◌∷◌, IfSome, IfNone};
ghost use Rattle.quilt_types.specs.declared.plane.Block.{Block as AnyBlock};
ghost use Rattle.quilt_types.specs.declared.plane.Kind.TheVariants as kinds;
ghost use Rattle.quilt_types.specs.Plane.{IsBlock};
ghost use Rattle.quilt_loc.specs.Codes.{code_from};
ghost use Rattle.quilt_record.specs.declared.record.Record.{Record as AnyRecord};
ghost use Rattle.quilt_record.specs.Records.{record_of};
ghost use Rattle.quilt_record.specs.Canonical.{FactFits, point_fact};
ghost use Rattle.quilt_line_audit.specs.Layers.{RefusesRecord};
ghost use Rattle.quilt_audit.specs.Covers.{AreFour};
ghost use Rattle.quilt_audit.specs.Points.{IsPointStart, IsPointRun, IsBlockBegun, IsLeast, IsFinished, IsHeldIn, count_of as count_of_held};

use crate::codes::end_from;
use crate::siblings::are_siblings;
use crate::tally::Tally;
use quilt_blocks::Leaf;
use quilt_loc::covers;
use quilt_types::{Block, Colour, Point};

/// No block, which stands for one before the first.
const NONE: Tally = Tally {
    block: Block {
        y: 0,
        x: 0,
        side: 0,
    },
    count: 0,
};

/// How far the records of a point layer have come whose blocks hold at most `bucket` points.
#[derive(Clone, Copy)]
pub struct PointRun {
    pub bucket: u8,
    /// The code at which the last block ends.
    pub end: u32,
    /// The three blocks before the last one.
    pub recent: [Tally; 3],
    /// The last block, which may take more points.
    pub last: Tally,
    /// How many points the last block has to hold at least. With fewer it would be one block with the three before it.
    pub least: u16,
}

impl PointRun {
    /// No record yet.
    pub fn new(bucket: u8) -> PointRun
        ensures { IsPointStart bucket result }
    {
        PointRun {
            bucket,
            end: 0,
            recent: [NONE; 3],
            last: NONE,
            least: 0,
        }
    }

    /// After one more record, which says of a block that begins at this code that it holds a point, or none; none where it may
    /// not be the next one.
    pub fn next(&self, code: u32, block: Block, held: Option<Point>, level: u8) -> Option<PointRun>
        requires level { (1 ≤ level) × (level ≤ 12) }
        requires block { IsBlock level block }
        requires code { code ≡ code_from block }
        requires fits { FactFits level (point_fact block held) }
        ensures some { IfSome result (λ next. (form layer : ℕ) (rs : List AnyRecord) → 1 ≤ layer
            → IsPointRun form level rs layer self.now.bucket self.now
            → IsPointRun form level (rs ++ record_of level self.now.bucket [] layer (point_fact block held) ∷ []) layer self.now.bucket next) }
        ensures none { IfNone result ((form layer : ℕ) (rs : List AnyRecord) → 1 ≤ layer → IsPointRun form level rs layer self.now.bucket self.now
            → RefusesRecord form level rs layer (kinds.Points self.now.bucket) (record_of level self.now.bucket [] layer (point_fact block held))) }
    {
        if !is_in(block, held) {
            return None;
        }
        if is_same(block, self.last.block) {
            return self.more(held);
        }
        if code != self.end || u16::from(self.last.count) < self.least {
            return None;
        }
        Some(self.opened(code, block, count_of(held), level))
    }

    /// After one more point of the last block, where it may hold one more.
    fn more(&self, held: Option<Point>) -> Option<PointRun>
        ensures some { IfSome result
            (λ next. (next ≡ record self.now { last = record { block = self.now.last.block; count = self.now.last.count + 1 } })
            × (1 ≤ self.now.last.count) × (self.now.last.count < self.now.bucket) × (count_of_held held ≡ 1)) }
        ensures none { IfNone result ((1 ≤ count_of_held held) → (1 ≤ self.now.last.count) → (self.now.last.count < self.now.bucket) → ⊥) }
    {
        if held.is_none() || self.last.count == 0 || self.bucket <= self.last.count {
            return None;
        }
        Some(PointRun {
            last: Tally {
                block: self.last.block,
                count: self.last.count + 1,
            },
            ..*self
        })
    }

    /// After the first record of a block behind the last one, which begins at this code and says that so many points are in it, 0 or 1.
    fn opened(&self, code: u32, block: Block, count: u8, level: u8) -> PointRun
        requires level { (1 ≤ level) × (level ≤ 12) }
        requires block { IsBlock level block }
        requires code { code ≡ code_from block }
        ensures { IsBlockBegun level self.now block count result }
    {
        let [_, a, b] = self.recent;
        PointRun {
            bucket: self.bucket,
            end: end_from(code, block),
            recent: [a, b, self.last],
            last: Tally { block, count },
            least: least_of(self.bucket, a, b, self.last, block, level),
        }
    }

    /// Whether the blocks cover the square and the last one holds enough.
    pub fn is_finished(&self, level: u8) -> bool
        requires { level ≤ 12 }
        ensures yes { result ≡ true → IsFinished level self.now }
        ensures no { result ≡ false → IsFinished level self.now → ⊥ }
    {
        self.end == 1 << (2 * level) && self.least <= u16::from(self.last.count)
    }
}

/// How many points a block has to hold at least behind these three blocks: more than fit into one block with theirs, where
/// the four are the quarters of a block.
fn least_of(bucket: u8, a: Tally, b: Tally, c: Tally, block: Block, level: u8) -> u16
    requires level { (1 ≤ level) × (level ≤ 12) }
    requires block { IsBlock level block }
    ensures { IsLeast level bucket (a ∷ b ∷ c ∷ []) block result }
{
    if !are_four(a.block, b.block, c.block, block, level) {
        return 0;
    }
    (u16::from(bucket) + 1).saturating_sub(sum_of(a.count, b.count, c.count))
}

/// The sum of the numbers.
fn sum_of(a: u8, b: u8, c: u8) -> u16
    ensures { result ≡ a + b + c }
{
    u16::from(a) + u16::from(b) + u16::from(c)
}

/// Whether the blocks are the four quarters of a block, in the order of their codes.
fn are_four(a: Block, b: Block, c: Block, d: Block, level: u8) -> bool
    requires level { (1 ≤ level) × (level ≤ 12) }
    requires block { IsBlock level d }
    ensures yes { result ≡ true → (whole : AnyBlock) × AreFour level (a ∷ b ∷ c ∷ d ∷ []) whole }
    ensures no { result ≡ false → (whole : AnyBlock) → AreFour level (a ∷ b ∷ c ∷ d ∷ []) whole → ⊥ }
{
    are_siblings(plain(a), plain(b), plain(c), plain(d), level)
}

/// Whether the blocks are one.
fn is_same(a: Block, b: Block) -> bool
    ensures yes { result ≡ true → a ≡ b }
    ensures no { result ≡ false → a ≡ b → ⊥ }
{
    a == b
}

/// The block with the colour 0.
fn plain(block: Block) -> Leaf
    ensures { result ≡ record { block = block; colour = record { 0 = 0 } } }
{
    Leaf {
        block,
        colour: Colour(0),
    }
}

/// Whether the point, where there is one, is in the block.
fn is_in(block: Block, held: Option<Point>) -> bool
    requires { IsBlock 12 block }
    ensures yes { result ≡ true → IsHeldIn block held }
    ensures no { result ≡ false → IsHeldIn block held → ⊥ }
{
    match held {
        None => true,
        Some(p) => covers(block, p.at),
    }
}

/// How many points these are.
fn count_of(held: Option<Point>) -> u8
    ensures { result ≡ count_of_held held }
{
    match held {
        None => 0,
        Some(_) => 1,
    }
}

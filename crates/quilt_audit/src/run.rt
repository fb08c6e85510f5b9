ghost use Rattle.std.specs.Prelude.{◌≡◌, ℕ, ◌≤◌, ◌++◌, List, [], ◌∷◌, IfOk};
ghost use Rattle.std.specs.Bool.{OnTrue, OnFalse};
ghost use Rattle.quilt_types.specs.declared.plane.Kind.{Kind as AnyKind};
ghost use Rattle.quilt_record.specs.declared.record.Record.{Record as AnyRecord};
ghost use Rattle.quilt_audit.specs.declared.run.Run.TheVariants as runs;
ghost use Rattle.quilt_line_audit.specs.Layers.{RefusesRecord};
ghost use Rattle.quilt_audit.specs.Runs.{IsRun, IsRunFinished, Starts};

use crate::points::PointRun;
use crate::regions::RegionRun;
use quilt_blocks::Leaf;
use quilt_line_audit::LineRun;
use quilt_record::{Record, read_point, read_region};
use quilt_types::Kind;
use std::alloc::{AllocError, Global};

/// How far the records of one layer have come.
#[derive(Drop)]
pub enum Run {
    Region(RegionRun),
    Points(PointRun),
    Lines(LineRun),
}

impl Run {
    /// No record yet of a layer of this kind.
    pub fn new(alloc: Global, kind: Kind) -> Run
        ensures { Starts kind result }
    {
        match kind {
            Kind::Region => Run::Region(RegionRun::new()),
            Kind::Points { bucket } => Run::Points(PointRun::new(bucket)),
            Kind::Lines { .. } => Run::Lines(LineRun::new(alloc)),
        }
    }

    /// Takes one more record of the layer, and answers whether it may be the next one.
    pub fn take(&mut self, r: &Record, level: u8, format: u8) -> Result<bool, AllocError>
        requires level { (1 ≤ level) × (level ≤ 12) }
        requires layer { (1 ≤ r.now.key.layer) × (r.now.key.layer ≤ 255) }
        ensures taken { IfOk result (λ ok. (rs : List AnyRecord) (kind : AnyKind) → IsRun format level rs r.now.key.layer kind self.old
            → OnTrue ok (IsRun format level (rs ++ r.now ∷ []) r.now.key.layer kind self.new)) }
        ensures refused { IfOk result (λ ok. (rs : List AnyRecord) (kind : AnyKind) → IsRun format level rs r.now.key.layer kind self.old
            → OnFalse ok (RefusesRecord format level rs r.now.key.layer kind r.now)) }
    {
        match self {
            Run::Region(run) => Ok(take_leaf(run, r, level, format)),
            Run::Points(run) => Ok(take_point(run, r, level)),
            Run::Lines(run) => run.take(r, level),
        }
    }

    /// Whether its records may be all.
    pub fn is_finished(&self, level: u8) -> Result<bool, AllocError>
        requires { level ≤ 12 }
        ensures yes { IfOk result (λ ok. OnTrue ok (IsRunFinished level self.now)) }
        ensures no { IfOk result (λ ok. OnFalse ok (IsRunFinished level self.now → ⊥)) }
    {
        match self {
            Run::Region(run) => Ok(run.is_finished(level)),
            Run::Points(run) => Ok(run.is_finished(level)),
            Run::Lines(run) => run.is_whole(level),
        }
    }
}

/// Takes one more record of a region layer, where it may be the next one.
fn take_leaf(run: &mut RegionRun, r: &Record, level: u8, format: u8) -> bool
    requires level { (1 ≤ level) × (level ≤ 12) }
    requires layer { (1 ≤ r.now.key.layer) × (r.now.key.layer ≤ 255) }
    ensures yes { OnTrue result ((rs : List AnyRecord) (kind : AnyKind) → IsRun format level rs r.now.key.layer kind (runs.Region run.old)
        → IsRun format level (rs ++ r.now ∷ []) r.now.key.layer kind (runs.Region run.new)) }
    ensures no { OnFalse result ((rs : List AnyRecord) (kind : AnyKind) → IsRun format level rs r.now.key.layer kind (runs.Region run.old)
        → RefusesRecord format level rs r.now.key.layer kind r.now) }
{
    let Some((block, colour)) = read_region(r, level, format) else {
        return false;
    };
    let Some(next) = run.next(r.key.code, Leaf { block, colour }, level) else {
        return false;
    };
    *run = next;
    true
}

/// Takes one more record of a point layer, where it may be the next one, in a map of any format.
fn take_point(run: &mut PointRun, r: &Record, level: u8) -> bool
    requires level { (1 ≤ level) × (level ≤ 12) }
    requires layer { (1 ≤ r.now.key.layer) × (r.now.key.layer ≤ 255) }
    ensures yes { OnTrue result ((format : ℕ) (rs : List AnyRecord) (kind : AnyKind)
        → IsRun format level rs r.now.key.layer kind (runs.Points run.old)
        → IsRun format level (rs ++ r.now ∷ []) r.now.key.layer kind (runs.Points run.new)) }
    ensures no { OnFalse result ((format : ℕ) (rs : List AnyRecord) (kind : AnyKind)
        → IsRun format level rs r.now.key.layer kind (runs.Points run.old) → RefusesRecord format level rs r.now.key.layer kind r.now) }
{
    let Some((block, held)) = read_point(r, level, run.bucket) else {
        return false;
    };
    let Some(next) = run.next(r.key.code, block, held, level) else {
        return false;
    };
    *run = next;
    true
}

//! The local laws of line layers: which facts and records an addition and a removal of a segment change.
#![tactic(auto)]

ghost use Rattle.quilt_line_laws.specs.Counting.{SegmentCountLaw, FewerLaw, MergedLaw, ThroughLaw};
ghost use Rattle.quilt_line_laws.specs.Lawful.{AddedLaw, NewLaw, RemovedLaw};
ghost use Rattle.quilt_line_laws.specs.Leads.{AddLeads, RemoveLeads};
ghost use Rattle.quilt_line_laws.specs.Lines.{AddLaw};
ghost use Rattle.quilt_line_laws.specs.Meeting.{EndLaw, QuarterLaw, WithinLaw};
ghost use Rattle.quilt_line_laws.specs.Merging.{DescentLaw, MergesLaw, UnmetLaw, VisitLaw};
ghost use Rattle.quilt_line_laws.specs.Once.{AddOnceLaw, RemoveOnceLaw};
ghost use Rattle.quilt_line_laws.specs.Removing.{RemoveLaw};
ghost use Rattle.quilt_line_laws.specs.Settling.{SettleLaw};

/// What a segment meets of a block it meets of a quarter.
pub fn meeting_law()
    ensures quarter { QuarterLaw }
    ensures within { WithinLaw }
    ensures ends { EndLaw }
{}

/// What a segment that comes changes, found by a descent to the blocks that it meets.
pub fn adding_law()
    ensures facts { AddLaw }
    ensures once { AddOnceLaw }
    ensures visit { VisitLaw }
{}

/// What a segment that goes changes, found by a descent that merges on the way back.
pub fn removing_law()
    ensures blocks { MergesLaw }
    ensures descent { DescentLaw }
    ensures unmet { UnmetLaw }
    ensures merged { MergedLaw }
    ensures step { SettleLaw }
    ensures facts { RemoveLaw }
    ensures once { RemoveOnceLaw }
{}

/// What is counted at a merge, and that a removal leaves fewer facts.
pub fn counting_law()
    ensures count { SegmentCountLaw }
    ensures through { ThroughLaw }
    ensures fewer { FewerLaw }
{}

/// A new layer and what edits make of one are line layers.
pub fn lawful_law()
    ensures fresh { NewLaw }
    ensures added { AddedLaw }
    ensures removed { RemovedLaw }
{}

/// The records of the facts that go and come lead from the old layer to the new one.
pub fn leads_law()
    ensures add { AddLeads }
    ensures remove { RemoveLeads }
{}

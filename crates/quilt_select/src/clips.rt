ghost use Rattle.std.specs.Prelude.{◌≡◌, [], ◌∷◌, ◌++◌, IfOk, OnOk, OnErr};
ghost use Rattle.quilt_select.specs.Clips.{clips_of as clips_of_list};

use quilt_clip::{Frac, clip};
use quilt_types::{Seg, Window};
use std::alloc::{AllocError, Global};
use std::marker::Model;

/// A list of ids of segments, each with two fractions: where the part of the segment that is meant begins and ends.
#[derive(Drop)]
pub struct ClipList {
    clips: Vec<(u32, Frac, Frac)>,
}

impl Model for ClipList {
    ghost use Rattle.std.specs.Prelude.{List, ℕ};
    ghost use Rattle.quilt_types.specs.Fractions.{Fraction};

    ghost Value = { List (ℕ × Fraction × Fraction) };

    ghost view = { λ n. n.clips.items };
}

impl ClipList {
    /// No parts. It takes no memory, and keeps the allocator.
    fn new(alloc: Global) -> ClipList
        ensures { result ≡ [] }
    {
        ClipList {
            clips: Vec::new(alloc),
        }
    }

    /// Adds a part at the end, or changes nothing where no memory is left.
    fn push(&mut self, id: u32, first: Frac, last: Frac) -> Result<(), AllocError>
        ensures ok { OnOk result (self.new ≡ self.old ++ (id, first, last) ∷ []) }
        ensures err { OnErr result (self.new ≡ self.old) }
    {
        self.clips.push((id, first, last))?;
        Ok(())
    }

    /// The ids with the fractions at which their parts begin and end.
    pub fn items(&self) -> &[(u32, Frac, Frac)]
        ensures { result.now ≡ self.now }
    {
        &self.clips
    }
}

/// The part of each segment that lies in the closed window, without those of which nothing does.
pub fn clips_of(alloc: Global, list: &[(u32, Seg)], w: Window) -> Result<ClipList, AllocError>
    ensures { IfOk result (λ clips. clips ≡ clips_of_list w list.now) }
{
    let mut clips = ClipList::new(alloc);
    for (id, s) in list {
        if let Some((first, last)) = clip(*s, w) {
            clips.push(*id, first, last)?;
        }
    }
    Ok(clips)
}

ghost use Rattle.std.specs.Prelude.{◌≡◌, ◌+◌, ◌*◌, ◌<◌, ◌≤◌, true, All, IfOk, IfErr, filter, refl, take};
ghost use Rattle.quilt_types.specs.Layers.{is_in_square};
ghost use Rattle.quilt_types.specs.Segments.{meets as meets_of, square};
ghost use Rattle.quilt_types.specs.declared.stop.Stop.TheVariants.{Memory};
ghost use Rattle.quilt_near.specs.Evens.{ShowsEven};
ghost use Rattle.quilt_store.specs.Stops.{HasStopCause, IsNotDamage};

use crate::blocks::SegBlocks;
use crate::known::Known;
use crate::part::{Part, SegList};
use quilt_clip::meets;
use quilt_store::PageStore;
use quilt_types::{Block, Stop};
use std::alloc::{AllocError, Global};

/// A layer in memory whose blocks all have one side.
#[derive(Drop)]
pub struct Even {
    pub level: u8,
    pub side: u16,
    pub segs: SegList,
    ghost low: { 1 ≤ level },
    ghost high: { level ≤ 12 },
    ghost some: { 1 ≤ side },
    ghost inside: { All (λ e. is_in_square level e.1 ≡ true) segs },
}

/// The segments of a list that meet the block.
fn meeting(alloc: Global, segs: &SegList, b: Block) -> Result<SegList, AllocError>
    ensures { IfOk result (λ list. list ≡ filter (λ e. meets_of e.1 (square b)) segs.now) }
{
    let mut list = SegList::new(alloc);
    for (id, s) in segs.items() {
        if meets(*s, b) {
            list.push(*id, *s)?;
        }
    }
    Ok(list)
}

impl<S: PageStore> SegBlocks<S> for Even {
    ghost level_of = { λ v. v.level };

    ghost shows = { λ v s l. ShowsEven v.level v.side v.segs l };

    ghost marked = { λ v s m. Unit {0} };

    ghost looked = { λ v b s t result. (t ≡ s) × IfErr result (λ e. e ≡ Memory) };

    ghost named = { λ v s e. e ≡ Memory };

    fn level(&self) -> u8 {
        self.level
    }

    fn part(&self, alloc: Global, _store: &mut S, b: Block) -> Result<Part, Stop> {
        if self.side < b.side {
            return Ok(Part::Split);
        }
        match meeting(alloc, &self.segs, b) {
            Err(_) => Err(Stop::Memory),
            Ok(list) => Ok(Part::Leaf(list)),
        }
    }

    /// It keeps no segment, since each is at hand.
    fn part_known(
        &self,
        alloc: Global,
        store: &mut S,
        _known: &mut Known,
        b: Block,
    ) -> Result<Part, Stop> {
        self.part(alloc, store, b)
    }

    ghost lines = { λ v s l h. h.lines };

    ghost same = { λ v s t l e h. h };

    ghost same_marks = { λ v s t m e h. h };

    ghost same_named = { λ v s t e is h. h };

    ghost named_memory = { λ v s. refl };
}

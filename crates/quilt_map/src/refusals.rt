ghost use Rattle.std.specs.Prelude.{◌≡◌, ◌≢◌, ◌<◌, ◌∷◌, false, List, Bool, IsNone, IfSome, All, length};
ghost use Rattle.quilt_types.specs.declared.code.Code.{Code as AnyCode};
ghost use Rattle.quilt_record.specs.Records.{Numbering};
ghost use Rattle.quilt_spell.specs.Catalogued.{IsCatalogOf};
ghost use Rattle.quilt_replies.specs.Answers.{State, Outcome, Refused, unless, exists, too_many};
ghost use Rattle.quilt_map.specs.Making.{refused};

use crate::entries::index_of;
use quilt_record::Entry;
use quilt_types::{Code, Name};

/// The most layers that a map may have.
const LAYER_LIMIT: usize = 255;

/// Why no layer can come under this name.
pub(crate) fn why_not_new(entries: &[Entry], name: &Name) -> Option<Code>
    ensures new { IsNone result → All (λ e. e.name ≢ name.now) entries.now }
    ensures few { IsNone result → length entries.now < 255 }

    // What this says of the tests of a command that makes a layer.
    ensures passes { IsNone result → (s : State) (numbers : Numbering) → IsCatalogOf s.work numbers entries.now
        → ((exists s name.now).0 ≡ false) × ((too_many s).0 ≡ false) }
    ensures refuses { IfSome result (λ code. (s : State) (numbers : Numbering) → IsCatalogOf s.work numbers entries.now
        → (rs : List (Bool × AnyCode)) (done : Outcome) →
        unless (exists s name.now ∷ too_many s ∷ rs) s done ≡ refused s code) }
{
    if index_of(entries, name).is_some() {
        Some(Code::Exists)
    } else if entries.len() >= LAYER_LIMIT {
        Some(Code::Layers)
    } else {
        None
    }
}

//! When a repository forgets the fragments that it remembers, and the adapters that it remembers for a node.
ghost use Rattle.std.specs.FinMap as map;
ghost use Rattle.std.specs.Prelude.{◌≡◌, false, if◌then◌else◌, is_some, List};
ghost use Rattle.links.specs.Laws.{touches_containment as touches};
ghost use Rattle.models.specs.Legal.{kinds_of};
ghost use Rattle.notice_chain.specs.Listed.{Above, Listed};
ghost use Rattle.repository.specs.Remembered.{may_change_containers};
ghost use Rattle.adapter_list.specs.Hearing.{AreKnown};

use adapter_list::Hearers;
use fragment_paths::PathCache;
use links::{Edit, Plan};
use mm_meta::Meta;

/// Whether a plan edits a containing link, that is, a link at an end of a containment or of a container reference.
fn touches_containment(meta: &Meta, edits: &Plan) -> bool
    ensures { result ≡ touches (kinds_of meta.now) edits.now }
{
    edits
        .as_slice()
        .iter()
        .any(|e| meta.containing(e.end().feature).is_some())
}

/// Forgets what may be wrong after the edits of a plan. All remembered fragments are forgotten if the plan edits a containing link. The
/// remembered adapters are forgotten if the plan may give some node a different container. Takes no memory.
#[inline(always)]
pub(crate) fn forget_touched(
    paths: &mut PathCache,
    hearers: &mut Hearers,
    meta: &Meta,
    edits: &Plan,
)
    ensures paths { paths.new ≡ (if touches (kinds_of meta.now) edits.now then map.empty else paths.old) }
    ensures hearers { (up : Above) (rs : List Listed) → (may_change_containers (kinds_of meta.now) edits.now ≡ false → AreKnown up rs hearers.old) → AreKnown up rs hearers.new }
{
    if !touches_containment(meta, edits) {
        return;
    }
    paths.clear();
    if !matches!(edits.as_slice(), [Edit::Shift { .. }]) {
        hearers.forget();
    }
}

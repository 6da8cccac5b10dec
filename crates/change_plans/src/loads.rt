//! The notifications of a load, and why a document can't be loaded into a resource.
ghost use Rattle.std.specs.Prelude.{◌≡◌, ◌≤◌, ◌++◌, length, map, OnOk};
ghost use Rattle.std.specs.List.{All, enumerate_from};
ghost use Rattle.mm_types.specs.declared.limits.TheConstants.{LIST_VALUES};
ghost use Rattle.models.specs.Model.{reading};
ghost use Rattle.doc_loader.specs.Fits.{IsNumbered};
ghost use Rattle.handshake.specs.Refusals as refusals;
ghost use Rattle.handshake.specs.Reports.{root_notice as root_notice_of};

use doc_loader::loaded;
use links::LinkStore;
use mm_types::{End, ObjectNo, Refused, ResourceNo, Value, limits};
use models::{ModelRef, contents_end};
use notice_chain::{Chain, Notice, NoticeKind};
use resource_docs::Doc;
use std::alloc::{AllocError, Global};

/// Why a document can't be loaded into a resource: `Limit` or `NotEmpty`. Takes no memory.
pub(crate) fn load_refusal<L: LinkStore>(
    model: &ModelRef<L>,
    resource: ResourceNo,
    doc: &Doc,
) -> Option<Refused>
    ensures { result ≡ refusals.load_refusal (reading model.now) resource doc.now }
{
    match model.next().checked_add(doc.objects.len()) {
        Some(count) if count <= limits::OBJECTS => {}
        _ => return Some(Refused::Limit),
    }
    if model.len(contents_end(model.meta(), resource)) > 0 {
        return Some(Refused::NotEmpty);
    }
    None
}

/// Adds the notifications of a load to a chain. Each root of a document has one notification, which says that `end` gains the root; the
/// notifications are in the order of the roots. Before the load `end` must have no values. `roots` has the numbers that the roots have in
/// the document, and `next` is the number that the first object of the document gets in the model.
pub(crate) fn root_notices(
    alloc: Global,
    next: usize,
    end: End,
    roots: &[ObjectNo],
    chain: &mut Chain,
) -> Result<(), AllocError>
    requires few { length roots.now ≤ LIST_VALUES }
    requires fits { All (IsNumbered next) roots.now }
    ensures { OnOk result (chain.new ≡ chain.old ++ map (root_notice_of next end) (enumerate_from 0 roots.now)) }
{
    'roots: for (i, root) in roots.iter().enumerate() {
        chain.push(alloc, root_notice(next, end, i as u32, *root))?;
    }
    Ok(())
}

/// The notification when an end gains a root of a document at a position. The end has the earlier roots of the document by then. `root` is
/// the number of the root in the document, and `next` the number that the first object of the document gets in the model.
fn root_notice(next: usize, end: End, position: u32, root: ObjectNo) -> Notice
    requires fits { IsNumbered next root }
    ensures { result ≡ root_notice_of next end (position, root) }
{
    Notice {
        notifier: end.node,
        feature: Some(end.feature),
        kind: NoticeKind::Add,
        old_value: Value::Null,
        new_value: Value::Object(loaded(next, root)),
        position: i64::from(position),
        was_set: position > 0,
    }
}

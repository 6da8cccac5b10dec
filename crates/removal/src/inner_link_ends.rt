//! The links that are named at the ends of destroyed objects; a proxy at such an end counts as a link too. A link between two destroyed
//! objects is named at only one of its ends (`is_named_here`). An object is recognised as destroyed by its number.
ghost use Rattle.std.specs.Prelude.{◌≡◌, ◌++◌, [], true, filter, flat_map, map, OnOk, option_map, option_to_list, if◌then◌else◌};
ghost use Rattle.mm_types.specs.Shapes.{shape};
ghost use Rattle.mm_types.specs.declared.numbers.Node.TheVariants as node;
ghost use Rattle.links.specs.Laws.{goes as goes_with};
ghost use Rattle.models.specs.Found.{found_value};
ghost use Rattle.models.specs.Model.{reading};
ghost use Rattle.models.specs.Reading.{at_end};
ghost use Rattle.removal.specs.Ranks as ranks;
ghost use Rattle.removal.specs.TreeLinkEnds as t;

use crate::link_end::LinkEnd;
use crate::numbers::Numbers;
use links::LinkStore;
use mm_types::{End, FeatureNo, Node, ObjectNo};
use models::{Found, ModelRef};
use std::alloc::AllocError;

/// Adds the links that are named at the ends of `objects`; `numbers` has the numbers of the objects that are destroyed.
pub(crate) fn push_inner<L: LinkStore>(
    model: &ModelRef<L>,
    objects: &[ObjectNo],
    numbers: &Numbers,
    link_ends: &mut Vec<LinkEnd>,
) -> Result<(), AllocError>
    ensures { OnOk result (link_ends.new.items ≡ link_ends.old.items ++ flat_map (t.node_link_ends (reading model.now) (ranks.is_in numbers.now)) objects.now) }
{
    for object in objects {
        push_node(model, *object, numbers, link_ends)?;
    }
    Ok(())
}

/// Adds the links that are named at the ends of one object.
fn push_node<L: LinkStore>(
    model: &ModelRef<L>,
    object: ObjectNo,
    numbers: &Numbers,
    link_ends: &mut Vec<LinkEnd>,
) -> Result<(), AllocError>
    ensures { OnOk result (link_ends.new.items ≡ link_ends.old.items ++ t.node_link_ends (reading model.now) (ranks.is_in numbers.now) object) }
{
    let features = model.all_features(Node::Object(object));
    for feature in features {
        push_reference(model, object, *feature, numbers, link_ends)?;
    }
    Ok(())
}

/// Adds the links that are named at the end of an object under a feature, if the feature is a reference.
fn push_reference<L: LinkStore>(
    model: &ModelRef<L>,
    object: ObjectNo,
    feature: FeatureNo,
    numbers: &Numbers,
    link_ends: &mut Vec<LinkEnd>,
) -> Result<(), AllocError>
    ensures { OnOk result (link_ends.new.items ≡ link_ends.old.items ++ (if (shape model.now.metamodel feature).is_reference then t.end_link_ends (reading model.now) (ranks.is_in numbers.now) (at_end (node.Object object) feature) else [])) }
{
    if !model.meta().is_reference(feature) {
        return Ok(());
    }
    let node = Node::Object(object);
    push_end(model, End { node, feature }, numbers, link_ends)
}

/// Adds the links and the proxies of an end, except the links that are named at the opposite end. To be called only for an end of a
/// reference.
fn push_end<L: LinkStore>(
    model: &ModelRef<L>,
    end: End,
    numbers: &Numbers,
    link_ends: &mut Vec<LinkEnd>,
) -> Result<(), AllocError>
    ensures { OnOk result (link_ends.new.items ≡ link_ends.old.items ++ t.end_link_ends (reading model.now) (ranks.is_in numbers.now) end) }
{
    for index in 0..model.len(end) {
        push_named(model, end, model.value_in(end, index), numbers, link_ends)?;
    }
    Ok(())
}

/// Adds the link (or the proxy) of the value that was found at an end, if the link is named at this end.
fn push_named<L: LinkStore>(
    model: &ModelRef<L>,
    end: End,
    found: Option<Found>,
    numbers: &Numbers,
    link_ends: &mut Vec<LinkEnd>,
) -> Result<(), AllocError>
    ensures { OnOk result (link_ends.new.items ≡ link_ends.old.items ++ map (t.link_end end) (filter (t.is_named_here (reading model.now) (ranks.is_in numbers.now) end.feature) (option_to_list (option_map found_value found.entry)))) }
{
    if let Some(found) = found {
        if is_named_here(model, end.feature, &found, numbers) {
            let value = found.to_value(*link_ends.allocator())?;
            link_ends.push(LinkEnd { end, value })?;
        }
    }
    Ok(())
}

/// Whether a link is named at an end of a destroyed object; `feature` is the feature of the end, and `found` the value of the link there.
/// The link is named there if the value is a proxy or an object that remains. If the value is a destroyed object, the link is named there
/// if `feature` has no opposite, or if the opposite has a higher feature number.
fn is_named_here<L: LinkStore>(
    model: &ModelRef<L>,
    feature: FeatureNo,
    found: &Found,
    numbers: &Numbers,
) -> bool
    ensures { result ≡ t.is_named_here (reading model.now) (ranks.is_in numbers.now) feature (found_value found.now) }
{
    if !goes(found, numbers) {
        return true;
    }
    match model.meta().opposite(feature) {
        Some(far) => feature.0 < far.0,
        None => true,
    }
}

/// Whether a value that was found is a destroyed object.
fn goes(found: &Found, numbers: &Numbers) -> bool
    ensures { result ≡ goes_with (ranks.is_in numbers.now) (found_value found.now) }
{
    match found.object() {
        Some(object) => numbers.has(Node::Object(object)),
        None => false,
    }
}

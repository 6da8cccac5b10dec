//! Writes objects and their values as JSON. The parameter `levels` says how many levels of objects are written at most (`write_object`).
//! The parameter `order` has the sorted features of some class, so that they need not be sorted for each object of that class.
ghost use Rattle.std.specs.Prelude.{◌≡◌, OnOk, codes, map};
ghost use Rattle.mm_types.specs.Ends.{value_in};
ghost use Rattle.mm_types.specs.Lookups as lookups;
ghost use Rattle.mm_types.specs.declared.numbers.Node.TheVariants as node;
ghost use Rattle.models.specs.Found.{found_value};
ghost use Rattle.models.specs.Model.{reading};
ghost use Rattle.models.specs.Reading.{at_end, is_set};
ghost use Rattle.serde_json.specs.Data.{array, object as object_of, string};
ghost use Rattle.serde_json.specs.View.{items_of};
ghost use Rattle.doc_writer.specs.Added.{Adds, AddsMember, AddsMemberIf, IsOrder};
ghost use Rattle.doc_writer.specs.Document as spec;
ghost use Rattle.doc_writer.specs.Written as written;

use crate::leaves::{write_null, write_plain, write_reference, write_text};
use crate::names::class_name;
use crate::order::ClassOrder;
use crate::write_context::WriteContext;
use json::Writer;
use links::LinkStore;
use mm_types::{ClassNo, End, FeatureNo, Node, ObjectNo, Value};
use models::Found;
use std::alloc::AllocError;

/// Writes an object that is a value of `feature`: the object itself if `feature` is a containment, else a reference to the object.
#[cycle(object)]
fn write_under<L: LinkStore>(
    source: &WriteContext<L>,
    levels: usize,
    order: &ClassOrder,
    feature: FeatureNo,
    object: ObjectNo,
    out: &mut Writer,
) -> Result<(), AllocError>
    requires order { IsOrder (reading source.now.positions.now).metamodel order.now }
    ensures { OnOk result (Adds (spec.object_under (reading source.now.positions.now) source.now.resource (spec.object_data (reading source.now.positions.now) source.now.resource levels) feature object) out.old out.new) }
{
    if source.positions.model().meta().is_containment(feature) {
        write_object(source, levels, order, object, out)
    } else {
        write_reference(source, object, out)
    }
}

/// Writes a value that an end of `feature` has.
#[cycle(object)]
fn write_found<L: LinkStore>(
    source: &WriteContext<L>,
    levels: usize,
    order: &ClassOrder,
    feature: FeatureNo,
    found: Found,
    out: &mut Writer,
) -> Result<(), AllocError>
    requires order { IsOrder (reading source.now.positions.now).metamodel order.now }
    ensures { OnOk result (Adds (spec.value_data (reading source.now.positions.now) source.now.resource (spec.object_data (reading source.now.positions.now) source.now.resource levels) feature (found_value found.entry)) out.old out.new) }
{
    match found {
        Found::Object(object) => write_under(source, levels, order, feature, object, out),
        Found::Kept(Value::Object(object)) => {
            write_under(source, levels, order, feature, *object, out)
        }
        Found::Kept(value) => write_plain(source.positions.model().meta(), feature, value, out),
        Found::Proxy(text) => write_text(text, out),
    }
}

/// Writes the value at a position of an end; null if the end has no value there.
#[cycle(object)]
fn write_item<L: LinkStore>(
    source: &WriteContext<L>,
    levels: usize,
    order: &ClassOrder,
    end: End,
    index: u32,
    out: &mut Writer,
) -> Result<(), AllocError>
    requires order { IsOrder (reading source.now.positions.now).metamodel order.now }
    ensures { OnOk result (Adds (spec.value_data (reading source.now.positions.now) source.now.resource (spec.object_data (reading source.now.positions.now) source.now.resource levels) end.feature (value_in ((reading source.now.positions.now).values end) index)) out.old out.new) }
{
    match source.positions.model().value_in(end, index) {
        Some(found) => write_found(source, levels, order, end.feature, found, out),
        None => write_null(out),
    }
}

/// The class of the first value of an end, if the feature of the end is a containment and the first value is an object; else the class of
/// `order`.
fn first_class<L: LinkStore>(
    source: &WriteContext<L>,
    order: &ClassOrder,
    end: End,
) -> Option<ClassNo> {
    let model = source.positions.model();
    if !model.meta().is_containment(end.feature) {
        return order.class();
    }
    match model.value_in(end, 0) {
        Some(Found::Object(object)) => model.class(object),
        _ => order.class(),
    }
}

/// Writes all values of an end as an array. If the values are contained objects, one list of sorted features is used for all of them that
/// have the class of the first. This list is `order` if `order` is for that class; otherwise the features of that class are sorted here,
/// once.
#[cycle(object)]
fn write_items<L: LinkStore>(
    source: &WriteContext<L>,
    levels: usize,
    order: &ClassOrder,
    end: End,
    out: &mut Writer,
) -> Result<(), AllocError>
    requires order { IsOrder (reading source.now.positions.now).metamodel order.now }
    ensures { OnOk result (Adds (array (items_of (map (spec.value_data (reading source.now.positions.now) source.now.resource (spec.object_data (reading source.now.positions.now) source.now.resource levels) end.feature) ((reading source.now.positions.now).values end)))) out.old out.new) }
{
    let class = first_class(source, order, end);
    if order.is_of(class) {
        return write_list(source, levels, order, end, out);
    }
    let own = ClassOrder::of(source.alloc, source.positions.model().meta(), class)?;
    write_list(source, levels, &own, end, out)
}

/// Writes all values of an end as an array. `order` is used for those contained objects that have the class of `order`.
#[cycle(object)]
fn write_list<L: LinkStore>(
    source: &WriteContext<L>,
    levels: usize,
    order: &ClassOrder,
    end: End,
    out: &mut Writer,
) -> Result<(), AllocError>
    requires order { IsOrder (reading source.now.positions.now).metamodel order.now }
    ensures { OnOk result (Adds (array (items_of (map (spec.value_data (reading source.now.positions.now) source.now.resource (spec.object_data (reading source.now.positions.now) source.now.resource levels) end.feature) ((reading source.now.positions.now).values end)))) out.old out.new) }
{
    out.begin_array()?;
    'values: for index in 0..source.positions.model().len(end) {
        write_item(source, levels, order, end, index, out)?;
    }
    out.end_array()
}

/// Writes the values of a feature of an object: as an array if the feature is many-valued, else the one value (null if there is none).
#[cycle(object)]
fn write_content<L: LinkStore>(
    source: &WriteContext<L>,
    levels: usize,
    order: &ClassOrder,
    object: ObjectNo,
    feature: FeatureNo,
    out: &mut Writer,
) -> Result<(), AllocError>
    requires order { IsOrder (reading source.now.positions.now).metamodel order.now }
    ensures { OnOk result (Adds (spec.content_data (reading source.now.positions.now) source.now.resource (spec.object_data (reading source.now.positions.now) source.now.resource levels) object feature) out.old out.new) }
{
    let node = Node::Object(object);
    let end = End { node, feature };
    if source.positions.model().meta().is_single(feature) {
        write_item(source, levels, order, end, 0, out)
    } else {
        write_items(source, levels, order, end, out)
    }
}

/// Writes a feature of an object as a member: the name of the feature, and its values.
#[cycle(object)]
fn write_feature<L: LinkStore>(
    source: &WriteContext<L>,
    levels: usize,
    order: &ClassOrder,
    object: ObjectNo,
    feature: FeatureNo,
    out: &mut Writer,
) -> Result<(), AllocError>
    requires order { IsOrder (reading source.now.positions.now).metamodel order.now }
    ensures { OnOk result (AddsMember (lookups.feature_name (reading source.now.positions.now).metamodel feature) (spec.content_data (reading source.now.positions.now) source.now.resource (spec.object_data (reading source.now.positions.now) source.now.resource levels) object feature) out.old out.new) }
{
    out.key(source.positions.model().meta().feature_name(feature))?;
    write_content(source, levels, order, object, feature, out)
}

/// If a feature of an object is set, writes it as a member: the name of the feature, and its values.
#[cycle(object)]
fn write_if_set<L: LinkStore>(
    source: &WriteContext<L>,
    levels: usize,
    order: &ClassOrder,
    object: ObjectNo,
    feature: FeatureNo,
    out: &mut Writer,
) -> Result<(), AllocError>
    requires order { IsOrder (reading source.now.positions.now).metamodel order.now }
    ensures { OnOk result (AddsMemberIf (is_set (reading source.now.positions.now) (at_end (node.Object object) feature)) (lookups.feature_name (reading source.now.positions.now).metamodel feature) (spec.content_data (reading source.now.positions.now) source.now.resource (spec.object_data (reading source.now.positions.now) source.now.resource levels) object feature) out.old out.new) }
{
    let node = Node::Object(object);
    if !source.positions.model().is_set(End { node, feature }) {
        return Ok(());
    }
    write_feature(source, levels, order, object, feature, out)
}

/// Writes a JSON object whose members are those features of an object that are set and are no container references, in the order of their
/// names. `order` has to be for the object's class.
#[cycle(object)]
fn write_features<L: LinkStore>(
    source: &WriteContext<L>,
    levels: usize,
    order: &ClassOrder,
    object: ObjectNo,
    out: &mut Writer,
) -> Result<(), AllocError>
    requires order { IsOrder (reading source.now.positions.now).metamodel order.now }
    requires class { order.now.class ≡ (reading source.now.positions.now).class object }
    ensures { OnOk result (Adds (object_of (spec.members (map (spec.feature_member (reading source.now.positions.now) source.now.resource (spec.object_data (reading source.now.positions.now) source.now.resource levels) object) (written.written_features (reading source.now.positions.now) object)))) out.old out.new) }
{
    source.positions.model().lemma_is_legal();
    let features = order.as_slice();
    out.begin_object()?;
    'features: for feature in features {
        write_if_set(source, levels, order, object, *feature, out)?;
    }
    out.end_object()
}

/// Writes the member `class` of an object: the name of its class.
fn write_class<L: LinkStore>(
    source: &WriteContext<L>,
    object: ObjectNo,
    out: &mut Writer,
) -> Result<(), AllocError>
    ensures { OnOk result (AddsMember (codes "class") (string (spec.class_name (reading source.now.positions.now) object)) out.old out.new) }
{
    out.key("class")?;
    write_text(class_name(source.positions.model(), object), out)
}

/// Writes the member `features` of an object. If `order` is not for the object's class, the features of the object's class are sorted
/// first.
#[cycle(object)]
fn write_members<L: LinkStore>(
    source: &WriteContext<L>,
    levels: usize,
    order: &ClassOrder,
    object: ObjectNo,
    out: &mut Writer,
) -> Result<(), AllocError>
    requires order { IsOrder (reading source.now.positions.now).metamodel order.now }
    ensures { OnOk result (AddsMember (codes "features") (object_of (spec.members (map (spec.feature_member (reading source.now.positions.now) source.now.resource (spec.object_data (reading source.now.positions.now) source.now.resource levels) object) (written.written_features (reading source.now.positions.now) object)))) out.old out.new) }
{
    out.key("features")?;
    let class = source.positions.model().class(object);
    if order.is_of(class) {
        return write_features(source, levels, order, object, out);
    }
    let own = ClassOrder::of(source.alloc, source.positions.model().meta(), class)?;
    write_features(source, levels, &own, object, out)
}

/// Writes an object with all that the object contains, down to `levels` levels, of which the object itself is the first. Writes null for
/// each object directly below the last of these levels, and for the object itself if `levels` is 0. Fails only if memory is refused; then a
/// part of the text may be written.
#[cycle(object)]
pub(crate) fn write_object<L: LinkStore>(
    source: &WriteContext<L>,
    levels: usize,
    order: &ClassOrder,
    object: ObjectNo,
    out: &mut Writer,
) -> Result<(), AllocError>
    requires order { IsOrder (reading source.now.positions.now).metamodel order.now }
    ensures { OnOk result (Adds (spec.object_data (reading source.now.positions.now) source.now.resource levels object) out.old out.new) }
{
    if levels == 0 {
        return write_null(out);
    }
    out.begin_object()?;
    write_class(source, object, out)?;
    write_members(source, levels - 1, order, object, out)?;
    out.end_object()
}

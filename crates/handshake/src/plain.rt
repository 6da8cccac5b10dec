//! Sets and additions that make no link, and ends that already have the value that is set or added.
ghost use Rattle.std.specs.Prelude.{◌≡◌, false, true};
ghost use Rattle.std.specs.Option.{option_map_or};
ghost use Rattle.mm_types.specs.Same.{same_end};
ghost use Rattle.mm_types.specs.Shapes.{shape};
ghost use Rattle.mm_types.specs.declared.numbers.Node.TheVariants as node;
ghost use Rattle.models.specs.Model.{reading};
ghost use Rattle.models.specs.Reading.{is_repeat as is_repeat_of};
ghost use Rattle.handshake.specs.Displaced as d;

use links::LinkStore;
use mm_types::{End, Node, ObjectNo, Value};
use models::ModelRef;

/// Whether an addition makes no link: it is to an attribute, or the list is unique and has the value already.
pub fn is_plain_add<L: LinkStore>(model: &ModelRef<L>, end: End, value: &Value) -> bool
    ensures { result ≡ d.is_plain_add (reading model.now) end value.now }
{
    !model.meta().is_reference(end.feature) || is_repeat(model, end, value)
}

/// Whether the values of an end are unique, and `value` is one of them already. The values of a containment are not searched: the container
/// of an object tells whether the end has the object.
pub fn is_repeat<L: LinkStore>(model: &ModelRef<L>, end: End, value: &Value) -> bool
    ensures { result ≡ is_repeat_of (reading model.now) end value.now }
{
    model.lemma_is_legal();
    match value {
        Value::Object(object) if model.meta().is_containment(end.feature) => {
            model.meta().is_unique(end.feature) && is_contained_by(model, *object, end)
        }
        _ => model.is_repeat(end, value),
    }
}

/// Whether an end contains an object.
fn is_contained_by<L: LinkStore>(model: &ModelRef<L>, object: ObjectNo, end: End) -> bool
    ensures { result ≡ option_map_or (same_end end) ((reading model.now).holder (node.Object object)) false }
{
    match model.holder(Node::Object(object)) {
        Some(holder) => end == holder,
        None => false,
    }
}

/// Whether a set to `value` neither makes nor cuts a link: the feature is an attribute, or `value` is the end's value already.
pub fn is_plain_set<L: LinkStore>(model: &ModelRef<L>, end: End, value: &Value) -> bool
    ensures { result ≡ d.is_plain_set (reading model.now) end value.now }
{
    if !model.meta().is_reference(end.feature) {
        return true;
    }
    has_already(model, end, value)
}

/// Whether `value` is the value of a single reference already. An empty reference has the value null.
pub fn has_already<L: LinkStore>(model: &ModelRef<L>, end: End, value: &Value) -> bool
    requires reference { (shape model.now.metamodel end.feature).is_reference ≡ true }
    ensures { result ≡ d.has_already (reading model.now) end value.now }
{
    match model.value_at(end) {
        Some(found) => found.is(value),
        None => matches!(value, Value::Null),
    }
}

//! The links from ends of remaining nodes to destroyed objects, for features without opposite: these links can be named only at the ends of
//! the remaining nodes.
ghost use Rattle.std.specs.Prelude.{◌≡◌, ◌++◌, true, All, filter, flat_map, map, OnOk, option_map, option_to_list};
ghost use Rattle.mm_types.specs.Shapes.{shape};
ghost use Rattle.mm_types.specs.declared.value.Value.TheVariants as value;
ghost use Rattle.links.specs.Laws.{goes};
ghost use Rattle.models.specs.Model.{reading};
ghost use Rattle.removal.specs.Ranks as ranks;
ghost use Rattle.removal.specs.TreeLinkEnds as t;

use crate::link_end::LinkEnd;
use crate::numbers::Numbers;
use links::LinkStore;
use mm_types::{End, Node, ObjectNo, Value};
use models::ModelRef;
use std::alloc::AllocError;

/// Adds the links from `ends`, which are ends of remaining nodes, to destroyed objects. Leaves out the ends of features with an opposite:
/// their links are named at the ends of the destroyed objects.
pub(crate) fn push_outer<L: LinkStore>(
    model: &ModelRef<L>,
    ends: &[End],
    numbers: &Numbers,
    link_ends: &mut Vec<LinkEnd>,
) -> Result<(), AllocError>
    requires references { All (λ e. (shape model.now.metamodel e.feature).is_reference ≡ true) ends.now }
    ensures { OnOk result (link_ends.new.items ≡ link_ends.old.items ++ flat_map (t.outer_link_ends (reading model.now) (ranks.is_in numbers.now)) ends.now) }
{
    for end in ends {
        push_alone(model, *end, numbers, link_ends)?;
    }
    Ok(())
}

/// Adds the links that lead from an end to destroyed objects, if the end's feature has no opposite.
fn push_alone<L: LinkStore>(
    model: &ModelRef<L>,
    end: End,
    numbers: &Numbers,
    link_ends: &mut Vec<LinkEnd>,
) -> Result<(), AllocError>
    requires reference { (shape model.now.metamodel end.feature).is_reference ≡ true }
    ensures { OnOk result (link_ends.new.items ≡ link_ends.old.items ++ t.outer_link_ends (reading model.now) (ranks.is_in numbers.now) end) }
{
    if model.meta().opposite(end.feature).is_some() {
        return Ok(());
    }
    for index in 0..model.len(end) {
        push_if_gone(end, model.object_in(end, index), numbers, link_ends)?;
    }
    Ok(())
}

/// Adds the link of the object that was found at an end, if this object is destroyed.
fn push_if_gone(
    end: End,
    other: Option<ObjectNo>,
    numbers: &Numbers,
    link_ends: &mut Vec<LinkEnd>,
) -> Result<(), AllocError>
    ensures { OnOk result (link_ends.new.items ≡ link_ends.old.items ++ map (t.link_end end) (filter (goes (ranks.is_in numbers.now)) (option_to_list (option_map value.Object other)))) }
{
    if let Some(other) = other {
        if numbers.has(Node::Object(other)) {
            link_ends.push(LinkEnd {
                end,
                value: Value::Object(other),
            })?;
        }
    }
    Ok(())
}

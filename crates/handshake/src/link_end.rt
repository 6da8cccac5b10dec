//! Links, each named by one of its ends.
ghost use Rattle.std.specs.Prelude.{◌≡◌};
ghost use Rattle.std.specs.List.{list_any};
ghost use Rattle.mm_types.specs.Same as same;
ghost use Rattle.models.specs.Model.{reading};
ghost use Rattle.handshake.specs.Displaced as d;

use links::LinkStore;
use mm_types::{Node, Value};
use models::{ModelRef, is_same};
use proxies::opposite_end;
use removal::LinkEnd;

/// A node as a value; null for a resource, since no end has a resource as a value.
pub(crate) fn node_value(node: Node) -> Value
    ensures { result ≡ same.node_value node }
{
    match node {
        Node::Object(object) => Value::Object(object),
        Node::Resource(_) => Value::Null,
    }
}

/// The link that `link_end` names, named by its other end; `None` if the link has no other end.
pub(crate) fn turned<L: LinkStore>(model: &ModelRef<L>, link_end: &LinkEnd) -> Option<LinkEnd>
    ensures { result ≡ d.opposite_link_end (reading model.now) link_end.now }
{
    match &link_end.value {
        Value::Object(object) => match opposite_end(model, link_end.end, *object) {
            Some(end) => Some(LinkEnd {
                end,
                value: node_value(link_end.end.node),
            }),
            None => None,
        },
        _ => None,
    }
}

fn is_same_link_end(a: &LinkEnd, b: &LinkEnd) -> bool
    ensures { result ≡ d.same_link_end a.now b.now }
{
    a.end == b.end && is_same(&a.value, &b.value)
}

/// Whether two link ends name the same link.
fn is_same_link<L: LinkStore>(model: &ModelRef<L>, a: &LinkEnd, b: &LinkEnd) -> bool
    ensures { result ≡ d.same_link (reading model.now) a.now b.now }
{
    if is_same_link_end(a, b) {
        return true;
    }
    match turned(model, b) {
        Some(b) => is_same_link_end(a, &b),
        None => false,
    }
}

/// Whether a link is among the links of `link_ends`.
pub(crate) fn is_among<L: LinkStore>(
    model: &ModelRef<L>,
    link_ends: &[LinkEnd],
    link_end: &LinkEnd,
) -> bool
    ensures { result ≡ list_any (d.same_link (reading model.now) link_end.now) link_ends.now }
{
    for other in link_ends {
        if is_same_link(model, link_end, other) {
            return true;
        }
    }
    false
}

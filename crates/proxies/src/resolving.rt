//! What resolving a proxy finds, and why a proxy can't be resolved.
ghost use Rattle.std.specs.Prelude.{◌≡◌, false, is_some, not, option_and_then, option_copied, IfOk};
ghost use Rattle.std.specs.Option.{option_map_or};
ghost use Rattle.fragment_paths.specs.Finding.{at};
ghost use Rattle.mm_types.specs.Conditions.{◌unless◌, ◌where_so◌, ◌else_by◌};
ghost use Rattle.mm_types.specs.Same.{same_node};
ghost use Rattle.mm_types.specs.declared.numbers.Node.TheVariants as node;
ghost use Rattle.mm_types.specs.declared.refused.Refused.TheVariants.{Unloaded, Unmatched, Unresolved};
ghost use Rattle.models.specs.Model.{reading};
ghost use Rattle.models.specs.Reading.{has_uri};
ghost use Rattle.web_uris.specs.Addresses.{uri_part};
ghost use Rattle.proxies.specs.Refusals as refusals;
ghost use Rattle.proxies.specs.Resolving as resolving;

use crate::ends::opposite_end;
use crate::resolved_proxy::{Counterpart, ResolvedProxy};
use fragment_paths::object_at;
use links::LinkStore;
use mm_types::{End, Node, ObjectNo, Refused, Value};
use models::ModelRef;
use std::alloc::{AllocError, Global};
use web_uris::split_address;

/// The target of the proxy at an index of an end: the object at the proxy's address, and the proxy of the same link at the opposite end, if
/// there is one. `None` if no proxy is at the index, or no object is at the proxy's address. Fails only if memory is refused.
pub fn target_at<L: LinkStore>(
    alloc: Global,
    model: &ModelRef<L>,
    end: End,
    index: u32,
) -> Result<Option<ResolvedProxy>, AllocError>
    ensures { IfOk result (λ q. q ≡ resolving.target_at (reading model.now) end index) }
{
    let Some(address) = proxy_at(model, end, index) else {
        return Ok(None);
    };
    let Some(object) = object_at(alloc, model, address)? else {
        return Ok(None);
    };
    let counterpart = counterpart(alloc, model, end, object)?;
    Ok(Some(ResolvedProxy {
        object,
        counterpart,
    }))
}

/// At the opposite end of a link between `end` and `object`, the first proxy that has the node of `end` at its address. `None` if there is
/// no opposite end or no such proxy. Fails only if memory is refused.
fn counterpart<L: LinkStore>(
    alloc: Global,
    model: &ModelRef<L>,
    end: End,
    object: ObjectNo,
) -> Result<Option<Counterpart>, AllocError>
    ensures { IfOk result (λ q. q ≡ resolving.counterpart (reading model.now) end object) }
{
    match opposite_end(model, end, object) {
        Some(far) => first_to(alloc, model, end.node, far),
        None => Ok(None),
    }
}

/// The first proxy at `end` that has `node` at its address; `None` if there is none. Fails only if memory is refused.
fn first_to<L: LinkStore>(
    alloc: Global,
    model: &ModelRef<L>,
    node: Node,
    end: End,
) -> Result<Option<Counterpart>, AllocError>
    ensures { IfOk result (λ q. q ≡ resolving.first_to (reading model.now) node end) }
{
    for index in model.proxy_start(end)..model.len(end) {
        if leads_to(alloc, model, end, index, node)? {
            return Ok(Some(Counterpart { end, index }));
        }
    }
    Ok(None)
}

/// Whether a proxy is at an index of `end` and has the node `to` at its address. Fails only if memory is refused.
fn leads_to<L: LinkStore>(
    alloc: Global,
    model: &ModelRef<L>,
    end: End,
    index: u32,
    to: Node,
) -> Result<bool, AllocError>
    ensures { IfOk result (λ b. b ≡ option_map_or (λ o. same_node (node.Object o) to) (option_and_then (at (reading model.now)) (resolving.proxy_at (reading model.now) end index)) false) }
{
    let Some(address) = proxy_at(model, end, index) else {
        return Ok(false);
    };
    match object_at(alloc, model, address)? {
        Some(object) => Ok(Node::Object(object) == to),
        None => Ok(false),
    }
}

/// Why the proxy at an index of `end` can't be resolved; `target` is what `target_at` found for the proxy. Returns the first of these
/// refusals that applies: `WrongType`, `Index`, `Duplicate`, `NotProxy`, `Unloaded`, `Unresolved` or `Unmatched`; `None` if the proxy can
/// be resolved. Takes no memory.
pub fn resolve_refusal<L: LinkStore>(
    model: &ModelRef<L>,
    end: End,
    index: u32,
    target: Option<ResolvedProxy>,
) -> Option<Refused>
    ensures { result ≡ refusals.target_refusal (reading model.now) end index target }
{
    if is_mistyped(model, end, target) {
        return Some(Refused::WrongType);
    }
    if index >= model.len(end) {
        return Some(Refused::Index);
    }
    if is_there_already(model, end, target) {
        return Some(Refused::Duplicate);
    }
    match proxy_at(model, end, index) {
        Some(text) => lost_refusal(model, end, text, target),
        None => Some(Refused::NotProxy),
    }
}

/// Whether the feature of an end is an attribute, or the object at a proxy's address is not of the feature's type. `target` has that
/// object, if there is one.
pub fn is_mistyped<L: LinkStore>(
    model: &ModelRef<L>,
    end: End,
    target: Option<ResolvedProxy>,
) -> bool
    ensures { result ≡ refusals.is_mistyped (reading model.now) end target }
{
    if !model.meta().is_reference(end.feature) {
        return true;
    }
    match target {
        Some(target) => !model.takes(end.feature, &Value::Object(target.object)),
        None => false,
    }
}

/// Whether the end of a proxy already has the object at the proxy's address as a value. `target` has that object, if there is one.
pub fn is_there_already<L: LinkStore>(
    model: &ModelRef<L>,
    end: End,
    target: Option<ResolvedProxy>,
) -> bool
    ensures { result ≡ refusals.is_there_already (reading model.now) end target }
{
    match target {
        Some(target) => model.has(end, &Value::Object(target.object)),
        None => false,
    }
}

/// The text of the proxy at an index of an end; `None` if no proxy is there. Takes no memory.
pub fn proxy_at<'a, L: LinkStore>(model: &ModelRef<'a, L>, end: End, index: u32) -> Option<&'a str>
    ensures { option_copied result ≡ resolving.proxy_at (reading model.now) end index }
{
    match model.value_in(end, index) {
        Some(found) => found.proxy(),
        None => None,
    }
}

/// The URI in a proxy's text: the text before the first `#`, or all of it if there is no `#`.
fn uri_of(text: &str) -> &str
    ensures { result.now ≡ uri_part text.now }
{
    match split_address(text) {
        Some((uri, _)) => uri,
        None => text,
    }
}

/// Why the proxy with the text `text` can't be resolved. `resolve_refusal` calls this function after it has tested for its other refusals
/// and found none. Returns the first refusal that applies: `Unloaded` if no resource has the URI in the proxy's text, `Unresolved` if no
/// object is at the proxy's address, `Unmatched` if the proxy needs a counterpart and has none (`is_unmatched`); `None` if the proxy can be
/// resolved.
fn lost_refusal<L: LinkStore>(
    model: &ModelRef<L>,
    end: End,
    text: &str,
    target: Option<ResolvedProxy>,
) -> Option<Refused>
    ensures { result ≡ (Unloaded where_so not (has_uri (reading model.now) (uri_part text.now)) else_by Unresolved unless is_some target else_by Unmatched where_so option_map_or (resolving.is_unmatched (reading model.now) end) target false) }
{
    if !model.has_uri(uri_of(text)) {
        return Some(Refused::Unloaded);
    }
    match target {
        None => Some(Refused::Unresolved),
        Some(target) if is_unmatched(model, end, target) => Some(Refused::Unmatched),
        Some(_) => None,
    }
}

/// Whether the reference of a proxy has an opposite, and no proxy at the opposite end has the referring object at its address. `end` is the
/// end of the proxy, and `target` its target.
pub fn is_unmatched<L: LinkStore>(model: &ModelRef<L>, end: End, target: ResolvedProxy) -> bool
    ensures { result ≡ resolving.is_unmatched (reading model.now) end target }
{
    model.meta().opposite(end.feature).is_some() && target.counterpart.is_none()
}

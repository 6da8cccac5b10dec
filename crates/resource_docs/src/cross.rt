//! Whether a reference with an opposite leads to a different resource.
ghost use Rattle.std.specs.Prelude.{◌≡◌};
ghost use Rattle.std.specs.List.{list_any};
ghost use Rattle.resource_docs.specs.Causes.{has_cross as cross_meant, is_proxy as proxy_meant, of_content};

use crate::doc::{Content, Doc, DocObject};
use mm_meta::Meta;
use mm_types::Value;

fn is_proxy(value: &Value) -> bool
    ensures { result ≡ proxy_meant value.now }
{
    match value {
        Value::Proxy(_) => true,
        _ => false,
    }
}

fn is_any_proxy(values: &[Value]) -> bool
    ensures { result ≡ list_any (λ v. proxy_meant v) values.now }
{
    values.iter().any(|value| is_proxy(value))
}

fn has_cross(meta: &Meta, content: &Content) -> bool
    ensures { result ≡ cross_meant meta.now content.now }
{
    if meta.opposite(content.feature).is_none() {
        return false;
    }
    is_any_proxy(content.values.as_slice())
}

fn has_any_cross(meta: &Meta, contents: &[Content]) -> bool
    ensures { result ≡ list_any (λ c. cross_meant meta.now c) contents.now }
{
    contents.iter().any(|content| has_cross(meta, content))
}

fn is_any_crossed(meta: &Meta, objects: &[DocObject]) -> bool
    ensures { result ≡ list_any (λ o. list_any (λ c. cross_meant meta.now c) o.contents) objects.now }
{
    objects
        .iter()
        .any(|object| has_any_cross(meta, object.contents.as_slice()))
}

/// Whether some reference of a document has an opposite and leads to a different resource. Takes no memory.
pub(crate) fn has_crosses(meta: &Meta, doc: &Doc) -> bool
    ensures { result ≡ of_content (λ o c. cross_meant meta.now c) doc.now }
{
    is_any_crossed(meta, doc.objects.as_slice())
}

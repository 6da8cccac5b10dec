//! Nodes and values in words for a reader.
use crate::scene::Scene;
use adapters::Adapter;
use explain::front_of;
use links::LinkStore;
use mm_types::{ClassNo, End, Node, ObjectNo, Value};
use models::Found;
use script_lines::WrittenValue;
use script_output::feature_name;
use std::alloc::AllocError;

/// The greatest number of bytes of a text that are shown.
pub(crate) const SHOWN_BYTES: usize = 60;

/// The greatest number of bytes of a URI or an address that are shown.
pub(crate) const URI_BYTES: usize = 200;

impl<'s, L: LinkStore, A: Adapter> Scene<'s, L, A> {
    /// The name of an object of the class `class`: the text of the object's feature `name`. `None` if the class has no such feature, or if
    /// the value of the feature is no text.
    fn name_of(&self, object: ObjectNo, class: ClassNo) -> Option<&'s str> {
        let repository = self.repository;
        let feature = repository.meta().feature_by_name(class, "name")?;
        match repository.value(Node::Object(object), feature) {
            Ok(Some(Found::Kept(Value::Text(text)))) => Some(text.as_str()),
            _ => None,
        }
    }
}

impl<L: LinkStore, A: Adapter> Scene<'_, L, A> {
    /// An object with its class and at most 60 bytes of its name, as `#3 (Book "Emma")`. Without the name, as `#3 (Book)`, if the object
    /// has no text as `name`; only the number, as `#3`, if there is no such object.
    pub(crate) fn object_called(&self, object: ObjectNo) -> Result<String, AllocError> {
        let number = object.0;
        let Ok(class) = self.repository.e_class(object) else {
            return format!(in self.alloc; "#{number}");
        };
        let class_name = self.repository.meta().class_name(class);
        match self.name_of(object, class) {
            Some(name) => {
                let name = front_of(name, SHOWN_BYTES);
                format!(in self.alloc; "#{number} ({class_name} {name:?})")
            }
            None => format!(in self.alloc; "#{number} ({class_name})"),
        }
    }

    /// A node, as `#3 (Book "Emma")` or `r0`.
    pub(crate) fn node_called(&self, node: Node) -> Result<String, AllocError> {
        match node {
            Node::Object(object) => self.object_called(object),
            Node::Resource(resource) => format!(in self.alloc; "r{}", resource.0),
        }
    }

    /// A feature of a node, as `tags of #3 (Book "Emma")`.
    pub(crate) fn end_called(&self, end: End) -> Result<String, AllocError> {
        let name = feature_name(self.repository.meta(), end.feature);
        let node = self.node_called(end.node)?;
        format!(in self.alloc; "{name} of {node}")
    }

    /// A feature of a node's class, as `tags of Book`; for a feature of a resource `contents of a resource`.
    pub(crate) fn feature_called(&self, end: End) -> Result<String, AllocError> {
        let meta = self.repository.meta();
        let name = feature_name(meta, end.feature);
        match end.node {
            Node::Object(object) => match self.repository.e_class(object) {
                Ok(class) => format!(in self.alloc; "{name} of {}", meta.class_name(class)),
                Err(_) => format!(in self.alloc; "{name}"),
            },
            Node::Resource(_) => format!(in self.alloc; "{name} of a resource"),
        }
    }

    /// A value as it is written in a line, with two exceptions. A text is shown with at most 60 bytes, and a character that can't be
    /// printed is shown as an escape, as `\u{1b}`. An object is shown with its class and its name.
    pub(crate) fn value_called(&self, value: &WrittenValue<'_>) -> Result<String, AllocError> {
        match value {
            WrittenValue::Null => format!(in self.alloc; "null"),
            WrittenValue::Bool(flag) => format!(in self.alloc; "{flag}"),
            WrittenValue::Int(number) => format!(in self.alloc; "{number}"),
            WrittenValue::Text(text) => {
                format!(in self.alloc; "{:?}", front_of(text.as_str(), SHOWN_BYTES))
            }
            WrittenValue::Literal(name) => format!(in self.alloc; ":{}", name.as_str()),
            WrittenValue::Object(object) => self.object_called(*object),
        }
    }

    /// The value of a reference, in words for a reader.
    pub(crate) fn found_called(&self, found: &Found<'_>) -> Result<String, AllocError> {
        match found {
            Found::Object(object) => self.object_called(*object),
            Found::Proxy(text) => format!(in self.alloc; "proxy {:?}", front_of(text, URI_BYTES)),
            Found::Kept(_) => format!(in self.alloc; "null"),
        }
    }
}

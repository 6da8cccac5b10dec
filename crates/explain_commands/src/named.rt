//! What a line names.
use mm_types::{EndRead, Node, ObjectNo, Read};
use script_lines::{FeatureForm, Form, WrittenValue};

/// The verb of a line, the node that the line names, and the feature of this node that the line names.
#[derive(Clone, Copy)]
pub(crate) struct Named<'a> {
    pub(crate) verb: &'static str,
    pub(crate) node: Option<Node>,
    pub(crate) feature: Option<&'a str>,
}

/// The verb of a line that names a feature; for any other line the words `the line`.
fn verb_in(form: &Form<'_>) -> &'static str {
    let Form::At { form, .. } = form else {
        return "the line";
    };
    match form {
        FeatureForm::Read(EndRead::Get) => "get",
        FeatureForm::Read(EndRead::IsSet) => "isset",
        FeatureForm::Set(_) => "set",
        FeatureForm::Unset => "unset",
        FeatureForm::Add(_) | FeatureForm::AddAt(..) => "add",
        FeatureForm::Remove(_) => "remove",
        FeatureForm::RemoveValue(_) => "removevalue",
        FeatureForm::Move { .. } => "move",
        FeatureForm::Resolve(_) => "resolve",
    }
}

/// The feature that a line names.
fn feature_in<'a>(form: &Form<'a>) -> Option<&'a str> {
    match form {
        Form::At { feature, .. } => Some(feature.as_str()),
        _ => None,
    }
}

/// The object that a line names, if the line is `delete` or asks about one object, as `class` does; `None` for any other line.
fn object_in(form: &Form<'_>) -> Option<ObjectNo> {
    match form {
        Form::Delete(object) | Form::Read(Read::Of(object, _)) => Some(*object),
        _ => None,
    }
}

/// The node that a line names; an object that the line names as a value does not count. `None` if the line names no node.
fn node_in(form: &Form<'_>) -> Option<Node> {
    match form {
        Form::At { node, .. } => Some(*node),
        Form::Read(Read::Under(node, _)) => Some(*node),
        Form::Attach { target, .. } | Form::Watch { target, .. } | Form::Unwatch(_, target) => {
            Some(*target)
        }
        Form::Load { resource, .. } | Form::Read(Read::Save(resource)) => {
            Some(Node::Resource(*resource))
        }
        _ => object_in(form).map(Node::Object),
    }
}

/// The value that a form names: to set it, to add it to a list, or to take it out of a list.
fn given_value<'f, 'a>(form: &'f FeatureForm<'a>) -> Option<&'f WrittenValue<'a>> {
    match form {
        FeatureForm::Set(value)
        | FeatureForm::Add(value)
        | FeatureForm::AddAt(_, value)
        | FeatureForm::RemoveValue(value) => Some(value),
        _ => None,
    }
}

/// The index of the proxy that a line resolves.
pub(crate) fn resolved_index(form: &Form<'_>) -> Option<u32> {
    match form {
        Form::At {
            form: FeatureForm::Resolve(index),
            ..
        } => Some(*index),
        _ => None,
    }
}

/// The value that a line names: to set it, to add it to a list, or to take it out of a list.
pub(crate) fn value_in<'f, 'a>(form: &'f Form<'a>) -> Option<&'f WrittenValue<'a>> {
    match form {
        Form::At { form, .. } => given_value(form),
        _ => None,
    }
}

/// The object that a line names as a value.
pub(crate) fn object_value(form: &Form<'_>) -> Option<ObjectNo> {
    match value_in(form) {
        Some(WrittenValue::Object(object)) => Some(*object),
        _ => None,
    }
}

/// What a line names; `form` is the form of the line.
pub(crate) fn named_in<'a>(form: &Form<'a>) -> Named<'a> {
    Named {
        verb: verb_in(form),
        node: node_in(form),
        feature: feature_in(form),
    }
}

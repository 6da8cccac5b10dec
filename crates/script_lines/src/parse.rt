//! The form that the words of a line fit.
ghost use Rattle.std.specs.Prelude.{◌≡◌, IfOk, map};
ghost use Rattle.script_lines.specs.Forms.{add_at_form, add_form, at_form, contents_form, delete_form, form_of as the_form_of, get_form, isset_form, lone_verb_form, move_form, new_form, object_read, remove_form, removevalue_form, resolve_form, resource_form, save_form, set_form, unset_form, with_four, with_object, with_one, with_three, with_two, with_word};

use crate::adapter_forms::{attach_of, detach_of, seen_of, unwatch_of, watch_of};
use crate::form::{FeatureForm, Form};
use crate::name::Name;
use crate::numbers::natural_of;
use crate::values::{feature_of, feature_value_of, node_of, object_of, resource_no_of, string_of};
use crate::words::is_verb;
use mm_types::{EndRead, Node, NodeRead, ObjectRead, Read};
use std::alloc::{AllocError, Global};

/// `new NAME`
fn new_of(class: &str) -> Option<Form<'_>>
    ensures { result ≡ new_form class.now }
{
    Name::from_word(class).map(|class| Form::New { class })
}

/// `resource STR`
fn resource_of<'a>(alloc: Global, text: &str) -> Result<Option<Form<'a>>, AllocError>
    ensures { IfOk result (λ o. o ≡ resource_form text.now) }
{
    match string_of(alloc, text)? {
        Some(text) => Ok(Some(Form::Resource(text))),
        None => Ok(None),
    }
}

/// `delete OBJ`
fn delete_of<'a>(object: &str) -> Option<Form<'a>>
    ensures { result ≡ delete_form object.now }
{
    Some(Form::Delete(object_of(object)?))
}

/// `at STR`
fn at_of<'a>(alloc: Global, text: &str) -> Result<Option<Form<'a>>, AllocError>
    ensures { IfOk result (λ o. o ≡ at_form text.now) }
{
    match string_of(alloc, text)? {
        Some(text) => Ok(Some(Form::Read(Read::ObjectAt(text)))),
        None => Ok(None),
    }
}

/// `save RES`
fn save_of<'a>(resource: &str) -> Option<Form<'a>>
    ensures { result ≡ save_form resource.now }
{
    Some(Form::Read(Read::Save(resource_no_of(resource)?)))
}

/// `contents NODE`
fn contents_of<'a>(node: &str) -> Option<Form<'a>>
    ensures { result ≡ contents_form node.now }
{
    Some(Form::Read(Read::Under(node_of(node)?, NodeRead::Contents)))
}

/// `get NODE NAME`
fn get_of<'a>(node: &str, feature: &'a str) -> Option<Form<'a>>
    ensures { result ≡ get_form node.now feature.now }
{
    let target = feature_of(node, feature)?;
    Some(Form::at(target, FeatureForm::Read(EndRead::Get)))
}

/// `isset NODE NAME`
fn isset_of<'a>(node: &str, feature: &'a str) -> Option<Form<'a>>
    ensures { result ≡ isset_form node.now feature.now }
{
    let target = feature_of(node, feature)?;
    Some(Form::at(target, FeatureForm::Read(EndRead::IsSet)))
}

/// `unset NODE NAME`
fn unset_of<'a>(node: &str, feature: &'a str) -> Option<Form<'a>>
    ensures { result ≡ unset_form node.now feature.now }
{
    let target = feature_of(node, feature)?;
    Some(Form::at(target, FeatureForm::Unset))
}

/// `set NODE NAME VALUE`
fn set_of<'a>(
    alloc: Global,
    node: &str,
    feature: &'a str,
    value: &'a str,
) -> Result<Option<Form<'a>>, AllocError>
    ensures { IfOk result (λ o. o ≡ set_form node.now feature.now value.now) }
{
    let Some((target, value)) = feature_value_of(alloc, node, feature, value)? else {
        return Ok(None);
    };
    Ok(Some(Form::at(target, FeatureForm::Set(value))))
}

/// `add NODE NAME VALUE`
fn add_of<'a>(
    alloc: Global,
    node: &str,
    feature: &'a str,
    value: &'a str,
) -> Result<Option<Form<'a>>, AllocError>
    ensures { IfOk result (λ o. o ≡ add_form node.now feature.now value.now) }
{
    let Some((target, value)) = feature_value_of(alloc, node, feature, value)? else {
        return Ok(None);
    };
    Ok(Some(Form::at(target, FeatureForm::Add(value))))
}

/// `add NODE NAME VALUE N`
fn add_at_of<'a>(
    alloc: Global,
    node: &str,
    feature: &'a str,
    value: &'a str,
    index: &str,
) -> Result<Option<Form<'a>>, AllocError>
    ensures { IfOk result (λ o. o ≡ add_at_form node.now feature.now value.now index.now) }
{
    let Some(index) = natural_of(index) else {
        return Ok(None);
    };
    let Some((target, value)) = feature_value_of(alloc, node, feature, value)? else {
        return Ok(None);
    };
    Ok(Some(Form::at(target, FeatureForm::AddAt(index, value))))
}

/// `remove NODE NAME N`
fn remove_of<'a>(node: &str, feature: &'a str, index: &str) -> Option<Form<'a>>
    ensures { result ≡ remove_form node.now feature.now index.now }
{
    let target = feature_of(node, feature)?;
    Some(Form::at(target, FeatureForm::Remove(natural_of(index)?)))
}

/// `resolve OBJ NAME N`
fn resolve_of<'a>(object: &str, feature: &'a str, index: &str) -> Option<Form<'a>>
    ensures { result ≡ resolve_form object.now feature.now index.now }
{
    let target = (Node::Object(object_of(object)?), Name::from_word(feature)?);
    Some(Form::at(target, FeatureForm::Resolve(natural_of(index)?)))
}

/// `removevalue NODE NAME VALUE`
fn removevalue_of<'a>(
    alloc: Global,
    node: &str,
    feature: &'a str,
    value: &'a str,
) -> Result<Option<Form<'a>>, AllocError>
    ensures { IfOk result (λ o. o ≡ removevalue_form node.now feature.now value.now) }
{
    let Some((target, value)) = feature_value_of(alloc, node, feature, value)? else {
        return Ok(None);
    };
    Ok(Some(Form::at(target, FeatureForm::RemoveValue(value))))
}

/// `move NODE NAME N N`: the first number is the index to which a value is moved, the second number is the index from which the value is
/// moved.
fn move_of<'a>(node: &str, feature: &'a str, to: &str, from: &str) -> Option<Form<'a>>
    ensures { result ≡ move_form node.now feature.now to.now from.now }
{
    let target = feature_of(node, feature)?;
    let to = natural_of(to)?;
    let from = natural_of(from)?;
    Some(Form::at(target, FeatureForm::Move { to, from }))
}

/// The form of a line that is only a verb; `None` for any verb other than `resolveall`.
fn alone_of<'a>(verb: &str) -> Option<Form<'a>>
    ensures { result ≡ lone_verb_form verb.now }
{
    if is_verb(verb, "resolveall") {
        Some(Form::ResolveAll)
    } else {
        None
    }
}

/// The question that a verb asks about an object; `None` for any other verb.
fn object_read_of(verb: &str) -> Option<ObjectRead>
    ensures { result ≡ object_read verb.now }
{
    if is_verb(verb, "class") {
        Some(ObjectRead::Class)
    } else if is_verb(verb, "container") {
        Some(ObjectRead::Container)
    } else if is_verb(verb, "within") {
        Some(ObjectRead::Resource)
    } else if is_verb(verb, "validate") {
        Some(ObjectRead::Validate)
    } else if is_verb(verb, "fragment") {
        Some(ObjectRead::Fragment)
    } else {
        None
    }
}

/// The form of a verb and one argument, for the verbs whose argument is an object; `None` for any other verb or argument.
fn with_object_of<'a>(verb: &str, object: &str) -> Option<Form<'a>>
    ensures { result ≡ with_object verb.now object.now }
{
    if is_verb(verb, "delete") {
        return delete_of(object);
    }
    let read = object_read_of(verb)?;
    Some(Form::Read(Read::Of(object_of(object)?, read)))
}

/// The form of a verb and one argument, for the verbs whose argument is a node or an adapter; `None` for any other verb or argument.
fn with_word_of<'a>(verb: &str, word: &str) -> Option<Form<'a>>
    ensures { result ≡ with_word verb.now word.now }
{
    if is_verb(verb, "save") {
        save_of(word)
    } else if is_verb(verb, "contents") {
        contents_of(word)
    } else if is_verb(verb, "detach") {
        detach_of(word)
    } else if is_verb(verb, "seen") {
        seen_of(word)
    } else {
        with_object_of(verb, word)
    }
}

/// The form of a verb and one argument; `None` if they fit no form.
fn with_one_of<'a>(alloc: Global, verb: &str, a: &'a str) -> Result<Option<Form<'a>>, AllocError>
    ensures { IfOk result (λ o. o ≡ with_one verb.now a.now) }
{
    if is_verb(verb, "new") {
        Ok(new_of(a))
    } else if is_verb(verb, "resource") {
        resource_of(alloc, a)
    } else if is_verb(verb, "at") {
        at_of(alloc, a)
    } else {
        Ok(with_word_of(verb, a))
    }
}

/// The form of a verb and two arguments; `None` if they fit no form.
fn with_two_of<'a>(verb: &str, a: &str, b: &'a str) -> Option<Form<'a>>
    ensures { result ≡ with_two verb.now a.now b.now }
{
    if is_verb(verb, "get") {
        get_of(a, b)
    } else if is_verb(verb, "isset") {
        isset_of(a, b)
    } else if is_verb(verb, "unset") {
        unset_of(a, b)
    } else if is_verb(verb, "unwatch") {
        unwatch_of(a, b)
    } else {
        None
    }
}

/// The form of a verb and three arguments; `None` if they fit no form.
fn with_three_of<'a>(
    alloc: Global,
    verb: &str,
    a: &str,
    b: &'a str,
    c: &'a str,
) -> Result<Option<Form<'a>>, AllocError>
    ensures { IfOk result (λ o. o ≡ with_three verb.now a.now b.now c.now) }
{
    if is_verb(verb, "set") {
        set_of(alloc, a, b, c)
    } else if is_verb(verb, "attach") {
        Ok(attach_of(a, b, c))
    } else if is_verb(verb, "add") {
        add_of(alloc, a, b, c)
    } else if is_verb(verb, "remove") {
        Ok(remove_of(a, b, c))
    } else if is_verb(verb, "removevalue") {
        removevalue_of(alloc, a, b, c)
    } else if is_verb(verb, "resolve") {
        Ok(resolve_of(a, b, c))
    } else if is_verb(verb, "watch") {
        Ok(watch_of(a, b, c))
    } else {
        Ok(None)
    }
}

/// The form of a verb and four arguments; `None` if they fit no form.
fn with_four_of<'a>(
    alloc: Global,
    verb: &str,
    a: &str,
    b: &'a str,
    c: &'a str,
    d: &str,
) -> Result<Option<Form<'a>>, AllocError>
    ensures { IfOk result (λ o. o ≡ with_four verb.now a.now b.now c.now d.now) }
{
    if is_verb(verb, "add") {
        add_at_of(alloc, a, b, c, d)
    } else if is_verb(verb, "move") {
        Ok(move_of(a, b, c, d))
    } else {
        Ok(None)
    }
}

/// The form of the words of a line: the verb, and then its arguments. `None` if the words fit no form.
pub fn form_of<'a>(alloc: Global, words: &[&'a str]) -> Result<Option<Form<'a>>, AllocError>
    ensures { IfOk result (λ o. o ≡ the_form_of (map (λ w. w.now) words.now)) }
{
    match words {
        [] => Ok(None),
        [verb] => Ok(alone_of(verb)),
        [verb, a] => with_one_of(alloc, verb, a),
        [verb, a, b] => Ok(with_two_of(verb, a, b)),
        [verb, a, b, c] => with_three_of(alloc, verb, a, b, c),
        [verb, a, b, c, d] => with_four_of(alloc, verb, a, b, c, d),
        _ => Ok(None),
    }
}

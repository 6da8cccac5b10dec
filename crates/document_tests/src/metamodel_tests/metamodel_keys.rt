//! What is read from a metamodel document, key by key.
use crate::fixtures::library::{LIBRARY, loaded};
use mm_types::{RawClass, RawFeature, RawKind, RawMeta, Text};
use std::alloc::{AllocError, Global};
use std::test::Fail;

fn text_or_none(text: &Option<Text>) -> &str {
    match text {
        Some(text) => text.as_str(),
        None => "none",
    }
}

/// For an attribute: whether it is unique, whether it is unsettable, and its default. For a reference: whether it is a containment, and its
/// opposite. A default or an opposite that the document does not give is `none`.
fn kind_text(alloc: Global, kind: &RawKind) -> Result<String, AllocError> {
    match kind {
        RawKind::Attribute {
            unique,
            unsettable,
            default,
        } => format!(in alloc; "{unique} {unsettable} {}", text_or_none(default)),
        RawKind::Reference {
            containment,
            opposite,
        } => format!(in alloc; "{containment} {}", text_or_none(opposite)),
    }
}

/// A feature's name, type and bounds, and then the values of the keys of its kind, as `kind_text` gives them.
fn feature_line(alloc: Global, feature: &RawFeature) -> Result<String, AllocError> {
    let (name, type_name) = (feature.name.as_str(), feature.type_name.as_str());
    let (lower, upper) = (feature.lower, feature.upper);
    let kind = kind_text(alloc, &feature.kind)?;
    format!(in alloc; "  {name} {type_name} {lower}..{upper} {kind}\n")
}

/// A class's name, whether it is abstract, its supertypes, and each of its features in a line.
fn class_lines(alloc: Global, class: &RawClass) -> Result<String, AllocError> {
    let (name, is_abstract) = (class.name.as_str(), class.is_abstract);
    let supers = class.supers.as_slice();
    let mut lines = format!(in alloc; "{name} {is_abstract} {supers:?}\n")?;
    for feature in class.features.as_slice() {
        let line = feature_line(alloc, feature)?;
        lines.push_str(line.as_str())?;
    }
    Ok(lines)
}

/// A line for each enumeration of a metamodel, and the lines of each class.
fn lines_of(alloc: Global, raw: &RawMeta) -> Result<String, AllocError> {
    let mut lines = String::new(alloc);
    for one in raw.enums() {
        let (name, literals) = (one.name.as_str(), one.literals.as_slice());
        let line = format!(in alloc; "{name} {literals:?}\n")?;
        lines.push_str(line.as_str())?;
    }
    for class in raw.classes() {
        let class = class_lines(alloc, class)?;
        lines.push_str(class.as_str())?;
    }
    Ok(lines)
}

/// The content of the library's document.
const READ: &str = r#"Genre ["NOVEL", "POEM", "PLAY"]
Named true []
  name EString 0..1 true false none
Library false ["Named"]
  books Book 0..-1 true library
  members Person 0..-1 true none
  staff Person 0..2 false job
Book false ["Named"]
  pages EInt 0..1 true false 100
  genre Genre 0..1 true false none
  tags EString 0..-1 true false none
  scores EInt 0..3 false false none
  note EString 0..1 true true none
  library Library 0..1 false books
  next Book 0..1 false prev
  prev Book 0..1 false next
Person false ["Named"]
  job Library 0..1 false staff
  likes Book 0..-1 false none
  favourite Book 1..1 false none
Folder false []
  subs Folder 0..-1 true parent
  parent Folder 0..1 false subs
"#;

/// A document with its keys in a different order than `LIBRARY`, with one key twice, and with most of the optional keys left out.
const BOOK_AND_SHELF: &str = r#"{"classes":[{"features":[
        {"default":"-1","type":"EInt","kind":"attribute","name":"pages"},
        {"name":"t\u00e9","kind":"attribute","type":"EString"}
    ],"name":"None","name":"Book"},{"name":"Shelf"}]}"#;

/// The content of the document `BOOK_AND_SHELF`.
const BOOK_AND_SHELF_READ: &str = "Book false []
  pages EInt 0..1 true false -1
  té EString 0..1 true false none
Shelf false []
";

#[test]
fn enumerations_classes_and_features_are_read(rt: HostRuntime) -> Result<(), Fail> {
    let raw = loaded(rt.alloc(), LIBRARY)?;
    let found = lines_of(rt.alloc(), &raw)?;
    assert_eq!(rt; found.as_str(), READ);
    Ok(())
}

#[test]
fn absent_keys_have_their_defaults(rt: HostRuntime) -> Result<(), Fail> {
    let raw = loaded(rt.alloc(), BOOK_AND_SHELF)?;
    let found = lines_of(rt.alloc(), &raw)?;
    assert_eq!(rt; found.as_str(), BOOK_AND_SHELF_READ);
    Ok(())
}

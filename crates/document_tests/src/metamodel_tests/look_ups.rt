//! The look-ups in the library's metamodel. Features and classes are looked up by their numbers, by the number past the last one, and by
//! names; literals are looked up by index and by name.
use crate::fixtures::library::library;
use mm_meta::Meta;
use mm_types::{ClassNo, FeatureNo};
use std::alloc::{AllocError, Global};
use std::test::Fail;

/// For each feature: its name, its default, its opposite, and whether the feature is a container reference. The last line is for the number
/// past the last feature, which is the number of `contents`.
const FEATURES: &str = "name Some(Null) None false
books Some(Null) Some(FeatureNo(9)) false
members Some(Null) None false
staff Some(Null) Some(FeatureNo(12)) false
pages Some(Int(100)) None false
genre Some(Literal(0)) None false
tags Some(Null) None false
scores Some(Int(0)) None false
note Some(Null) None false
library Some(Null) Some(FeatureNo(1)) true
next Some(Null) Some(FeatureNo(11)) false
prev Some(Null) Some(FeatureNo(10)) false
job Some(Null) Some(FeatureNo(3)) false
likes Some(Null) None false
favourite Some(Null) None false
subs Some(Null) Some(FeatureNo(16)) false
parent Some(Null) Some(FeatureNo(15)) true
none None None false
";

fn feature_line(alloc: Global, meta: &Meta, number: FeatureNo) -> Result<String, AllocError> {
    let name = match meta.feature(number) {
        Some(feature) => feature.name.as_str(),
        None => "none",
    };
    let default = meta.default(number);
    let opposite = meta.opposite(number);
    let is_container = meta.is_container(number);
    format!(in alloc; "{name} {default:?} {opposite:?} {is_container}\n")
}

fn feature_lines(alloc: Global, meta: &Meta) -> Result<String, AllocError> {
    let mut lines = String::new(alloc);
    for number in 0..18u32 {
        let line = feature_line(alloc, meta, FeatureNo(number))?;
        lines.push_str(line.as_str())?;
    }
    Ok(lines)
}

#[test]
fn features_are_found_by_number(rt: HostRuntime) -> Result<(), Fail> {
    let meta = library(rt.alloc())?;
    let found = feature_lines(rt.alloc(), &meta)?;
    assert_eq!(rt; found.as_str(), FEATURES);
    assert!(rt; meta.contents() == FeatureNo(17));
    Ok(())
}

/// For each class: its name, the number that is found by this name, and all its features. For the number past the last class, the name is
/// `Resource`, by which no class is found.
const CLASSES: &str = "Named Some(ClassNo(0)) Some([FeatureNo(0)])
Library Some(ClassNo(1)) Some([FeatureNo(0), FeatureNo(1), FeatureNo(2), FeatureNo(3)])
Book Some(ClassNo(2)) Some([FeatureNo(0), FeatureNo(4), FeatureNo(5), FeatureNo(6), FeatureNo(7), FeatureNo(8), FeatureNo(9), FeatureNo(10), FeatureNo(11)])
Person Some(ClassNo(3)) Some([FeatureNo(0), FeatureNo(12), FeatureNo(13), FeatureNo(14)])
Folder Some(ClassNo(4)) Some([FeatureNo(15), FeatureNo(16)])
Resource None None
";

fn class_line(alloc: Global, meta: &Meta, number: ClassNo) -> Result<String, AllocError> {
    let name = match meta.class(number) {
        Some(class) => class.name.as_str(),
        None => "Resource",
    };
    let named = meta.class_by_name(name);
    let features = meta.features(number);
    format!(in alloc; "{name} {named:?} {features:?}\n")
}

fn class_lines(alloc: Global, meta: &Meta) -> Result<String, AllocError> {
    let mut lines = String::new(alloc);
    for number in 0..6u32 {
        let line = class_line(alloc, meta, ClassNo(number))?;
        lines.push_str(line.as_str())?;
    }
    Ok(lines)
}

#[test]
fn classes_are_found_by_number_and_by_name(rt: HostRuntime) -> Result<(), Fail> {
    let meta = library(rt.alloc())?;
    let found = class_lines(rt.alloc(), &meta)?;
    assert_eq!(rt; found.as_str(), CLASSES);
    Ok(())
}

/// For each class: its number, the numbers of the classes that it conforms to, and the numbers of its features. For the number past the
/// last class, both lists of numbers are empty.
const INHERITED: &str = "0: 0, 0
1: 0 1, 0 1 2 3
2: 0 2, 0 4 5 6 7 8 9 10 11
3: 0 3, 0 12 13 14
4: 4, 15 16
5:,
";

/// The numbers of the classes that a class conforms to.
fn conforming(alloc: Global, meta: &Meta, sub: ClassNo) -> Result<String, AllocError> {
    let mut found = String::new(alloc);
    for sup in 0..6u32 {
        if meta.conforms(sub, ClassNo(sup)) {
            let sup = format!(in alloc; " {sup}")?;
            found.push_str(sup.as_str())?;
        }
    }
    Ok(found)
}

/// The numbers of the features that a class has.
fn had(alloc: Global, meta: &Meta, class: ClassNo) -> Result<String, AllocError> {
    let mut found = String::new(alloc);
    for feature in 0..18u32 {
        if meta.has_feature(class, FeatureNo(feature)) {
            let feature = format!(in alloc; " {feature}")?;
            found.push_str(feature.as_str())?;
        }
    }
    Ok(found)
}

fn inherited(alloc: Global, meta: &Meta) -> Result<String, AllocError> {
    let mut lines = String::new(alloc);
    for class in 0..6u32 {
        let conforming = conforming(alloc, meta, ClassNo(class))?;
        let had = had(alloc, meta, ClassNo(class))?;
        let line = format!(in alloc; "{class}:{conforming},{had}\n")?;
        lines.push_str(line.as_str())?;
    }
    Ok(lines)
}

#[test]
fn classes_conform_to_their_supertypes_and_have_their_features(
    rt: HostRuntime,
) -> Result<(), Fail> {
    let meta = library(rt.alloc())?;
    let found = inherited(rt.alloc(), &meta)?;
    assert_eq!(rt; found.as_str(), INHERITED);
    Ok(())
}

/// Pairs of a class and a name, and the feature that each pair names; `None` if the class has no feature of this name, or does not exist.
const NAMED: [(u32, &str, Option<FeatureNo>); 6] = [
    (2, "name", Some(FeatureNo(0))),
    (2, "prev", Some(FeatureNo(11))),
    (1, "prev", None),
    (1, "staff", Some(FeatureNo(3))),
    (4, "name", None),
    (5, "name", None),
];

#[test]
fn features_are_found_by_name(rt: HostRuntime) -> Result<(), Fail> {
    let meta = library(rt.alloc())?;
    for (class, name, wanted) in &NAMED {
        let found = meta.feature_by_name(ClassNo(*class), *name);
        assert!(rt; found == *wanted, "at {name} of class {class}");
    }
    Ok(())
}

/// The look-ups of literals. Each entry has the number of an enumeration, and the index and the name by which a literal of this enumeration
/// is looked up.
const LITERALS: [(u32, u32, &str); 5] = [
    (0, 0, "NOVEL"),
    (0, 1, "POEM"),
    (0, 2, "PLAY"),
    (0, 3, "DRAMA"),
    (1, 0, "PLAY"),
];

/// The results of the look-ups of `LITERALS`. Each line has the results for one entry: the name that is found by the index, and the index
/// that is found by the name.
const FOUND: &str = "Some(\"NOVEL\") Some(0)
Some(\"POEM\") Some(1)
Some(\"PLAY\") Some(2)
None None
None None
";

fn literals(alloc: Global, meta: &Meta) -> Result<String, AllocError> {
    let mut lines = String::new(alloc);
    for (enumeration, index, name) in &LITERALS {
        let literal = meta.literal(*enumeration, *index);
        let named = meta.literal_by_name(*enumeration, *name);
        let line = format!(in alloc; "{literal:?} {named:?}\n")?;
        lines.push_str(line.as_str())?;
    }
    Ok(lines)
}

#[test]
fn literals_are_found_by_index_and_by_name(rt: HostRuntime) -> Result<(), Fail> {
    let meta = library(rt.alloc())?;
    let found = literals(rt.alloc(), &meta)?;
    assert_eq!(rt; found.as_str(), FOUND);
    Ok(())
}

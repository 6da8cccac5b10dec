//! Plans of edits of objects, attribute values and URIs. The state that is expected after these plans is written by hand.
use crate::fixtures::values::{empty, put_many, remove, shift};
use mm_types::{ClassNo, FeatureNo, ObjectNo, ResourceNo, Text, Value};
use mm_values::{NewValues, ValueEdit, ValuePlan, Values};
use std::alloc::{AllocError, Global};
use std::test::Fail;

fn new_uri(alloc: Global, uri: &str) -> Result<ValueEdit, AllocError> {
    Ok(ValueEdit::NewUri(Text::from_str(alloc, uri)?))
}

fn put(object: u32, feature: u32, number: i64) -> ValueEdit {
    ValueEdit::PutList {
        object: ObjectNo(object),
        feature: FeatureNo(feature),
        list: NewValues::one(Value::Int(number)),
        flag: false,
    }
}

/// The edit that puts a number and null under feature 3 of object 0, and sets the flag of this feature.
fn put_two(alloc: Global) -> Result<ValueEdit, AllocError> {
    let list = vec![in alloc; Value::Int(4), Value::Null]?;
    Ok(ValueEdit::PutList {
        object: ObjectNo(0),
        feature: FeatureNo(3),
        list: NewValues::from_vec(list),
        flag: true,
    })
}

fn run(values: &mut Values, plan: ValuePlan) -> Result<(), AllocError> {
    values.reserve_for(&plan)?;
    values.apply(plan);
    Ok(())
}

/// The values that an object has under a feature; `None` if there is no such object.
fn listed(
    alloc: Global,
    values: &Values,
    object: ObjectNo,
    feature: FeatureNo,
) -> Result<Option<Vec<&Value>>, AllocError> {
    let len = match values.len(object, feature) {
        Some(len) => len,
        None => return Ok(None),
    };
    let mut list = Vec::new(alloc);
    for index in 0..len {
        if let Some(value) = values.at(object, feature, index) {
            list.push(value)?;
        }
    }
    Ok(Some(list))
}

/// The class of an object, and the values and the flags that the object has for two features.
fn held(
    alloc: Global,
    values: &Values,
    object: u32,
    features: [u32; 2],
) -> Result<String, AllocError> {
    let object = ObjectNo(object);
    let (first, second) = (FeatureNo(features[0]), FeatureNo(features[1]));
    let class = values.class(object);
    let lists = (
        listed(alloc, values, object, first)?,
        listed(alloc, values, object, second)?,
    );
    let flags = (values.flag(object, first), values.flag(object, second));
    format!(in alloc; "{class:?} {lists:?} {flags:?}\n")
}

/// How many resources there are, the URIs of the first two, and which resources have the URIs `a.xmi` and `b.xmi`; how many objects were
/// made, destroyed ones included; and what `held` gives for each of the first three objects.
fn seen(alloc: Global, values: &Values, features: [u32; 2]) -> Result<String, AllocError> {
    let uris = (values.uri(ResourceNo(0)), values.uri(ResourceNo(1)));
    let found = (values.resource_of("a.xmi"), values.resource_of("b.xmi"));
    let (resources, objects) = (values.resources(), values.next());
    let mut seen = format!(in alloc; "{resources} {uris:?} {found:?}\n{objects}\n")?;
    for object in 0..3u32 {
        let held = held(alloc, values, object, features)?;
        seen.push_str(held.as_str())?;
    }
    Ok(seen)
}

/// The state, as `seen` gives it, after two plans were carried out in an empty store.
fn seen_after(
    alloc: Global,
    first: ValuePlan,
    second: ValuePlan,
    features: [u32; 2],
) -> Result<String, Fail> {
    let mut values = empty(alloc)?;
    run(&mut values, first)?;
    run(&mut values, second)?;
    Ok(seen(alloc, &values, features)?)
}

/// The plan of some edits, in their order.
fn planned(edits: Vec<ValueEdit>) -> ValuePlan {
    ValuePlan::from_vec(edits)
}

/// A plan that makes an object and a resource, puts two values into the object, and makes and destroys a second object. The last edit is
/// for the destroyed object, and changes nothing.
fn each_edit(alloc: Global) -> Result<ValuePlan, AllocError> {
    let (uri, two) = (new_uri(alloc, "a.xmi")?, put_two(alloc)?);
    Ok(planned(vec![in alloc;
        ValueEdit::NewObject(ClassNo(7)),
        uri,
        ValueEdit::NewObject(ClassNo(8)),
        two,
        ValueEdit::DropObject(ObjectNo(1)),
        put(1, 3, 5),
    ]?))
}

const AFTER_EACH_EDIT: &str = "1 (Some(\"a.xmi\"), None) (Some(ResourceNo(0)), None)
2
Some(ClassNo(7)) (Some([Int(4), Null]), Some([])) (Some(true), Some(false))
None (None, None) (None, None)
None (None, None) (None, None)
";

#[test]
fn each_edit_is_made(rt: HostRuntime) -> Result<(), Fail> {
    let alloc = rt.alloc();
    let found = seen_after(alloc, each_edit(alloc)?, ValuePlan::none(alloc), [3, 4])?;
    assert_eq!(rt; found.as_str(), AFTER_EACH_EDIT);
    Ok(())
}

fn make_and_drop(alloc: Global) -> Result<ValuePlan, AllocError> {
    Ok(planned(vec![in alloc;
        ValueEdit::NewObject(ClassNo(1)),
        ValueEdit::DropObject(ObjectNo(0)),
    ]?))
}

fn make(class: u32) -> ValuePlan {
    ValuePlan::one(ValueEdit::NewObject(ClassNo(class)))
}

const AFTER_A_DROP: &str = "0 (None, None) (None, None)
2
None (None, None) (None, None)
Some(ClassNo(2)) (Some([]), Some([])) (Some(false), Some(false))
None (None, None) (None, None)
";

#[test]
fn no_number_is_given_twice(rt: HostRuntime) -> Result<(), Fail> {
    let alloc = rt.alloc();
    let found = seen_after(alloc, make_and_drop(alloc)?, make(2), [3, 4])?;
    assert_eq!(rt; found.as_str(), AFTER_A_DROP);
    Ok(())
}

fn two_features(alloc: Global) -> Result<ValuePlan, AllocError> {
    Ok(planned(vec![in alloc; put(0, 9, 90), put(0, 5, 50), put(0, 5, 51)]?))
}

const AFTER_TWO_FEATURES: &str = "0 (None, None) (None, None)
1
Some(ClassNo(1)) (Some([Int(90)]), Some([Int(51)])) (Some(false), Some(false))
None (None, None) (None, None)
None (None, None) (None, None)
";

#[test]
fn values_are_put_under_one_feature_alone(rt: HostRuntime) -> Result<(), Fail> {
    let alloc = rt.alloc();
    let found = seen_after(alloc, make(1), two_features(alloc)?, [9, 5])?;
    assert_eq!(rt; found.as_str(), AFTER_TWO_FEATURES);
    Ok(())
}

fn insert(object: u32, feature: u32, index: u32, number: i64) -> ValueEdit {
    ValueEdit::InsertValue {
        object: ObjectNo(object),
        feature: FeatureNo(feature),
        index,
        value: Value::Int(number),
        is_unique: false,
    }
}

/// The plan of edits of two lists of object 0, and of a list of object 1, which was never made. Some of the edits are at indexes past the
/// end of the list.
fn list_edits(alloc: Global) -> Result<ValuePlan, AllocError> {
    Ok(planned(vec![in alloc;
        insert(0, 3, 0, 1),
        insert(0, 3, 9, 2),
        insert(0, 3, 1, 3),
        shift(3, 0, 2),
        remove(3, 1),
        remove(3, 7),
        shift(3, 9, 0),
        shift(3, 0, 5),
        put(0, 4, 50),
        insert(0, 4, 0, 49),
        insert(1, 4, 0, 48),
    ]?))
}

const AFTER_LIST_EDITS: &str = "0 (None, None) (None, None)
1
Some(ClassNo(1)) (Some([Int(3), Int(2)]), Some([Int(49), Int(50)])) (Some(false), Some(false))
None (None, None) (None, None)
None (None, None) (None, None)
";

#[test]
fn lists_are_edited(rt: HostRuntime) -> Result<(), Fail> {
    let alloc = rt.alloc();
    let found = seen_after(alloc, make(1), list_edits(alloc)?, [3, 4])?;
    assert_eq!(rt; found.as_str(), AFTER_LIST_EDITS);
    Ok(())
}

/// The plan of edits of two lists of one object. Each list has one value after most of its edits, and at the end. In between one list grows
/// to two values, and the other list shrinks to none.
fn edits_of_one(alloc: Global) -> Result<ValuePlan, AllocError> {
    Ok(planned(vec![in alloc;
        put(0, 3, 30),
        put(0, 3, 31),
        shift(3, 0, 0),
        insert(0, 3, 0, 29),
        remove(3, 1),
        insert(0, 4, 0, 40),
        remove(4, 0),
        insert(0, 4, 0, 41),
    ]?))
}

const AFTER_EDITS_OF_ONE: &str = "0 (None, None) (None, None)
1
Some(ClassNo(1)) (Some([Int(29)]), Some([Int(41)])) (Some(false), Some(false))
None (None, None) (None, None)
None (None, None) (None, None)
";

#[test]
fn a_list_of_one_value_is_edited(rt: HostRuntime) -> Result<(), Fail> {
    let alloc = rt.alloc();
    let found = seen_after(alloc, make(1), edits_of_one(alloc)?, [3, 4])?;
    assert_eq!(rt; found.as_str(), AFTER_EDITS_OF_ONE);
    Ok(())
}

const HELD_AFTER_EDITS_OF_ONE: &str =
    "Some(ClassNo(1)) (Some([Int(29)]), Some([Int(41)])) (Some(false), Some(false))\n";

#[test]
fn a_plan_is_carried_out_at_once(rt: HostRuntime) -> Result<(), Fail> {
    let alloc = rt.alloc();
    let mut values = empty(alloc)?;
    values.try_apply(make(1))?;
    values.try_apply(ValuePlan::one(put(0, 2, 2)))?;
    values.try_apply(ValuePlan::one(put(0, 2, 3)))?;
    values.try_apply(ValuePlan::one(put(5, 2, 4)))?;
    values.try_apply(ValuePlan::one(new_uri(alloc, "a.xmi")?))?;
    let found = seen(alloc, &values, [2, 3])?;
    assert_eq!(rt; found.as_str(), AFTER_AN_OBJECT_AND_A_URI);
    values.try_apply(edits_of_one(alloc)?)?;
    let found = held(alloc, &values, 0, [3, 4])?;
    assert_eq!(rt; found.as_str(), HELD_AFTER_EDITS_OF_ONE);
    Ok(())
}

fn edit_long_list(alloc: Global) -> Result<ValuePlan, AllocError> {
    Ok(planned(vec![in alloc; remove(3, 0), insert(0, 3, 1000, -1), shift(3, 0, 2499)]?))
}

const OF_A_LONG_LIST: &str =
    "Some(2500) Some(Int(2499)) Some(Int(1000)) Some(Int(-1)) None Some(1001)";

#[test]
fn a_long_list_is_edited(rt: HostRuntime) -> Result<(), Fail> {
    let alloc = rt.alloc();
    let mut values = empty(alloc)?;
    run(&mut values, make(1))?;
    run(&mut values, ValuePlan::one(put_many(alloc, 2500)?))?;
    run(&mut values, edit_long_list(alloc)?)?;
    let (object, feature) = (ObjectNo(0), FeatureNo(3));
    let len = values.len(object, feature);
    let (first, before) = (
        values.at(object, feature, 0),
        values.at(object, feature, 1000),
    );
    let (inserted, past) = (
        values.at(object, feature, 1001),
        values.at(object, feature, 2500),
    );
    let found = values.position(object, feature, &Value::Int(-1));
    let seen = format!(in alloc; "{len:?} {first:?} {before:?} {inserted:?} {past:?} {found:?}")?;
    assert_eq!(rt; seen.as_str(), OF_A_LONG_LIST);
    Ok(())
}

fn three_uris(alloc: Global) -> Result<ValuePlan, AllocError> {
    let (first, second) = (new_uri(alloc, "a.xmi")?, new_uri(alloc, "a.xmi")?);
    Ok(planned(vec![in alloc; first, second, new_uri(alloc, "b.xmi")?]?))
}

const AFTER_THREE_URIS: &str =
    "2 (Some(\"a.xmi\"), Some(\"b.xmi\")) (Some(ResourceNo(0)), Some(ResourceNo(1)))
0
None (None, None) (None, None)
None (None, None) (None, None)
None (None, None) (None, None)
";

#[test]
fn each_uri_is_kept_once(rt: HostRuntime) -> Result<(), Fail> {
    let alloc = rt.alloc();
    let found = seen_after(alloc, three_uris(alloc)?, ValuePlan::none(alloc), [3, 4])?;
    assert_eq!(rt; found.as_str(), AFTER_THREE_URIS);
    Ok(())
}

fn object_and_uri(alloc: Global) -> Result<ValuePlan, AllocError> {
    let uri = new_uri(alloc, "a.xmi")?;
    Ok(planned(vec![in alloc; ValueEdit::NewObject(ClassNo(1)), put(0, 2, 3), uri]?))
}

const AFTER_ROOM_WAS_RESERVED: &str = "0 (None, None) (None, None)
0
None (None, None) (None, None)
None (None, None) (None, None)
None (None, None) (None, None)
";

const AFTER_AN_OBJECT_AND_A_URI: &str = "1 (Some(\"a.xmi\"), None) (Some(ResourceNo(0)), None)
1
Some(ClassNo(1)) (Some([Int(3)]), Some([])) (Some(false), Some(false))
None (None, None) (None, None)
None (None, None) (None, None)
";

#[test]
fn room_is_reserved_again_after_a_refusal(rt: HostRuntime) -> Result<(), Fail> {
    let mut values = empty(rt.alloc())?;
    let plan = object_and_uri(rt.alloc())?;
    let _maybe_refused = values.reserve_for(&plan).is_err();
    let found = seen(rt.alloc(), &values, [2, 3])?;
    assert_eq!(rt; found.as_str(), AFTER_ROOM_WAS_RESERVED);
    run(&mut values, plan)?;
    let found = seen(rt.alloc(), &values, [2, 3])?;
    assert_eq!(rt; found.as_str(), AFTER_AN_OBJECT_AND_A_URI);
    Ok(())
}

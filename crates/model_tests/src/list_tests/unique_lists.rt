//! Tests of whether a list has a value. Some lists are short, and some are long. Some have the first length at which hashes are counted,
//! and some have one value fewer.
use crate::fixtures::values::{empty, put_many, remove, shift};
use mm_types::{ClassNo, FeatureNo, ObjectNo, Text, Value};
use mm_values::{ValueEdit, ValuePlan, Values};
use std::alloc::{AllocError, Global};
use std::test::Fail;

const OBJECT: ObjectNo = ObjectNo(0);

const FEATURE: FeatureNo = FeatureNo(3);

/// A short length, the greatest length at which a list looks at its values one by one to find a value, the first length at which it counts
/// hashes instead, and longer lengths.
const LENGTHS: [u32; 5] = [10, 64, 65, 200, 10_000];

/// The edit that inserts a value into the list. `is_unique` says that the list is looked up by value again and again, so the hashes of a
/// long list are counted.
fn insert(index: u32, value: Value) -> ValueEdit {
    ValueEdit::InsertValue {
        object: OBJECT,
        feature: FEATURE,
        index,
        value,
        is_unique: true,
    }
}

fn number(number: u32) -> Value {
    Value::Int(i64::from(number))
}

/// Makes an edit; if memory is refused, tries once more.
fn run(values: &mut Values, edit: ValueEdit) -> Result<(), AllocError> {
    let plan = ValuePlan::one(edit);
    if values.reserve_for(&plan).is_err() {
        values.reserve_for(&plan)?;
    }
    values.apply(plan);
    Ok(())
}

/// Inserts `count` numbers, from 0 on, into the list, each at the end.
fn fill(values: &mut Values, count: u32) -> Result<(), AllocError> {
    for at in 0..count {
        run(values, insert(at, number(at)))?;
    }
    Ok(())
}

/// A store of attribute values that has no object. If memory is refused, tries once more.
fn no_values(alloc: Global) -> Result<Box<Values>, Fail> {
    match Box::new(alloc, Values::new(alloc)) {
        Ok(values) => Ok(values),
        Err(_) => empty(alloc),
    }
}

/// A store with one object, whose list has `count` numbers from 0 on. If memory is refused, tries once more.
fn filled(alloc: Global, count: u32) -> Result<Box<Values>, Fail> {
    let mut values = no_values(alloc)?;
    run(&mut values, ValueEdit::NewObject(ClassNo(1)))?;
    fill(&mut values, count)?;
    Ok(values)
}

/// Looks for the number `at` in the list. Fails unless the list has this number exactly if the number is in the range from `first` to below
/// `before`.
fn check_number(values: &Values, at: u32, first: u32, before: u32) -> Result<(), Fail> {
    let has = values.has(OBJECT, FEATURE, &number(at));
    if has == Some(first <= at && at < before) {
        return Ok(());
    }
    Err(Fail::new(format_args!("{at}, of {first} to {before}: {has:?}")))
}

/// Checks the numbers at both ends of the range from `first` to below `before`, and the numbers beside the range.
fn check_edges(values: &Values, first: u32, before: u32) -> Result<(), Fail> {
    let edges = [
        first.saturating_sub(1),
        first,
        before.saturating_sub(1),
        before,
    ];
    for at in &edges {
        check_number(values, *at, first, before)?;
    }
    Ok(())
}

/// Looks for the numbers from 0 to below `before + 20` in the list. Fails unless the list has exactly those in the range from `first` to
/// below `before`. If `before` is at least 1000, looks only for the numbers of `check_edges` and for every 37th number.
fn check(values: &Values, first: u32, before: u32) -> Result<(), Fail> {
    check_edges(values, first, before)?;
    for at in 0..before.saturating_add(20) {
        if before < 1000 || at % 37 == 0 {
            check_number(values, at, first, before)?;
        }
    }
    Ok(())
}

/// Edits a list of `count` numbers from 0 on, one value at a time, and checks the list after each edit.
fn check_edits(values: &mut Values, count: u32) -> Result<(), Fail> {
    check(values, 0, count)?;
    run(values, remove(3, 0))?;
    check(values, 1, count)?;
    run(values, insert(5, number(count)))?;
    check(values, 1, count.saturating_add(1))?;
    run(values, shift(3, 0, 5))?;
    check(values, 1, count.saturating_add(1))?;
    run(values, remove(3, 0))?;
    check(values, 1, count)
}

/// Replaces a list by a short list, and then by a list of `count` numbers from 0 on; adds one more value after each replacement. At the end
/// takes the first value out. Checks the list after each edit.
fn check_replaced(alloc: Global, values: &mut Values, count: u32) -> Result<(), Fail> {
    run(values, put_many(alloc, 3)?)?;
    check(values, 0, 3)?;
    run(values, insert(0, number(3)))?;
    check(values, 0, 4)?;
    run(values, put_many(alloc, i64::from(count))?)?;
    check(values, 0, count)?;
    run(values, insert(count, number(count)))?;
    check(values, 0, count.saturating_add(1))?;
    run(values, remove(3, 0))?;
    check(values, 1, count.saturating_add(1))
}

#[test]
fn a_list_has_what_its_edits_leave(rt: HostRuntime) -> Result<(), Fail> {
    for count in &LENGTHS {
        let mut values = filled(rt.alloc(), *count)?;
        check_edits(&mut values, *count)?;
        check_replaced(rt.alloc(), &mut values, *count)?;
    }
    Ok(())
}

#[test]
fn a_value_that_stands_twice_is_there_until_both_are_gone(rt: HostRuntime) -> Result<(), Fail> {
    let mut values = filled(rt.alloc(), 100)?;
    run(&mut values, insert(100, number(7)))?;
    run(&mut values, remove(3, 7))?;
    check(&values, 0, 100)?;
    run(&mut values, remove(3, 99))?;
    assert_eq!(rt; values.has(OBJECT, FEATURE, &number(7)), Some(false));
    assert_eq!(rt; values.has(OBJECT, FEATURE, &number(8)), Some(true));
    Ok(())
}

/// A value of each kind.
fn kinds(alloc: Global) -> Result<Vec<Value>, AllocError> {
    Ok(vec![in alloc;
        Value::Null,
        Value::Bool(true),
        Value::Int(1000),
        Value::Text(Text::from_str(alloc, "a")?),
        Value::Literal(1001),
        Value::Object(ObjectNo(1002)),
        Value::Proxy(Text::from_str(alloc, "b")?),
    ]?)
}

/// Values that are not in `kinds`, of the same kinds except null. Some of them have the same content as a value of a different kind in
/// `kinds`.
fn others(alloc: Global) -> Result<Vec<Value>, AllocError> {
    Ok(vec![in alloc;
        Value::Bool(false),
        Value::Int(1001),
        Value::Text(Text::from_str(alloc, "b")?),
        Value::Text(Text::from_str(alloc, "")?),
        Value::Literal(1000),
        Value::Object(ObjectNo(1003)),
        Value::Proxy(Text::from_str(alloc, "a")?),
    ]?)
}

fn insert_all(values: &mut Values, more: Vec<Value>) -> Result<(), AllocError> {
    for value in more {
        run(values, insert(50, value))?;
    }
    Ok(())
}

/// How many of the given values a list has.
fn count_there(values: &Values, some: &[Value]) -> usize {
    some.iter()
        .filter(|value| values.has(OBJECT, FEATURE, *value) == Some(true))
        .count()
}

#[test]
fn values_of_each_kind_are_told_apart(rt: HostRuntime) -> Result<(), Fail> {
    let alloc = rt.alloc();
    let mut values = filled(alloc, 100)?;
    let (there, absent) = (kinds(alloc)?, others(alloc)?);
    insert_all(&mut values, kinds(alloc)?)?;
    assert_eq!(rt; count_there(&values, there.as_slice()), 7);
    assert_eq!(rt; count_there(&values, absent.as_slice()), 0);
    Ok(())
}

#[test]
fn no_object_has_no_list(rt: HostRuntime) -> Result<(), Fail> {
    let values = filled(rt.alloc(), 1)?;
    assert_eq!(rt; values.has(ObjectNo(1), FEATURE, &number(0)), None);
    assert_eq!(rt; values.has(OBJECT, FeatureNo(4), &number(0)), Some(false));
    Ok(())
}

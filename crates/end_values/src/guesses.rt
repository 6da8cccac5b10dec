//! Guesses at the index of a value in a list without labels.

use crate::mixed_list::MixedList;
use index_guesses::by_rank;
use mm_types::{ObjectNo, Value};
use slot_lists::ShortList;

/// A guess at the index of an object of a list. The guess is right if the object is the first or the last of the list, or if the numbers of
/// the objects rise or fall along the list. Otherwise the guess may be any index.
pub(crate) fn guess_object(list: &ShortList<ObjectNo>, object: ObjectNo) -> usize {
    by_rank(list.len(), u64::from(object.0), |index| {
        rank_of(list.get(index))
    })
}

fn rank_of(object: Option<&ObjectNo>) -> Option<u64> {
    object.map(|object| u64::from(object.0))
}

/// Whether the guess for the object at an index is a different index; false if no object is there.
#[cold]
pub(crate) fn is_out_of_order(list: &ShortList<ObjectNo>, index: usize) -> bool {
    match list.get(index) {
        Some(object) => guess_object(list, *object) != index,
        None => false,
    }
}

/// A guess at the index of a value of a list. For an object, the guess is made by the numbers of the objects. This guess may be wrong if
/// the numbers neither rise nor fall along the list, or if the list has proxies. For a proxy, the guess is the index of the first proxy, if
/// all objects come before all proxies; otherwise the guess may be any index, or the number of values. Suppose that a list at first has
/// only proxies, and that they are resolved in the order of the list. Then all objects come before the proxies that are left, and the first
/// of these proxies is resolved next.
#[cold]
pub(crate) fn guess_value(list: &MixedList, value: &Value) -> usize {
    match value {
        Value::Object(object) => by_rank(list.len(), u64::from(object.0), |index| {
            value_rank(list.get(index))
        }),
        _ => first_text(list),
    }
}

fn value_rank(value: Option<&Value>) -> Option<u64> {
    match value? {
        Value::Object(object) => Some(u64::from(object.0)),
        _ => None,
    }
}

/// The index of the first proxy, if there is a proxy and all objects come before all proxies. Otherwise any index, or the number of values.
fn first_text(list: &MixedList) -> usize {
    let mut low = 0;
    let mut high = list.len();
    while low < high {
        let middle = low + (high - low) / 2;
        if value_rank(list.get(middle)).is_some() {
            low = middle + 1;
        } else {
            high = middle;
        }
    }
    low
}

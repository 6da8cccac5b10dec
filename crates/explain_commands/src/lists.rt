//! Lists that are too short for an index, are full, or have a value already; and limits that are reached.
use crate::named::{Named, object_value, resolved_index, value_in};
use crate::scene::{Scene, Written};
use adapters::Adapter;
use links::LinkStore;
use mm_types::{End, FeatureNo, Node, Value, limits};
use models::Found;
use script_lines::{FeatureForm, Form, WrittenValue};
use script_output::literal_name;
use std::alloc::{AllocError, Global};

/// An index that a line gives, and that is too high. `last` is the greatest index that the command accepts; `None` if the command accepts
/// no index, since the list is empty.
#[derive(Clone, Copy)]
struct TooHigh {
    index: u32,
    last: Option<u32>,
}

/// If `index` is too high for a command that accepts the indexes below `count`: `index`, with the greatest index that the command accepts.
/// Otherwise `None`.
fn above(index: u32, count: u32) -> Option<TooHigh> {
    if index < count {
        return None;
    }
    Some(TooHigh {
        index,
        last: count.checked_sub(1),
    })
}

/// The index that a line gives, if it is too high for a list of `len` values; otherwise `None`. If both indexes of `move` are too high, the
/// result is the index from which the value is moved.
fn too_high(form: &Form<'_>, len: u32) -> Option<TooHigh> {
    let Form::At { form, .. } = form else {
        return None;
    };
    match form {
        FeatureForm::AddAt(index, _) => above(*index, len.saturating_add(1)),
        FeatureForm::Remove(index) | FeatureForm::Resolve(index) => above(*index, len),
        FeatureForm::Move { to, from } => above(*from, len).or(above(*to, len)),
        _ => None,
    }
}

/// A number of values in words, as `1 value` or `2 values`.
fn values_called(alloc: Global, len: u32) -> Result<String, AllocError> {
    if len == 1 {
        format!(in alloc; "1 value")
    } else {
        format!(in alloc; "{len} values")
    }
}

impl<L: LinkStore, A: Adapter> Scene<'_, L, A> {
    /// Explains why the index that a `resolve` line gives for a single feature is refused: the index is 0 and the value is null, or the
    /// index is above 0. No other command that names an index accepts a single feature. `called` is the feature in words.
    fn explain_single(&self, out: &mut String, form: &Form<'_>, called: &str) -> Written {
        let prefix = self.prefix;
        match resolved_index(form) {
            Some(0) => writeln!(out, "{prefix}: {called} is null, and no proxy"),
            _ => writeln!(out, "{prefix}: {called} has one value, whose index is 0"),
        }
    }

    /// Explains why the index that a line gives for a feature is refused. If the feature is a list, the index is too high; `explain_single`
    /// explains the refusal at a single feature.
    pub(crate) fn explain_index(
        &self,
        out: &mut String,
        form: &Form<'_>,
        named: &Named<'_>,
        end: End,
    ) -> Written {
        let prefix = self.prefix;
        let verb = named.verb;
        let called = self.end_called(end)?;
        if self.repository.meta().is_single(end.feature) {
            return self.explain_single(out, form, called.as_str());
        }
        let len = self.len(end);
        let values = values_called(self.alloc, len)?;
        match too_high(form, len) {
            Some(
                TooHigh {
                    index,
                    last: Some(last),
                },
            ) => writeln!(
                out,
                "{prefix}: index {index} is too high: {called} has {values}, and the last index for {verb} is {last}"
            ),
            Some(TooHigh { index, last: None }) => {
                writeln!(
                    out,
                    "{prefix}: index {index} is too high: {called} is empty"
                )
            }
            None => Ok(()),
        }
    }

    /// Whether a value of a list is equal to a value that is written in a line.
    fn is_written(
        &self,
        feature: FeatureNo,
        found: &Found<'_>,
        written: &WrittenValue<'_>,
    ) -> bool {
        match (found, written) {
            (Found::Object(object), WrittenValue::Object(other)) => object == other,
            (Found::Kept(Value::Bool(flag)), WrittenValue::Bool(other)) => flag == other,
            (Found::Kept(Value::Int(number)), WrittenValue::Int(other)) => number == other,
            (Found::Kept(Value::Text(text)), WrittenValue::Text(other)) => {
                text.as_str() == other.as_str()
            }
            (Found::Kept(value), WrittenValue::Literal(name)) => {
                literal_name(self.repository.meta(), feature, value) == name.as_str()
            }
            _ => false,
        }
    }

    /// The first index at which a list has the value `written`; `None` if the list does not have this value.
    fn index_of(&self, end: End, written: &WrittenValue<'_>) -> Option<u32> {
        for index in 0..self.len(end) {
            let found = self
                .repository
                .list_value(end.node, end.feature, index)
                .ok()?;
            if self.is_written(end.feature, &found, written) {
                return Some(index);
            }
        }
        None
    }

    /// Explains that a list has the value `value` already.
    fn explain_repeated(&self, out: &mut String, end: End, value: &WrittenValue<'_>) -> Written {
        let prefix = self.prefix;
        let Some(index) = self.index_of(end, value) else {
            return Ok(());
        };
        let called = self.end_called(end)?;
        let value = self.value_called(value)?;
        writeln!(
            out,
            "{prefix}: {called} has {value} already, at index {index}"
        )
    }

    /// Explains that a list has a value already: the value that the line adds, or the object at the address of the proxy that the line
    /// resolves.
    pub(crate) fn explain_duplicate(&self, out: &mut String, form: &Form<'_>, end: End) -> Written {
        match (resolved_index(form), value_in(form)) {
            (_, Some(value)) => self.explain_repeated(out, end, value),
            (Some(index), None) => match self.led_to(end, index) {
                Some(object) => {
                    let value = WrittenValue::Object(object);
                    self.explain_repeated(out, end, &value)
                }
                None => Ok(()),
            },
            _ => Ok(()),
        }
    }

    /// Whether the list at an end is full: it has as many values as its upper bound.
    fn is_full(&self, end: End) -> bool {
        let meta = self.repository.meta();
        meta.is_full(end.feature, self.len(end))
    }

    /// The end that is full, of the two ends to which a line adds a value: `end`, which the line names, or, if `end` is not full, the
    /// opposite end. `None` if neither end is full.
    fn full_end(&self, form: &Form<'_>, end: End) -> Option<End> {
        if self.is_full(end) {
            return Some(end);
        }
        let feature = self.repository.meta().opposite(end.feature)?;
        let node = Node::Object(object_value(form)?);
        let far = End { node, feature };
        if self.is_full(far) { Some(far) } else { None }
    }

    /// Explains that a list is full: the list at `end`, which the line names, or the list at the opposite end.
    pub(crate) fn explain_bound(&self, out: &mut String, form: &Form<'_>, end: End) -> Written {
        let prefix = self.prefix;
        let Some(end) = self.full_end(form, end) else {
            return Ok(());
        };
        let called = self.end_called(end)?;
        let len = self.len(end);
        writeln!(
            out,
            "{prefix}: {called} is full: it has {len} values, which is its upper bound"
        )
    }

    /// Explains which limit a line would exceed: the number of objects, of resources, of targets of adapters, or of values of a list.
    pub(crate) fn explain_limit(&self, out: &mut String, form: &Form<'_>) -> Written {
        let prefix = self.prefix;
        match form {
            Form::New { .. } => writeln!(
                out,
                "{prefix}: {} objects were made, destroyed ones included, and no more may be; save, start anew and load",
                self.objects
            ),
            Form::Load { .. } => writeln!(
                out,
                "{prefix}: {} objects were made, and with those of the document there would be more than {}",
                self.objects,
                limits::OBJECTS
            ),
            Form::Resource(_) => writeln!(
                out,
                "{prefix}: {} resources were made, and no more may be",
                self.uris.len()
            ),
            Form::Attach { .. } | Form::Watch { .. } => writeln!(
                out,
                "{prefix}: the adapters have {} targets, and no more may be",
                limits::TARGETS
            ),
            _ => writeln!(
                out,
                "{prefix}: a list has {} values, and no more may be",
                limits::LIST_VALUES
            ),
        }
    }
}

//! Values that a feature does not take, features that a command does not take, and texts that are too long.
use crate::named::{Named, resolved_index, value_in};
use crate::scene::{Scene, Written};
use adapters::Adapter;
use explain::{Listed, nearest};
use explain_scripts::literal_names;
use links::LinkStore;
use mm_types::{DataType, End, FeatureNo, Kind, Read, limits};
use script_lines::{Form, WrittenValue};
use script_output::enum_of;
use std::alloc::AllocError;

impl<L: LinkStore, A: Adapter> Scene<'_, L, A> {
    /// Explains that a line names a list in a command that takes a single feature, or a single feature in a command that takes a list.
    pub(crate) fn explain_bounds(&self, out: &mut String, named: &Named<'_>, end: End) -> Written {
        let prefix = self.prefix;
        let verb = named.verb;
        let called = self.feature_called(end)?;
        if self.repository.meta().is_single(end.feature) {
            return writeln!(
                out,
                "{prefix}: {called} has one value, and {verb} takes a list; use set or unset"
            );
        }
        writeln!(
            out,
            "{prefix}: {called} is a list, and {verb} takes a feature of one value; use add, remove, removevalue or move"
        )
    }

    /// The values of a data type, in words for a reader. Fails only if memory is refused.
    fn taken_by_type(&self, data_type: DataType) -> Result<String, AllocError> {
        match data_type {
            DataType::EString => {
                format!(in self.alloc; "a text of at most {} bytes", limits::TEXT_BYTES)
            }
            DataType::EInt => format!(in self.alloc; "a whole number of 32 bits"),
            DataType::ELong => format!(in self.alloc; "a whole number of 64 bits"),
            DataType::EBoolean => format!(in self.alloc; "true or false"),
            DataType::Enum(e) => {
                let names = literal_names(self.alloc, self.repository.meta(), e)?;
                format!(in self.alloc;
                    "a literal of its enumeration, {}",
                    Listed(names.as_slice())
                )
            }
        }
    }

    /// The values that a feature takes, in words for a reader. Fails only if memory is refused.
    fn taken(&self, feature: FeatureNo) -> Result<String, AllocError> {
        let meta = self.repository.meta();
        let Some(found) = meta.feature(feature) else {
            return format!(in self.alloc; "an object");
        };
        match &found.kind {
            Kind::Attribute { value_type, .. } => self.taken_by_type(*value_type),
            Kind::Reference { target, .. } => {
                format!(in self.alloc; "an object of class {}", meta.class_name(*target))
            }
        }
    }
}

impl<'s, L: LinkStore, A: Adapter> Scene<'s, L, A> {
    /// The literal of a feature's enumeration that is nearest to `written`; `None` if no literal is near, or if the feature has no
    /// enumeration as its type.
    fn meant_literal(
        &self,
        feature: FeatureNo,
        written: &str,
    ) -> Result<Option<&'s str>, AllocError> {
        let meta = self.repository.meta();
        let Some(e) = enum_of(meta, feature) else {
            return Ok(None);
        };
        let names = literal_names(self.alloc, meta, e)?;
        nearest(self.alloc, written, names.as_slice())
    }

    /// The literal of a feature's enumeration that is nearest to `value`, if `value` is a text or a literal. `None` for any other value,
    /// and if `meant_literal` returns `None`.
    fn meant_value(
        &self,
        feature: FeatureNo,
        value: &WrittenValue<'_>,
    ) -> Result<Option<&'s str>, AllocError> {
        match value {
            WrittenValue::Literal(name) => self.meant_literal(feature, name.as_str()),
            WrittenValue::Text(text) => self.meant_literal(feature, text.as_str()),
            _ => Ok(None),
        }
    }
}

impl<L: LinkStore, A: Adapter> Scene<'_, L, A> {
    /// Explains that the value that a line names is not of the feature's type.
    fn explain_value(&self, out: &mut String, end: End, value: &WrittenValue<'_>) -> Written {
        let prefix = self.prefix;
        let called = self.feature_called(end)?;
        let wanted = self.taken(end.feature)?;
        let came = self.value_called(value)?;
        write!(out, "{prefix}: {called} takes {wanted}, and {came} came")?;
        match self.meant_value(end.feature, value)? {
            Some(meant) => writeln!(out, "; is :{meant} meant?"),
            None => writeln!(out),
        }
    }

    /// Explains why `resolve` is refused with `WrongType`: the feature is an attribute, or the proxy leads to an object of a wrong class.
    fn explain_proxy(&self, out: &mut String, end: End, index: u32) -> Written {
        let prefix = self.prefix;
        let called = self.feature_called(end)?;
        if !self.repository.meta().is_reference(end.feature) {
            return writeln!(
                out,
                "{prefix}: {called} is an attribute, and only a reference has proxies"
            );
        }
        let Some(object) = self.led_to(end, index) else {
            return Ok(());
        };
        let wanted = self.taken(end.feature)?;
        let came = self.object_called(object)?;
        writeln!(
            out,
            "{prefix}: {called} takes {wanted}, and the proxy leads to {came}"
        )
    }

    /// Explains the refusal `WrongType` of a line that names a value, or of a `resolve` line.
    pub(crate) fn explain_type(&self, out: &mut String, form: &Form<'_>, end: End) -> Written {
        match (resolved_index(form), value_in(form)) {
            (_, Some(value)) => self.explain_value(out, end, value),
            (Some(index), None) => self.explain_proxy(out, end, index),
            _ => Ok(()),
        }
    }
}

/// How many bytes the text of a line has, if the line is `resource`, is `at`, or names a text as a value; 0 for any other line.
fn length_in(form: &Form<'_>) -> usize {
    match (form, value_in(form)) {
        (Form::Resource(text) | Form::Read(Read::ObjectAt(text)), _) => text.as_str().len(),
        (_, Some(WrittenValue::Text(text))) => text.as_str().len(),
        _ => 0,
    }
}

impl<L: LinkStore, A: Adapter> Scene<'_, L, A> {
    /// Explains that the text of a line is too long, or that the URI that the text gives is too long.
    pub(crate) fn explain_length(&self, out: &mut String, form: &Form<'_>) -> Written {
        let prefix = self.prefix;
        let most = limits::TEXT_BYTES;
        let bytes = length_in(form);
        if bytes > most {
            return writeln!(
                out,
                "{prefix}: the text has {bytes} bytes, and at most {most} are accepted"
            );
        }
        writeln!(
            out,
            "{prefix}: the URI of the text has more than {most} bytes"
        )
    }
}

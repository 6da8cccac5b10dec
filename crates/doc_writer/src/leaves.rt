//! Writes JSON values other than arrays and objects.
ghost use Rattle.std.specs.Prelude.{◌≡◌, OnOk};
ghost use Rattle.serde_json.specs.Data.{boolean, null, number as number_of, string};
ghost use Rattle.serde_json.specs.Find.{of_integer};
ghost use Rattle.models.specs.Model.{reading};
ghost use Rattle.doc_writer.specs.Added.{Adds};
ghost use Rattle.doc_writer.specs.Document as spec;

use crate::write_context::WriteContext;
use fragment_paths::reference;
use json::Writer;
use links::LinkStore;
use mm_meta::Meta;
use mm_types::{FeatureNo, ObjectNo, Value};
use std::alloc::AllocError;

pub(crate) fn write_null(out: &mut Writer) -> Result<(), AllocError>
    ensures { OnOk result (Adds null out.old out.new) }
{
    out.null()
}

fn write_boolean(truth: bool, out: &mut Writer) -> Result<(), AllocError>
    ensures { OnOk result (Adds (boolean truth) out.old out.new) }
{
    out.boolean(truth)
}

pub(crate) fn write_integer(number: i64, out: &mut Writer) -> Result<(), AllocError>
    ensures { OnOk result (Adds (number_of (of_integer number)) out.old out.new) }
{
    out.i64(number)
}

pub(crate) fn write_text(text: &str, out: &mut Writer) -> Result<(), AllocError>
    ensures { OnOk result (Adds (string text.now) out.old out.new) }
{
    out.string(text)
}

/// Writes the text by which the resource of `source` refers to an object; an empty text if the object is in no resource.
pub(crate) fn write_reference<L: LinkStore>(
    source: &WriteContext<L>,
    object: ObjectNo,
    out: &mut Writer,
) -> Result<(), AllocError>
    ensures { OnOk result (Adds (string (spec.reference_text (reading source.now.positions.now) source.now.resource object)) out.old out.new) }
{
    match reference(source.alloc, source.positions, source.resource, object)? {
        Some(text) => write_text(text.as_str(), out),
        None => write_text("", out),
    }
}

/// Writes a value of `feature` that is no object. If the value is an object, null is written; but the callers write objects by other
/// functions.
pub(crate) fn write_plain(
    meta: &Meta,
    feature: FeatureNo,
    value: &Value,
    out: &mut Writer,
) -> Result<(), AllocError>
    ensures { OnOk result (Adds (spec.plain_data meta.now feature value.now) out.old out.new) }
{
    match value {
        Value::Null | Value::Object(_) => write_null(out),
        Value::Bool(truth) => write_boolean(*truth, out),
        Value::Int(number) => write_integer(*number, out),
        Value::Text(text) => write_text(text.as_str(), out),
        Value::Literal(index) => write_text(meta.literal_text(feature, *index), out),
        Value::Proxy(text) => write_text(text.as_str(), out),
    }
}

//! The name of an object's class.
ghost use Rattle.std.specs.Prelude.{◌≡◌};
ghost use Rattle.models.specs.Model.{reading};
ghost use Rattle.doc_writer.specs.Document as spec;

use links::LinkStore;
use mm_types::ObjectNo;
use models::ModelRef;

/// The name of an object's class; empty if there is no such object.
pub(crate) fn class_name<'a, L: LinkStore>(model: &ModelRef<'a, L>, object: ObjectNo) -> &'a str
    ensures { result.now ≡ spec.class_name (reading model.now) object }
{
    match model.class(object) {
        Some(class) => model.meta().class_name(class),
        None => "",
    }
}

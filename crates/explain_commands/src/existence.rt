//! Objects and resources that don't exist.
use crate::named::{Named, object_value};
use crate::scene::{Scene, Written};
use adapters::Adapter;
use links::LinkStore;
use mm_types::{Node, ObjectNo};
use script_lines::Form;

impl<L: LinkStore, A: Adapter> Scene<'_, L, A> {
    /// The object that doesn't exist, among the node `node` and the value that a refused line names: `node`, if it is an object that
    /// doesn't exist, and otherwise the value.
    fn lost_object(&self, form: &Form<'_>, node: Option<Node>) -> Option<ObjectNo> {
        match node {
            Some(Node::Object(object)) if self.repository.e_class(object).is_err() => Some(object),
            _ => object_value(form),
        }
    }

    /// Explains that an object doesn't exist: it was destroyed, or was never made.
    pub(crate) fn explain_no_object(
        &self,
        out: &mut String,
        form: &Form<'_>,
        named: &Named<'_>,
    ) -> Written {
        let prefix = self.prefix;
        let Some(object) = self.lost_object(form, named.node) else {
            return Ok(());
        };
        let number = object.0;
        match self.objects.checked_sub(1) {
            Some(last) if u64::from(number) > last => writeln!(
                out,
                "{prefix}: there is no object #{number}: the last that was made is #{last}"
            ),
            Some(_) => writeln!(
                out,
                "{prefix}: there is no object #{number} any more: it was destroyed"
            ),
            None => writeln!(out, "{prefix}: there is no object #{number}: none was made"),
        }
    }

    /// Explains that a resource doesn't exist: it was never made.
    pub(crate) fn explain_no_resource(&self, out: &mut String, named: &Named<'_>) -> Written {
        let prefix = self.prefix;
        let Some(Node::Resource(resource)) = named.node else {
            return Ok(());
        };
        let number = resource.0;
        match self.uris.len().checked_sub(1) {
            Some(last) => writeln!(
                out,
                "{prefix}: there is no resource r{number}: the last that was made is r{last}"
            ),
            None => writeln!(
                out,
                "{prefix}: there is no resource r{number}: none was made"
            ),
        }
    }
}

//! Which explanation each refusal gets.
use crate::named::{Named, named_in, resolved_index};
use crate::scene::{Scene, Written};
use adapters::Adapter;
use links::LinkStore;
use mm_types::{End, Node, Refused};
use script_lines::Form;

impl<L: LinkStore, A: Adapter> Scene<'_, L, A> {
    /// Explains the refusals `NoClass` and `Abstract` of a `new` line.
    fn explain_class(&self, out: &mut String, form: &Form<'_>, refused: Refused) -> Written {
        match (form, refused) {
            (Form::New { class }, Refused::NoClass) => self.explain_no_class(out, class.as_str()),
            (Form::New { class }, Refused::Abstract) => self.explain_abstract(out, class.as_str()),
            _ => Ok(()),
        }
    }

    /// Explains the refusals that only a line with `resolve` can have: `NotProxy`, `Unloaded`, `Unresolved` and `Unmatched`.
    fn explain_resolve(
        &self,
        out: &mut String,
        form: &Form<'_>,
        refused: Refused,
        end: End,
    ) -> Written {
        let Some(index) = resolved_index(form) else {
            return Ok(());
        };
        match refused {
            Refused::NotProxy => self.explain_not_proxy(out, end, index),
            Refused::Unloaded => self.explain_unloaded(out, end, index),
            Refused::Unresolved => self.explain_unresolved(out, end, index),
            Refused::Unmatched => self.explain_unmatched(out, end, index),
            _ => Ok(()),
        }
    }

    /// Explains a refusal of a line that names a node and one of the features of the node.
    fn explain_end(
        &self,
        out: &mut String,
        form: &Form<'_>,
        named: &Named<'_>,
        refused: Refused,
    ) -> Written {
        let (Some(node), Some(name)) = (named.node, named.feature) else {
            return Ok(());
        };
        let Some(feature) = self.feature(node, name) else {
            return Ok(());
        };
        let end = End { node, feature };
        match refused {
            Refused::NotSingle | Refused::NotMany => self.explain_bounds(out, named, end),
            Refused::WrongType => self.explain_type(out, form, end),
            Refused::Index => self.explain_index(out, form, named, end),
            Refused::Duplicate => self.explain_duplicate(out, form, end),
            Refused::Bound => self.explain_bound(out, form, end),
            Refused::Recursive => self.explain_recursive(out, form, end),
            refused => self.explain_resolve(out, form, refused, end),
        }
    }

    /// Explains the refusals `Dangling`, `TooDeep` and `NotEmpty` of a line that names a node and no feature.
    fn explain_node(&self, out: &mut String, named: &Named<'_>, refused: Refused) -> Written {
        match (named.node, refused) {
            (Some(node), Refused::Dangling) => self.explain_dangling(out, node),
            (Some(node), Refused::TooDeep) => self.explain_too_deep(out, node),
            (Some(Node::Resource(resource)), Refused::NotEmpty) => {
                self.explain_not_empty(out, resource)
            }
            _ => Ok(()),
        }
    }

    /// Adds to `out` one line that says why a command was refused; `form` is the form of the command. The repository has to be as it was
    /// when the command was refused. Adds nothing for the refusals `Document` and `Memory`. Fails only if memory is refused.
    pub(crate) fn explain_refusal(
        &self,
        out: &mut String,
        form: &Form<'_>,
        refused: Refused,
    ) -> Written {
        let named = named_in(form);
        match refused {
            Refused::NoObject => self.explain_no_object(out, form, &named),
            Refused::NoResource => self.explain_no_resource(out, &named),
            Refused::NoClass | Refused::Abstract => self.explain_class(out, form, refused),
            Refused::NoFeature => self.explain_no_feature(out, &named),
            Refused::TextLength => self.explain_length(out, form),
            Refused::Limit => self.explain_limit(out, form),
            Refused::BadUri => self.explain_bad_uri(out, form),
            Refused::ResourceExists => self.explain_exists(out, form),
            Refused::NotEmpty | Refused::Dangling | Refused::TooDeep => {
                self.explain_node(out, &named, refused)
            }
            Refused::NoAdapter => self.explain_no_adapter(out, form),
            Refused::AdapterTaken => self.explain_taken(out, form),
            Refused::AdapterFull => self.explain_full(out, form),
            Refused::Document(_) | Refused::Memory => Ok(()),
            refused => self.explain_end(out, form, &named, refused),
        }
    }
}

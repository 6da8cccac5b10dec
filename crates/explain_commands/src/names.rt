//! Unknown names of classes and features, and names of abstract classes.
use crate::named::Named;
use crate::scene::{Scene, Written};
use adapters::Adapter;
use explain::{Listed, nearest};
use explain_scripts::{class_names, concrete_names, feature_names};
use links::LinkStore;
use mm_types::Node;

impl<L: LinkStore, A: Adapter> Scene<'_, L, A> {
    /// Explains that `name` is the name of no class.
    pub(crate) fn explain_no_class(&self, out: &mut String, name: &str) -> Written {
        let prefix = self.prefix;
        let names = class_names(self.alloc, self.repository.meta())?;
        match nearest(self.alloc, name, names.as_slice())? {
            Some(meant) => writeln!(out, "{prefix}: {name:?} is no class; is {meant:?} meant?"),
            None => writeln!(
                out,
                "{prefix}: {name:?} is no class; the classes are {}",
                Listed(names.as_slice())
            ),
        }
    }

    /// Explains that the class with the name `name` is abstract.
    pub(crate) fn explain_abstract(&self, out: &mut String, name: &str) -> Written {
        let prefix = self.prefix;
        let meta = self.repository.meta();
        let Some(class) = meta.class_by_name(name) else {
            return Ok(());
        };
        let names = concrete_names(self.alloc, meta, class)?;
        if names.is_empty() {
            return writeln!(
                out,
                "{prefix}: class {name} is abstract, and no class below it is concrete"
            );
        }
        writeln!(
            out,
            "{prefix}: class {name} is abstract; the concrete classes below it are {}",
            Listed(names.as_slice())
        )
    }

    /// Explains that `name` is no feature of the class `class`, whose features have the names `names`.
    fn explain_unknown(
        &self,
        out: &mut String,
        class: &str,
        names: &[&str],
        name: &str,
    ) -> Written {
        let prefix = self.prefix;
        match nearest(self.alloc, name, names)? {
            Some(meant) => writeln!(
                out,
                "{prefix}: {name:?} is no feature of {class}; is {meant:?} meant?"
            ),
            None if names.is_empty() => writeln!(
                out,
                "{prefix}: {name:?} is no feature of {class}, which has none"
            ),
            None => writeln!(
                out,
                "{prefix}: {name:?} is no feature of {class}; its features are {}",
                Listed(names)
            ),
        }
    }

    /// Explains that the feature name in a line is no feature of the node's class or, if the node is a resource, is not `contents`.
    pub(crate) fn explain_no_feature(&self, out: &mut String, named: &Named<'_>) -> Written {
        let (Some(node), Some(name)) = (named.node, named.feature) else {
            return Ok(());
        };
        let Node::Object(object) = node else {
            let prefix = self.prefix;
            return writeln!(
                out,
                "{prefix}: {name:?} is no feature of a resource, whose one feature is \"contents\""
            );
        };
        let meta = self.repository.meta();
        let Ok(class) = self.repository.e_class(object) else {
            return Ok(());
        };
        let features = meta.features(class).unwrap_or(&[]);
        let names = feature_names(self.alloc, meta, features)?;
        self.explain_unknown(out, meta.class_name(class), names.as_slice(), name)
    }
}

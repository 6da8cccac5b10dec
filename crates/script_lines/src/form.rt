//! What a line asks for.
use crate::name::Name;
use crate::written_value::WrittenValue;
use mm_types::{AdapterNo, EndRead, Node, ObjectNo, Read, ResourceNo, Text};

/// What a line asks of a feature, or does to it.
#[derive(Drop)]
pub enum FeatureForm<'a> {
    /// A question about the feature.
    Read(EndRead),
    /// The feature gets a single value (EMF: EObject.eSet).
    Set(WrittenValue<'a>),
    /// A single feature is taken back to its default, and a list is emptied (EMF: EObject.eUnset).
    Unset,
    /// A value is put at the end of the feature's list (EMF: EList.add).
    Add(WrittenValue<'a>),
    /// A value is put into the feature's list at an index, counted from 0 (EMF: EList.add at an index).
    AddAt(u32, WrittenValue<'a>),
    /// The value at an index of the feature's list, counted from 0, is taken out (EMF: EList.remove of an index).
    Remove(u32),
    /// The first occurrence of a value is taken out of the feature's list (EMF: EList.remove of an object).
    RemoveValue(WrittenValue<'a>),
    /// A value of the feature's list is moved from one index to another; both are counted from 0 (EMF: EList.move).
    Move { to: u32, from: u32 },
    /// The proxy at an index of a reference is replaced by the object at the address of the proxy (EMF: EcoreUtil.resolve). The index is
    /// counted from 0; in a single reference it is 0.
    Resolve(u32),
}

/// What a line asks for. Classes and features are given by the names that are in the line.
#[derive(Drop)]
pub enum Form<'a> {
    /// Makes an object of a class (EMF: EFactory.create).
    New {
        class: Name<'a>,
    },
    /// A question about a feature of a node, or a change of the feature.
    At {
        node: Node,
        feature: Name<'a>,
        form: FeatureForm<'a>,
    },
    /// Makes a resource. Its URI is the text after normalisation (EMF: ResourceSet.createResource).
    Resource(Text),
    /// Resolves every proxy, one after another; a proxy that can't be resolved stays as it is (EMF: EcoreUtil.resolveAll).
    ResolveAll,
    /// Attaches an adapter to a node, which is the adapter's first target (EMF: Notifier.eAdapters().add). If `deep`, the adapter is also
    /// notified of changes below the node.
    Attach {
        no: AdapterNo,
        target: Node,
        deep: bool,
    },
    /// Gives an attached adapter one more target, flat or deep (EMF: Notifier.eAdapters().add).
    Watch {
        no: AdapterNo,
        target: Node,
        deep: bool,
    },
    /// Takes one target from an adapter (EMF: Notifier.eAdapters().remove).
    Unwatch(AdapterNo, Node),
    /// Detaches an adapter from all its targets (EMF: Notifier.eAdapters().remove).
    Detach(AdapterNo),
    /// Destroys an object and all objects below it (EMF: EcoreUtil.delete, recursively).
    Delete(ObjectNo),
    /// Loads a document into a resource (EMF: Resource.load). `text` is the document: all bytes of the line after the resource and one
    /// space.
    Load {
        resource: ResourceNo,
        text: Text,
    },
    /// A question about an object, a resource, or an address. A question about a feature is an `At` with a `FeatureForm::Read`, and a
    /// question about an adapter is `Seen`.
    Read(Read),
    /// How many notifications an adapter got, and how many of them it keeps.
    Seen(AdapterNo),
}

impl<'a> Form<'a> {
    ghost use Rattle.std.specs.Prelude.{◌≡◌};
    ghost use Rattle.script_lines.specs.declared.form.Form.TheVariants.{At};

    /// The form that asks something of a feature of a node, or changes the feature. `target` is the node and the name of the feature.
    #[inline(always)]
    pub(crate) fn at(target: (Node, Name<'a>), form: FeatureForm<'a>) -> Self
        ensures { result ≡ At target.entry.0 target.entry.1 form.entry }
    {
        let (node, feature) = target;
        Form::At {
            node,
            feature,
            form,
        }
    }
}

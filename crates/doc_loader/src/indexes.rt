//! The indexes of objects in the lists that a document has under the lower features of pairs (`specs/LoadEdits.antt`). The edits of the
//! module `far` need no other indexes.
ghost use Rattle.std.specs.Prelude.{◌≡◌};

use crate::pairs::is_lower;
use indexmap::IndexMap;
use mm_meta::Meta;
use mm_types::{FeatureNo, ObjectNo, Value};
use models::ReferenceKey;
use resource_docs::{Content, DocObject};
use std::alloc::{AllocError, Global};

/// The indexes of objects in the lists that a document has under the lower features of pairs. The key of an index is made of the number of
/// the object that has the list, the number of the list's feature, and the number of the object that is in the list.
#[derive(Drop)]
pub(crate) struct ListIndexes {
    indexes: IndexMap<ReferenceKey, u32>,
}

impl ListIndexes {
    ghost use Rattle.std.specs.Prelude.{◌≤◌, IfOk, OnOk, None, Some, flat_map, if◌then◌else◌, length, unwrap_or};
    ghost use Rattle.std.specs.List.{All, enumerate_from};
    ghost use Rattle.std.specs.Option.{option_or};
    ghost use Rattle.mm_types.specs.declared.limits.TheConstants.{LIST_VALUES, OBJECTS};
    ghost use Rattle.doc_loader.specs.Fits.{IsShort, IsShortObject};
    ghost use Rattle.doc_loader.specs.ListIndexes as p;
    ghost use Rattle.models.specs.ReferenceKeys.{same_reference_key};
    ghost use Rattle.models.specs.declared.reference_key.ReferenceKey.{ReferenceKey};

    /// No indexes. Takes no memory.
    fn new(alloc: Global) -> Self
        ensures { (k : ReferenceKey) → p.index_at result k ≡ None }
    {
        ListIndexes {
            indexes: IndexMap::new(alloc),
        }
    }

    /// The indexes of the objects in the lists that a document has under the lower features of pairs; `objects` are all objects of the
    /// document. If an object is in a list twice, the last index counts. Fails only if memory is refused.
    pub fn of(alloc: Global, meta: &Meta, objects: &[DocObject]) -> Result<Self, AllocError>
        requires room { length objects.now ≤ OBJECTS }
        requires short { All IsShortObject objects.now }
        ensures { IfOk result (λ s. (k : ReferenceKey) → p.index_at s k ≡ p.last_index (p.all_indexes meta.now objects.now) k) }
    {
        let mut indexes = ListIndexes::new(alloc);
        'objects: for (i, object) in objects.iter().enumerate() {
            indexes.add_object(meta, ObjectNo(i as u32), object.contents.as_slice())?;
        }
        Ok(indexes)
    }

    /// Adds the indexes of the objects in the lists that one object of the document has under the lower features of pairs.
    fn add_object(
        &mut self,
        meta: &Meta,
        object: ObjectNo,
        contents: &[Content],
    ) -> Result<(), AllocError>
        requires short { All IsShort contents.now }
        ensures { OnOk result ((k : ReferenceKey) → p.index_at self.new k ≡ option_or (p.last_index (flat_map (p.content_indexes meta.now object) contents.now) k) (p.index_at self.old k)) }
    {
        'contents: for content in contents {
            self.add_content(meta, object, content)?;
        }
        Ok(())
    }

    /// Adds the indexes of the objects in a content, if the feature of the content is the lower feature of a pair. `object` is the number,
    /// in the document, of the object that has the content.
    fn add_content(
        &mut self,
        meta: &Meta,
        object: ObjectNo,
        content: &Content,
    ) -> Result<(), AllocError>
        requires short { IsShort content.now }
        ensures { OnOk result ((k : ReferenceKey) → p.index_at self.new k ≡ option_or (p.last_index (p.content_indexes meta.now object content.now) k) (p.index_at self.old k)) }
    {
        if !is_lower(meta, content.feature) {
            return Ok(());
        }
        self.add_values(object, content.feature, content.values.as_slice())
    }

    /// Adds the indexes of the objects among the values under a feature of an object.
    fn add_values(
        &mut self,
        object: ObjectNo,
        feature: FeatureNo,
        values: &[Value],
    ) -> Result<(), AllocError>
        requires short { length values.now ≤ LIST_VALUES }
        ensures { OnOk result ((k : ReferenceKey) → p.index_at self.new k ≡ option_or (p.last_index (flat_map (p.key_and_index object feature) (enumerate_from 0 values.now)) k) (p.index_at self.old k)) }
    {
        'values: for (i, value) in values.iter().enumerate() {
            self.add_value(object, feature, i as u32, value)?;
        }
        Ok(())
    }

    /// Adds the index of one value, if the value is an object.
    fn add_value(
        &mut self,
        object: ObjectNo,
        feature: FeatureNo,
        index: u32,
        value: &Value,
    ) -> Result<(), AllocError>
        ensures { OnOk result ((k : ReferenceKey) → p.index_at self.new k ≡ option_or (p.last_index (p.key_and_index object feature (index, value.now)) k) (p.index_at self.old k)) }
    {
        match value {
            Value::Object(named) => self.insert(ReferenceKey::of(object, feature, named.0), index),
            _ => Ok(()),
        }
    }

    fn insert(&mut self, reference_key: ReferenceKey, index: u32) -> Result<(), AllocError>
        ensures { OnOk result ((k : ReferenceKey) → p.index_at self.new k ≡ (if same_reference_key reference_key k then Some index else p.index_at self.old k)) }
    {
        self.indexes.insert(reference_key, index)?;
        Ok(())
    }

    /// The index for a reference key; 0 if the key has no index. Takes no memory.
    pub fn index_of(&self, reference_key: ReferenceKey) -> u32
        ensures { result ≡ unwrap_or (p.index_at self.now reference_key) 0 }
    {
        self.indexes.get(&reference_key).copied().unwrap_or(0)
    }
}

//! What one object stores under its attributes: values and set flags.
ghost use Rattle.std.specs.Prelude.{◌≡◌, ℕ, ◌-◌, ◌≤◌, [], length, option_copied, IfOk, IfErr, OnErr, OnOk};
ghost use Rattle.std.specs.List.{insert};
ghost use Rattle.mm_values.specs.Stored.{items_of, with_stored};
ghost use Rattle.mm_values.specs.Attributes.{change_stored, stored_in, stored_under, taken_of, HasPlace, IsAt, IsGapFor};
ghost use Rattle.mm_values.specs.ListEdits.{list_after_edit, list_edit_capacity, IsReadyFor};

use crate::list_edit::ListEdit;
use crate::new_values::{NewValues, list_of, put_in};
use mm_types::FeatureNo;
use std::alloc::{AllocError, Global};
use std::marker::Model;
use value_lists::ValueList;

/// What is stored under one attribute: its values and its set flag. An entry with an empty list and a flag that is off stores nothing: the
/// entry was made in advance for values that come later, or its values were taken out, or no values were put.
#[derive(Drop)]
pub(crate) struct Entry {
    feature: FeatureNo,
    flag: bool,
    list: ValueList,
}

/// The attribute lists of one object, in the order of the attributes' numbers.
#[derive(Drop)]
pub(crate) struct AttributeLists {
    entries: Vec<Entry>,
}

impl Model for AttributeLists {
    ghost use Rattle.std.specs.Prelude.{List};
    ghost use Rattle.mm_values.specs.declared.attribute_lists.Entry.{Entry};

    ghost Value = { List Entry };

    ghost use Rattle.mm_values.specs.Attributes.{IsRising};

    ghost view = { λ a. a.entries.items };

    ghost invariant = { λ a. IsRising a.entries.items };
}

impl AttributeLists {
    /// No entries, so nothing is stored. Takes no memory.
    pub fn new(alloc: Global) -> Self
        ensures { result ≡ [] }
    {
        AttributeLists {
            entries: Vec::new(alloc),
        }
    }

    /// The list under an attribute; `None` if the attribute has no entry, and therefore no values.
    pub fn list(&self, feature: FeatureNo) -> Option<&ValueList>
        ensures { items_of (option_copied result) ≡ (stored_under self.now feature).list }
    {
        match self.find(feature) {
            Ok(at) => Some(&self.entries[at].list),
            Err(_) => None,
        }
    }

    /// The set flag of an attribute; off if the attribute has no entry.
    pub fn flag(&self, feature: FeatureNo) -> bool
        ensures { result ≡ (stored_under self.now feature).flag }
    {
        match self.find(feature) {
            Ok(at) => self.entries[at].flag,
            Err(_) => false,
        }
    }

    /// Makes an entry for an attribute, if the attribute has none, and reserves capacity for `additional` more values in the list of the
    /// entry. `is_asked` says whether the list is looked up by value. Fails only if memory is refused.
    pub fn make_place(
        &mut self,
        feature: FeatureNo,
        additional: usize,
        is_asked: bool,
    ) -> Result<(), AllocError>
        ensures stored { stored_in self.new ≡ stored_in self.old }
        ensures kept { (f n : ℕ) → HasPlace self.old f n → HasPlace self.new f n }
        ensures ok { OnOk result (HasPlace self.new feature.0 additional) }
    {
        let at = self.make_entry(feature)?;
        if additional == 0 {
            return Ok(());
        }
        self.reserve(feature, at, additional, is_asked)
    }

    /// If the list under an attribute is longer than one piece, moves the list into pieces, so that edits of the list are fast. Fails only
    /// if memory is refused.
    pub fn make_pieces(&mut self, feature: FeatureNo) -> Result<(), AllocError>
        ensures stored { stored_in self.new ≡ stored_in self.old }
        ensures kept { (f n : ℕ) → HasPlace self.old f n → HasPlace self.new f n }
    {
        match self.find(feature) {
            Ok(at) => self.reserve(feature, at, 0, false),
            Err(_) => Ok(()),
        }
    }

    /// Makes an entry for an attribute, if the attribute has none, and returns the index of the entry.
    fn make_entry(&mut self, feature: FeatureNo) -> Result<usize, AllocError>
        ensures stored { stored_in self.new ≡ stored_in self.old }
        ensures kept { (f n : ℕ) → HasPlace self.old f n → HasPlace self.new f n }
        ensures ok { IfOk result (IsAt self.new feature.0) }
    {
        match self.find(feature) {
            Ok(at) => Ok(at),
            Err(at) => {
                let entry = Entry {
                    feature,
                    flag: false,
                    list: ValueList::new(),
                };
                self.grow()?;
                insert_entry(&mut self.entries, at, entry)?;
                Ok(at)
            }
        }
    }

    /// Reserves capacity for `additional` more values in the list of the attribute's entry, which is at the index `at`. `is_asked` says
    /// whether the list is looked up by value.
    fn reserve(
        &mut self,
        feature: FeatureNo,
        at: usize,
        additional: usize,
        is_asked: bool,
    ) -> Result<(), AllocError>
        requires { IsAt self.old feature.0 at }
        ensures stored { stored_in self.new ≡ stored_in self.old }
        ensures kept { (f n : ℕ) → HasPlace self.old f n → HasPlace self.new f n }
        ensures ok { OnOk result (HasPlace self.new feature.0 additional) }
    {
        let alloc = *self.entries.allocator();
        self.entries[at].list.reserve(alloc, additional, is_asked)
    }

    /// Makes sure that there is capacity for one more entry. If there is no such capacity, reserves it: for two entries if there is no
    /// entry yet, and for `n / 4 + 1` entries if there are `n` entries. No more is reserved, since most objects have few entries.
    fn grow(&mut self) -> Result<(), AllocError>
        ensures { self.new ≡ self.old }
    {
        let len = self.entries.len();
        if len < self.entries.capacity() {
            return Ok(());
        }
        self.entries
            .reserve_exact(if len == 0 { 2 } else { len / 4 + 1 })
    }

    /// Replaces the list and the set flag of an attribute that has an entry. Takes no memory.
    pub fn put(&mut self, feature: FeatureNo, list: NewValues, flag: bool)
        requires { HasPlace self.old feature.0 0 }
        ensures stored { stored_in self.new ≡ with_stored (stored_in self.old) feature.0 (record { list = list; flag = flag }) }
        ensures kept { (f n : ℕ) → HasPlace self.old f n → HasPlace self.new f (n - taken_of feature.0 (length list) f) }
    {
        match self.find(feature) {
            Ok(at) => self.put_at(feature, at, list, flag),
            Err(_) => unreachable!(),
        }
    }

    /// Replaces the list and the set flag of an attribute. Takes memory for an entry if the attribute has none. Fails only if memory is
    /// refused, and then nothing that contracts see has changed.
    pub fn set(&mut self, feature: FeatureNo, list: NewValues, flag: bool) -> Result<(), AllocError>
        ensures ok { OnOk result (stored_in self.new ≡ with_stored (stored_in self.old) feature.0 (record { list = list; flag = flag })) }
        ensures err { OnErr result (stored_in self.new ≡ stored_in self.old) }
    {
        match self.find(feature) {
            Ok(at) => {
                self.put_at(feature, at, list, flag);
                Ok(())
            }
            Err(at) => self.put_new(feature, at, list, flag),
        }
    }

    /// Makes an entry for an attribute that has none, with the values `list` and the set flag `flag`; `at` is the index at which the entry
    /// is inserted. Fails only if memory is refused, and then nothing that contracts see has changed.
    fn put_new(
        &mut self,
        feature: FeatureNo,
        at: usize,
        list: NewValues,
        flag: bool,
    ) -> Result<(), AllocError>
        requires { IsGapFor self.old feature.0 at }
        ensures ok { OnOk result (stored_in self.new ≡ with_stored (stored_in self.old) feature.0 (record { list = list; flag = flag })) }
        ensures err { OnErr result (stored_in self.new ≡ stored_in self.old) }
    {
        self.grow()?;
        let entry = Entry {
            feature,
            flag,
            list: list_of(list),
        };
        insert_entry(&mut self.entries, at, entry)?;
        Ok(())
    }

    /// Replaces the list and the set flag of an attribute, whose entry is at the index `at`. Takes no memory.
    fn put_at(&mut self, feature: FeatureNo, at: usize, list: NewValues, flag: bool)
        requires { IsAt self.old feature.0 at }
        ensures stored { stored_in self.new ≡ with_stored (stored_in self.old) feature.0 (record { list = list; flag = flag }) }
        ensures kept { (f n : ℕ) → HasPlace self.old f n → HasPlace self.new f (n - taken_of feature.0 (length list) f) }
    {
        let alloc = *self.entries.allocator();
        let entry = &mut self.entries[at];
        put_in(list, alloc, &mut entry.list);
        entry.flag = flag;
    }

    /// Makes an edit of the list that is stored under an attribute; the set flag stays as it is. If the attribute has no entry, the edit
    /// can only be a removal or a move, and nothing changes. Takes no memory.
    pub fn change(&mut self, feature: FeatureNo, edit: ListEdit)
        requires { IsReadyFor self.old feature.0 edit }
        ensures stored { stored_in self.new ≡ change_stored (stored_in self.old) feature.0 (list_after_edit edit) }
        ensures kept { (f n : ℕ) → HasPlace self.old f n → HasPlace self.new f (n - taken_of feature.0 (list_edit_capacity edit) f) }
    {
        match self.find(feature) {
            Ok(at) => edit.make(&mut self.entries[at].list),
            Err(_) => drop(edit),
        }
    }

    /// `Ok` with the index of the attribute's entry, or `Err` with the index at which an entry of the attribute would be inserted.
    fn find(&self, feature: FeatureNo) -> Result<usize, usize>
        ensures found { IfOk result (IsAt self.now feature.0) }
        ensures absent { IfErr result (IsGapFor self.now feature.0) }
    {
        self.entries
            .binary_search_by_key(&feature.0, |e| e.feature.0)
    }
}

/// Inserts an entry at an index. Fails only if memory is refused, and then nothing has changed.
fn insert_entry(entries: &mut Vec<Entry>, at: usize, entry: Entry) -> Result<(), AllocError>
    requires { at ≤ length entries.old.items }
    ensures ok { OnOk result (entries.new.items ≡ insert entries.old.items at entry) }
    ensures err { OnErr result (entries.new.items ≡ entries.old.items) }
{
    // Most objects get their values in the order of the attributes' numbers, and to push takes half as long as to insert.
    if at == entries.len() {
        entries.push(entry)?;
    } else {
        entries.insert(at, entry)?;
    }
    Ok(())
}

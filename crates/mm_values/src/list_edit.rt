//! Edits of one list.
ghost use Rattle.std.specs.Prelude.{◌≡◌, ◌+◌, ◌≤◌, insert, remove};
ghost use Rattle.mm_types.specs.Lists.{values_after_move};
ghost use Rattle.mm_values.specs.ListEdits.{list_after_edit, list_edit_capacity};

use mm_types::Value;
use value_lists::ValueList;

/// One edit of a list of values.
#[derive(Drop)]
pub(crate) enum ListEdit {
    /// Inserts a value at an index; if the index is past the end, at the end.
    Insert { index: u32, value: Value },
    /// Takes out the value at an index; if the index is past the end, nothing changes.
    Remove { index: u32 },
    /// Takes out the value at `from`, and inserts it at the index `to` of the remaining list, or at the end if `to` is past the end. If the
    /// list has no value at `from`, nothing changes.
    Move { to: u32, from: u32 },
}

impl ListEdit {
    /// Makes the edit of `list`, which has the capacity that the edit needs. Takes no memory.
    pub fn make(self, list: &mut ValueList)
        requires { list_edit_capacity self ≤ list.old.spare }
        ensures items { list.new.items ≡ list_after_edit self list.old.items }
        ensures spare { list.old.spare ≤ list.new.spare + list_edit_capacity self }
    {
        match self {
            ListEdit::Insert { index, value } => insert_in(list, index as usize, value),
            ListEdit::Remove { index } => remove_from(list, index as usize),
            ListEdit::Move { to, from } => move_in(list, to as usize, from as usize),
        }
    }
}

fn insert_in(list: &mut ValueList, index: usize, value: Value)
    requires { 1 ≤ list.old.spare }
    ensures items { list.new.items ≡ insert list.old.items index value }
    ensures spare { list.old.spare ≤ list.new.spare + 1 }
{
    list.insert(index.min(list.len()), value);
}

fn remove_from(list: &mut ValueList, index: usize)
    ensures items { list.new.items ≡ remove list.old.items index }
    ensures spare { list.old.spare ≤ list.new.spare }
{
    if index < list.len() {
        list.remove(index);
    }
}

fn move_in(list: &mut ValueList, to: usize, from: usize)
    ensures items { list.new.items ≡ values_after_move list.old.items to from }
    ensures spare { list.old.spare ≤ list.new.spare }
{
    let len = list.len();
    if from < len {
        list.move_to(to.min(len - 1), from);
    }
}

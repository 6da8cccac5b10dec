//! Replays a notification on the values of the end that it names.
ghost use Rattle.std.specs.Prelude.{◌≡◌, ◌<◌, OnOk, length, insert, remove, [], ◌∷◌};
ghost use Rattle.notice_chain.specs.Replay.{list_after_add, list_after_index_move, list_after_move_notice, list_after_position_move, list_after_remove, list_after_resolve};
ghost use Rattle.snapshots.specs.ListReplay.{index_within, values_after_notice};

use mm_types::Value;
use notice_chain::{NO_INDEX, Notice, NoticeKind};
use std::alloc::AllocError;

/// Replays a notification on the values of the end that the notification names. If the notification does not fit the values, they stay as
/// they are. Fails only if memory is refused; then `values` may have any content.
pub(crate) fn edit(values: &mut Vec<Value>, notice: &Notice) -> Result<(), AllocError>
    ensures { OnOk result (values.new.items ≡ values_after_notice notice.now.kind notice.now values.old.items) }
{
    match notice.kind {
        NoticeKind::Set | NoticeKind::Unset => put_alone(values, &notice.new_value),
        NoticeKind::Add => add(values, notice.position, &notice.new_value),
        NoticeKind::Remove => {
            take_out(values, notice.position);
            Ok(())
        }
        NoticeKind::Move => { shift_from(values, &notice.old_value, notice.position) }
        NoticeKind::RemovingAdapter(_) => Ok(()),
        NoticeKind::Resolve => resolve(values, notice.position, &notice.new_value),
    }
}

/// A position as an index; `None` if the position is negative or is not below `count`.
fn index_at(position: i64, count: usize) -> Option<usize>
    ensures { result ≡ index_within position count }
{
    match usize::try_from(position) {
        Ok(index) if index < count => Some(index),
        _ => None,
    }
}

fn put_alone(values: &mut Vec<Value>, value: &Value) -> Result<(), AllocError>
    ensures { OnOk result (values.new.items ≡ value.now ∷ []) }
{
    let value = value.clone()?;
    values.clear();
    values.push(value)?;
    Ok(())
}

fn add(values: &mut Vec<Value>, position: i64, value: &Value) -> Result<(), AllocError>
    ensures { OnOk result (values.new.items ≡ list_after_add values.old.items position value.now) }
{
    let places = values.len() + 1;
    if let Some(index) = index_at(position, places) {
        let value = value.clone()?;
        values.insert(index, value)?;
    }
    Ok(())
}

fn take_out(values: &mut Vec<Value>, position: i64)
    ensures { values.new.items ≡ list_after_remove values.old.items position }
{
    let places = values.len();
    if let Some(index) = index_at(position, places) {
        let _ = values.remove(index);
    }
}

fn shift_from(values: &mut Vec<Value>, from: &Value, to: i64) -> Result<(), AllocError>
    ensures { OnOk result (values.new.items ≡ list_after_move_notice from.now to values.old.items) }
{
    if let Value::Int(from) = from {
        return shift(values, *from, to);
    }
    Ok(())
}

fn shift(values: &mut Vec<Value>, from: i64, to: i64) -> Result<(), AllocError>
    ensures { OnOk result (values.new.items ≡ list_after_position_move values.old.items from to) }
{
    let places = values.len();
    let Some(from) = index_at(from, places) else {
        return Ok(());
    };
    let Some(to) = index_at(to, places) else {
        return Ok(());
    };
    move_value(values, from, to)
}

fn move_value(values: &mut Vec<Value>, from: usize, to: usize) -> Result<(), AllocError>
    requires from_in { from < length values.old.items }
    requires to_in { to < length values.old.items }
    ensures { OnOk result (values.new.items ≡ list_after_index_move values.old.items to from) }
{
    let value = values.remove(from);
    values.insert(to, value)?;
    Ok(())
}

fn resolve(values: &mut Vec<Value>, position: i64, value: &Value) -> Result<(), AllocError>
    ensures { OnOk result (values.new.items ≡ list_after_resolve values.old.items position value.now) }
{
    if position == NO_INDEX {
        return put_alone(values, value);
    }
    let places = values.len();
    if let Some(index) = index_at(position, places) {
        let value = value.clone()?;
        values[index] = value;
    }
    Ok(())
}

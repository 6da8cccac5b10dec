//! Edits of the list of links of a `RowStore`. Each link of the list is a row.
ghost use Rattle.std.specs.FinSet as set;
ghost use Rattle.links.specs.declared.plan.Edit.TheVariants as edit;
ghost use Rattle.std.specs.List.{All};
ghost use Rattle.std.specs.Prelude.{◌≡◌, ◌+◌, ◌<◌, ◌≤◌, not, map, filter, vec_len, vec_capacity};
ghost use Rattle.links.specs.LegalSets.{IsPlaced};
ghost use Rattle.links.specs.Links.{cut_value, joined_link, new_link, put_proxy, shift};
ghost use Rattle.links.specs.Indexed.{has_value, renumbered_link};
ghost use Rattle.links.specs.Plans.{links_after_edit};
ghost use Rattle.link_store.specs.Rows.{CanMove, changed_index};

use crate::renumbering::Renumbering;
use crate::rows::{has, len_of, positions_of};
use links::{Edit, Far, Link, NewLink};
use mm_types::{End, FeatureNo, Node, ObjectNo, Text, Value};

/// Changes the position that a link has in an end, by the renumbering `by`. A link that is not in the end stays as it is.
fn move_row(link: &mut Link, end: End, by: Renumbering)
    requires { CanMove by end link.old }
    ensures { link.new ≡ renumbered_link link.old end (changed_index by) }
{
    if link.end == end {
        link.index = by.changed(link.index);
    } else if let Far::At(d, j) = link.far {
        if d == end {
            link.far = Far::At(d, by.changed(j));
        }
    }
}

/// Changes the position of each link that is in an end, by the renumbering `by`.
fn renumber(rows: &mut Vec<Link>, end: End, by: Renumbering)
    requires { All (CanMove by end) rows.old.items }
    ensures rows { rows.new.items ≡ map (λ l. renumbered_link l end (changed_index by)) rows.old.items }
    ensures len { vec_len rows.new ≡ vec_len rows.old }
    ensures capacity { vec_capacity rows.new ≡ vec_capacity rows.old }
{
    for link in rows.iter_mut() {
        move_row(link, end, by);
    }
}

/// Takes out the rows that have `value` in an end.
fn take_out(rows: &mut Vec<Link>, end: End, value: &Value)
    ensures rows { rows.new.items ≡ filter (λ l. not (has_value end value.now l)) rows.old.items }
    ensures len { vec_len rows.new ≤ vec_len rows.old }
    ensures capacity { vec_capacity rows.new ≡ vec_capacity rows.old }
{
    let mut i = 0;
    while i < rows.len() {
        if has(&rows[i], end, value) {
            let _row = rows.remove(i);
        } else {
            i += 1;
        }
    }
}

/// Cuts the link that has `value` in an end, if there is one: takes the link out, and lowers the later positions in each end that had the
/// link.
fn cut_row(rows: &mut Vec<Link>, end: End, value: &Value)
    requires placed { IsPlaced (set.from_list rows.old.items) }
    ensures cut { set.from_list rows.new.items ≡ cut_value (set.from_list rows.old.items) end value.now }
    ensures len { vec_len rows.new ≤ vec_len rows.old }
    ensures capacity { vec_capacity rows.new ≡ vec_capacity rows.old }
{
    if let Some(positions) = positions_of(rows, end, value) {
        take_out(rows, end, value);
        renumber(rows, positions.end, Renumbering::Lower(positions.index));
        if let Some((d, j)) = positions.far {
            renumber(rows, d, Renumbering::Lower(j));
        }
    }
}

/// The link between the position `i` of the end `x` and the position `j` of the end `y`. The near end of the link (`Link::end`) is the end
/// whose feature has the lower number.
fn join(x: End, i: u32, y: End, j: u32, container: Option<FeatureNo>) -> Link
    ensures { result ≡ joined_link x i y j container }
{
    if x.feature.0 < y.feature.0 {
        Link {
            end: x,
            index: i,
            far: Far::At(y, j),
            container,
        }
    } else {
        Link {
            end: y,
            index: j,
            far: Far::At(x, i),
            container,
        }
    }
}

/// The new link of a put (`Edit::Put`). In the opposite end, if there is one, the link gets the position after the last value.
fn new_row(rows: &[Link], link: NewLink) -> Link
    requires placed { IsPlaced (set.from_list rows.now) }
    ensures { result ≡ new_link (set.from_list rows.now) link.end link.index link.object link.opposite link.container }
{
    let NewLink {
        end,
        index,
        object,
        opposite,
        container,
    } = link;
    match opposite {
        None => Link {
            end,
            index,
            far: Far::Alone(object),
            container,
        },
        Some(feature) => {
            let far = End {
                node: Node::Object(object),
                feature,
            };
            join(end, index, far, len_of(rows, far) as u32, container)
        }
    }
}

/// Puts a link in. `rows` must have capacity for one more row.
pub(crate) fn put_row(rows: &mut Vec<Link>, link: NewLink)
    requires placed { IsPlaced (set.from_list rows.old.items) }
    requires room { vec_len rows.old < vec_capacity rows.old }
    ensures put { set.from_list rows.new.items ≡ links_after_edit (set.from_list rows.old.items) (edit.Put link) }
    ensures len { vec_len rows.new ≡ vec_len rows.old + 1 }
    ensures capacity { vec_capacity rows.new ≡ vec_capacity rows.old }
{
    let put = new_row(rows, link);
    renumber(rows, link.end, Renumbering::Raise(link.index));
    rows.push_reserved(put);
}

/// Puts a proxy at a position of an end. `rows` must have capacity for one more row.
fn put_proxy_row(rows: &mut Vec<Link>, end: End, index: u32, text: Text)
    requires placed { IsPlaced (set.from_list rows.old.items) }
    requires room { vec_len rows.old < vec_capacity rows.old }
    ensures put { set.from_list rows.new.items ≡ put_proxy (set.from_list rows.old.items) end index text }
    ensures len { vec_len rows.new ≡ vec_len rows.old + 1 }
    ensures capacity { vec_capacity rows.new ≡ vec_capacity rows.old }
{
    let link = Link {
        end,
        index,
        far: Far::Proxy(text),
        container: None,
    };
    renumber(rows, end, Renumbering::Raise(index));
    rows.push_reserved(link);
}

/// Moves the value at the position `from` of an end to the position `to`.
fn shift_rows(rows: &mut Vec<Link>, end: End, to: u32, from: u32)
    requires placed { IsPlaced (set.from_list rows.old.items) }
    ensures shifted { set.from_list rows.new.items ≡ shift (set.from_list rows.old.items) end to from }
    ensures len { vec_len rows.new ≡ vec_len rows.old }
    ensures capacity { vec_capacity rows.new ≡ vec_capacity rows.old }
{
    renumber(rows, end, Renumbering::Shift(to, from));
}

/// Makes one edit. `rows` must have capacity for one more row.
pub(crate) fn edit_rows(rows: &mut Vec<Link>, edit: Edit)
    requires placed { IsPlaced (set.from_list rows.old.items) }
    requires room { vec_len rows.old < vec_capacity rows.old }
    ensures edited { set.from_list rows.new.items ≡ links_after_edit (set.from_list rows.old.items) edit }
    ensures len { vec_len rows.new ≤ vec_len rows.old + 1 }
    ensures capacity { vec_capacity rows.new ≡ vec_capacity rows.old }
{
    match edit {
        Edit::Cut { end, value } => cut_row(rows, end, &value),
        Edit::Put(link) => put_row(rows, link),
        Edit::Shift { end, to, from } => shift_rows(rows, end, to, from),
        Edit::PutProxy { end, index, text } => put_proxy_row(rows, end, index, text),
    }
}

//! The store that keeps its links in one list, and scans the list.
ghost use Rattle.std.specs.Prelude.{◌≡◌, ◌+◌, ◌≤◌, length, vec_len, vec_capacity};
ghost use Rattle.std.specs.FinSet as set;
ghost use Rattle.links.specs.LegalSets.{IsLegalSet};
ghost use Rattle.links.specs.Plans.{PlanFits, links_after_edits};

use crate::incoming::places_of;
use crate::row_edits::{edit_rows, put_row};
use crate::rows::{ends_of, holder_in, len_of, object_in, position_of, text_in};
use links::{Edit, Incoming, Link, LinkStore, NewLink, Plan, put_in_order};
use mm_types::{End, FewItems, Node, ObjectNo, Value};
use std::alloc::{AllocError, Global};

/// Links in a list, in which each link is a row. A link is found by a scan of the list from its first row.
#[derive(Debug, Drop)]
pub struct RowStore {
    rows: Vec<Link>,
}

impl LinkStore for RowStore {
    ghost links = { λ s. set.from_list s.rows.items };

    ghost kinds = { λ s m. Unit {0} };

    ghost has_room = { λ s plan. vec_len s.rows + length plan ≤ vec_capacity s.rows };

    fn empty(alloc: Global) -> Self {
        RowStore {
            rows: Vec::new(alloc),
        }
    }

    fn len(&self, end: End) -> usize {
        len_of(&self.rows, end)
    }

    fn at(&self, end: End, index: u32) -> Option<ObjectNo> {
        object_in(&self.rows, end, index)
    }

    fn proxy_at(&self, end: End, index: u32) -> Option<&str> {
        text_in(&self.rows, end, index)
    }

    fn proxy_start(&self, _end: End) -> usize {
        0
    }

    fn position(&self, end: End, object: ObjectNo) -> Option<u32> {
        position_of(&self.rows, end, &Value::Object(object))
    }

    fn holder(&self, object: ObjectNo) -> Option<End> {
        holder_in(&self.rows, Node::Object(object))
    }

    fn incoming(&self, alloc: Global, object: ObjectNo) -> Result<Vec<Incoming>, AllocError> {
        let mut ends = ends_of(alloc, &self.rows, Node::Object(object))?;
        put_in_order(&mut ends);
        places_of(alloc, &self.rows, &ends, &Value::Object(object))
    }

    fn ends_holding(&self, alloc: Global, object: ObjectNo) -> Result<Vec<End>, AllocError> {
        ends_of(alloc, &self.rows, Node::Object(object))
    }

    fn reserve_for(&mut self, plan: &Plan) -> Result<(), AllocError> {
        self.rows.reserve(plan.len())
    }

    fn apply(&mut self, plan: Plan) {
        match plan.into_items() {
            FewItems::One(edit) => edit_rows(&mut self.rows, edit),
            FewItems::Many(edits) => apply_edits(&mut self.rows, edits),
        }
    }

    fn put(&mut self, link: NewLink) -> Result<(), AllocError> {
        self.rows.reserve(1)?;
        put_row(&mut self.rows, link);
        Ok(())
    }
}

/// Makes edits, in their order.
fn apply_edits(rows: &mut Vec<Link>, edits: Vec<Edit>)
    requires legal { IsLegalSet (set.from_list rows.old.items) }
    requires fits { PlanFits (set.from_list rows.old.items) edits.items }
    requires room { vec_len rows.old + length edits.items ≤ vec_capacity rows.old }
    ensures { set.from_list rows.new.items ≡ links_after_edits (set.from_list rows.old.items) edits.items }
{
    for edit in edits {
        edit_rows(rows, edit);
    }
}

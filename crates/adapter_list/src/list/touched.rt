//! Which adapters have a target among some objects.
ghost use Rattle.std.specs.Prelude.{◌≡◌, ◌||◌, ℕ, false, IfOk, OnOk};
ghost use Rattle.std.specs.BTreeSet.{contains};
ghost use Rattle.std.specs.List.{list_any};
ghost use Rattle.std.specs.Ordering.{nat_cmp};
ghost use Rattle.mm_types.specs.declared.numbers.Node.TheVariants as node;
ghost use Rattle.adapter_list.specs.Hearing.{touched_indexes as touched_by};
ghost use Rattle.adapter_list.specs.Targets.{is_attached_at};

use super::AdapterList;
use crate::counts::in_order;
use adapters::Adapter;
use mm_types::{Node, ObjectNo};
use std::alloc::AllocError;
use std::collections::BTreeSet;

impl<A: Adapter> AdapterList<A> {
    /// The indexes, in attach order, of the adapters that have a target among `objects`. Only the adapters of these objects are looked at.
    /// Fails only if memory is refused.
    pub fn touched(&self, objects: &[ObjectNo]) -> Result<Vec<usize>, AllocError>
        ensures { IfOk result (λ v. v.items ≡ touched_by objects.now self.now.0) }
    {
        let mut ordinals = BTreeSet::new(self.alloc);
        self.add_objects(objects, &mut ordinals)?;
        let found = in_order(self.alloc, &ordinals)?;
        Ok(found)
    }

    /// Adds to `ordinals` the indexes of the adapters that have a target among `objects`.
    fn add_objects(
        &self,
        objects: &[ObjectNo],
        ordinals: &mut BTreeSet<usize>,
    ) -> Result<(), AllocError>
        ensures { OnOk result ((k : ℕ) → contains nat_cmp ordinals.new k ≡ (contains nat_cmp ordinals.old k || list_any (λ o. is_attached_at self.now.0 (node.Object o) false k) objects.now)) }
    {
        for object in objects {
            self.add_attached(Node::Object(*object), false, ordinals)?;
        }
        Ok(())
    }
}

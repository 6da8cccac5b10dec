//! Attaching.
ghost use Rattle.std.specs.Prelude.{◌≡◌, ◌∷◌, [], ◌++◌, None, Err, OnOk, OnErr, IfErr};
ghost use Rattle.adapter_list.specs.Refusals.{attach_refusal, but_memory, list_refusal};

use super::AdapterList;
use crate::attach_refused::AttachRefused;
use crate::attached::Attached;
use crate::marks::{reserve_mark, set_mark};
use crate::refusal::refusal;
use crate::target_lists::Entry;
use adapters::Adapter;
use mm_types::{AdapterNo, Node, Refused, limits};
use notice_chain::Target;
use std::collections::VecDeque;

impl<A: Adapter> AdapterList<A> {
    /// Attaches an adapter to the node `target`, last in attach order, and reserves capacity for its last notification from this target
    /// (EMF: `eAdapters().add`). `deep` says whether the target is deep.
    ///
    /// Refused with the first of these that applies: Limit if all adapters together have 100,000 targets already; AdapterTaken if an
    /// adapter with this number is attached already; AdapterFull if the adapter can't count its last notification; Memory if memory is
    /// refused. If the call is refused, it notifies no adapter, leaves the list as it was, and gives `adapter` back.
    pub fn attach(
        &mut self,
        no: AdapterNo,
        target: Node,
        deep: bool,
        mut adapter: A,
    ) -> Result<(), AttachRefused<A>>
        ensures ok { OnOk result (self.new.0 ≡ self.old.0 ++ (record { no = no; targets = record { node = target; deep = deep } ∷ []; view = A.heard adapter } ∷ [])) }
        ensures allowed { OnOk result (attach_refusal self.old.0 no (A.heard adapter) ≡ None) }
        ensures reason { IfErr result (λ e. but_memory e.reason ≡ attach_refusal self.old.0 no (A.heard adapter)) }
        ensures given_back { IfErr result (λ e. A.heard e.adapter ≡ A.heard adapter) }
        ensures unchanged { OnErr result (self.new ≡ self.old) }
    {
        if let Some(reason) = self.list_refusal(no) {
            return refuse(reason, adapter);
        }
        if let Err(reason) = adapter.reserve(1) {
            return refuse(refusal(reason), adapter);
        }
        if self.released.reserve(self.attached.len() + 1).is_err() {
            return refuse(Refused::Memory, adapter);
        }
        if self.attached.reserve(1).is_err() {
            return refuse(Refused::Memory, adapter);
        }
        if self.numbers.reserve(1).is_err() {
            return refuse(Refused::Memory, adapter);
        }
        let Ok(mut targets) = VecDeque::with_capacity(self.alloc, 1) else {
            return refuse(Refused::Memory, adapter);
        };
        targets.push_back_reserved(Target { node: target, deep });
        if reserve_mark(&mut self.marks, target).is_err() {
            return refuse(Refused::Memory, adapter);
        }
        let last = self.by_target.at(target).len();
        let entry = Entry { no, deep };
        if self.by_target.insert(target, last, entry).is_err() {
            return refuse(Refused::Memory, adapter);
        }
        set_mark(&mut self.marks, target, true);
        let _ = self.numbers.insert(no);
        self.attached.push_reserved(Attached {
            no,
            targets,
            adapter,
        });
        self.targets_len += 1;
        Ok(())
    }

    /// Why the list refuses an adapter with the number `no`: Limit or AdapterTaken; None if neither applies.
    fn list_refusal(&self, no: AdapterNo) -> Option<Refused>
        ensures { result ≡ list_refusal self.now.0 no }
    {
        if self.targets_len >= limits::TARGETS {
            return Some(Refused::Limit);
        }
        if self.numbers.contains(&no) {
            return Some(Refused::AdapterTaken);
        }
        None
    }
}

/// The result of `attach` that gives an adapter back, with the reason.
fn refuse<A>(reason: Refused, adapter: A) -> Result<(), AttachRefused<A>>
    ensures { result ≡ Err (record { reason = reason; adapter = adapter }) }
{
    Err(AttachRefused { reason, adapter })
}

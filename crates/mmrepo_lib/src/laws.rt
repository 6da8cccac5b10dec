//! Laws on commands, on notifications, and on the reloading of saved resources. Each law is the contract of a function that does nothing.
//! Most laws are about legal states. Each state of a `Repository` is legal, and its URIs are normalised (`lemma_is_legal`,
//! `has_steady_texts`).
ghost use Rattle.std.specs.Prelude.{◌≡◌, List, Err};
ghost use Rattle.mm_types.specs.declared.numbers.AdapterNo.{AdapterNo};
ghost use Rattle.mm_types.specs.declared.numbers.Node.{Node};
ghost use Rattle.mm_values.specs.Values.{ValuesState};
ghost use Rattle.links.specs.Links.{Links};
ghost use Rattle.models.specs.Model.{Model};
ghost use Rattle.models.specs.Reading.{Reading};
ghost use Rattle.notice_chain.specs.Listed.{Listed};
ghost use Rattle.notice_chain.specs.View.{View};
ghost use Rattle.reloading.specs.Alike.{Alike};
ghost use Rattle.reloading.specs.Between.{Between};
ghost use Rattle.reloading.specs.Proxies.{HasNoProxy};
ghost use Rattle.repository.specs.Alone.{ComesBack, IsAloneToo, KeepsModel};
ghost use Rattle.mmrepo_lib.specs.Enough.{ChainReplays, ClosedKeepsEnough, DetachedKeepsEnough, HasEachNode, NoticesAreEnough, ToldIsEnough};
ghost use Rattle.mmrepo_lib.specs.Heard.{HearsItsReply};
ghost use Rattle.repository.specs.Laws.{KeepsLegal};
ghost use Rattle.mmrepo_lib.specs.Reload.{LoadsGiveBetween, ReloadsInAnyOrder, ResolvesAll, ResolvesBetween};
ghost use Rattle.repository.specs.Run.{Executed};
ghost use Rattle.repository.specs.State.{State};
ghost use Rattle.repository.specs.Views.{brought_adapter};
ghost use Rattle.repository.specs.declared.command.Command.{Command};
ghost use Rattle.repository.specs.declared.reply.Failure.{Failure};
ghost use Rattle.repository.specs.declared.reply.Reply.{Reply};

/// Every command in a legal state, done or refused, leaves a legal state.
pub fn keeps_legal()
    ensures { (s : State) (c : Command View) → KeepsLegal s c }
{}

/// A command that is refused, also for lack of memory, changes nothing, and gives back the adapter that the command was given, if any.
pub fn a_refusal_changes_nothing()
    ensures unchanged { (s t : State) (c : Command View) (f : Failure View) → Executed s c (Err f) t → t ≡ s }
    ensures given_back { (s t : State) (c : Command View) (f : Failure View) → Executed s c (Err f) t → f.given_back ≡ brought_adapter c }
{}

/// Take a command that is not refused in a legal state, and an end whose node exists both before and after the command. If the
/// notifications of the command (its chain) are replayed, one after another, on the values and the set flag that the end has before the
/// command, the result is the values and the set flag that the end has after the command. The chain does not depend on the adapters.
pub fn the_notices_of_a_command_replay_it()
    ensures { (s : State) (c : Command View) → ChainReplays s c }
{}

/// The snapshot of an existing node has the state of that node and of each node below it.
pub fn a_snapshot_has_each_node()
    ensures { (s : Model) (target n : Node) → HasEachNode s target n }
{}

/// If an adapter is attached before a command, the command notifies it of exactly the notifications that the reply lists for this adapter,
/// in order. This holds if the adapter is still attached after the command, and also if the reply gives the adapter back. A refused command
/// notifies no adapter.
pub fn an_adapter_hears_what_the_reply_tells_it()
    ensures { (s : State) (c : Command View) (number : AdapterNo) (a : Listed) → HearsItsReply s c number a }
{}

/// Notifications are enough. Let the node `target` be a deep target of an adapter during a whole run of commands, and let a snapshot of
/// `target` be taken at the beginning of the run. Let the node `n` be `target` or below `target` during the whole run. If the adapter's
/// notifications of the run are replayed on the snapshot, the state of `n` in the snapshot becomes the state of `n` in a snapshot of
/// `target` at the end of the run. The notifications can be taken from the replies, however many notifications the adapter keeps. If the
/// adapter keeps all notifications, those that it has kept since the beginning of the run can be taken instead: from the attached adapter
/// after the run, or from the adapter that `detach` or `close` then gives back.
pub fn notices_are_enough()
    ensures kept { (s : State) (cs : List (Command View)) (number : AdapterNo) (target : Node) (a b : Listed) (n : Node) → NoticesAreEnough s cs number target a b n }
    ensures told { (s : State) (cs : List (Command View)) (number : AdapterNo) (target : Node) (a : Listed) (n : Node) → ToldIsEnough s cs number target a n }
    ensures detached { (s : State) (cs : List (Command View)) (number : AdapterNo) (target : Node) (a : Listed) (w : View) (n : Node) → DetachedKeepsEnough s cs number target a w n }
    ensures closed { (s : State) (cs : List (Command View)) (number : AdapterNo) (target : Node) (a : Listed) (w : View) (n : Node) → ClosedKeepsEnough s cs number target a w n }
{}

/// Saved texts can be loaded in any order. Suppose that all resources of a state without proxies were saved by `Repository::save`, that the
/// URIs of the state are normalised, and that the text of no reference is longer than 65,535 bytes. In a new repository over the same
/// metamodel each of the resources is created once and its text is loaded once, in any order in which no resource is loaded before it is
/// created. These commands can be refused only for lack of memory. The state after them is legal, and a partly resolved copy of the saved
/// state: it has the same objects at the same addresses, and some references may still be proxies.
pub fn loads_in_any_order_give_what_stands_between()
    ensures { (s : State) → LoadsGiveBetween s }
{}

/// Take a saved state without proxies, and a partly resolved copy of it that has no adapters. The resolve of a proxy of the copy can be
/// refused only for lack of memory. After the resolve, the copy is still a partly resolved copy of the saved state, and has one proxy
/// fewer, or two fewer if the reference of the proxy has an opposite.
pub fn resolving_stays_between()
    ensures { (s : State) (w : ValuesState) (b : Links) → ResolvesBetween s w b }
{}

/// Take a saved state without proxies, and a partly resolved copy of it that has no adapters. The resolve of all proxies of the copy can be
/// refused only for lack of memory. After this resolve, the copy has no proxy, the answer says so, and the copy is isomorphic to the saved
/// state (EMF: EcoreUtil.resolveAll).
pub fn resolving_all_leaves_no_proxy()
    ensures { (s : State) (w : ValuesState) (b : Links) → ResolvesAll s w b }
{}

/// If neither a saved state nor a partly resolved copy of it has proxies, the two states are isomorphic.
pub fn without_proxies_what_stands_between_is_alike()
    ensures { (s t : Reading) → HasNoProxy s → HasNoProxy t → Between s t → Alike s t }
{}

/// What was saved comes back. Suppose that all resources of a state without proxies were saved by `Repository::save`, that the URIs of the
/// state are normalised, and that the text of no reference is longer than 65,535 bytes. In a new repository over the same metamodel each of
/// the resources is created once and its text is loaded once, in any order in which no resource is loaded before it is created. Then the
/// proxies are resolved, all at once or one after another in any order until no proxy is left. These commands can be refused only for lack
/// of memory. The state after them is isomorphic to the saved state: the two states have the same URIs and the same addresses. Two
/// resources with the same URI, one in each state, have the same roots. Two objects at the same address, one in each state, have the same
/// class, values and set flags. Roots, and values that are objects, are compared by their addresses.
pub fn what_was_saved_is_had_again_in_any_order()
    ensures { (s : State) → ReloadsInAnyOrder s }
{}

/// Adapters do not change the effect of a change: a change that succeeds would also succeed without adapters, and leave the same model. A
/// command that asks for no change of the model, such as a read or `Attach`, leaves the model as it was.
pub fn adapters_have_no_part()
    ensures alone { (s : State) (c : Command View) → IsAloneToo s c }
    ensures again { (s t : State) (c : Command View) (r : Reply View) → ComesBack s c r t }
    ensures kept { (s : State) (c : Command View) → KeepsModel s c }
{}

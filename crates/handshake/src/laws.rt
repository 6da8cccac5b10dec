//! Laws of the definitions, each the contract of a function that does nothing.
ghost use Rattle.std.specs.Prelude.{◌≡◌, List};
ghost use Rattle.mm_types.specs.Ends.{Ends};
ghost use Rattle.mm_types.specs.Resolved.{Metamodel};
ghost use Rattle.mm_types.specs.declared.end.End.{End};
ghost use Rattle.mm_types.specs.declared.numbers.ResourceNo.{ResourceNo};
ghost use Rattle.models.specs.Legal.{IsLegal};
ghost use Rattle.models.specs.Model.{Model};
ghost use Rattle.resource_docs.specs.declared.doc.Doc.{Doc};
ghost use Rattle.notice_chain.specs.Replay.{ends_after_notices};
ghost use Rattle.handshake.specs.Laws.{ChainReplays, CutsNoLinkTwice, FarEndsAreApart, KeepsLegal, KeepsSteady, TellsNoEndTwice, TellsNoSingleEndTwice};
ghost use Rattle.handshake.specs.Loaded.{LoadsEnds};
ghost use Rattle.handshake.specs.OneByOne.{ResolvesEach};
ghost use Rattle.handshake.specs.FeatureChange.{change_notices, ends_after_changes, has_flag};
ghost use Rattle.handshake.specs.declared.change.Change.{Change};
ghost use Rattle.handshake.specs.declared.change_kind.FeatureChange.{FeatureChange};

/// If a change of a legal model is not refused, the model after the change is legal. It is required that the URI of a new resource is a
/// result of joining, and that the document of a load was read.
pub fn keeps_legal()
    ensures { (s : Model) (c : Change) → KeepsLegal s c }
{}

/// If the URIs of a model are normalised, and so are the URIs that a change adds, then the URIs of the model after the change are
/// normalised. Two kinds of changes add URIs: a new resource adds its URI, and a load adds the URIs of the document's proxies.
pub fn keeps_steady_texts()
    ensures { (s : Model) (c : Change) → KeepsSteady s c }
{}

/// Replaying the notifications of feature changes makes these changes, one after another, at every end.
#[tactic(auto, using(crate::proofs::ReplayLemmas::replaying))]
pub fn the_notices_of_feature_changes_replay_them()
    ensures { (m : Metamodel) (e : Ends) (ts : List FeatureChange) → ends_after_notices (has_flag m) e (change_notices m e ts) ≡ ends_after_changes m e ts }
{}

/// If a change of a legal model is not refused, then replaying the chain of the change on the values and the set flag that an end has
/// before the change gives the values and the flag that the end has after the change. This holds for all ends except the ends of nodes that
/// the change destroys, and the ends of objects that a load makes. The document of a load must have been read.
pub fn the_chain_of_a_change_replays_it()
    ensures { (s : Model) (c : Change) → ChainReplays s c }
{}

/// If a change of a legal model is not refused, no two of its notifications name the same single end. No two of them name the same end at
/// all, unless the change is an unset of a list, a deletion, a load, or a resolve of all proxies. If the change is an unset of a list, no
/// two notifications name the same far end of the list's links, and the list is not one of these far ends.
pub fn a_chain_tells_no_end_twice()
    ensures single_ends { (s : Model) (c : Change) → TellsNoSingleEndTwice s c }
    ensures ends { (s : Model) (c : Change) → TellsNoEndTwice s c }
    ensures far_ends { (s : Model) (e : End) → FarEndsAreApart s e }
{}

/// If a change of a legal model is not refused, the change cuts no link twice, whichever end names the link. The law is about the links of
/// `cut_link_ends`. So it says nothing about a resolve of all proxies, and nothing about links that a load makes and cuts again.
pub fn a_change_cuts_no_link_twice()
    ensures { (s : Model) (c : Change) → CutsNoLinkTwice s c }
{}

/// If a document was read, and its load into a legal model is not refused, then the model after the load is as the document says. The
/// objects of the document get the next numbers. Reading a new object gives what the document says: its class, its attributes and their
/// flags, all its references (also both references of a pair of opposites), its container reference, and the end that contains it. The
/// resource holds the roots in the order of the document. Nothing else has changed (EMF: XMLResource.load).
pub fn a_load_reads_as_its_document()
    ensures { (s : Model) (k : ResourceNo) (doc : Doc) → LoadsEnds s k doc }
{}

/// Resolving all proxies of a legal model does the same as resolving the proxies one after another. The proxies are ordered by the number
/// of the referring object, then by feature, in the order of all features of the object's class, and then by index. Each proxy is resolved
/// in the model as it is after the earlier resolves, and is skipped if its resolve is refused there. Both ways lead to the same model, with
/// the same notifications in the same order. The resolve of all proxies counts the proxies that were resolved (two proxies of one link
/// count as one) and the proxies that are left (EMF: EcoreUtil.resolveAll).
pub fn all_proxies_are_resolved_one_after_another()
    ensures { (s : Model) → IsLegal s → ResolvesEach s }
{}

//! Laws of the definitions, each the contract of a function that does nothing.
ghost use Rattle.std.specs.Prelude.{◌≡◌, ℕ};
ghost use Rattle.mm_types.specs.declared.numbers.FeatureNo.{FeatureNo};
ghost use Rattle.mm_types.specs.declared.numbers.ObjectNo.{ObjectNo};
ghost use Rattle.mm_types.specs.declared.numbers.ResourceNo.{ResourceNo};
ghost use Rattle.mm_values.specs.Values.{ValuesState};
ghost use Rattle.links.specs.Links.{Links};
ghost use Rattle.models.specs.Legal.{IsLegal};
ghost use Rattle.models.specs.Model.{Model, reading};
ghost use Rattle.models.specs.Reading.{Reading};
ghost use Rattle.resource_docs.specs.declared.doc.Doc.{Doc};
ghost use Rattle.reloading.specs.Alike.{Alike};
ghost use Rattle.reloading.specs.Between.{Between};
ghost use Rattle.reloading.specs.Laws.{HasOwnAddresses, LoadsKeepAddresses, LoadsSaved, ResolvesAll, ResolvesBetween, ResolvesKeepAddresses};
ghost use Rattle.reloading.specs.Orders.{LoadsGiveBetween};
ghost use Rattle.reloading.specs.Proxies.{HasNoProxy, proxies_len};
ghost use Rattle.reloading.specs.Reload.{ReloadsInAnyOrder};

/// In a legal model, each object that has an address is found at this address, and no two objects have the same address (EMF:
/// EcoreUtil.getURI, ResourceSet.getEObject).
pub fn an_address_is_of_one_object()
    ensures { (s : Model) → IsLegal s → HasOwnAddresses (reading s) }
{}

/// Take a legal model. If a resolve of a proxy is not refused, the resolve changes no object's address. If a load of a document that was
/// read is not refused, each object that had an address before the load keeps this address.
pub fn resolves_and_loads_keep_addresses()
    ensures resolves { (s : Model) (o : ObjectNo) (f : FeatureNo) (i : ℕ) → ResolvesKeepAddresses s o f i }
    ensures loads { (s : Model) (k : ResourceNo) (doc : Doc) → LoadsKeepAddresses s k doc }
{}

/// Take a legal model whose URIs are normalised, and one of its resources that can be saved and read back (`IsReadable`). Let the document
/// of this resource be loaded into a legal model of the same metamodel, and let the load not be refused. Then the load makes each saved
/// object anew, with its class, its flags, its container and the values of its ends. The new objects get the next numbers. If a value was
/// an object of the same resource, the new value is the object that was made for it. If a value was an object of a different resource, the
/// new value is a proxy with the address of that object. Any other value is as it was. Each new object is in the resource of the load. If
/// this resource has the same URI as the saved resource, each new object has the address of its saved object (EMF: XMLResource.save,
/// XMLResource.load).
pub fn what_was_saved_is_loaded_as_it_was()
    ensures { (s : Model) (w : ValuesState) (b : Links) → LoadsSaved s w b }
{}

/// Take a legal model of this kind: it has no proxies; its URIs are normalised; all its resources can be saved; and no text of a reference
/// is longer than 65,535 bytes. Make each of its resources once in an empty model of the same metamodel, and load each of their documents
/// once, in any order in which no resource is loaded before the resource is made. These changes can be refused only for lack of memory, and
/// the model after them is legal, and a partly resolved copy of the saved model.
pub fn loads_in_any_order_give_what_stands_between()
    ensures { (s : Model) → LoadsGiveBetween s }
{}

/// Take a legal model without proxies, and a legal, partly resolved copy of it. The resolve of a proxy of the copy can be refused only for
/// lack of memory. After the resolve, the copy is still a partly resolved copy of the model, and has one proxy fewer, or two fewer if the
/// reference of the proxy has an opposite.
pub fn resolving_stays_between()
    ensures { (s : Model) (w : ValuesState) (b : Links) → ResolvesBetween s w b }
{}

/// Take a legal model without proxies, and a legal, partly resolved copy of it. After a resolve of all proxies of the copy no proxy is left
/// in the copy, and the copy is isomorphic to the model.
pub fn resolving_all_leaves_no_proxy()
    ensures { (s : Model) (w : ValuesState) (b : Links) → ResolvesAll s w b }
{}

/// If the count of proxies in a legal model is 0, no value in the model is a proxy.
pub fn with_no_proxy_left_none_stands()
    ensures { (s : Model) → IsLegal s → proxies_len (reading s) ≡ 0 → HasNoProxy (reading s) }
{}

/// If neither a saved model nor a partly resolved copy of it has proxies, the two models are isomorphic.
pub fn without_proxies_models_between_are_alike()
    ensures { (s t : Reading) → HasNoProxy s → HasNoProxy t → Between s t → Alike s t }
{}

/// Take a legal model of this kind: it has no proxies; its URIs are normalised; all its resources can be saved; and no text of a reference
/// is longer than 65,535 bytes. Make each of its resources once in an empty model of the same metamodel, and load each of their documents
/// once, in any order in which no resource is loaded before the resource is made. Then resolve proxies one by one in any order, until none
/// is left. These changes can be refused only for lack of memory, and the model after them is isomorphic to the saved one. There is a list
/// of resolves that leaves no proxy. One resolve of all proxies, in place of this list, leaves no proxy either, and the model after it is
/// isomorphic to the saved one too.
pub fn what_was_saved_is_had_again_in_any_order()
    ensures { (s : Model) → ReloadsInAnyOrder s }
{}

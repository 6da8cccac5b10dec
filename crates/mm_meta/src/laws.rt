//! Laws of the metamodels that documents give, each the contract of a function that does nothing.
ghost use Rattle.std.specs.Prelude.{◌≡◌};
ghost use Rattle.mm_types.specs.Lookups.{opposite};
ghost use Rattle.mm_types.specs.OfDocument.{IsOfDocument};
ghost use Rattle.mm_types.specs.Resolved.{Metamodel};
ghost use Rattle.mm_types.specs.Shapes.{shape};
ghost use Rattle.mm_types.specs.declared.numbers.FeatureNo.{FeatureNo};
ghost use Rattle.mm_meta.specs.Laws.{ConformanceIsComputed, ContainingIsKnown, FarTypesFit, OppositesArePairs, TakesWhatHasTheOpposite};

/// A class `sub` conforms to a class `sup` exactly if a search from `sub` through direct supertypes finds `sup` in at most as many steps as
/// there are classes. A longer search finds no more classes, since no class inherits from itself.
pub fn conformance()
    ensures { (m : Metamodel) → IsOfDocument m → ConformanceIsComputed m }
{}

/// If a reference `f` has an opposite `g`, then `g` is a different reference, and the opposite of `g` is `f`. If `f` or `g` is a
/// containment, this containment is the containing feature of both (MOF 2.5.1: Property, opposite; EMF: EReference.eOpposite).
pub fn opposites()
    ensures pairs { (m : Metamodel) → IsOfDocument m → OppositesArePairs m }
    ensures shape { (m : Metamodel) (f : FeatureNo) → (shape m f).opposite ≡ opposite m f }
{}

/// The links of a feature may have a containing feature: the feature itself or its opposite. If the containing feature is the opposite, the
/// feature is single, since an object has at most one container (EMF: EReference.isContainment, isContainer). The containing feature of
/// `contents` is `contents`.
pub fn containers()
    ensures { (m : Metamodel) → IsOfDocument m → ContainingIsKnown m }
{}

/// If a reference has an opposite, the type of the reference is the class that declares the opposite. So the objects that the reference
/// takes are exactly those whose classes have the opposite. If an object `p` may refer to an object `o` by the reference, then `o` may
/// refer to `p` by the opposite.
pub fn far_types()
    ensures takes { (m : Metamodel) → IsOfDocument m → TakesWhatHasTheOpposite m }
    ensures fit { (m : Metamodel) → IsOfDocument m → FarTypesFit m }
{}

//! What is done at an end.
use mm_types::Value;

/// What a change does at an end. An end is a node together with one of its features.
#[derive(Drop)]
pub enum Act {
    /// Sets a single feature (EMF: EObject.eSet; MOF 2.5.1: Reflection, Object.set).
    Set(Value),
    /// Takes a single feature back to its default, or empties a list (EMF: EObject.eUnset; MOF 2.5.1: Reflection, Object.unset).
    Unset,
    /// Adds a value to a list, at an index or after the last value. If a unique list has the value already, an addition without an index
    /// changes nothing (EMF: EList.add; MOF 2.5.1: Reflection, ReflectiveSequence.add).
    Add(Value, Option<u32>),
    /// Takes the value at an index out of a list (EMF: EList.remove; MOF 2.5.1: Reflection, ReflectiveSequence.remove).
    Remove(u32),
    /// Takes the first occurrence of a value out of a list, if there is one (EMF: EList.remove; MOF 2.5.1: Reflection,
    /// ReflectiveCollection.remove).
    RemoveValue(Value),
    /// Moves the value at the index `from` of a list, so that the value is then at the index `to` (EMF: EList.move).
    Move { to: u32, from: u32 },
    /// Replaces the proxy at an index of a reference by the object at the proxy's address (EMF: EcoreUtil.resolve). If the reference has an
    /// opposite, the referring object replaces the proxy of the same link at the opposite end.
    Resolve(u32),
}

//! What is saved is read back: the document of a readable resource is read as that resource.
//!
//! The proof of this law uses three other laws. The parts that reading finds in the document are the objects of the resource
//! (`specs/Parts.antt`, `PartsLaws.antt`); the text of each reference leads back to its object (`TextsLaws.antt`); and each object is read
//! at its index in loading order, and each value is read as it was (`ValuesLaws.antt`). `specs/Copied.antt` defines a resource as a
//! document, `specs/Readable.antt` has the conditions under which a resource is readable, and `specs/Laws.antt` has the law.
#![tactic(auto)]

pub mod laws;

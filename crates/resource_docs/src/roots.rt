//! The numbers of the roots of a document.
ghost use Rattle.std.specs.Prelude.{◌≡◌, ◌++◌, [], IfOk, List, OnOk, filter_map, map, option_map, option_to_list};
ghost use Rattle.mm_types.specs.Resolved.{Metamodel};
ghost use Rattle.borrowed_json.specs.View.{view};
ghost use Rattle.web_uris.specs.Paths.{new_path};
ghost use Rattle.doc_parts.specs.FoundParts.{Knows, roots_from};
ghost use Rattle.doc_parts.specs.Parts.{Part};
ghost use Rattle.resource_docs.specs.Read.{root_number};

use borrowed_json::Json;
use doc_parts::{FoundParts, PartKey, index_of};
use mm_types::{ObjectNo, Seq};
use std::alloc::{AllocError, Global};

/// Adds the number of the root at a position.
fn add_root(roots: &mut Seq<ObjectNo>, found: &FoundParts, position: u32) -> Result<(), AllocError>
    ensures { OnOk result ((m : Metamodel) (ps : List Part) → Knows m found.now ps → roots.new ≡ roots.old ++ option_to_list (root_number ps (new_path position []))) }
{
    match found.numbers.at(PartKey::Root(position)) {
        Some(number) => roots.push(ObjectNo(number))?,
        None => {}
    }
    Ok(())
}

/// The numbers of the roots. Fails only if memory is refused, or if there are more than 2^32 roots.
pub(crate) fn read_roots(
    alloc: Global,
    found: &FoundParts,
    roots: &[Json],
) -> Result<Seq<ObjectNo>, AllocError>
    ensures { IfOk result (λ r. (m : Metamodel) (ps : List Part) → Knows m found.now ps → r ≡ filter_map (λ p. root_number ps p.path) (roots_from (map view roots.now))) }
{
    let mut numbers = Seq::from_vec(Vec::with_capacity(alloc, roots.len())?);
    'roots: for (i, _root) in roots.iter().enumerate() {
        let position = index_of(i)?;
        add_root(&mut numbers, found, position)?;
    }
    Ok(numbers)
}

//! Finds the parts of a document, each before the parts in it.
ghost use Rattle.std.specs.Prelude.{◌≡◌, ◌++◌, IfOk, List, None, OnOk, Some, flat_map, if◌then◌else◌, map};
ghost use Rattle.borrowed_json.specs.View.{members_view, view};
ghost use Rattle.doc_parts.specs.FoundParts.{FindsBelow, Knows, Walks, parts_at, parts_under, roots_from};
ghost use Rattle.doc_parts.specs.Parts.{Part, parts_from};
ghost use Rattle.doc_parts.specs.Keys.{UnderKey, key_of};

use crate::entries::{content_at, known, values_of};
use crate::found::{FoundParts, PartKey, index_of};
use borrowed_json::{Json, Members};
use mm_meta::Meta;
use mm_types::FeatureNo;
use std::alloc::{AllocError, Global};

/// What the parts directly below one part have in common: the number of the part above them, and their level.
#[derive(Clone, Copy)]
struct Below {
    part: u32,
    level: u32,
}

/// Adds to `found` the part with the key `key`, the level `level` and the JSON value `json`, and the parts below this part, at most
/// `levels` levels in all.
#[cycle(walk)]
pub(crate) fn walk<'t, 'm>(
    found: &mut FoundParts<'t, 'm>,
    meta: &'m Meta,
    levels: usize,
    key: PartKey<'m>,
    level: u32,
    json: &'t Json<'t>,
) -> Result<(), AllocError>
    ensures { OnOk result (Walks meta.entry.now levels found.old found.new (key_of key.entry) level (view json.entry.now)) }
{
    if levels == 0 {
        return Ok(());
    }
    let seen = known(meta, json);
    let part = found.add(key, level, json, seen)?;
    let Some(level) = level.checked_add(1) else {
        return Err(AllocError);
    };
    let below = Below { part, level };
    match seen {
        Some((class, members)) => {
            if !meta.has_containment(class) {
                return Ok(());
            }
            match meta.features(class) {
                Some(features) => walk_features(found, meta, levels - 1, below, members, features),
                None => Ok(()),
            }
        }
        None => Ok(()),
    }
}

#[cycle(walk)]
fn walk_features<'t, 'm>(
    found: &mut FoundParts<'t, 'm>,
    meta: &'m Meta,
    levels: usize,
    below: Below,
    members: Members<'t>,
    features: &[FeatureNo],
) -> Result<(), AllocError>
    ensures { OnOk result (FindsBelow meta.entry.now found.old found.new below.part below.level (λ path. flat_map (parts_from meta.entry.now levels) (flat_map (parts_at meta.entry.now path (members_view members.entry.now)) features.now))) }
{
    'features: for feature in features {
        walk_feature(found, meta, levels, below, members, *feature)?;
    }
    Ok(())
}

#[cycle(walk)]
fn walk_feature<'t, 'm>(
    found: &mut FoundParts<'t, 'm>,
    meta: &'m Meta,
    levels: usize,
    below: Below,
    members: Members<'t>,
    feature: FeatureNo,
) -> Result<(), AllocError>
    ensures { OnOk result (FindsBelow meta.entry.now found.old found.new below.part below.level (λ path. flat_map (parts_from meta.entry.now levels) (parts_at meta.entry.now path (members_view members.entry.now) feature))) }
{
    if !meta.is_containment(feature) {
        return Ok(());
    }
    match content_at(meta, members, feature) {
        Some(content) => {
            let single = meta.is_single(feature);
            let values = values_of(meta, feature, content);
            found.reserve(values.len())?;
            walk_values(
                found,
                meta,
                levels,
                below,
                meta.feature_name(feature),
                single,
                values,
            )
        }
        None => Ok(()),
    }
}

fn index_at(is_single: bool, position: usize) -> Result<Option<u32>, AllocError>
    ensures { IfOk result (λ i. i ≡ (if is_single then None else Some position)) }
{
    if is_single {
        return Ok(None);
    }
    Ok(Some(index_of(position)?))
}

#[cycle(walk)]
fn walk_values<'t, 'm>(
    found: &mut FoundParts<'t, 'm>,
    meta: &'m Meta,
    levels: usize,
    below: Below,
    name: &'m str,
    is_single: bool,
    values: &'t [Json<'t>],
) -> Result<(), AllocError>
    ensures { OnOk result (FindsBelow meta.entry.now found.old found.new below.part below.level (λ path. flat_map (parts_from meta.entry.now levels) (parts_under path name.entry.now is_single (map view values.entry.now)))) }
{
    'values: for (i, value) in values.iter().enumerate() {
        let index = index_at(is_single, i)?;
        walk(
            found,
            meta,
            levels,
            PartKey::Under {
                part: below.part,
                name,
                index,
            },
            below.level,
            value,
        )?;
    }
    Ok(())
}

fn walk_roots<'t, 'm>(
    found: &mut FoundParts<'t, 'm>,
    meta: &'m Meta,
    levels: usize,
    roots: &'t [Json<'t>],
) -> Result<(), AllocError>
    ensures { OnOk result ((ps : List Part) → Knows meta.entry.now found.old ps → Knows meta.entry.now found.new (ps ++ flat_map (parts_from meta.entry.now levels) (roots_from (map view roots.entry.now)))) }
{
    'roots: for (i, root) in roots.iter().enumerate() {
        let position = index_of(i)?;
        walk(found, meta, levels, PartKey::Root(position), 1, root)?;
    }
    Ok(())
}

/// Finds the roots of a document and the parts below them, at most `levels` levels in all. The parts are in loading order: each comes
/// before the parts in it. Fails if memory is refused, or if a number, a position or a level does not fit in 32 bits.
pub fn find_parts<'t, 'm>(
    alloc: Global,
    meta: &'m Meta,
    levels: usize,
    roots: &'t [Json<'t>],
) -> Result<FoundParts<'t, 'm>, AllocError>
    ensures { IfOk result (λ found. Knows meta.entry.now found (flat_map (parts_from meta.entry.now levels) (roots_from (map view roots.entry.now)))) }
{
    let mut found = FoundParts::new(alloc);
    walk_roots(&mut found, meta, levels, roots)?;
    Ok(found)
}

//! What a store without links returns for an object.
use crate::fixtures::no_links::without_links;
use link_store::LinkStore;
use mm_types::ObjectNo;
use std::test::Fail;

#[test]
fn an_object_stands_nowhere_without_links(rt: HostRuntime) -> Result<(), Fail> {
    let store = without_links(rt.alloc());
    let places = store.incoming(rt.alloc(), ObjectNo(0))?;
    assert!(rt; places.is_empty());
    let ends = store.ends_holding(rt.alloc(), ObjectNo(0))?;
    assert!(rt; ends.is_empty());
    Ok(())
}

//! A metamodel with its names unresolved.
use crate::fixtures::library::loaded;
use mm_types::{Enumeration, RawClass, RawMeta, laws};
use std::alloc::{AllocError, Global};
use std::test::Fail;

/// The enumerations Genre and Size, and the class Book.
const BOOKS: &str =
    r#"{"enums":[{"name":"Genre","literals":["NOVEL"]},{"name":"Size","literals":["SMALL"]}],
"classes":[{"name":"Book"}]}"#;

/// A metamodel, taken apart and made again from its parts.
fn made_again(alloc: Global, raw: Box<RawMeta>) -> Result<Box<RawMeta>, Fail> {
    let (enums, classes) = Box::into_inner(raw).into_parts();
    if !RawMeta::is_within_limits(enums.as_slice(), classes.as_slice()) {
        return Err(Fail::new("past a limit"));
    }
    Ok(Box::new(alloc, RawMeta::new(enums, classes))?)
}

/// The names of enumerations and of classes.
fn names(alloc: Global, enums: &[Enumeration], classes: &[RawClass]) -> Result<String, AllocError> {
    let mut names = String::new(alloc);
    for one in enums {
        names.push_str(one.name.as_str())?;
        names.push(' ')?;
    }
    for one in classes {
        names.push_str(one.name.as_str())?;
        names.push(' ')?;
    }
    Ok(names)
}

#[test]
fn a_metamodel_keeps_its_parts(rt: HostRuntime) -> Result<(), Fail> {
    let raw = loaded(rt.alloc(), BOOKS)?;
    let found = names(rt.alloc(), raw.enums(), raw.classes())?;
    assert_eq!(rt; found.as_str(), "Genre Size Book ");
    let again = made_again(rt.alloc(), raw)?;
    let found = names(rt.alloc(), again.enums(), again.classes())?;
    assert_eq!(rt; found.as_str(), "Genre Size Book ");
    laws::has_one_fault_at_most();
    laws::has_no_fault_where_well_formed();
    Ok(())
}

//! The names of classes and features, and the literals of enumerations, for a reader to choose from.
use mm_meta::Meta;
use mm_types::{ClassNo, FeatureNo, limits};
use std::alloc::{AllocError, Global};

/// The names of all classes.
pub fn class_names<'m>(alloc: Global, meta: &'m Meta) -> Result<Vec<&'m str>, AllocError> {
    let mut names = Vec::new(alloc);
    for number in 0..limits::CLASSES as u32 {
        match meta.class(ClassNo(number)) {
            Some(class) => names.push(class.name.as_str())?,
            None => return Ok(names),
        }
    }
    Ok(names)
}

/// The names of the concrete classes that conform to a class.
pub fn concrete_names<'m>(
    alloc: Global,
    meta: &'m Meta,
    class: ClassNo,
) -> Result<Vec<&'m str>, AllocError> {
    let mut names = Vec::new(alloc);
    for number in 0..limits::CLASSES as u32 {
        let other = ClassNo(number);
        if meta.is_concrete(other) && meta.conforms(other, class) {
            names.push(meta.class_name(other))?;
        }
    }
    Ok(names)
}

/// The names of the features `features`, in the same order.
pub fn feature_names<'m>(
    alloc: Global,
    meta: &'m Meta,
    features: &[FeatureNo],
) -> Result<Vec<&'m str>, AllocError> {
    let mut names = Vec::new(alloc);
    for feature in features {
        names.push(meta.feature_name(*feature))?;
    }
    Ok(names)
}

/// The literals of an enumeration.
pub fn literal_names<'m>(
    alloc: Global,
    meta: &'m Meta,
    enumeration: u32,
) -> Result<Vec<&'m str>, AllocError> {
    let mut names = Vec::new(alloc);
    for index in 0..limits::LITERALS as u32 {
        match meta.literal(enumeration, index) {
            Some(literal) => names.push(literal)?,
            None => return Ok(names),
        }
    }
    Ok(names)
}

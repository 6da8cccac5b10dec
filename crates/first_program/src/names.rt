//! The classes and features of the metamodel, found once by their names.
use crate::stop::Stop;
use mmrepo_lib::{ClassNo, FeatureNo, Meta};

/// The numbers of the classes and features that the program uses.
#[derive(Clone, Copy)]
pub struct Names {
    pub library: ClassNo,
    pub book: ClassNo,
    pub books: FeatureNo,
    pub title: FeatureNo,
    /// The feature of a resource that holds its roots.
    pub contents: FeatureNo,
}

impl Names {
    pub fn of(meta: &Meta) -> Result<Names, Stop> {
        let library = class(meta, "Library")?;
        let book = class(meta, "Book")?;
        Ok(Names {
            library,
            book,
            books: feature(meta, library, "books")?,
            title: feature(meta, book, "title")?,
            contents: meta.contents(),
        })
    }
}

fn class(meta: &Meta, name: &'static str) -> Result<ClassNo, Stop> {
    meta.class_by_name(name).ok_or(Stop::Name(name))
}

fn feature(meta: &Meta, class: ClassNo, name: &'static str) -> Result<FeatureNo, Stop> {
    meta.feature_by_name(class, name).ok_or(Stop::Name(name))
}

//! A whole caller of a repository with an adapter, as docs/ADAPTERS.md shows it.
use crate::fixtures::books::books;
use crate::fixtures::latest::Latest;
use adapters::Adapter;
use link_store::{LinkStore, RowStore};
use mm_meta::Meta;
use mm_types::{AdapterNo, ClassNo, FeatureNo, Node, Text, Value};
use repository::{Answer, Repository};
use std::alloc::Global;
use std::test::Fail;

const BOOK: ClassNo = ClassNo(0);

const NAME: FeatureNo = FeatureNo(0);

const VIEW: AdapterNo = AdapterNo(1);

/// Attaches a view to a book, names the book, and detaches the view. Returns the view, with what it was notified of; `None` if the view is
/// not given back.
fn name_book<L: LinkStore, A: Adapter>(
    alloc: Global,
    repository: &mut Repository<L, A>,
    book: Node,
    view: A,
) -> Result<Option<A>, Fail> {
    if let Err(failure) = repository.attach(VIEW, book, false, view) {
        return Err(Fail::new(failure.refused));
    }
    let emma = Value::Text(Text::from_str(alloc, "Emma")?);
    let _who_was_notified_of_what = repository.e_set(book, NAME, emma)?.told;
    let mut released = repository.detach(VIEW)?.released.into_vec();
    match released.pop() {
        Some((_no, view)) => Ok(Some(view)),
        None => Ok(None),
    }
}

/// Makes a repository with one book, and names the book while a view is attached to the book. Returns what `name_book` returns.
fn session<A: Adapter>(alloc: Global, meta: Meta, view: A) -> Result<Option<A>, Fail> {
    let mut repository = Box::new(alloc, Repository::<RowStore, A>::new(alloc, meta))?;
    let Answer::Object(book) = repository.create(BOOK)?.answer else {
        return Err(Fail::new("no book is made"));
    };
    name_book(alloc, &mut repository, Node::Object(book), view)
}

#[test]
fn a_view_is_attached_notified_and_detached(rt: HostRuntime) -> Result<(), Fail> {
    let meta = books(rt.alloc())?;
    let view: Box<dyn Adapter> = Box::new(rt.alloc(), Latest::new())?;
    let Some(view) = session(rt.alloc(), Box::into_inner(meta), view)? else {
        return Err(Fail::new("the view is not given back"));
    };
    assert_eq!(rt; view.told(), 2);
    Ok(())
}

//! A repository that is closed.
use crate::fixtures::books::{RowRepository, attach, closed, one_book};
use crate::fixtures::telling::{Kind, adapter};
use adapters::Adapter;
use std::alloc::Global;
use std::test::Fail;

/// The adapters that are given back when a repository with two adapters at one book is closed.
fn closed_with_two<A: Adapter>(alloc: Global, first: A, second: A) -> Result<String, Fail> {
    let mut repository: Box<RowRepository<A>> = one_book(alloc)?;
    attach(&mut repository, 6, first)?;
    attach(&mut repository, 5, second)?;
    Ok(closed(alloc, repository)?)
}

/// What `closed_with_two` returns. The adapters come back in attach order. In each REMOVING_ADAPTER the position is 0: the adapter's index
/// among the adapters that the book still has when this adapter is taken from the book.
const CLOSED: &str = "; A6 back, 1 told, REMOVING_ADAPTER 0; A5 back, 1 told, REMOVING_ADAPTER 0";

#[test]
fn a_closed_repository_gives_its_adapters_back(rt: HostRuntime) -> Result<(), Fail> {
    let first = adapter(rt.alloc(), Kind::Recorder)?;
    let found = closed_with_two(rt.alloc(), first, adapter(rt.alloc(), Kind::Recorder)?)?;
    assert_eq!(rt; found.as_str(), CLOSED);
    Ok(())
}

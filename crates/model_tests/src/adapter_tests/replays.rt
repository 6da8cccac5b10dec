//! Lists of steps that change a model, and views: snapshots on which the notifications of these steps are replayed.
use crate::fixtures::books::{empty, metamodel};
use crate::fixtures::library::{
    A_BOOK, A_FOLDER, A_LIBRARY, A_PERSON, BOOKS, FAVOURITE, LIBRARY, LIKES, NEXT, NOTE, PAGES,
    PARENT, SCORES, SUBS, Step, TAGS, command,
};
use crate::fixtures::replies::made_attached;
use crate::fixtures::seeds::seeded_steps;
use crate::fixtures::views::{Store, compared, heard, replayed, taken};
use adapters::Recorder;
use link_store::{LinkStore, RowStore, SlotStore};
use mm_types::{AdapterNo, Node, ObjectNo};
use notice_chain::Notice;
use std::alloc::{AllocError, Global};
use std::test::Fail;

/// Does steps over both stores of links. After every step, in each view the nodes that were in the view all the time are compared with a
/// new snapshot. Fails if such a node differs. Counts each node anew for each view and for each step. Returns whether the count is at least
/// `least`, and the same over both stores.
fn is_followed(alloc: Global, steps: &[Step<'_>], least: usize) -> Result<bool, Fail> {
    let rows = compared::<RowStore>(alloc, steps)?;
    let slots = compared::<SlotStore>(alloc, steps)?;
    Ok(rows >= least && slots == rows)
}

#[test]
fn a_stolen_end_is_followed(rt: HostRuntime) -> Result<(), Fail> {
    let steps = [
        Step::New(A_BOOK),
        Step::New(A_BOOK),
        Step::New(A_BOOK),
        Step::New(A_BOOK),
        Step::Set(0, NEXT, 1),
        Step::Set(2, NEXT, 3),
        Step::Set(0, NEXT, 3),
    ];
    // Each book has a view of its own, from the step that makes the book. Over the last three steps there are four views.
    assert!(rt; is_followed(rt.alloc(), &steps, 12)?);
    Ok(())
}

#[test]
fn a_stolen_part_is_followed(rt: HostRuntime) -> Result<(), Fail> {
    let steps = [
        Step::New(A_LIBRARY),
        Step::New(A_LIBRARY),
        Step::New(A_BOOK),
        Step::Add(0, BOOKS, 2),
        Step::Add(1, BOOKS, 2),
    ];
    assert!(rt; is_followed(rt.alloc(), &steps, 6)?);
    Ok(())
}

#[test]
fn refused_cycles_are_followed(rt: HostRuntime) -> Result<(), Fail> {
    let steps = [
        Step::New(A_FOLDER),
        Step::New(A_FOLDER),
        Step::New(A_FOLDER),
        Step::Add(0, SUBS, 1),
        Step::Add(1, SUBS, 2),
        Step::Add(2, SUBS, 0),
        Step::Set(0, PARENT, 0),
    ];
    assert!(rt; is_followed(rt.alloc(), &steps, 12)?);
    Ok(())
}

#[test]
fn moves_are_followed(rt: HostRuntime) -> Result<(), Fail> {
    let steps = [
        Step::New(A_BOOK),
        Step::AddText(0, TAGS, "a"),
        Step::AddText(0, TAGS, "b"),
        Step::AddText(0, TAGS, "c"),
        Step::Move(0, TAGS, 2, 0),
        Step::Move(0, TAGS, 1, 1),
        Step::Move(0, TAGS, 3, 0),
    ];
    assert!(rt; is_followed(rt.alloc(), &steps, 6)?);
    Ok(())
}

#[test]
fn a_delete_that_cuts_lists_is_followed(rt: HostRuntime) -> Result<(), Fail> {
    let steps = [
        Step::New(A_LIBRARY),
        Step::New(A_BOOK),
        Step::New(A_BOOK),
        Step::New(A_BOOK),
        Step::New(A_PERSON),
        Step::Add(0, BOOKS, 1),
        Step::Add(0, BOOKS, 2),
        Step::Add(4, LIKES, 1),
        Step::Add(4, LIKES, 3),
        Step::Add(4, LIKES, 2),
        Step::Set(4, FAVOURITE, 2),
        Step::Resource("http://m.example/a"),
        Step::AddRoot(0, 0),
        Step::Delete(0),
        Step::New(A_BOOK),
    ];
    assert!(rt; is_followed(rt.alloc(), &steps, 40)?);
    Ok(())
}

/// Steps that make a library and 999 books, add fifty of the books to the library and set their pages, and delete the library.
fn many_books<'a>(alloc: Global) -> Result<Vec<Step<'a>>, AllocError> {
    let mut steps = Vec::new(alloc);
    steps.push(Step::New(A_LIBRARY))?;
    for _ in 1..1000u32 {
        steps.push(Step::New(A_BOOK))?;
    }
    for book in 1..=50u32 {
        steps.push(Step::Add(0, BOOKS, book))?;
        steps.push(Step::SetNumber(book, PAGES, 474))?;
    }
    steps.push(Step::Delete(0))?;
    Ok(steps)
}

#[test]
fn a_thousand_adapters_keep_what_they_are_told(rt: HostRuntime) -> Result<(), Fail> {
    let steps = many_books(rt.alloc())?;
    // Each object has a view of its own. While the objects are made there are 0 to 999 views; then there are 1000 views over 100 steps, and
    // 949 after the last step.
    assert!(rt; is_followed(rt.alloc(), steps.as_slice(), 499_500 + 100_000 + 949)?);
    Ok(())
}

#[test]
fn a_load_and_resolved_proxies_are_followed(rt: HostRuntime) -> Result<(), Fail> {
    let steps = [
        Step::Resource("http://m.example/a"),
        Step::Load(
            0,
            r#"{"format":1,"roots":[{"class":"Person","features":{"likes":["b#/","b#/0"]}}]}"#,
        ),
        Step::Resolve(0, LIKES, 0),
        Step::Resource("http://m.example/b"),
        Step::Resolve(0, LIKES, 0),
        Step::New(A_BOOK),
        Step::AddRoot(1, 1),
        Step::Resolve(0, LIKES, 0),
        Step::Resolve(0, LIKES, 1),
        Step::Resolve(0, LIKES, 0),
        Step::Resolve(0, LIKES, 3),
    ];
    assert!(rt; is_followed(rt.alloc(), &steps, 31)?);
    Ok(())
}

#[test]
fn proxies_that_are_resolved_together_are_followed(rt: HostRuntime) -> Result<(), Fail> {
    let steps = [
        Step::Resource("http://m.example/a"),
        Step::Resource("http://m.example/b"),
        Step::Load(
            0,
            r#"{"format":2,"roots":[{"class":"Library","features":{"staff":["b#/0","b#/1"]}}]}"#,
        ),
        Step::Load(
            1,
            r#"{"format":2,"roots":[{"class":"Person","features":{"job":"a#/"}},{"class":"Person","features":{"likes":["c#/","c#/1"]}}]}"#,
        ),
        Step::ResolveAll,
        Step::Resource("http://m.example/c"),
        Step::New(A_BOOK),
        Step::AddRoot(2, 3),
        Step::ResolveAll,
    ];
    assert!(rt; is_followed(rt.alloc(), &steps, 36)?);
    Ok(())
}

#[test]
fn flags_and_values_are_followed(rt: HostRuntime) -> Result<(), Fail> {
    let steps = [
        Step::New(A_BOOK),
        Step::SetNull(0, NOTE),
        Step::SetNumber(0, PAGES, 7),
        Step::AddFirst(0, SCORES, 5),
        Step::AddFirst(0, SCORES, 5),
        Step::Remove(0, SCORES, 1),
        Step::Unset(0, NOTE),
        Step::Unset(0, PAGES),
    ];
    assert!(rt; is_followed(rt.alloc(), &steps, 7)?);
    Ok(())
}

/// Puts a book into a library, and takes the book out again. Returns whether the deep adapter of the library gets three notifications, and
/// their replay on the library's snapshot from before gives the library's snapshot from afterwards.
fn come_and_go(alloc: Global) -> Result<bool, Fail> {
    let mut repository: Box<Store<RowStore>> = empty(alloc, metamodel(alloc, LIBRARY)?)?;
    let mut told = Vec::new(alloc);
    let library = Node::Object(ObjectNo(0));
    execute(alloc, &mut repository, Step::New(A_LIBRARY), &mut told)?;
    execute(alloc, &mut repository, Step::New(A_BOOK), &mut told)?;
    made_attached(repository.attach(AdapterNo(1), library, true, Recorder::new(alloc)))?;
    let before = taken(alloc, &repository, library)?;
    execute(alloc, &mut repository, Step::Add(0, BOOKS, 1), &mut told)?;
    execute(alloc, &mut repository, Step::Remove(0, BOOKS, 0), &mut told)?;
    let after = taken(alloc, &repository, library)?;
    let replayed = replayed(alloc, before, told.as_slice())?;
    Ok(told.len() == 3 && *replayed == *after)
}

/// Does a step, which must not be refused, and adds the notifications of adapter 1 to `told`.
fn execute<L: LinkStore>(
    alloc: Global,
    repository: &mut Store<L>,
    step: Step<'_>,
    told: &mut Vec<Notice>,
) -> Result<(), Fail> {
    let command = command(alloc, step)?;
    let Ok(reply) = repository.execute(command) else {
        return Err(Fail::new("a step is refused"));
    };
    let mut more = heard(alloc, reply.told.as_slice(), AdapterNo(1))?;
    told.append(&mut more)?;
    Ok(())
}

#[test]
fn a_book_that_comes_and_goes_leaves_the_library_as_it_was(rt: HostRuntime) -> Result<(), Fail> {
    assert!(rt; come_and_go(rt.alloc())?);
    Ok(())
}

#[test]
fn steps_of_three_seeds_are_followed(rt: HostRuntime) -> Result<(), Fail> {
    for seed in [1, 2, 3] {
        let steps = seeded_steps(rt.alloc(), seed)?;
        assert!(rt; is_followed(rt.alloc(), steps.as_slice(), 5000)?);
    }
    Ok(())
}

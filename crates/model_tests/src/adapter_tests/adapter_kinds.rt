//! What adapters of each kind keep of three notifications; two of the adapters are called in a `Box`. Also, a counter refuses capacity for
//! more notifications than it can still count.
use crate::fixtures::latest::Latest;
use crate::fixtures::notices::added;
use adapters::{Adapter, Counter, NoRoom, Recorder, Window};
use std::process::Abort;
use std::test::Fail;

/// Reserves capacity for three notifications, and notifies the adapter of three additions, at the positions 0 to 2 of a list. If the
/// adapter refuses the capacity, returns the reason, and does not notify the adapter.
fn notify_three<A: Adapter>(adapter: &mut A) -> Result<(), NoRoom> {
    match adapter.reserve(3) {
        Err(reason) => Err(reason),
        Ok(()) => {
            adapter.notify_changed(added(0, 0));
            adapter.notify_changed(added(0, 1));
            adapter.notify_changed(added(0, 2));
            Ok(())
        }
    }
}

/// The position in the notification that an adapter keeps at index `i`; `None` if the adapter keeps no notification there.
fn position_at<A: Adapter>(adapter: &A, i: u64) -> Option<i64> {
    match adapter.kept(i) {
        Some(notice) => Some(notice.position),
        None => None,
    }
}

/// Notifies an adapter three times. Checks how many notifications the adapter got, how many it keeps at most (`room`; `None` if all), and
/// which it keeps: `kept` has their positions.
fn check_three<A: Adapter>(rt: &impl Abort, adapter: &mut A, room: Option<u64>, kept: &[i64]) {
    assert!(rt; notify_three(adapter).is_ok());
    assert_eq!(rt; adapter.told(), 3);
    assert_eq!(rt; adapter.room(), room);
    assert_eq!(rt; adapter.kept_len(), kept.len() as u64);
    for (i, position) in kept.iter().enumerate() {
        assert_eq!(rt; position_at(adapter, i as u64), Some(*position));
    }
    assert_eq!(rt; position_at(adapter, kept.len() as u64), None);
}

#[test]
fn a_window_of_two_keeps_the_last_two_of_three(rt: HostRuntime) -> Result<(), Fail> {
    let mut window = Window::new(rt.alloc(), 2)?;
    check_three(&rt, &mut window, Some(2), &[1, 2]);
    Ok(())
}

#[test]
fn a_recorder_keeps_every_notice(rt: HostRuntime) {
    let mut recorder = Recorder::new(rt.alloc());
    check_three(&rt, &mut recorder, None, &[0, 1, 2]);
}

#[test]
fn a_counter_keeps_nothing(rt: HostRuntime) {
    let mut counter = Counter::new();
    check_three(&rt, &mut counter, Some(0), &[]);
}

#[test]
fn a_counter_is_full_exactly_where_it_cannot_count_on(rt: HostRuntime) {
    let mut counter = Counter::starting_at(18446744073709551612);
    assert_eq!(rt; counter.reserve(4), Err(NoRoom::Full));
    assert!(rt; notify_three(&mut counter).is_ok());
    assert_eq!(rt; counter.told(), 18446744073709551615);
    assert_eq!(rt; counter.reserve(1), Err(NoRoom::Full));
    assert!(rt; counter.reserve(0).is_ok());
}

#[test]
fn a_box_is_notified_as_its_adapter_is(rt: HostRuntime) -> Result<(), Fail> {
    let alloc = rt.alloc();
    let mut boxed: Box<dyn Adapter> = Box::new(alloc, Recorder::new(alloc))?;
    check_three(&rt, &mut boxed, None, &[0, 1, 2]);
    Ok(())
}

#[test]
fn an_adapter_of_ones_own_keeps_the_latest_notice(rt: HostRuntime) -> Result<(), Fail> {
    let mut boxed: Box<dyn Adapter> = Box::new(rt.alloc(), Latest::new())?;
    check_three(&rt, &mut boxed, Some(1), &[2]);
    Ok(())
}

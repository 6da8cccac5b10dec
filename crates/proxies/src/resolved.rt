//! Counts of proxies.

/// How many proxies were resolved, counting the two proxies of one link as one; and how many proxies are left, counting each of them.
#[derive(Clone, Copy)]
pub struct Resolved {
    pub done: usize,
    pub left: usize,
}

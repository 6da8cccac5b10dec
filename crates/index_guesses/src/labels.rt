//! Labels: numbers of the values of a list. The labels go up along the list, or nearly so. With its label a value can be found without
//! going through the list.
//!
//! A label is a hint: the caller looks whether the value is at the index that was found. When all values of a list get new labels, the
//! label of the first value is `MIDDLE`, and each further label is greater than the label before it by `GAP`.
ghost use Rattle.std.specs.Prelude.{◌-◌, ◌<◌, ◌≤◌};

/// The distance between the labels of two values that are put in at the end one after the other.
const GAP: u64 = 1 << 40;

/// The label of the first value of a list whose labels are new.
const MIDDLE: u64 = 1 << 63;

/// A search begins with at most this many steps, which assume that the labels are evenly spread. Each further step halves the number of
/// indexes that are left.
const EVEN_STEPS: usize = 8;

/// The labels of the first value and of the last value of a list, or estimates of these labels, for example after the first or the last
/// value was taken out.
#[derive(Clone, Copy)]
pub struct Labels {
    first: u64,
    last: u64,
}

/// The indexes among which a label is searched, from `low` up to but not including `high`. `below` is the label at `low - 1`, or `first` of
/// the list's `Labels` if `low` is 0. `above` is the label at `high`, or `last` of the list's `Labels` if `high` is the length of the list.
/// `steps` is how many steps the search has taken.
#[derive(Clone, Copy)]
struct Span {
    low: usize,
    high: usize,
    below: u64,
    above: u64,
    steps: usize,
}

/// The label of the value at an index of a list whose labels are new.
pub fn new_label(index: usize) -> u64 {
    MIDDLE.saturating_add((index as u64).saturating_mul(GAP))
}

/// A label between the labels `below` and `above`; `below`, if there is no label between them.
pub fn label_between(below: u64, above: u64) -> u64 {
    below.saturating_add(above.saturating_sub(below) / 2)
}

impl Labels {
    /// The first and the last label of a list of `len` values whose labels are new. If `len` is 0, both are estimates.
    pub fn of(len: usize) -> Self {
        Labels {
            first: MIDDLE,
            last: new_label(len).saturating_sub(GAP),
        }
    }

    /// A label for a value that is put in before the others.
    pub fn before(self) -> u64 {
        self.first.saturating_sub(GAP)
    }

    /// A label for a value that is put in after the others.
    pub fn after(self) -> u64 {
        self.last.saturating_add(GAP)
    }

    /// A label for a value that is put in at an index. It is computed as if the labels were `GAP` apart.
    pub fn near(self, index: usize) -> u64 {
        self.first
            .saturating_add((index as u64).saturating_mul(GAP))
    }

    /// Notes that a value got a label. `len` is the length of the list, this value included.
    pub fn put(&mut self, label: u64, len: usize) {
        if len <= 1 {
            self.first = label;
            self.last = label;
        } else {
            self.first = self.first.min(label);
            self.last = self.last.max(label);
        }
    }

    /// Notes that the value at an index was taken out; `len` values are left.
    pub fn take(&mut self, index: usize, len: usize) {
        if index == len {
            self.last = self.last.saturating_sub(GAP);
        } else if index == 0 {
            self.first = self.first.saturating_add(GAP);
        }
    }

    /// A guess at the index of a label, by its distance from `first`. The guess is right if `first` is no estimate, and the labels from the
    /// first one up to `label` are `GAP` apart.
    pub fn from_front(self, label: u64) -> usize {
        (label.saturating_sub(self.first) / GAP) as usize
    }

    /// A guess at the index of a label among `len` labels, by its distance from `last`. The guess is right if `last` is no estimate, and
    /// the labels from `label` up to the last one are `GAP` apart.
    pub fn from_end(self, label: u64, len: usize) -> usize {
        let after = (self.last.saturating_sub(label) / GAP) as usize;
        len.saturating_sub(after).saturating_sub(1)
    }

    /// Searches for `label` among the `len` labels that `label_at` gives. If these labels go up along the list, and `label` is one of them,
    /// the result is its index. Otherwise the result may be any index, or `len`.
    pub fn search<F: Fn(usize) -> u64>(self, len: usize, label: u64, label_at: F) -> usize
        requires { F.IsAlwaysCallable label_at }
    {
        let mut span = self.span(len);
        while span.low < span.high {
            let middle = span.middle(label);
            let found = label_at(middle);
            if found == label {
                return middle;
            }
            span = span.rest(middle, found, label);
        }
        span.low
    }

    /// All indexes of a list of `len` values.
    fn span(self, len: usize) -> Span {
        Span {
            low: 0,
            high: len,
            below: self.first,
            above: self.last,
            steps: 0,
        }
    }
}

impl Span {
    /// The index at which a label is searched next.
    fn middle(self, label: u64) -> usize
        requires { self.low < self.high }
        ensures low { self.low ≤ result }
        ensures high { result < self.high }
    {
        let places = self.high - self.low;
        if self.steps >= EVEN_STEPS {
            return self.low + places / 2;
        }
        let spread = self.above.saturating_sub(self.below) / (places as u64);
        let before = label.saturating_sub(self.below) / spread.max(1);
        self.low + (before as usize).min(places - 1)
    }

    /// The indexes that are left after a search for `label` has found a different label, `found`, at the index `middle`.
    fn rest(self, middle: usize, found: u64, label: u64) -> Self
        requires low { self.low ≤ middle }
        requires high { middle < self.high }
        ensures { result.high - result.low < self.high - self.low }
    {
        let steps = self.steps.saturating_add(1);
        if found < label {
            Span {
                low: middle + 1,
                below: found,
                steps,
                ..self
            }
        } else {
            Span {
                high: middle,
                above: found,
                steps,
                ..self
            }
        }
    }
}

//! The interface of a listener, which is called with the lines that were run.
use adapters::Adapter;
use links::LinkStore;
use repository::Repository;

/// A listener is called with each line after the line was run: with the lines of a script, and also with the lines of a journal that are
/// run again. If a fault stops the run, this call may be left out for the last line that was run. The listener can read the repository,
/// but can't change it.
pub trait Listener: Drop {
    /// Whether `line_was_run` has to be called. If not, a run takes no time for the listener.
    fn is_listening(&self) -> bool;

    /// Takes note that all lines of a journal were run, and that the next line is the first line of a script. Called only in a run with a
    /// journal.
    fn script_begins(&mut self);

    /// Takes note of a line and of its output. The repository is as the line left it.
    fn line_was_run<L: LinkStore, A: Adapter>(
        &mut self,
        repository: &Repository<L, A>,
        line: &[u8],
        printed: &[u8],
    );
}

/// Listens to no line.
#[derive(Clone, Copy, Drop)]
pub struct NoListener;

impl Listener for NoListener {
    fn is_listening(&self) -> bool {
        false
    }

    fn script_begins(&mut self) {}

    fn line_was_run<L: LinkStore, A: Adapter>(
        &mut self,
        _repository: &Repository<L, A>,
        _line: &[u8],
        _printed: &[u8],
    ) {}
}

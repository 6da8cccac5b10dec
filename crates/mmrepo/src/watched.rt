//! The listener of a run, and the stream that writes the comments on the lines of the run.
use adapters::Adapter;
use explain_commands::Commentary;
use links::LinkStore;
use repository::Repository;
use script_program::Listener;
use std::cell::RefCell;
use std::io;
use std::io::Write;

/// The watch over a run; `None` if no line of the run is commented on and no resource is saved after the run.
pub(crate) type Watching<'w> = Option<&'w RefCell<Commentary>>;

/// A listener that passes each line that was run, with its output, to the watch; without a watch it does nothing.
#[derive(Clone, Copy, Drop)]
pub(crate) struct Ear<'w> {
    watch: Watching<'w>,
}

impl<'w> Ear<'w> {
    pub(crate) fn new(watch: Watching<'w>) -> Self {
        Ear { watch }
    }
}

impl Listener for Ear<'_> {
    fn is_listening(&self) -> bool {
        self.watch.is_some()
    }

    fn script_begins(&mut self) {
        if let Some(watch) = self.watch
            && let Ok(mut watch) = watch.try_borrow_mut()
        {
            watch.begin();
        }
    }

    fn line_was_run<L: LinkStore, A: Adapter>(
        &mut self,
        repository: &Repository<L, A>,
        line: &[u8],
        printed: &[u8],
    ) {
        if let Some(watch) = self.watch
            && let Ok(mut watch) = watch.try_borrow_mut()
        {
            watch.line_was_run(repository, line, printed);
        }
    }
}

/// A stream for answers. After each flush that succeeds, it writes the new comments of the watch to standard error.
#[derive(Drop)]
pub(crate) struct Watched<'w, S> {
    rt: &'w HostRuntime,
    stream: S,
    watch: Watching<'w>,
}

impl<'w, S> Watched<'w, S> {
    pub(crate) fn new(rt: &'w HostRuntime, stream: S, watch: Watching<'w>) -> Self {
        Watched { rt, stream, watch }
    }
}

/// Takes the new comments of a watch, and writes them to standard error.
fn say(rt: &HostRuntime, watch: &RefCell<Commentary>) {
    if let Ok(mut watch) = watch.try_borrow_mut() {
        let text = watch.take();
        let _ = eprint!(rt; "{text}");
    }
}

impl<W: Write> Write for Watched<'_, W> {
    fn write(&mut self, buf: &[u8]) -> io::Result<usize> {
        self.stream.write(buf)
    }

    fn flush(&mut self) -> io::Result<()> {
        self.stream.flush()?;
        if let Some(watch) = self.watch {
            say(self.rt, watch);
        }
        Ok(())
    }
}

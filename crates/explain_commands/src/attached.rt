//! Adapters that are not attached, are attached already, or are full.
use crate::scene::{Scene, Written};
use adapters::Adapter;
use links::LinkStore;
use mm_types::AdapterNo;
use script_lines::Form;

/// The adapter that a line names.
fn adapter_in(form: &Form<'_>) -> Option<AdapterNo> {
    match form {
        Form::Attach { no, .. } | Form::Watch { no, .. } => Some(*no),
        Form::Unwatch(no, _) | Form::Detach(no) | Form::Seen(no) => Some(*no),
        _ => None,
    }
}

impl<L: LinkStore, A: Adapter> Scene<'_, L, A> {
    /// Explains that the script has no adapter of the number that a line names, or that this adapter is not attached.
    pub(crate) fn explain_no_adapter(&self, out: &mut String, form: &Form<'_>) -> Written {
        let prefix = self.prefix;
        let Some(AdapterNo(number)) = adapter_in(form) else {
            return Ok(());
        };
        let last = self.adapters;
        if number == 0 || number > last {
            return writeln!(
                out,
                "{prefix}: there is no adapter A{number}: the adapters are A1 to A{last}"
            );
        }
        writeln!(
            out,
            "{prefix}: A{number} is attached to no node; attach it first"
        )
    }

    /// Explains that the adapter that a line names is attached already.
    pub(crate) fn explain_taken(&self, out: &mut String, form: &Form<'_>) -> Written {
        let prefix = self.prefix;
        match adapter_in(form) {
            Some(AdapterNo(number)) => writeln!(
                out,
                "{prefix}: A{number} is attached already; watch gives it one target more, and detach takes all of them"
            ),
            None => Ok(()),
        }
    }

    /// The number of the attached adapter with the highest count of notifications, and this count. If several adapters have this count, the
    /// highest of their numbers. `None` if no adapter is attached.
    fn fullest(&self) -> Option<(u32, u64)> {
        let mut found = None;
        let mut most = 0;
        for number in 1..=self.adapters {
            if let Ok(told) = self.repository.adapter_told(AdapterNo(number))
                && told >= most
            {
                found = Some((number, told));
                most = told;
            }
        }
        found
    }

    /// Explains that an adapter can't count the notifications that it would get, and then a last one from each of its targets. If the line
    /// names no adapter, the explanation names the attached adapter with the highest count of notifications.
    pub(crate) fn explain_full(&self, out: &mut String, form: &Form<'_>) -> Written {
        let prefix = self.prefix;
        if let Some(AdapterNo(number)) = adapter_in(form) {
            return writeln!(
                out,
                "{prefix}: A{number} can't count one last notice from each of its targets; attach another adapter"
            );
        }
        match self.fullest() {
            Some((number, told)) => writeln!(
                out,
                "{prefix}: A{number} was told {told} notices, and can't count as many more; detach it"
            ),
            None => Ok(()),
        }
    }
}

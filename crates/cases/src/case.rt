//! A case as it is written.
use crate::expand::push_line;
use crate::fault::Fault;
use std::alloc::Global;

/// A case: a metamodel, a script over it, and what the two must give. A case without a script is about the metamodel alone.
#[derive(Drop)]
pub struct Case<'a> {
    /// The name of the case, which says what the case shows.
    pub name: &'a str,
    /// The name of the metamodel's file, without `.json`. If there is no name, `document` is the metamodel.
    pub metamodel: Option<&'a str>,
    /// The metamodel, if the case itself has its text; otherwise empty.
    pub document: Vec<u8>,
    /// The script, each line with its newline; empty if the case has none.
    script: Vec<u8>,
    /// What the script must print; if there is no script, what the metamodel must give.
    pub expected: Vec<u8>,
}

impl<'a> Case<'a> {
    /// Reads a case: a line with its name, and then the lines up to the first empty line, or to the end of the text.
    ///
    /// `metamodel NAME` names the file of the metamodel, and `document TEXT` is a line of the metamodel. `> TEXT` is a line of the script,
    /// and `>` is an empty line of the script. Any other line is one that the case must give.
    pub(crate) fn parse(alloc: Global, text: &'a str) -> Result<Case<'a>, Fault> {
        let mut lines = text.lines();
        let mut case = Case {
            name: lines.next().unwrap_or(""),
            metamodel: None,
            document: Vec::new(alloc),
            script: Vec::new(alloc),
            expected: Vec::new(alloc),
        };
        for line in lines.take_while(|line| !line.is_empty()) {
            case.push(line)?;
        }
        Ok(case)
    }

    /// The script; empty if the case has none.
    pub(crate) fn script(&self) -> &[u8] {
        self.script.as_slice()
    }

    /// The script without its last newline.
    pub(crate) fn unended_script(&self) -> &[u8] {
        let script = self.script();
        script.strip_suffix(b"\n".as_slice()).unwrap_or(script)
    }

    /// Adds a line to the part of the case to which the line belongs. The beginning of the line says which part that is.
    fn push(&mut self, line: &'a str) -> Result<(), Fault> {
        if let Some(name) = line.strip_prefix("metamodel ") {
            self.metamodel = Some(name);
            Ok(())
        } else if let Some(text) = line.strip_prefix("document ") {
            push_line(&mut self.document, text)
        } else if let Some(text) = line.strip_prefix("> ") {
            push_line(&mut self.script, text)
        } else if line == ">" {
            push_line(&mut self.script, "")
        } else {
            push_line(&mut self.expected, line)
        }
    }
}
